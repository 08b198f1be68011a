//! The first cover of least cost: its form, then the order of its operands, then their covers, and
//! those of its cuts.

ghost use Rattle.std.specs.Prelude.{◌≡◌, ℕ, ◌+◌, ◌-◌, ◌<◌, ◌≤◌, ◌≢◌, Some, IfOk, OnOk, IfSome, IfNone, length, remove, slice_get};
ghost use Rattle.std.specs.Bool.{OnTrue};
ghost use Rattle.form_model.specs.CoverModels.{operand_then, cut_then, model_of_cover, model_of_cover_operands, model_of_cover_cuts};
ghost use Rattle.least_costs.specs.Subgoals.{rest};
ghost use Rattle.least_costs.specs.Least.{AtMost, IsHeld, IsLeast, IsLeastOrder, IsLeastCut, summed};
ghost use Rattle.form_model.specs.Trees.{model_of_tree};
ghost use Rattle.least_costs.specs.Slots.{IsSlot};
ghost use Rattle.least_costs.specs.Rows.{row_subgoal};
ghost use Rattle.least_costs.specs.Matched.{AreMatches};
ghost use Rattle.cover.specs.Inner.Choice.{matches_subgoal, BeginsAt, CostsOf, CostsWithin, Starts, StartsCut, IsFirst, IsFirstOrder, IsFirstFrom, IsFirstCuts, AreFirstParts};
ghost use Rattle.least_costs.specs.Searches.{search_stock, search_nodes, open_operands, open_cuts, OperandsAt, CutsAt, AreParts};
ghost use Rattle.least_costs.specs.Tables.{AreRight};

use form_model::{Cover, CoverCuts, CoverOperands};
use least_costs::{
    CostTable, Limits, Matches, OpenCut, OpenOperand, Search, Slot, after_home, form_cost,
    keeps_to, slot_of, without,
};
use rec_bits::NoMemory;
use std::alloc::Global;
use tree_grammar::Subtree;

// The least costs of a match's operands and of its cuts.
#[derive(Clone, Copy)]
pub struct PartCosts {
    pub operands: u64,
    pub cuts: u64,
}

// A form that begins a cover, with what its match leaves open and the least costs of that.
#[derive(Clone, Copy)]
pub struct Beginning<'s, 'a> {
    pub form: usize,
    pub operands: &'s [OpenOperand<'a>],
    pub cuts: &'s [OpenCut<'a>],
    pub costs: PartCosts,
}

// Which of a tree's covers is chosen: the entry of the tree's row that it is for, what it keeps to,
// and its cost, which is the least.
#[derive(Clone, Copy)]
pub struct Target {
    pub entry: Slot,
    pub limits: Limits,
    pub cost: u64,
}

// The operand that begins an order: its place among those that are left, and its least cost.
#[derive(Clone, Copy)]
pub struct FirstOperand {
    pub place: usize,
    pub cost: u64,
}

// The first number, if both are there and their sum is `n`.
fn if_sum(n: u64, a: Option<u64>, b: Option<u64>) -> Option<u64>
    ensures yes { IfSome result (λ m. (a ≡ Some m) × (m ≤ n) × (b ≡ Some (n - m))) }
    ensures no { IfNone result ((j k : ℕ) → a ≡ Some j → b ≡ Some k → j + k ≢ n) }
{
    let (Some(j), Some(k)) = (a, b) else {
        return None;
    };
    if j <= n && k == n - j { Some(j) } else { None }
}

// The cost of the operand at `i`, if it begins an order of the least cost `n`.
fn starts<'a>(
    search: &Search<'a>,
    table: &mut CostTable<'a>,
    ops: &[OpenOperand<'a>],
    limits: Limits,
    n: u64,
    i: usize,
) -> Result<Option<u64>, NoMemory>
    requires place { i < length ops.now }
    requires least { IsLeastOrder (search_stock search.now) limits (open_operands ops.now) (Some n) }
    requires at { OperandsAt (search_nodes search.now) ops.now }
    requires right { AreRight search.now table.old }
    ensures starts { IfOk result (λ o. Starts (search_stock search.now) limits (open_operands ops.now) n i o) }
    ensures right { OnOk result (AreRight search.now table.new) }
{
    let m = search.operand_cost(table, ops[i], limits)?;
    let others = search.orders_after(table, ops, limits, i)?;
    Ok(if_sum(n, m, others))
}

// The cost of the first cut, which is a part of the least cost `n` of the cuts.
fn first_cut<'a>(
    search: &Search<'a>,
    table: &mut CostTable<'a>,
    cuts: &[OpenCut<'a>],
    n: u64,
) -> Result<u64, NoMemory>
    requires some { 0 < length cuts.now }
    requires least { IsLeastCut (search_stock search.now) (open_cuts cuts.now) (Some n) }
    requires at { CutsAt (search_nodes search.now) cuts.now }
    requires right { AreRight search.now table.old }
    ensures starts { IfOk result (λ m. StartsCut (search_stock search.now) (open_cuts cuts.now) n m) }
    ensures right { OnOk result (AreRight search.now table.new) }
{
    let free = Limits {
        avoid: 0,
        allowed: search.file,
    };
    let cut = cuts[0];
    let subtree = Subtree {
        tree: cut.tree,
        whole: false,
        at: cut.at,
    };
    let Some(m) = search.least(table, subtree, Slot::Temporary, free)? else {
        unreachable!()
    };
    Ok(m)
}

// The costs of a match's operands and of its cuts, where the form makes `n` with them.
fn costs_of(n: u64, operands: Option<u64>, cuts: Option<u64>) -> Option<PartCosts>
    requires { IsHeld (summed (summed (Some 1) operands) cuts) }
    ensures { CostsOf n operands cuts result }
{
    let (Some(operands), Some(cuts)) = (operands, cuts) else {
        return None;
    };
    if 1 + operands + cuts != n {
        return None;
    }
    Some(PartCosts { operands, cuts })
}

// Whether what costs so much or more can't cost `n`.
fn is_above(floor: Option<u64>, n: u64) -> bool
    ensures { OnTrue result (AtMost floor n → ⊥) }
{
    match floor {
        Some(m) => n < m,
        None => true,
    }
}

// The least costs of the parts of the match at `i`, if it begins a cover that is the target.
fn begins_at<'a>(
    search: &Search<'a>,
    table: &mut CostTable<'a>,
    matches: &Matches<'a>,
    target: Target,
    i: usize,
) -> Result<Option<PartCosts>, NoMemory>
    requires place { i < length matches.now.list.items }
    requires slot { IsSlot matches.now.whole target.entry }
    requires least { IsLeast (search_stock search.now) target.limits (matches_subgoal matches.now target.entry)
        (Some target.cost) }
    requires matches { AreMatches search.now matches.now }
    requires right { AreRight search.now table.old }
    ensures begins { IfOk result (λ o.
        BeginsAt (search_stock search.now) target.limits matches.now target.entry target.cost i o) }
    ensures right { OnOk result (AreRight search.now table.new) }
{
    let found = &matches.list[i];
    if found.goal != target.entry {
        return Ok(None);
    }
    if !keeps_to(target.limits, found.clobbers, found.cells) {
        return Ok(None);
    }
    costs_within(
        search,
        table,
        &found.operands,
        &found.cuts,
        target.limits,
        target.cost,
    )
}

// The least costs of a match's operands and of its cuts, where its form makes `n` with them.
fn costs_within<'a>(
    search: &Search<'a>,
    table: &mut CostTable<'a>,
    operands: &[OpenOperand<'a>],
    cuts: &[OpenCut<'a>],
    limits: Limits,
    n: u64,
) -> Result<Option<PartCosts>, NoMemory>
    requires at { OperandsAt (search_nodes search.now) operands.now }
    requires cuts_at { CutsAt (search_nodes search.now) cuts.now }
    requires few { AreParts (search_nodes search.now) (open_operands operands.now) (open_cuts cuts.now) }
    requires right { AreRight search.now table.old }
    ensures costs { IfOk result (λ o.
        CostsWithin (search_stock search.now) limits (open_operands operands.now) (open_cuts cuts.now) n o) }
    ensures right { OnOk result (AreRight search.now table.new) }
{
    let b = search.cuts_cost(table, cuts)?;
    let floor = search.floor_of(table, operands, limits)?;
    if is_above(form_cost(floor, b), n) {
        return Ok(None);
    }
    let a = search.orders(table, operands, limits, floor)?;
    Ok(costs_of(n, a, b))
}

// The first cover of a tree that is the target.
#[cycle(choosing)]
fn choose_entry<'a>(
    search: &Search<'a>,
    table: &mut CostTable<'a>,
    subtree: Subtree<'a>,
    target: Target,
) -> Result<Cover, NoMemory>
    requires slot { IsSlot subtree.whole target.entry }
    requires least { IsLeast (search_stock search.now) target.limits
        (row_subgoal (model_of_tree subtree.tree.now) subtree.whole target.entry) (Some target.cost) }
    requires number { slice_get (search_nodes search.now) subtree.at ≡ Some (model_of_tree subtree.tree.now) }
    requires right { AreRight search.now table.old }
    ensures first { IfOk result (λ c. IsFirst (search_stock search.now) target.limits
        (row_subgoal (model_of_tree subtree.entry.tree.now) subtree.entry.whole target.entry) (model_of_cover c)) }
    ensures right { OnOk result (AreRight search.now table.new) }
{
    let matches = search.matches_at(table, subtree)?;
    choose_among(search, table, &matches, target)
}

// The same among the covers that begin with one of the matches of the tree.
#[cycle(choosing)]
fn choose_among<'a>(
    search: &Search<'a>,
    table: &mut CostTable<'a>,
    matches: &Matches<'a>,
    target: Target,
) -> Result<Cover, NoMemory>
    requires slot { IsSlot matches.now.whole target.entry }
    requires least { IsLeast (search_stock search.now) target.limits (matches_subgoal matches.now target.entry)
        (Some target.cost) }
    requires matches { AreMatches search.now matches.now }
    requires right { AreRight search.now table.old }
    ensures first { IfOk result (λ c.
        IsFirst (search_stock search.now) target.limits (matches_subgoal matches.now target.entry) (model_of_cover c)) }
    ensures right { OnOk result (AreRight search.now table.new) }
{
    for i in 0..matches.list.len() {
        if let Some(costs) = begins_at(search, table, matches, target, i)? {
            let found = &matches.list[i];
            let start = Beginning {
                form: found.form,
                operands: &found.operands,
                cuts: &found.cuts,
                costs,
            };
            return choose_parts(search, table, start, target.limits);
        }
    }
    unreachable!()
}

// The cover that begins so and goes on with the first covers of these least costs of the parts of
// its match.
#[cycle(choosing)]
pub(crate) fn choose_parts<'a>(
    search: &Search<'a>,
    table: &mut CostTable<'a>,
    start: Beginning<'_, 'a>,
    limits: Limits,
) -> Result<Cover, NoMemory>
    requires order { IsLeastOrder (search_stock search.now) limits (open_operands start.operands.now)
        (Some start.costs.operands) }
    requires cut { IsLeastCut (search_stock search.now) (open_cuts start.cuts.now) (Some start.costs.cuts) }
    requires at { OperandsAt (search_nodes search.now) start.operands.now }
    requires cuts_at { CutsAt (search_nodes search.now) start.cuts.now }
    requires right { AreRight search.now table.old }
    ensures first { IfOk result (λ c. AreFirstParts (search_stock search.now) limits
        (open_operands start.entry.operands.now) (open_cuts start.entry.cuts.now) start.entry.form c) }
    ensures right { OnOk result (AreRight search.now table.new) }
{
    let operands = choose_order(search, table, start.operands, limits, start.costs.operands)?;
    let cuts = choose_cuts(search, table, start.cuts, start.costs.cuts)?;
    Ok(Cover {
        form: start.form,
        operands,
        cuts,
    })
}

// The covers of operands in their order, from that of the first, which stands at a place among
// those that are left.
fn operand_first(
    alloc: Global,
    place: usize,
    first: Cover,
    rest: CoverOperands,
) -> Result<CoverOperands, NoMemory>
    ensures { IfOk result (λ all. model_of_cover_operands all ≡ operand_then place (model_of_cover first) (model_of_cover_operands rest)) }
{
    Ok(CoverOperands::Then {
        place,
        cover: Box::new(alloc, first)?,
        rest: Box::new(alloc, rest)?,
    })
}

// The covers of cuts from left to right, from that of the first.
fn cut_first(alloc: Global, first: Cover, rest: CoverCuts) -> Result<CoverCuts, NoMemory>
    ensures { IfOk result (λ all. model_of_cover_cuts all ≡ cut_then (model_of_cover first) (model_of_cover_cuts rest)) }
{
    Ok(CoverCuts::Then {
        cover: Box::new(alloc, first)?,
        rest: Box::new(alloc, rest)?,
    })
}

// The first order of the least cost `n`, with its covers.
#[cycle(choosing)]
fn choose_order<'a>(
    search: &Search<'a>,
    table: &mut CostTable<'a>,
    ops: &[OpenOperand<'a>],
    limits: Limits,
    n: u64,
) -> Result<CoverOperands, NoMemory>
    requires least { IsLeastOrder (search_stock search.now) limits (open_operands ops.now) (Some n) }
    requires at { OperandsAt (search_nodes search.now) ops.now }
    requires right { AreRight search.now table.old }
    ensures first { IfOk result (λ c.
        IsFirstOrder (search_stock search.now) limits (open_operands ops.now) (model_of_cover_operands c)) }
    ensures right { OnOk result (AreRight search.now table.new) }
{
    if ops.is_empty() {
        return Ok(CoverOperands::Empty);
    }
    for i in 0..ops.len() {
        if let Some(m) = starts(search, table, ops, limits, n, i)? {
            let start = FirstOperand { place: i, cost: m };
            return order_from(search, table, ops, limits, n, start);
        }
    }
    unreachable!()
}

// The first order of the least cost `n` that begins with this operand.
#[cycle(choosing)]
fn order_from<'a>(
    search: &Search<'a>,
    table: &mut CostTable<'a>,
    ops: &[OpenOperand<'a>],
    limits: Limits,
    n: u64,
    start: FirstOperand,
) -> Result<CoverOperands, NoMemory>
    requires place { start.place < length ops.now }
    requires starts { Starts (search_stock search.now) limits (open_operands ops.now) n start.place (Some start.cost) }
    requires at { OperandsAt (search_nodes search.now) ops.now }
    requires right { AreRight search.now table.old }
    ensures first { IfOk result (λ c.
        IsFirstFrom (search_stock search.now) limits (open_operands ops.now) start.place (model_of_cover_operands c)) }
    ensures right { OnOk result (AreRight search.now table.new) }
{
    let FirstOperand { place: i, cost: m } = start;
    let first = ops[i];
    let subtree = Subtree {
        tree: first.tree,
        whole: first.whole,
        at: first.at,
    };
    let target = Target {
        entry: slot_of(first.home),
        limits,
        cost: m,
    };
    let later = after_home(limits, first.home);
    let here = choose_entry(search, table, subtree, target)?;
    let others = order_without(search, table, ops, later, n - m, i)?;
    operand_first(search.alloc, i, here, others)
}

// The first order of the least cost `n` of the operands but the one at `i`.
#[cycle(choosing)]
fn order_without<'a>(
    search: &Search<'a>,
    table: &mut CostTable<'a>,
    ops: &[OpenOperand<'a>],
    limits: Limits,
    n: u64,
    i: usize,
) -> Result<CoverOperands, NoMemory>
    requires place { i < length ops.now }
    requires least { IsLeastOrder (search_stock search.now) limits (remove (open_operands ops.now) i) (Some n) }
    requires at { OperandsAt (search_nodes search.now) ops.now }
    requires right { AreRight search.now table.old }
    ensures first { IfOk result (λ c.
        IsFirstOrder (search_stock search.now) limits (remove (open_operands ops.now) i) (model_of_cover_operands c)) }
    ensures right { OnOk result (AreRight search.now table.new) }
{
    let rest = without(search.alloc, ops, i)?;
    choose_order(search, table, &rest, limits, n)
}

// The first covers of the least cost `n` of the cuts.
#[cycle(choosing)]
fn choose_cuts<'a>(
    search: &Search<'a>,
    table: &mut CostTable<'a>,
    cuts: &[OpenCut<'a>],
    n: u64,
) -> Result<CoverCuts, NoMemory>
    requires least { IsLeastCut (search_stock search.now) (open_cuts cuts.now) (Some n) }
    requires at { CutsAt (search_nodes search.now) cuts.now }
    requires right { AreRight search.now table.old }
    ensures first { IfOk result (λ c. IsFirstCuts (search_stock search.now) (open_cuts cuts.now) (model_of_cover_cuts c)) }
    ensures right { OnOk result (AreRight search.now table.new) }
{
    if cuts.is_empty() {
        return Ok(CoverCuts::Empty);
    }
    let m = first_cut(search, table, cuts, n)?;
    let target = Target {
        entry: Slot::Temporary,
        limits: Limits {
            avoid: 0,
            allowed: search.file,
        },
        cost: m,
    };
    let cut = cuts[0];
    let subtree = Subtree {
        tree: cut.tree,
        whole: false,
        at: cut.at,
    };
    let here = choose_entry(search, table, subtree, target)?;
    let later = choose_cuts(search, table, &cuts[1..], n - m)?;
    cut_first(search.alloc, here, later)
}

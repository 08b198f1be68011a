//! A job in another spelling.

ghost use Rattle.std.specs.Prelude.{◌≡◌, ◌+◌, ◌↔◌, ◌∷◌, [], Some, IfOk, IfSome, IsTrue, length, slice_get};
ghost use Rattle.rec_bits.specs.Operators.{IsWidth};
ghost use Rattle.form_model.specs.Forms.{aim_destination};
ghost use Rattle.form_model.specs.Trees.{model_of_tree};
ghost use Rattle.cover.specs.Jobs.{trees_of};
ghost use Rattle.mode_set.specs.Plans.{UsableAt, stock_at};
ghost use Rattle.src_trees.specs.Jobs.{model_of_job};
ghost use Rattle.src_trees.specs.Measures.{IsSmall};
ghost use Rattle.tree_laws.specs.Classes.{cell_bits};
ghost use Rattle.tree_laws.specs.Equal.{AreEqual};
ghost use Rattle.respell.specs.Kept.{IsAnswer, IsPrice};
ghost use Rattle.respell.specs.Respelled.{IsRespelled, IsSameDestination, IsSpelled, ReadsNoMore};
ghost use Rattle.respell.specs.Inner.Choosing.{IsBest, IsCheaper, IsFound, IsLess, IsNoMore};

use crate::costs::{Costs, Listed, Root};
use crate::needs::{Limits, check_small};
use crate::picks::Picks;
use crate::reads::reads_no_more;
use crate::search::round;
use crate::survey::Survey;
use cover::CoverFault;
use form_model::{Aim, Form, Forms, Job, Tree};
use law_rounds::{Graph, Index, Rounds};
use mode_set::plan_job;
use rec_bits::{NoMemory, Op1};
use std::alloc::Global;
use sym_expr::Node;
use tree_laws::{Classes, NoTree};

/// How a job is spelled.
#[derive(Drop)]
pub enum Respelled {
    /// As it is.
    Kept,
    /// By this job; a test whose targets have to be exchanged is turned.
    Changed { job: Job, turned: bool },
}

// A job in another spelling.
#[derive(Drop)]
struct Spelled {
    job: Job,
    turned: bool,
}

// A tree in place of a job's first, and whether it is the opposite of a test.
#[derive(Drop)]
struct OtherTree {
    tree: Tree,
    turned: bool,
}

// A job as it is, with its first tree, and what it costs where it has a plan.
#[derive(Clone, Copy)]
struct OwnSpelling<'a> {
    job: &'a Job,
    tree: &'a Tree,
    cost: Option<u64>,
}

// What a job costs by the forms of a mode: the costs over classes, and the form at its root.
#[derive(Drop)]
struct ModeCosts<'a> {
    forms: &'a [Form],
    costs: Costs,
    root: Root,
}

// What a job costs after a round, over the classes of a table, by the forms of each mode that have
// it; and whether the round changed the table.
#[derive(Drop)]
struct Outlook<'a> {
    changed: bool,
    index: Index,
    modes: Vec<ModeCosts<'a>>,
}

impl<'a> Outlook<'a> {
    // The least cost, as far as is known.
    fn cost(&self) -> Option<u64> {
        self.modes.iter().map(|mode| mode.root.cost).min()
    }
}

// The best spelling that is known, and what is to be undercut: its cost, or that of the job's own.
#[derive(Drop)]
struct Best {
    cost: Option<u64>,
    spelled: Option<Spelled>,
}

/// How many rounds there are at most.
const ROUNDS: usize = 5;

/// What jobs are spelled for.
#[derive(Drop)]
pub struct Speller<'a> {
    /// The forms of each mode.
    pub forms: &'a [Forms],
    /// The modes that can be used.
    pub usable: &'a [bool],
    /// What there is for a job's trees.
    pub limits: Limits,
    survey: Survey<'a>,
}

impl<'a> Speller<'a> {
    ghost use Rattle.std.specs.Prelude.{◌≡◌, IfOk};

    /// With a survey of these forms. The only error is want of memory.
    pub fn new(
        alloc: Global,
        forms: &'a [Forms],
        usable: &'a [bool],
        limits: Limits,
    ) -> Result<Speller<'a>, NoMemory>
        ensures forms { IfOk result (λ speller. speller.forms.now ≡ forms.now) }
        ensures usable { IfOk result (λ speller. speller.usable.now ≡ usable.now) }
        ensures limits { IfOk result (λ speller. speller.limits ≡ limits) }
    {
        let survey = Survey::new(alloc, forms, usable)?;
        Ok(Speller {
            forms,
            usable,
            limits,
            survey,
        })
    }
}

impl<'a> Speller<'a> {
    /// The job by trees that are equal to its own, where it costs less in its mode than in its own
    /// spelling, or has no plan there: found by laws in rounds, up to a bound on classes, past which
    /// the search goes on with what it has. Least cost isn't promised. The only error is want of
    /// memory.
    pub fn respell(&self, alloc: Global, job: &Job) -> Result<Respelled, NoMemory>
        requires cell { IsWidth self.now.limits.cell }
        requires modes { length self.now.usable.now ≡ length self.now.forms.now }
        ensures { IfOk result (IsAnswer (stock_at self.now.forms.now self.now.limits.temps) (UsableAt self.now.usable.now)
            self.now.limits.cell self.now.limits.temps self.now.limits.nodes job.now) }
    {
        let own = self.price(alloc, job)?;
        if own == Some(1) {
            return Ok(Respelled::Kept);
        }
        match self.spell(alloc, job, own)? {
            Some(other) => Ok(Respelled::Changed {
                job: other.job,
                turned: other.turned,
            }),
            None => Ok(Respelled::Kept),
        }
    }

    // What a job costs in its mode, where it has a plan.
    fn price(&self, alloc: Global, job: &Job) -> Result<Option<u64>, NoMemory>
        requires modes { length self.now.usable.now ≡ length self.now.forms.now }
        ensures { IfOk result (IsPrice (stock_at self.now.forms.now self.now.limits.temps) (UsableAt self.now.usable.now)
            (model_of_job job.now)) }
    {
        match plan_job(alloc, self.forms, self.usable, job, self.limits.temps) {
            Ok(plan) => Ok(Some(plan.cost)),
            Err(CoverFault::NoCover) => Ok(None),
            Err(CoverFault::Memory) => Err(NoMemory),
        }
    }

    // The job by trees that cost less than its own.
    fn spell(&self, alloc: Global, job: &Job, own: Option<u64>) -> Result<Option<Spelled>, NoMemory>
        requires cell { IsWidth self.now.limits.cell }
        requires modes { length self.now.usable.now ≡ length self.now.forms.now }
        ensures { IfOk result (λ found. IfSome found (λ spelled.
            IsFound (stock_at self.now.forms.now self.now.limits.temps) (UsableAt self.now.usable.now)
            self.now.limits.cell self.now.limits.temps self.now.limits.nodes own spelled.turned (model_of_job job.now) (model_of_job spelled.job))) }
    {
        let Some(tree) = job.trees.get(0) else {
            return Ok(None);
        };
        let own = OwnSpelling {
            job,
            tree,
            cost: own,
        };
        let mut rounds = Rounds::new(alloc, self.limits.cell, self.survey.gate());
        match self.explore(alloc, &mut rounds, own)? {
            Some(outlook) => self.cheapest(alloc, &rounds.table, &outlook, own),
            None => Ok(None),
        }
    }

    // Lists a job and applies laws. What it costs then; None where it can't be listed.
    fn explore(
        &self,
        alloc: Global,
        rounds: &mut Rounds<'_>,
        own: OwnSpelling<'_>,
    ) -> Result<Option<Outlook<'a>>, NoMemory>
        ensures { cell_bits rounds.new.table ≡ cell_bits rounds.old.table }
    {
        match list_job(&mut rounds.table, own.job, own.tree)? {
            Some(listed) => Ok(Some(self.grow(alloc, rounds, listed)?)),
            None => Ok(None),
        }
    }

    // Applies laws in rounds, as long as that changes the table and what the job costs, and there is
    // room. What it costs in the end.
    fn grow(
        &self,
        alloc: Global,
        rounds: &mut Rounds<'_>,
        listed: Listed,
    ) -> Result<Outlook<'a>, NoMemory>
        ensures { cell_bits rounds.new.table ≡ cell_bits rounds.old.table }
    {
        let mut outlook = self.after_round(alloc, rounds, listed)?;
        for _ in 1..ROUNDS {
            if !outlook.changed || rounds.is_full() {
                return Ok(outlook);
            }
            let known = outlook.cost();
            outlook = self.after_round(alloc, rounds, listed)?;
            if known.is_some() && outlook.cost() == known {
                return Ok(outlook);
            }
        }
        Ok(outlook)
    }

    // Applies laws in a round. What the job costs then, as far as is known.
    fn after_round(
        &self,
        alloc: Global,
        rounds: &mut Rounds<'_>,
        listed: Listed,
    ) -> Result<Outlook<'a>, NoMemory>
        ensures { cell_bits rounds.new.table ≡ cell_bits rounds.old.table }
    {
        let changed = round(alloc, rounds, &self.survey)?;
        let index = rounds.index(alloc)?;
        let graph = Graph {
            table: &rounds.table,
            index: &index,
        };
        let modes = self.mode_costs(alloc, graph, listed)?;
        Ok(Outlook {
            changed,
            index,
            modes,
        })
    }

    // What a job costs by the forms of each mode that can be used, where they have it.
    fn mode_costs(
        &self,
        alloc: Global,
        graph: Graph<'_>,
        listed: Listed,
    ) -> Result<Vec<ModeCosts<'a>>, NoMemory> {
        let mut modes = Vec::new(alloc);
        for (forms, can) in self.forms.iter().zip(self.usable) {
            if *can {
                let forms = forms.list.as_slice();
                let costs = Costs::new(alloc, graph, forms)?;
                if let Some(root) = costs.root(graph, forms, listed) {
                    modes.push(ModeCosts { forms, costs, root })?;
                }
            }
        }
        Ok(modes)
    }

    // The spelling of least cost by the forms of a mode, where one costs less than the job's own.
    fn cheapest<'x>(
        &self,
        alloc: Global,
        table: &'x Classes,
        outlook: &'x Outlook<'x>,
        own: OwnSpelling<'_>,
    ) -> Result<Option<Spelled>, NoMemory>
        requires modes { length self.now.usable.now ≡ length self.now.forms.now }
        requires cell { cell_bits table.now ≡ self.now.limits.cell }
        requires first { slice_get (trees_of own.job.now.trees.items) 0 ≡ Some (model_of_tree own.tree.now) }
        ensures { IfOk result (λ found. IfSome found (λ spelled.
            IsFound (stock_at self.now.forms.now self.now.limits.temps) (UsableAt self.now.usable.now)
            self.now.limits.cell self.now.limits.temps self.now.limits.nodes own.entry.cost spelled.turned
            (model_of_job own.entry.job.now) (model_of_job spelled.job))) }
    {
        let mut best = Best {
            cost: own.cost,
            spelled: None,
        };
        for mode in &outlook.modes {
            let picks = Picks {
                graph: Graph {
                    table,
                    index: &outlook.index,
                },
                costs: &mode.costs,
                forms: mode.forms,
            };
            if let Some(other) = self.better(alloc, &picks, mode.root, own, best.cost)? {
                best = other;
            }
        }
        Ok(best.spelled)
    }

    // The spelling by the forms of a mode, where it costs less than what is known.
    fn better(
        &self,
        alloc: Global,
        picks: &Picks<'_>,
        root: Root,
        own: OwnSpelling<'_>,
        known: Option<u64>,
    ) -> Result<Option<Best>, NoMemory>
        requires modes { length self.now.usable.now ≡ length self.now.forms.now }
        requires cell { cell_bits picks.now.graph.table.now ≡ self.now.limits.cell }
        requires first { slice_get (trees_of own.job.now.trees.items) 0 ≡ Some (model_of_tree own.tree.now) }
        requires known { IsNoMore known own.cost }
        ensures { IfOk result (λ found. IfSome found (IsBest (stock_at self.now.forms.now self.now.limits.temps)
            (UsableAt self.now.usable.now) self.now.limits.cell self.now.limits.temps self.now.limits.nodes own.entry.cost
            (model_of_job own.entry.job.now))) }
    {
        let Some(other) = picked(alloc, picks, self.limits, root, own)? else {
            return Ok(None);
        };
        match self.cheaper(alloc, &other.job, known)? {
            Some(cost) => Ok(Some(Best {
                cost: Some(cost),
                spelled: Some(other),
            })),
            None => Ok(None),
        }
    }

    // What a job costs, where that is less than what is known.
    fn cheaper(
        &self,
        alloc: Global,
        other: &Job,
        than: Option<u64>,
    ) -> Result<Option<u64>, NoMemory>
        requires modes { length self.now.usable.now ≡ length self.now.forms.now }
        ensures { IfOk result (λ found. IfSome found (IsCheaper (stock_at self.now.forms.now self.now.limits.temps)
            (UsableAt self.now.usable.now) than (model_of_job other.now))) }
    {
        match self.price(alloc, other)? {
            Some(cost) if is_less(cost, than) => Ok(Some(cost)),
            _ => Ok(None),
        }
    }
}

// Whether a cost is less than another, or the first one.
fn is_less(cost: u64, than: Option<u64>) -> bool
    ensures { IsTrue result ↔ IsLess cost than }
{
    match than {
        Some(known) => cost < known,
        None => true,
    }
}

// Lists a job's first tree and its address, or the negation of a test.
fn list_job(table: &mut Classes, job: &Job, first: &Tree) -> Result<Option<Listed>, NoMemory>
    ensures { cell_bits table.new ≡ cell_bits table.old }
{
    let Some(value) = table.add_tree(first)? else {
        return Ok(None);
    };
    match &job.aim {
        Aim::Cell(address) => Ok(Some(Listed::Cell {
            value,
            address: *address,
        })),
        Aim::Store(tree) => {
            let address = table.add_tree(tree)?;
            Ok(address.map(|address| Listed::Store { value, address }))
        }
        Aim::Test => {
            let opposite = table.add(Node::Un(Op1::Not, value))?;
            Ok(opposite.map(|opposite| Listed::Test { value, opposite }))
        }
        Aim::Temp => Ok(None),
    }
}

// The job by the trees that are picked, where there are some.
fn picked(
    alloc: Global,
    picks: &Picks<'_>,
    limits: Limits,
    root: Root,
    own: OwnSpelling<'_>,
) -> Result<Option<Spelled>, NoMemory>
    requires { slice_get (trees_of own.job.now.trees.items) 0 ≡ Some (model_of_tree own.tree.now) }
    ensures respelled { IfOk result (λ found. IfSome found (λ spelled.
        IsRespelled (cell_bits picks.now.graph.table.now) spelled.turned (model_of_job own.entry.job.now) (model_of_job spelled.job))) }
    ensures small { IfOk result (λ found. IfSome found (λ spelled.
        IsSmall limits.cell limits.temps limits.nodes (model_of_job spelled.job))) }
{
    match spelled_job(alloc, picks, limits, root, own) {
        Ok(spelled) => Ok(Some(spelled)),
        Err(NoTree::Unlisted) => Ok(None),
        Err(NoTree::Memory) => Err(NoMemory),
    }
}

// The job by the trees whose nodes are picked for the form at its root.
fn spelled_job(
    alloc: Global,
    picks: &Picks<'_>,
    limits: Limits,
    root: Root,
    own: OwnSpelling<'_>,
) -> Result<Spelled, NoTree>
    requires { slice_get (trees_of own.job.now.trees.items) 0 ≡ Some (model_of_tree own.tree.now) }
    ensures respelled { IfOk result (λ spelled.
        IsRespelled (cell_bits picks.now.graph.table.now) spelled.turned (model_of_job own.entry.job.now) (model_of_job spelled.job)) }
    ensures small { IfOk result (λ spelled.
        IsSmall limits.cell limits.temps limits.nodes (model_of_job spelled.job)) }
{
    let aim = spelled_aim(alloc, picks, &own.job.aim, root)?;
    let other = spelled_tree(alloc, picks, root, own)?;
    check_small(&aim, &other.tree, limits)?;
    let turned = other.turned;
    let trees = one_tree(alloc, other.tree)?;
    Ok(Spelled {
        job: Job { aim, trees },
        turned,
    })
}

// The list of a tree alone.
fn one_tree(alloc: Global, tree: Tree) -> Result<Vec<Tree>, NoTree>
    ensures { IfOk result (λ trees. trees.items ≡ tree ∷ []) }
{
    let mut trees = Vec::new(alloc);
    trees.push(tree)?;
    Ok(trees)
}

// The tree that is equal to a job's first, or for a test the opposite that is asked for.
fn spelled_tree(
    alloc: Global,
    picks: &Picks<'_>,
    root: Root,
    own: OwnSpelling<'_>,
) -> Result<OtherTree, NoTree>
    ensures spelled { IfOk result (λ other. IsSpelled (cell_bits picks.now.graph.table.now) other.turned
        (aim_destination own.entry.job.now.aim) (model_of_tree own.entry.tree.now) (model_of_tree other.tree)) }
    ensures reads { IfOk result (λ other. ReadsNoMore (cell_bits picks.now.graph.table.now)
        (model_of_tree own.entry.tree.now) (model_of_tree other.tree)) }
{
    let table = picks.graph.table;
    let nodes = picks.value(alloc, root)?;
    let turned = matches!(own.job.aim, Aim::Test) && root.turned;
    let tree = if turned {
        table.opposite_tree(alloc, own.tree, &nodes)?
    } else {
        table.equal_tree(alloc, own.tree, &nodes)?
    };
    if !reads_no_more(table, own.tree, &tree) {
        return Err(NoTree::Unlisted);
    }
    Ok(OtherTree { tree, turned })
}

// The aim, where a store's address is an equal tree.
fn spelled_aim(alloc: Global, picks: &Picks<'_>, aim: &Aim, root: Root) -> Result<Aim, NoTree>
    ensures { IfOk result (λ other. IsSameDestination (cell_bits picks.now.graph.table.now)
        (aim_destination aim.now) (aim_destination other)) }
{
    match aim {
        Aim::Cell(address) => Ok(Aim::Cell(*address)),
        Aim::Store(tree) => Ok(Aim::Store(spelled_address(alloc, picks, tree, root)?)),
        Aim::Test => Ok(Aim::Test),
        Aim::Temp => Ok(Aim::Temp),
    }
}

// An address that is equal to a store's.
fn spelled_address(
    alloc: Global,
    picks: &Picks<'_>,
    address: &Tree,
    root: Root,
) -> Result<Tree, NoTree>
    ensures equal { IfOk result (λ other. AreEqual (cell_bits picks.now.graph.table.now)
        (model_of_tree address.now) (model_of_tree other)) }
    ensures reads { IfOk result (λ other. ReadsNoMore (cell_bits picks.now.graph.table.now)
        (model_of_tree address.now) (model_of_tree other)) }
{
    let nodes = picks.address(alloc, root)?;
    let table = picks.graph.table;
    let other = table.equal_tree(alloc, address, &nodes)?;
    if !reads_no_more(table, address, &other) {
        return Err(NoTree::Unlisted);
    }
    Ok(other)
}

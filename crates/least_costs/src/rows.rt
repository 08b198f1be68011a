//! Rows of least costs of one tree: an entry for each register, and behind them one for the file
//! and one for a temporary cell.

ghost use Rattle.std.specs.Prelude.{◌≡◌, ◌-◌, ◌^◌, ◌<◌, Some, OnOk, IfSome, vec_len, length, slice_set, if◌then◌else◌};
ghost use Rattle.std.specs.Bool.{OnTrue, OnFalse};
ghost use Rattle.form_model.specs.Registers.{IsLowGoal};
ghost use Rattle.form_model.specs.Forms.{model_of_goal};
ghost use Rattle.form_model.specs.CoverModels.{cost};
ghost use Rattle.tree_grammar.specs.Leaves.{model_of_destination};
ghost use Rattle.least_costs.specs.Least.{AtMost};
ghost use Rattle.least_costs.specs.Slots.{entry_destination, goal_slot, place, IsEntry, IsSlot};
ghost use Rattle.least_costs.specs.Rows.{entry, IsBelow, IsRoomy, AreWithin, IsWithin, offer_is, Noted, Chained, Swept, IsClosed, Entered};

use crate::costs::is_less;
use crate::slots::Slot;
use form_model::{Form, Goal};
use rec_bits::NoMemory;
use smallvec::SmallVec;
use tree_grammar::Destination;

/// A form whose match leaves the whole tree as its one part: from a cover for one entry of the
/// tree's row it makes a cover for another, which costs 1 more.
#[derive(Clone, Copy, Default)]
pub struct ChainRule {
    /// The entry that it starts from.
    pub start: Slot,
    /// The entry that it makes a cover for.
    pub goal: Slot,
}

/// What a form gives for a tree's row.
#[derive(Clone, Copy)]
pub enum Offer {
    Nothing,
    Chains(ChainRule),
    /// A cover for this entry, of this cost.
    Reaches(Slot, u64),
}

// Where the tree of an entry goes.
pub(crate) fn destination_of_entry(slot: Slot) -> Destination<'static>
    ensures { model_of_destination result ≡ entry_destination slot }
{
    match slot {
        Slot::Register(r) => Destination::Register(u32::from(r)),
        Slot::File => Destination::File,
        Slot::Temporary => Destination::Temp,
    }
}

// The entry of a row to which the form goes; a whole tree has none for a temporary cell.
pub(crate) fn goal_of(form: &Form, whole: bool) -> Option<Slot>
    requires { IsLowGoal (model_of_goal form.now.goal) }
    ensures is { result ≡ goal_slot (model_of_goal form.now.goal) whole }
    ensures slot { IfSome result (λ r. IsSlot whole r) }
{
    match &form.goal {
        Goal::Reg(id) => Some(Slot::Register(*id as u8)),
        Goal::File => Some(Slot::File),
        Goal::Memory => if whole { None } else { Some(Slot::Temporary) },
        _ => None,
    }
}

// The cost in an entry of a row.
pub(crate) fn known_cost(row: &[Option<u64>], slot: Slot) -> Option<u64>
    ensures { result ≡ entry row.now slot }
{
    match row.get(slot.index()) {
        Some(cost) => *cost,
        None => None,
    }
}

// Enters a cost where it is less than the one that is known, and says whether it is.
fn enter(row: &mut Vec<Option<u64>>, slot: Slot, n: u64) -> bool
    requires len { vec_len row.old ≡ 18 }
    requires within { IsEntry slot }
    ensures len { vec_len row.new ≡ 18 }
    ensures value { row.new.items ≡ (if result then slice_set row.old.items (place slot) (Some n) else row.old.items) }
    ensures changed { OnTrue result (IsBelow n (entry row.old.items slot)) }
    ensures kept { OnFalse result (AtMost (entry row.old.items slot) n) }
{
    let at = slot.index();
    if is_less(n, row[at]) {
        row[at] = Some(n);
        true
    } else {
        false
    }
}

// The same, where it doesn't matter whether the entry has become less.
fn enter_cost(row: &mut Vec<Option<u64>>, slot: Slot, n: u64)
    requires len { vec_len row.old ≡ 18 }
    requires within { IsEntry slot }
    ensures len { vec_len row.new ≡ 18 }
    ensures entered { Entered row.old.items row.new.items slot n }
{
    enter(row, slot, n);
}

// Lowers the entry to which a chain rule leads, where the one from which it starts allows it, and
// says whether it has.
fn try_chain(m: ChainRule, row: &mut Vec<Option<u64>>) -> bool
    requires len { vec_len row.old ≡ 18 }
    requires start { IsEntry m.start }
    requires goal { IsEntry m.goal }
    requires room { IsRoomy (2 ^ 64 - 2) row.old.items }
    ensures len { vec_len row.new ≡ 18 }
    ensures chained { Chained m result row.old.items row.new.items }
{
    let Some(c) = row[m.start.index()] else {
        return false;
    };
    let n = c + 1;
    enter(row, m.goal, n)
}

// Tries each chain rule once, and says whether an entry has become less.
fn sweep(chains: &[ChainRule], row: &mut Vec<Option<u64>>) -> bool
    requires len { vec_len row.old ≡ 18 }
    requires within { AreWithin chains.now }
    requires room { IsRoomy (2 ^ 64 - 2) row.old.items }
    ensures len { vec_len row.new ≡ 18 }
    ensures swept { Swept chains.now (length chains.now) result row.old.items row.new.items }
    ensures room { IsRoomy (2 ^ 64 - 2) row.new.items }
{
    let mut changed = false;
    for m in chains {
        if try_chain(*m, row) {
            changed = true;
        }
    }
    changed
}

// Tries the chain rules until none makes an entry less. No cost passes 64 bits: the first cost of
// an entry is 1 more than one that another had before, and there are 18 entries.
pub(crate) fn close(chains: &[ChainRule], row: &mut Vec<Option<u64>>)
    requires len { vec_len row.old ≡ 18 }
    requires within { AreWithin chains.now }
    requires room { IsRoomy (2 ^ 64 - 2) row.old.items }
    ensures len { vec_len row.new ≡ 18 }
    ensures closed { IsClosed chains.now row.old.items row.new.items }
{
    while sweep(chains, row) {}
}

// Adds what a form gives to the chain rules or to the row.
pub(crate) fn note(
    offer: Offer,
    chains: &mut SmallVec<ChainRule, 32>,
    row: &mut Vec<Option<u64>>,
) -> Result<(), NoMemory>
    requires len { vec_len row.old ≡ 18 }
    requires within { IsWithin offer }
    ensures len { vec_len row.new ≡ 18 }
    ensures noted { OnOk result (Noted offer chains.old.items chains.new.items row.old.items row.new.items) }
{
    match offer {
        Offer::Nothing => Ok(()),
        Offer::Chains(m) => {
            chains.push(m)?;
            Ok(())
        }
        Offer::Reaches(slot, n) => {
            enter_cost(row, slot, n);
            Ok(())
        }
    }
}

// What a form gives that goes to the entry and has covers of this least cost, if it has any.
pub(crate) fn offer_of(goal: Slot, cost: Option<u64>) -> Offer
    ensures { result ≡ offer_is goal cost }
{
    match cost {
        Some(n) => Offer::Reaches(goal, n),
        None => Offer::Nothing,
    }
}

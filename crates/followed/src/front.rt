//! The segments of an image, one after the other.

ghost use Rattle.std.specs.Prelude.{◌≡◌, ◌<◌, ◌^◌, ◌++◌, List, true, false, length, IfOk, IfSome, OnOk, Some, slice_get};
ghost use Rattle.rec_bits.specs.Operators.{IsWidth};
ghost use Rattle.code_model.specs.Places.{checkpoint_of};
ghost use Rattle.follow.specs.Paths.{checkpoint_at};
ghost use Rattle.follow.specs.Trails.{all_jobs};
ghost use Rattle.src_trees.specs.Jobs.{models_of_jobs};
ghost use Rattle.src_trees.specs.Lowered.{JobModel};
ghost use Rattle.sym_run.specs.Walks.{AreAllWithin};
ghost use Rattle.followed.specs.declared.passed.Turn.{Turn as TheTurn};
ghost use Rattle.followed.specs.Inner.Led.{AreMarksLed, AreTargets, HasNoTest, IsHintAt, IsLed, IsLedOff, IsMarkLed, IsTestIn};
ghost use Rattle.followed.specs.Turned.{IsKnown, tests_of};

use crate::fault::CheckFault;
use crate::passed::Turn;
use code_model::Mark;
use follow::trail_from;
use form_model::{Flow, Job};
use mark_start::{Hint, Start};
use net_model::Storage;
use rec_bits::Items;
use segment::{Segment, Way, Why};
use std::alloc::Global;
use sym_expr::Pool;
use sym_run::Coded;

// What all segments of an image have in common.
#[derive(Clone, Copy)]
pub(crate) struct Front<'a> {
    pub pool: &'a Pool,
    pub code: &'a [Coded],
    // The marked addresses.
    pub marks: &'a [u64],
    pub storages: &'a [Storage],
    pub counter: u64,
    pub memory: u64,
    pub file: u64,
    pub file_cells: u64,
    pub file_word: u8,
    pub counter_width: u8,
    pub word: u8,
    pub addr: u8,
    pub temps: u32,
    pub hints: &'a [Hint],
    pub flow: &'a [Flow],
    pub jobs: &'a [Job],
    // How many clocks the words may take behind a first one.
    pub clocks: u64,
}

// The label of a place of the flow.
fn label_of(flow: &[Flow], at: u32) -> Option<Option<u32>>
    ensures { IfSome result (λ label. checkpoint_at (slice_get flow.now at) ≡ Some (checkpoint_of label)) }
{
    match flow.get(at as usize) {
        Some(
            Flow::Test {
                tree,
                when_one: _one,
                when_zero: _zero,
            },
        ) => Some(Some(*tree)),
        Some(Flow::End) => Some(None),
        _ => None,
    }
}

// Whether a job of this number is there.
fn is_job(jobs: &[Job], number: u32) -> bool
    ensures { result ≡ true → number < length jobs.now }
{
    (number as usize) < jobs.len()
}

// Whether the jobs of these numbers are there.
fn are_jobs(jobs: &[Job], numbers: &[u32]) -> bool
    ensures { result ≡ true → (later : List JobModel) × (all_jobs (models_of_jobs jobs.now) numbers.now ≡ Some later) }
{
    let Some((number, rest)) = numbers.split_first() else {
        return true;
    };
    if !is_job(jobs, *number) {
        return false;
    }
    are_jobs(jobs, rest)
}

// The hint of an address.
fn hint_at(hints: &[Hint], address: u32) -> Option<&Hint>
    ensures { IfSome result (λ hint. IsHintAt hints.now address hint.now) }
{
    let (hint, rest) = hints.split_first()?;
    if hint.address == address {
        return Some(hint);
    }
    hint_at(rest, address)
}

// The places of a flow to which a test goes.
#[derive(Clone, Copy)]
struct Targets {
    when_one: u32,
    when_zero: u32,
}

// Where an item goes, if it is the test of a tree.
fn test_in(item: Flow, tree: u32) -> Option<Targets>
    ensures { IsTestIn item tree result }
{
    match item {
        Flow::Test {
            tree: test,
            when_one,
            when_zero,
        } => {
            if test == tree {
                Some(Targets {
                    when_one,
                    when_zero,
                })
            } else {
                None
            }
        }
        Flow::Assign(_tree) => None,
        Flow::Jump(_to) => None,
        Flow::End => None,
    }
}

// Whether a flow has no test of a tree.
fn has_no_test(flow: &[Flow], tree: u32) -> bool
    ensures { result ≡ true → HasNoTest flow.now tree }
{
    let Some((item, rest)) = flow.split_first() else {
        return true;
    };
    if test_in(*item, tree).is_some() {
        return false;
    }
    has_no_test(rest, tree)
}

// Where the test of a tree goes, if a flow has just one.
fn targets_of(flow: &[Flow], tree: u32) -> Option<Targets>
    ensures { IfSome result (λ to. AreTargets flow.now tree to.when_one to.when_zero) }
{
    let (item, rest) = flow.split_first()?;
    match test_in(*item, tree) {
        None => targets_of(rest, tree),
        Some(found) => {
            if has_no_test(rest, tree) {
                Some(found)
            } else {
                None
            }
        }
    }
}

// A way, if it is known.
fn known(way: Way) -> Result<Way, Why>
    ensures { IfOk result (λ same. (same ≡ way) × IsKnown same) }
{
    match way {
        Way::Unknown(why) => Err(why),
        Way::Takes { clocks, to } => Ok(Way::Takes { clocks, to }),
        Way::Never => Ok(Way::Never),
    }
}

impl Front<'_> {
    // The way from a hint, where the test of a tree has the answer, over the path from a place.
    fn way(
        &self,
        alloc: Global,
        from: &Hint,
        test: u32,
        answer: bool,
        at: u32,
    ) -> Result<Way, CheckFault>
        requires width { IsWidth self.now.word }
        requires code { AreAllWithin (length self.now.pool.now) self.now.code.now }
        requires few { length self.now.flow.now < 2 ^ 32 }
        ensures { IfOk result (IsLed self.now from.now test answer at) }
    {
        let Some(trail) = trail_from(alloc, self.flow, at)? else {
            return Ok(Way::Unknown(Why::Path));
        };
        let Some(label) = label_of(self.flow, trail.to) else {
            return Ok(Way::Unknown(Why::Path));
        };
        if !are_jobs(self.jobs, trail.trees.as_slice()) {
            return Ok(Way::Unknown(Why::Path));
        }
        let segment = Segment {
            start: Start {
                pool: self.pool,
                code: self.code,
                storages: self.storages,
                counter: self.counter,
                memory: self.memory,
                file: self.file,
                file_cells: self.file_cells,
                file_word: self.file_word,
                counter_width: self.counter_width,
                word: self.word,
                addr: self.addr,
                temps: self.temps,
                from,
                answer,
            },
            marks: self.marks,
            hints: self.hints,
            jobs: self.jobs,
            test,
            path: trail.trees.as_slice(),
            label,
            clocks: self.clocks,
        };
        Ok(segment.way(alloc)?)
    }

    // The way from the first word.
    fn way_off(&self, alloc: Global, from: &Hint) -> Result<Way, CheckFault>
        requires width { IsWidth self.now.word }
        requires code { AreAllWithin (length self.now.pool.now) self.now.code.now }
        requires few { length self.now.flow.now < 2 ^ 32 }
        ensures { IfOk result (IsLedOff self.now from.now) }
    {
        let Some(trail) = trail_from(alloc, self.flow, 0)? else {
            return Ok(Way::Unknown(Why::Path));
        };
        let Some(label) = label_of(self.flow, trail.to) else {
            return Ok(Way::Unknown(Why::Path));
        };
        if !are_jobs(self.jobs, trail.trees.as_slice()) {
            return Ok(Way::Unknown(Why::Path));
        }
        let segment = Segment {
            start: Start {
                pool: self.pool,
                code: self.code,
                storages: self.storages,
                counter: self.counter,
                memory: self.memory,
                file: self.file,
                file_cells: self.file_cells,
                file_word: self.file_word,
                counter_width: self.counter_width,
                word: self.word,
                addr: self.addr,
                temps: self.temps,
                from,
                answer: false,
            },
            marks: self.marks,
            hints: self.hints,
            jobs: self.jobs,
            test: 0,
            path: trail.trees.as_slice(),
            label,
            clocks: self.clocks,
        };
        Ok(segment.first_way(alloc)?)
    }

    // That way, which has to be known.
    pub(crate) fn first_way(&self, alloc: Global, from: &Hint) -> Result<Way, CheckFault>
        requires width { IsWidth self.now.word }
        requires code { AreAllWithin (length self.now.pool.now) self.now.code.now }
        requires few { length self.now.flow.now < 2 ^ 32 }
        ensures known { IfOk result IsKnown }
        ensures is { IfOk result (IsLedOff self.now from.now) }
    {
        match known(self.way_off(alloc, from)?) {
            Ok(way) => Ok(way),
            Err(why) => Err(CheckFault::First(why)),
        }
    }

    // The way from a hint, which has to be known.
    fn known_way(
        &self,
        alloc: Global,
        from: &Hint,
        test: u32,
        answer: bool,
        at: u32,
    ) -> Result<Way, CheckFault>
        requires width { IsWidth self.now.word }
        requires code { AreAllWithin (length self.now.pool.now) self.now.code.now }
        requires few { length self.now.flow.now < 2 ^ 32 }
        ensures known { IfOk result IsKnown }
        ensures is { IfOk result (IsLed self.now from.now test answer at) }
    {
        match known(self.way(alloc, from, test, answer, at)?) {
            Ok(way) => Ok(way),
            Err(why) => Err(CheckFault::Mark {
                address: from.address,
                answer,
                why,
            }),
        }
    }

    // The ways from the mark of a test.
    fn turn(&self, alloc: Global, address: u32, tree: u32) -> Result<Turn, CheckFault>
        requires width { IsWidth self.now.word }
        requires code { AreAllWithin (length self.now.pool.now) self.now.code.now }
        requires few { length self.now.flow.now < 2 ^ 32 }
        ensures { IfOk result (IsMarkLed self.now (record { address = address; tree = tree })) }
    {
        let Some(hint) = hint_at(self.hints, address) else {
            return Err(CheckFault::NoHint(address));
        };
        let Some(to) = targets_of(self.flow, tree) else {
            return Err(CheckFault::Marks);
        };
        let when_one = self.known_way(alloc, hint, tree, true, to.when_one)?;
        let when_zero = self.known_way(alloc, hint, tree, false, to.when_zero)?;
        Ok(Turn {
            address,
            when_one,
            when_zero,
        })
    }

    // Adds those from the marks of tests to others.
    fn add_turns(
        &self,
        alloc: Global,
        marks: &[Mark],
        turns: &mut Items<Turn>,
    ) -> Result<(), CheckFault>
        requires width { IsWidth self.now.word }
        requires code { AreAllWithin (length self.now.pool.now) self.now.code.now }
        requires few { length self.now.flow.now < 2 ^ 32 }
        ensures { OnOk result ((later : List TheTurn) × (turns.new ≡ turns.old ++ later) × AreMarksLed self.now (tests_of marks.now) later) }
    {
        let Some((mark, rest)) = marks.split_first() else {
            return Ok(());
        };
        let Some(tree) = mark.label else {
            return self.add_turns(alloc, rest, turns);
        };
        let turn = self.turn(alloc, mark.address, tree)?;
        turns.push(turn)?;
        self.add_turns(alloc, rest, turns)
    }

    // Those from the marks of tests.
    pub(crate) fn all_turns(&self, alloc: Global, marks: &[Mark]) -> Result<Items<Turn>, CheckFault>
        requires width { IsWidth self.now.word }
        requires code { AreAllWithin (length self.now.pool.now) self.now.code.now }
        requires few { length self.now.flow.now < 2 ^ 32 }
        ensures { IfOk result (AreMarksLed self.now (tests_of marks.now)) }
    {
        let mut turns = Items::new(alloc);
        self.add_turns(alloc, marks, &mut turns)?;
        Ok(turns)
    }
}

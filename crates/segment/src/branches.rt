//! What a branch asks, where it isn't seen to be a test of which the answer is known, or its negation.

ghost use Rattle.std.specs.Prelude.{◌≡◌, ◌<◌, true, OnOk};
ghost use Rattle.tree_laws.specs.Classes.{class_count};
ghost use Rattle.segment.specs.Runs.{IsToldOn};

use crate::rounds::Source;
use crate::run::Segment;
use class_values::{Fact, number_of};
use mark_start::Run;
use rec_bits::{NoMemory, Op1};
use std::alloc::Global;
use sym_expr::Node;
use tree_laws::Classes;

// Whether a class's trees have one bit.
fn is_test(table: &Classes, class: u64) -> bool
    ensures { result ≡ true → class < class_count table.now }
{
    match table.width(class) {
        Some(width) => width == 1,
        None => false,
    }
}

// Whether a class is a test without a known answer.
fn is_open(table: &Classes, facts: &[Fact], class: u64) -> bool
    ensures { result ≡ true → class < class_count table.now }
{
    is_test(table, class) && number_of(table, facts, class).is_none()
}

// A fact by its place, counted from the first.
fn fact_at(run: &Run, place: usize) -> Option<Fact> {
    let fact = run.facts.get(place)?;
    Some(*fact)
}

impl Segment<'_> {
    // Tells a run the number of a test, if by laws the test has the value of another one whose number
    // is known, and says whether it did.
    fn tell_like(
        &self,
        alloc: Global,
        table: &Classes,
        run: &mut Run,
        test: u64,
        other: u64,
    ) -> Result<bool, NoMemory>
        requires { test < class_count table.now }
        ensures { OnOk result (IsToldOn table.now table.now run.old run.new) }
    {
        let Some(number) = number_of(table, run.facts.as_slice(), other) else {
            return Ok(false);
        };
        let source = Source { table, facts: &[] };
        if !source.are_one(alloc, self.start.word, test, other)? {
            return Ok(false);
        }
        run.facts.push(Fact {
            class: test,
            number,
        })?;
        Ok(true)
    }

    // Tells it, if the test is another one by laws, or its negation.
    fn tell_by(
        &self,
        alloc: Global,
        table: &mut Classes,
        run: &mut Run,
        test: u64,
        other: u64,
    ) -> Result<bool, NoMemory>
        requires { test < class_count table.old }
        ensures { OnOk result (IsToldOn table.old table.new run.old run.new) }
    {
        if !is_test(table, other) {
            return Ok(false);
        }
        if self.tell_like(alloc, table, run, test, other)? {
            return Ok(true);
        }
        let Some(negation) = table.add(Node::Un(Op1::Not, other))? else {
            return Ok(false);
        };
        self.tell_like(alloc, table, run, test, negation)
    }

    // Tells it, if the test is by laws that of one of the first facts, or its negation.
    fn tell_test(
        &self,
        alloc: Global,
        table: &mut Classes,
        run: &mut Run,
        test: u64,
        count: usize,
    ) -> Result<bool, NoMemory>
        requires { test < class_count table.old }
        ensures { OnOk result (IsToldOn table.old table.new run.old run.new) }
    {
        let Some(place) = count.checked_sub(1) else {
            return Ok(false);
        };
        let Some(fact) = fact_at(run, place) else {
            return Ok(false);
        };
        if self.tell_by(alloc, table, run, test, fact.class)? {
            return Ok(true);
        }
        self.tell_test(alloc, table, run, test, place)
    }

    // Tells a run the number of one of the last tests before a class that have none, so many of them
    // at most, where laws give it by a fact's, and says whether it did.
    pub(crate) fn tell_tests(
        &self,
        alloc: Global,
        table: &mut Classes,
        run: &mut Run,
        before: u64,
        count: u8,
    ) -> Result<bool, NoMemory>
        ensures { OnOk result (IsToldOn table.old table.new run.old run.new) }
    {
        let Some(class) = before.checked_sub(1) else {
            return Ok(false);
        };
        if count == 0 {
            return Ok(false);
        }
        if !is_open(table, run.facts.as_slice(), class) {
            return self.tell_tests(alloc, table, run, class, count);
        }
        let facts = run.facts.len();
        if self.tell_test(alloc, table, run, class, facts)? {
            return Ok(true);
        }
        self.tell_tests(alloc, table, run, class, count - 1)
    }
}

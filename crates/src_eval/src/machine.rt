//! A program as steps, and a run through them.

ghost use Rattle.std.specs.Prelude.{◌≡◌, ◌∷◌, [], ℕ, suc, length};
ghost use Rattle.src_eval.specs.Steps.{ahead_of};
ghost use Rattle.src_eval.specs.Inner.Steps.{MachineFits, Passes, Ended, SameAhead, SameSteps};

use crate::formula::{Comparison, Formula, put};
use rec_bits::Items;
use src_model::{Checkpoint, Store, Typed};

/// An assignment or a test, with where the run goes on. Its place in the list of steps is the
/// number of its tree.
#[derive(Drop)]
pub enum Step {
    /// The value goes into a cell, so far behind the first.
    Assign {
        first: u64,
        index: Formula,
        value: Formula,
        next: usize,
    },
    Test {
        test: Comparison,
        on_true: usize,
        on_false: usize,
    },
}

/// A run of a program that has come to a step; past the last step is the end.
#[derive(Drop)]
pub struct Machine<'a> {
    pub typed: &'a Typed,
    pub steps: Items<Step>,
    pub at: usize,
    pub store: Store,
}

impl<'a> Machine<'a> {
    /// Runs to the next checkpoint. Where that is a test, it also decides the test.
    pub fn advance(&mut self) -> Checkpoint
        requires { MachineFits self.old }
        ensures kept { MachineFits self.new }
        ensures same { SameSteps self.old self.new }
        ensures passes { Passes self.old result self.new }
        ensures ended { result ≡ Checkpoint.End → Ended self.new }
    {
        loop {
            let Some(step) = self.steps.get(self.at) else {
                return Checkpoint::End;
            };
            match step {
                Step::Assign {
                    first,
                    index,
                    value,
                    next,
                } => {
                    let cells = self.store.cells.as_slice();
                    let offset = index.value(cells);
                    let value = value.value(cells);
                    put(&mut self.store.cells, *first, offset, value);
                    self.at = *next;
                }
                Step::Test {
                    test,
                    on_true,
                    on_false,
                } => {
                    let label = self.at as u32;
                    let cells = self.store.cells.as_slice();
                    self.at = test.choose(cells, *on_true, *on_false);
                    return Checkpoint::At(label);
                }
            }
        }
    }

    /// Runs to the end, and counts the checkpoints on the way, the end among them, up to `limit` of
    /// them.
    pub fn count(mut self, limit: u32) -> u32
        requires { MachineFits self }
        ensures { result ≡ length (ahead_of self.entry limit) }
    {
        for passed in 0..limit {
            match self.advance() {
                Checkpoint::End => return passed + 1,
                Checkpoint::At(_) => {}
            }
        }
        limit
    }
}

//! A run of a program, as its caller sees it.

ghost use Rattle.src_eval.specs.Inner.Steps.{MachineFits};
ghost use Rattle.src_eval.specs.Inner.Props.{kept_prop};

use crate::build::build_block;
use crate::machine::Machine;
use crate::table::{Scope, declare};
use rec_bits::{Items, NoMemory};
use src_model::{Checkpoint, Store, Typed};
use std::alloc::Global;

/// A run of a program, which stops at each checkpoint. Contracts see the checkpoints that are ahead
/// of it, and its store.
#[derive(Drop)]
pub struct Runner<'a> {
    machine: Machine<'a>,
    ghost kept: { MachineFits machine } by { kept_prop machine },
}

impl<'a> Runner<'a> {
    ghost use Rattle.std.specs.Prelude.{◌≡◌, ◌<◌, ◌^◌, ℕ, IfOk, length};
    ghost use Rattle.src_model.specs.Written.{model_of_program};
    ghost use Rattle.src_model.specs.Meaning.{FitsStore};
    ghost use Rattle.src_model.specs.Trace.{strace};
    ghost use Rattle.src_eval.specs.Runs.{HasEnded, Advances, ahead_in, runner_store};

    /// A run from this store that has not begun. The store has as many cells as the program's
    /// variables, and each holds a word.
    pub fn new(alloc: Global, typed: &'a Typed, store: Store) -> Result<Runner<'a>, NoMemory>
        requires { FitsStore typed.now.width typed.now.program.vars store.cells }
        ensures cells { IfOk result (λ run. runner_store run ≡ store) }
        ensures ahead { IfOk result (λ run.
            (m : ℕ) → ahead_in run m ≡ strace typed.now.width (model_of_program typed.now.program) store.cells m) }
    {
        let word = typed.width();
        let program = typed.program();
        let table = declare(alloc, program.vars.as_slice())?;
        let scope = Scope { word, table };
        let mut steps = Items::new(alloc);
        build_block(alloc, &scope, &mut steps, &program.body, usize::MAX)?;
        let machine = Machine {
            typed,
            steps,
            at: 0,
            store,
        };
        Ok(Runner { machine })
    }

    /// Runs to the next checkpoint, and answers it: a test that is about to be evaluated, with its
    /// tree's number, or the end. After the end it answers the end again.
    pub fn next(&mut self) -> Checkpoint
        ensures passes { Advances self.old result self.new }
        ensures ended { result ≡ Checkpoint.End → HasEnded self.new }
    {
        self.machine.advance()
    }

    /// Runs to the end, and tells how many checkpoints it passed, the end included. After `limit`
    /// checkpoints it stops, and answers that.
    pub fn count(self, limit: u32) -> u32
        ensures { result ≡ length (ahead_in self.entry limit) }
    {
        self.machine.count(limit)
    }

    /// What the variables hold now.
    pub fn store(&self) -> &Store
        ensures { result.now ≡ runner_store self.now }
    {
        &self.machine.store
    }
}

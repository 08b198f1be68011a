//! How many checkpoints a program passes from zeros.

ghost use Rattle.std.specs.Prelude.{◌≡◌, ◌++◌, IfOk, OnOk, length, replicate};
ghost use Rattle.src_model.specs.Trace.{strace};
ghost use Rattle.src_model.specs.Written.{model_of_program};
ghost use Rattle.src_model.specs.Meaning.{zeros};

use rec_bits::{Items, NoMemory};
use src_eval::Runner;
use src_model::{Store, Typed, Var};
use std::alloc::Global;

fn push_zeros(cells: &mut Items<u64>, count: u64) -> Result<(), NoMemory>
    ensures { OnOk result (cells.new ≡ cells.old ++ replicate count 0) }
{
    for _ in 0..count {
        cells.push(0)?;
    }
    Ok(())
}

// A zero for each cell of the variables.
fn zeros(alloc: Global, vars: &[Var]) -> Result<Items<u64>, NoMemory>
    ensures { IfOk result (λ cells. cells ≡ zeros vars.now) }
{
    let mut cells = Items::new(alloc);
    for var in vars {
        push_zeros(&mut cells, var.len.unwrap_or(1))?;
    }
    Ok(cells)
}

// How many checkpoints the program passes where its variables are 0 at first, the end included, or
// `most` where there are more.
pub(crate) fn count_checkpoints(alloc: Global, typed: &Typed, most: u32) -> Result<u32, NoMemory>
    ensures { IfOk result (λ count.
        count ≡ length (strace typed.now.width (model_of_program typed.now.program) (zeros typed.now.program.vars) most)) }
{
    let store = Store {
        cells: zeros(alloc, typed.program().vars.as_slice())?,
    };
    let run = Runner::new(alloc, typed, store)?;
    Ok(run.count(most))
}

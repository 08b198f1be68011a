//! From a number to its summary.

ghost use Rattle.std.specs.Prelude.{◌≡◌, ◌≤◌, ◌<◌, ◌^◌, IfErr, IfOk, length};
ghost use Rattle.job_gen.specs.NetText.{net_text};
ghost use Rattle.job_gen.specs.SrcText.{src_text};
ghost use Rattle.compile_command.specs.Compiled.{IsCompileFault};
ghost use Rattle.make_command.specs.Summaries.{IsSummary};

use crate::summing::summarize;
use compile_command::{CompileFault, read_compiled};
use std::alloc::Global;

/// The summary of a number from 1 to 1,000: its netlist and its program are made and compiled, and
/// the netlist is clocked on the words from nothing but zeros up to the end mark, which never
/// clashes. A refusal is that of the two texts.
pub fn make(alloc: Global, number: u32) -> Result<Vec<u8>, CompileFault>
    requires { number ≤ 1000 }
    ensures summary { IfOk result (λ text. IsSummary number text.items) }
    ensures refused { IfErr result (IsCompileFault (net_text number) (src_text number)) }
{
    let net = job_gen::netlist(alloc, u64::from(number))?;
    let src = job_gen::program(alloc, u64::from(number))?;
    let made = read_compiled(alloc, &net, &src)?;
    let text = summarize(alloc, number, &made.modes, &made.typed, &made.image)?;
    Ok(text)
}

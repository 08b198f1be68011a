//! The commands that assemble and disassemble.
ghost use Rattle.std.specs.Prelude.{◌≡◌, ◌≢◌, ◌⊎◌, ℕ, List, ◌≤◌, IfOk, IfErr, length};
ghost use Rattle.record_core.specs.Answers.{AsmAnswers, DisAnswers, file_limit};
ghost use Rattle.record_core.specs.declared.status.Status.{Status};

use crate::Status;
use asm_command::{assemble, disassemble};
use std::alloc::Global;

/// The image text of the lines of `asm` for the netlist `net`, or the first refusal that applies.
pub fn assembled_text(alloc: Global, net: &[u8], asm: &[u8]) -> Result<Vec<u8>, Status>
    requires net_short { length net.now ≤ file_limit }
    requires asm_short { length asm.now ≤ file_limit }

    // Whatever the lines of the refusals are.
    ensures ok { (line : Status → List ℕ) → IfOk result (λ text.
        AsmAnswers line net.now asm.now Status.Done text.items) }
    ensures refused { (line : Status → List ℕ) → IfErr result (λ status.
        (status ≡ Status.Memory) ⊎ AsmAnswers line net.now asm.now status (line status)) }
    ensures other { IfErr result (λ status. status ≢ Status.Done) }
{
    let text = assemble(alloc, net, asm)?;
    Ok(text)
}

/// The assembler text of the words of `image` for the netlist `net`, or the first refusal that
/// applies.
pub fn shown_text(alloc: Global, net: &[u8], image: &[u8]) -> Result<Vec<u8>, Status>
    requires net_short { length net.now ≤ file_limit }
    requires image_short { length image.now ≤ file_limit }

    // Whatever the lines of the refusals are.
    ensures ok { (line : Status → List ℕ) → IfOk result (λ text.
        DisAnswers line net.now image.now Status.Done text.items) }
    ensures refused { (line : Status → List ℕ) → IfErr result (λ status.
        (status ≡ Status.Memory) ⊎ DisAnswers line net.now image.now status (line status)) }
    ensures other { IfErr result (λ status. status ≢ Status.Done) }
{
    let text = disassemble(alloc, net, image)?;
    Ok(text)
}

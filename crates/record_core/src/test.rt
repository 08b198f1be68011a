//! The command that makes a self-test.
ghost use Rattle.std.specs.Prelude.{◌≡◌, ◌≢◌, ◌⊎◌, ℕ, List, ◌≤◌, IfOk, IfErr, length};
ghost use Rattle.record_core.specs.Answers.{file_limit, TestAnswers};
ghost use Rattle.record_core.specs.declared.status.Status.{Status};

use crate::Status;
use rec_bits::Items;
use std::alloc::Global;
use test_command::test;

/// The report of the self-test of the netlist `net`, or the first refusal that applies.
pub fn test_text(alloc: Global, net: &[u8]) -> Result<Items<u8>, Status>
    requires { length net.now ≤ file_limit }

    // Whatever the lines of the refusals are.
    ensures ok { (line : Status → List ℕ) → IfOk result (λ text. TestAnswers line net.now Status.Done text) }
    ensures refused { (line : Status → List ℕ) → IfErr result (λ status.
        (status ≡ Status.Memory) ⊎ TestAnswers line net.now status (line status)) }
    ensures other { IfErr result (λ status. status ≢ Status.Done) }
{
    let text = test(alloc, net)?;
    Ok(text)
}

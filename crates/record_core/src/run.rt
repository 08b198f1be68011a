//! The command that runs an image.
ghost use Rattle.std.specs.Prelude.{◌≡◌, ◌≢◌, ◌⊎◌, ℕ, List, ◌≤◌, IfOk, IfErr, length};
ghost use Rattle.record_core.specs.Answers.{file_limit, RunAnswers};
ghost use Rattle.record_core.specs.declared.status.Status.{Status};
ghost use Rattle.record_core.specs.declared.stop.Told.{Told};

use crate::stop::Stop;
use run_command::run;
use std::alloc::Global;

/// The state text of so many clocks of the netlist `net` on the image `image` from the state of
/// `memory`, or the first refusal that applies.
pub fn run_text(
    alloc: Global,
    net: &[u8],
    image: &[u8],
    memory: &[u8],
    clocks: u32,
) -> Result<Vec<u8>, Stop>
    requires net_short { length net.now ≤ file_limit }
    requires image_short { length image.now ≤ file_limit }
    requires memory_short { length memory.now ≤ file_limit }

    // Whatever the lines of the refusals are.
    ensures ok { (line : Told → Status → List ℕ) → IfOk result (λ text.
        RunAnswers line net.now image.now memory.now clocks Status.Done text.items) }
    ensures refused { (line : Told → Status → List ℕ) →
        IfErr result (λ stop. (stop.status ≡ Status.Memory)
        ⊎ RunAnswers line net.now image.now memory.now clocks stop.status (line stop.told stop.status)) }
    ensures other { IfErr result (λ stop. stop.status ≢ Status.Done) }
{
    let text = run(alloc, net, image, memory, clocks)?;
    Ok(text)
}

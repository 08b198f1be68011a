//! The command that checks an image.
ghost use Rattle.std.specs.Prelude.{◌≡◌, ◌≢◌, ◌⊎◌, ℕ, List, ◌≤◌, IfOk, IfErr, length};
ghost use Rattle.record_core.specs.Answers.{file_limit, CheckAnswers};
ghost use Rattle.record_core.specs.declared.status.Status.{Status};
ghost use Rattle.record_core.specs.declared.stop.Told.{Told};

use crate::stop::Stop;
use check_command::check;
use std::alloc::Global;

/// What is written of the image with views that `image` is, where it is shown to be right code for
/// the program `src` on the netlist `net`, or a refusal that applies.
pub fn checked_text(alloc: Global, net: &[u8], src: &[u8], image: &[u8]) -> Result<Vec<u8>, Stop>
    requires net_short { length net.now ≤ file_limit }
    requires src_short { length src.now ≤ file_limit }
    requires image_short { length image.now ≤ file_limit }

    // Whatever the lines of the refusals are.
    ensures ok { (line : Told → Status → List ℕ) →
        IfOk result (λ text. CheckAnswers line net.now src.now image.now Status.Done text.items) }
    ensures refused { (line : Told → Status → List ℕ) →
        IfErr result (λ stop. (stop.status ≡ Status.Memory)
        ⊎ CheckAnswers line net.now src.now image.now stop.status (line stop.told stop.status)) }
    ensures other { IfErr result (λ stop. stop.status ≢ Status.Done) }
{
    let text = check(alloc, net, src, image)?;
    Ok(text)
}

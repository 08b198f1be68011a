//! Texts, from their bytes.

ghost use Rattle.std.specs.Prelude.{◌≡◌, ◌^◌, ◌<◌, length, IfOk, IfErr, MatchResult};
ghost use Rattle.rec_bits.specs.declared.fault.ParseFault.{ParseFault};
ghost use Rattle.net_model.specs.Written.{UnitsModel as NetText, model_of_units};
ghost use Rattle.net_parser.specs.Texts.{IsNetText, IsNetTextFault};

use crate::whole::parse;
use net_lexer::tokens;
use net_model::Units;
use rec_bits::ParseFault;
use std::alloc::Global;

/// The edition and the items of a netlist text. `Text` comes exactly where the bytes are none, with
/// the offset of the first token such that those before it begin some text and with it they don't,
/// or the length of the bytes where all of them begin one. `Memory` is want of memory.
pub fn read(alloc: Global, bytes: &[u8]) -> Result<Units, ParseFault>
    requires { length bytes.now < 2 ^ 32 }
    // What is answered is what the bytes say.
    ensures found { IfOk result (λ units. IsNetText bytes.now (model_of_units units)) }

    // Whatever they say is answered, and nothing else, unless memory runs out.
    ensures only { (text : NetText) → IsNetText bytes.now text →
        MatchResult result (λ units. model_of_units units ≡ text) (λ fault. fault ≡ ParseFault.Memory) }

    // Where they are no text, the fault is at the first token that shows it.
    ensures fault { IfErr result (IsNetTextFault bytes.now) }
{
    let tokens = tokens(alloc, bytes)?;
    parse(alloc, bytes, &tokens)
}

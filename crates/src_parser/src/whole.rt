//! Whole texts.

ghost use Rattle.std.specs.Prelude.{◌≡◌, IfOk, IfErr, MatchResult};
ghost use Rattle.rec_bits.specs.declared.fault.ParseFault.{ParseFault};
ghost use Rattle.grammar.specs.Reading.{Gives, IsStop};
ghost use Rattle.grammar.specs.declared.stop.ParseStop.{ParseStop};
ghost use Rattle.src_model.specs.Grammar.{IsProgram};
ghost use Rattle.src_model.specs.Written.{ProgramModel, model_of_program};
ghost use Rattle.grammar.specs.Parses.{IsParseFault};
ghost use Rattle.src_parser.specs.Inner.Steps.{after_text};
ghost use Rattle.src_parser.specs.Words.{src_words};

use crate::declaration::lines;
use crate::statement::body;
use crate::words::Words;
use grammar::{ParseStop, offset};
use lexing::{Token, lexed};
use rec_bits::{Items, ParseFault};
use src_model::{Key, Lexed, Program, Symbol};
use std::alloc::Global;

/// How many levels blocks and expressions may have together.
const LEVELS: u8 = 64;

/// A program, and what is left behind it.
fn program(alloc: Global, ts: &[Lexed]) -> Result<(Program, &[Lexed]), ParseStop>
    ensures { Gives (λ x. (model_of_program x.0, x.1.now)) IsProgram after_text ts.now result }
{
    let (vars, rest) = lines(alloc, ts)?;
    let (body, rest) = body(alloc, LEVELS, rest)?;
    let vars = Items::from_vec(vars);
    Ok((Program { vars, body }, rest))
}

/// The program that the tokens spell.
fn text(alloc: Global, ts: &[Lexed]) -> Result<Program, ParseStop>
    ensures found { IfOk result (λ program. IsProgram ts.now (model_of_program program)) }
    ensures only { (model : ProgramModel) → IsProgram ts.now model →
        MatchResult result (λ program. model_of_program program ≡ model) (λ stop. stop ≡ ParseStop.Memory) }
    ensures fault { IfErr result (IsStop IsProgram ts.now) }
{
    let (program, rest) = program(alloc, ts)?;
    if rest.is_empty() {
        Ok(program)
    } else {
        Err(ParseStop::At(rest.len()))
    }
}

/// The program that the tokens of the text `bytes` spell. `Text` comes exactly where they spell
/// none, with the offset of the first token such that those before it begin some text and with it
/// they don't, or the length of the text where all of them begin one. `Memory` is want of memory.
pub fn parse(alloc: Global, bytes: &[u8], tokens: &Items<Token>) -> Result<Program, ParseFault>
    // What is answered is what the tokens spell.
    ensures found { IfOk result (λ program. IsProgram (src_words bytes.now tokens.now) (model_of_program program)) }

    // Whatever they spell is answered, and nothing else, unless memory runs out.
    ensures only { (model : ProgramModel) → IsProgram (src_words bytes.now tokens.now) model →
        MatchResult result (λ program. model_of_program program ≡ model) (λ fault. fault ≡ ParseFault.Memory) }

    // Where they spell nothing, the fault is at the first token that shows it.
    ensures fault { IfErr result (IsParseFault IsProgram bytes.now (src_words bytes.now tokens.now)) }
{
    let ts = lexed::<Symbol, Key, Words>(alloc, bytes, tokens.as_slice())?;
    match text(alloc, ts.as_slice()) {
        Ok(program) => Ok(program),
        Err(ParseStop::At(left)) => Err(ParseFault::Text(offset(bytes, ts.as_slice(), left))),
        Err(ParseStop::Memory) => Err(ParseFault::Memory),
    }
}

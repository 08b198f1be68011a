//! Whole texts.

ghost use Rattle.std.specs.Prelude.{◌≡◌, ℕ, IfOk, IsTrue, MatchOption, is_some, IfErr, MatchResult};
ghost use Rattle.rec_bits.specs.declared.fault.ParseFault.{ParseFault};
ghost use Rattle.grammar.specs.Reading.{Gives, IsStop, never};
ghost use Rattle.grammar.specs.declared.stop.ParseStop.{ParseStop};
ghost use Rattle.grammar.specs.Tokens.{Before, Behind};
ghost use Rattle.net_model.specs.declared.words.Symbol.TheVariants.{Semicolon, Version};
ghost use Rattle.grammar.specs.declared.words.Word.TheVariants.{Number};
ghost use Rattle.net_model.specs.Editions.{added_by};
ghost use Rattle.net_model.specs.Grammar.{IsEditionNumber, IsHead, IsText, or_first};
ghost use Rattle.net_model.specs.Written.{UnitsModel as NetText, model_of_units};
ghost use Rattle.net_parser.specs.Inner.Steps.{IsHeadNumber, after_head, after_items};
ghost use Rattle.grammar.specs.Parses.{IsParseFault};
ghost use Rattle.net_parser.specs.Words.{net_words};

use crate::editions::{added_by, edited};
use crate::item::items;
use crate::words::Words;
use grammar::{ParseStop, begins_with, expect, front, offset};
use lexing::{Token, lexed};
use net_model::{Key, Lexed, Symbol, Units, Word};
use rec_bits::{Items, ParseFault};
use std::alloc::Global;

/// The number of an edition, if the word is one.
fn number_of(word: &Word) -> Option<u64>
    ensures { MatchOption result ((n : ℕ) → word.now ≡ Number n → IsTrue (is_some (added_by n)) → ⊥)
        (λ n. (word.now ≡ Number n) × IsTrue (is_some (added_by n))) }
{
    match word {
        Word::Number(edition) => {
            if added_by(*edition).is_some() {
                Some(*edition)
            } else {
                None
            }
        }
        _ => None,
    }
}

/// The number of an edition.
fn edition_number(ts: &[Lexed]) -> Result<(u64, &[Lexed]), ParseStop>
    ensures { Gives (λ x. (x.0, x.1.now)) IsEditionNumber never ts.now result }
{
    let Some((t, rest)) = front(ts) else {
        return Err(ParseStop::At(0));
    };
    match number_of(&t.word) {
        Some(edition) => Ok((edition, rest)),
        None => Err(ParseStop::At(ts.len())),
    }
}

/// An edition behind `version`, with its end.
fn edition(ts: &[Lexed]) -> Result<(u64, &[Lexed]), ParseStop>
    ensures { Gives (λ x. (x.0, x.1.now)) (Behind Version (Before IsEditionNumber Semicolon)) never ts.now result }
{
    let rest = expect(Symbol::Version, ts)?;
    let (edition, rest) = edition_number(rest)?;
    let rest = expect(Symbol::Semicolon, rest)?;
    Ok((edition, rest))
}

/// The edition that a text names, if it does.
fn head(ts: &[Lexed]) -> Result<(Option<u64>, &[Lexed]), ParseStop>
    ensures { Gives (λ x. (x.0, x.1.now)) IsHead after_head ts.now result }
{
    if begins_with(Symbol::Version, ts) {
        let (edition, rest) = edition(ts)?;
        Ok((Some(edition), rest))
    } else {
        Ok((None, ts))
    }
}

fn or_first(head: Option<u64>) -> u8
    requires { IsHeadNumber head }
    ensures { result ≡ or_first head }
{
    match head {
        Some(edition) => edition as u8,
        None => 1,
    }
}

/// The edition and the items at the front.
fn front_text(alloc: Global, ts: &[Lexed]) -> Result<(Units, &[Lexed]), ParseStop>
    ensures { Gives (λ x. (model_of_units x.0, x.1.now)) IsText after_items ts.now result }
{
    let (head, rest) = head(ts)?;
    let (items, rest) = items(alloc, rest)?;
    let edition = or_first(head);
    Ok((Units { edition, items }, rest))
}

/// The text that the tokens spell.
fn text(alloc: Global, ts: &[Lexed]) -> Result<Units, ParseStop>
    ensures found { IfOk result (λ units. IsText ts.now (model_of_units units)) }
    ensures only { (text : NetText) → IsText ts.now text →
        MatchResult result (λ units. model_of_units units ≡ text) (λ stop. stop ≡ ParseStop.Memory) }
    ensures fault { IfErr result (IsStop IsText ts.now) }
{
    let (units, rest) = front_text(alloc, ts)?;
    if rest.is_empty() {
        Ok(units)
    } else {
        Err(ParseStop::At(rest.len()))
    }
}

/// The edition and the items that the tokens of the text `bytes` spell. `Text` comes exactly where
/// they spell none, with the offset of the first token such that those before it begin some text
/// and with it they don't, or the length of the text where all of them begin one. `Memory` is want
/// of memory.
pub fn parse(alloc: Global, bytes: &[u8], tokens: &Items<Token>) -> Result<Units, ParseFault>
    // What is answered is what the tokens spell.
    ensures found { IfOk result (λ units. IsText (net_words bytes.now tokens.now) (model_of_units units)) }

    // Whatever they spell is answered, and nothing else, unless memory runs out.
    ensures only { (text : NetText) → IsText (net_words bytes.now tokens.now) text →
        MatchResult result (λ units. model_of_units units ≡ text) (λ fault. fault ≡ ParseFault.Memory) }

    // Where they spell nothing, the fault is at the first token that shows it.
    ensures fault { IfErr result (IsParseFault IsText bytes.now (net_words bytes.now tokens.now)) }
{
    let lexed = lexed::<Symbol, Key, Words>(alloc, bytes, tokens.as_slice())?;
    let ts = edited(alloc, lexed)?;
    match text(alloc, ts.as_slice()) {
        Ok(units) => Ok(units),
        Err(ParseStop::At(left)) => Err(ParseFault::Text(offset(bytes, ts.as_slice(), left))),
        Err(ParseStop::Memory) => Err(ParseFault::Memory),
    }
}

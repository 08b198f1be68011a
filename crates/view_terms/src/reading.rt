//! From a text to a term.

ghost use Rattle.std.specs.Prelude.{◌≡◌, ◌+◌, ◌*◌, IfOk, IfErr, MatchResult, Ok, Err, Some, length, option_copied, option_map};
ghost use Rattle.view_terms.specs.declared.stop.Stop.{Stop as CodeStop};
ghost use Rattle.view_terms.specs.Terms.{SaysTerm, TermModel, model_of_term};
ghost use Rattle.view_terms.specs.Inner.Reading.{Gives, bare_at, behind, behind_word, called, constant_at, last_operand, leaf_at, next_operand, term_at, whole_term, when, word_in};

use crate::{Stop, Term};
use lexing::{digit, letter};
use rec_bits::{Items, Name};
use std::alloc::Global;
use text_lines::{is_name, number};

/// How many parentheses nest at most.
const LEVELS: u8 = 64;

// How many bytes come first that a name or a number can have.
fn word_bytes(text: &[u8]) -> usize
    ensures { result ≡ length (word_in text.now) }
{
    text.iter()
        .take_while(|byte| letter(**byte) || digit(**byte))
        .count()
}

// The bytes that come first that a name or a number can have, and what stands behind them.
fn first_word(text: &[u8]) -> (&[u8], &[u8])
    ensures word { result.0.now ≡ word_in text.now }
    ensures rest { result.1.now ≡ behind_word text.now }
{
    text.split_at(word_bytes(text))
}

// What stands behind the first byte, where that is `mark`.
fn behind(text: &[u8], mark: u8) -> Option<&[u8]>
    ensures { option_copied result ≡ behind mark text.now }
{
    match text {
        [] => None,
        [first, rest @ ..] => { if *first == mark { Some(rest) } else { None } }
    }
}

// A value beside what was read behind it. It is let go here where nothing was read.
fn beside<T: Drop, R>(value: T, read: Result<R, Stop>) -> Result<(T, R), Stop>
    ensures read { IfOk result (λ x. (x.0 ≡ value) × (read ≡ Ok x.1)) }
    ensures stopped { IfErr result (λ stop. read ≡ Err stop) }
{
    let read = read?;
    Ok((value, read))
}

// A name of these bytes.
fn named(alloc: Global, word: &[u8]) -> Result<Name, Stop>
    ensures { Gives (λ name. name) (Some word.now) result }
{
    let name = Items::from_slice(alloc, word)?;
    Ok(name)
}

// A number with its width, from the word before `#` and what stands behind that.
#[tactic(auto, unfolding(crate::specs::Inner::Reading::constant_at))]
fn constant<'t>(word: &[u8], text: &'t [u8]) -> Option<(Term, &'t [u8])>
    ensures { option_map (λ x. (model_of_term x.0, x.1.now)) result ≡ constant_at word.now text.now }
{
    let (width, rest) = first_word(text);
    let value = number(word)?;
    let width = number(width)?;
    Some((Term::Constant { value, width }, rest))
}

// A number, from its word and what stands behind it.
#[tactic(auto, unfolding(crate::specs::Inner::Reading::bare_at))]
fn bare<'t>(word: &[u8], text: &'t [u8]) -> Option<(Term, &'t [u8])>
    ensures { option_map (λ x. (model_of_term x.0, x.1.now)) result ≡ bare_at word.now text.now }
{
    let value = number(word)?;
    Some((Term::Number(value), text))
}

// A number, with its width or without, from its word and what stands behind it.
fn numeral<'t>(word: &[u8], text: &'t [u8]) -> Option<(Term, &'t [u8])>
    ensures { option_map (λ x. (model_of_term x.0, x.1.now)) result
        ≡ when (behind 35 text.now) (constant_at word.now) (bare_at word.now text.now) }
{
    match behind(text, b'#') {
        Some(rest) => constant(word, rest),
        None => bare(word, text),
    }
}

// A name, a number or a number with its width, from a word and what stands behind it.
#[tactic(auto, unfolding(crate::specs::Inner::Reading::leaf_at))]
fn leaf<'t>(alloc: Global, word: &[u8], text: &'t [u8]) -> Result<(Term, &'t [u8]), Stop>
    ensures { Gives (λ x. (model_of_term x.0, x.1.now)) (leaf_at word.now text.now) result }
{
    if is_name(word) {
        let name = Items::from_slice(alloc, word)?;
        return Ok((Term::Name(name), text));
    }
    match numeral(word, text) {
        Some(found) => Ok(found),
        None => Err(Stop::Form),
    }
}

// A term in a box, and what stands behind it.
#[cycle(term)]
fn operand(alloc: Global, levels: u8, text: &[u8]) -> Result<(Box<Term>, &[u8]), Stop>
    ensures { Gives (λ x. (model_of_term x.0.value, x.1.now)) (term_at levels text.now) result }
{
    let (term, rest) = term(alloc, levels, text)?;
    Ok((Box::new(alloc, term)?, rest))
}

// A comma, and a term.
#[cycle(term)]
#[tactic(auto, unfolding(crate::specs::Inner::Reading::next_operand))]
fn next_operand(alloc: Global, levels: u8, text: &[u8]) -> Result<(Box<Term>, &[u8]), Stop>
    ensures { Gives (λ x. (model_of_term x.0.value, x.1.now)) (next_operand (term_at levels) text.now) result }
{
    match behind(text, b',') {
        Some(rest) => operand(alloc, levels, rest),
        None => Err(Stop::Form),
    }
}

// A comma, a term, and a closing parenthesis.
#[cycle(term)]
#[tactic(auto, unfolding(crate::specs::Inner::Reading::last_operand))]
fn last_operand(alloc: Global, levels: u8, text: &[u8]) -> Result<(Box<Term>, &[u8]), Stop>
    ensures { Gives (λ x. (model_of_term x.0.value, x.1.now)) (last_operand (term_at levels) text.now) result }
{
    let (term, rest) = next_operand(alloc, levels, text)?;
    match behind(rest, b')') {
        Some(end) => Ok((term, end)),
        None => Err(Stop::Form),
    }
}

// The terms of a word, behind its opening parenthesis.
#[cycle(term)]
#[tactic(auto, unfolding(crate::specs::Inner::Reading::called))]
fn called<'t>(
    alloc: Global,
    levels: u8,
    word: &[u8],
    text: &'t [u8],
) -> Result<(Term, &'t [u8]), Stop>
    ensures { Gives (λ x. (model_of_term x.0, x.1.now)) (called (term_at levels) word.now text.now) result }
{
    if !is_name(word) {
        return Err(Stop::Form);
    }
    let (first, rest) = operand(alloc, levels, text)?;
    if let Some(end) = behind(rest, b')') {
        let (first, word) = beside(first, named(alloc, word))?;
        return Ok((Term::One(word, first), end));
    }
    let (first, (second, rest)) = beside(first, next_operand(alloc, levels, rest))?;
    if let Some(end) = behind(rest, b')') {
        let ((first, second), word) = beside((first, second), named(alloc, word))?;
        return Ok((Term::Two(word, first, second), end));
    }
    let ((first, second), (third, rest)) = beside(
        (first, second),
        last_operand(alloc, levels, rest),
    )?;
    let ((first, second, third), word) = beside((first, second, third), named(alloc, word))?;
    Ok((Term::Three(word, first, second, third), rest))
}

// A term with at most so many levels of parentheses, and what stands behind it.
#[cycle(term)]
#[tactic(auto, unfolding(crate::specs::Inner::Reading::term_at))]
fn term(alloc: Global, levels: u8, text: &[u8]) -> Result<(Term, &[u8]), Stop>
    ensures { Gives (λ x. (model_of_term x.0, x.1.now)) (term_at levels text.now) result }
{
    let (word, rest) = first_word(text);
    if levels == 0 {
        return leaf(alloc, word, rest);
    }
    match behind(rest, b'(') {
        Some(inner) => called(alloc, levels - 1, word, inner),
        None => leaf(alloc, word, rest),
    }
}

// The term that a text is.
#[tactic(auto, unfolding(crate::specs::Inner::Reading::whole_term))]
fn whole(alloc: Global, text: &[u8]) -> Result<Term, Stop>
    ensures { Gives model_of_term (whole_term text.now) result }
{
    let (term, rest) = term(alloc, LEVELS, text)?;
    if rest.is_empty() {
        Ok(term)
    } else {
        Err(Stop::Form)
    }
}

/// The term that a text is. `Form` comes exactly where it is none.
pub fn read(alloc: Global, text: &[u8]) -> Result<Term, Stop>
    ensures read { IfOk result (λ found. SaysTerm text.now (model_of_term found)) }
    ensures only { (said : TermModel) → SaysTerm text.now said →
        MatchResult result (λ found. model_of_term found ≡ said) (λ stop. stop ≡ CodeStop.Memory) }
{
    whole(alloc, text)
}

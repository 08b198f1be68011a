//! Statements. `levels` is how many levels may still be opened.

ghost use Rattle.std.specs.Prelude.{◌≡◌, ◌≤◌, ◌↔◌, IsTrue, false, map};
ghost use Rattle.grammar.specs.Reading.{Gives, never};
ghost use Rattle.grammar.specs.declared.words.Word.TheVariants.{Name as Named, Symbol as Shows};
ghost use Rattle.src_parser.specs.declared.statement.Compound.TheVariants.{For as Counts, If as Chooses, While as Repeats};
ghost use Rattle.src_model.specs.Grammar.{StmtBehind, IsStmt, IsBlock, IsBody, IsCmp, IsElse, IsIndex, IsInner, IsOuter, IsTest};
ghost use Rattle.grammar.specs.Tokens.{Before, Behind, IsNothing, BeginsSo};
ghost use Rattle.src_model.specs.Written.{model_of_stmt, index_of, model_of_src_expr, model_of_src_test};
ghost use Rattle.src_parser.specs.Inner.Steps.{CompoundBehind, OpensBracket, act_word, after, after_acts, after_else, cmp_of, compound_of, may_follow, others_of};

use crate::expression::expr;
use grammar::{ParseStop, begins_with, expect, front, keeping, name, number_behind};
use rec_bits::{Items, Name};
use src_model::{Cmp, Key, Lexed, Spot, SrcExpr, SrcTest, Stmt, Symbol, Word};
use std::alloc::Global;

/// The comparison that the word is.
fn cmp_of(word: &Word) -> Option<Cmp>
    ensures { result ≡ cmp_of word.now }
{
    match word {
        Word::Key(Key::Compare(cmp)) => Some(*cmp),
        _ => None,
    }
}

/// A word that compares.
fn cmp(ts: &[Lexed]) -> Result<(Cmp, &[Lexed]), ParseStop>
    ensures { Gives (λ x. (x.0, x.1.now)) IsCmp never ts.now result }
{
    let Some((t, rest)) = front(ts) else {
        return Err(ParseStop::At(0));
    };
    let Some(cmp) = cmp_of(&t.word) else {
        return Err(ParseStop::At(ts.len()));
    };
    Ok((cmp, rest))
}

/// A test.
fn test(alloc: Global, levels: u8, ts: &[Lexed]) -> Result<(SrcTest, &[Lexed]), ParseStop>
    ensures { Gives (λ x. (model_of_src_test x.0, x.1.now)) (IsTest levels) (after 6) ts.now result }
{
    let (left, rest) = expr(alloc, levels, ts)?;
    let (left, (cmp, rest)) = keeping(left, cmp(rest))?;
    let (left, (right, rest)) = keeping(left, expr(alloc, levels, rest))?;
    Ok((SrcTest { cmp, left, right }, rest))
}

/// A symbol, an expression and a symbol.
fn between(
    alloc: Global,
    first: Symbol,
    last: Symbol,
    levels: u8,
    ts: &[Lexed],
) -> Result<(SrcExpr, &[Lexed]), ParseStop>
    requires { may_follow 6 (Shows last) ≡ false }
    ensures { Gives (λ x. (model_of_src_expr x.0, x.1.now)) (Behind first (Before (IsOuter levels) last)) never ts.now result }
{
    let rest = expect(first, ts)?;
    let (a, rest) = expr(alloc, levels, rest)?;
    keeping(a, expect(last, rest))
}

/// Whether an index stands first and a level can be opened for it.
fn opens_bracket(levels: u8, ts: &[Lexed]) -> bool
    ensures { IsTrue result ↔ OpensBracket levels ts.now }
{
    begins_with(Symbol::LeftBracket, ts) && levels > 0
}

/// The index of an assigned place, if there is one.
fn outer_index(
    alloc: Global,
    levels: u8,
    ts: &[Lexed],
) -> Result<(Option<Box<SrcExpr>>, &[Lexed]), ParseStop>
    ensures { Gives (λ x. (index_of x.0, x.1.now)) (IsIndex (IsInner levels)) (after 0) ts.now result }
{
    if opens_bracket(levels, ts) {
        let (a, rest) = between(
            alloc,
            Symbol::LeftBracket,
            Symbol::RightBracket,
            levels - 1,
            ts,
        )?;
        let a = Box::new(alloc, a)?;
        Ok((Some(a), rest))
    } else {
        Ok((None, ts))
    }
}

/// An assignment, behind the name.
fn assignment<'a>(
    alloc: Global,
    name: &Name,
    at: u64,
    levels: u8,
    ts: &'a [Lexed],
) -> Result<(Stmt, &'a [Lexed]), ParseStop>
    ensures { Gives (λ x. (model_of_stmt x.0, x.1.now)) (StmtBehind levels IsNothing (Named name.now) at)
        after_else ts.now result }
{
    let (index, rest) = outer_index(alloc, levels, ts)?;
    let (value, rest) = between(alloc, Symbol::Equals, Symbol::Semicolon, levels, rest)?;
    let name = Items::from_slice(alloc, name.as_slice())?;
    let place = Spot { name, at, index };
    Ok((Stmt::Assign { place, value }, rest))
}

/// Whether the first token begins a statement.
fn begins_act(ts: &[Lexed]) -> bool
    ensures { IsTrue result ↔ BeginsSo act_word ts.now }
{
    match front(ts) {
        Some((t, _)) => matches!(
            &t.word,
            Word::Name(_) | Word::Symbol(Symbol::If | Symbol::While | Symbol::For)
        ),
        None => false,
    }
}

/// Statements, as many as there are.
#[cycle(acts)]
pub fn body(alloc: Global, levels: u8, ts: &[Lexed]) -> Result<(Vec<Stmt>, &[Lexed]), ParseStop>
    ensures { Gives (λ x. (map model_of_stmt x.0.items, x.1.now)) (IsBody levels) after_acts ts.now result }
{
    let mut acts = Vec::new(alloc);
    let mut rest = ts;
    'acts: while begins_act(rest) {
        let (next, behind) = act(alloc, levels, rest)?;
        acts.push(next)?;
        rest = behind;
    }
    Ok((acts, rest))
}

/// A block.
#[cycle(acts)]
fn block(alloc: Global, levels: u8, ts: &[Lexed]) -> Result<(Vec<Stmt>, &[Lexed]), ParseStop>
    requires { 1 ≤ levels }
    ensures { Gives (λ x. (map model_of_stmt x.0.items, x.1.now)) (IsBlock levels) never ts.now result }
{
    let rest = expect(Symbol::LeftBrace, ts)?;
    let (body, rest) = body(alloc, levels - 1, rest)?;
    keeping(body, expect(Symbol::RightBrace, rest))
}

/// An `else` part, if there is one.
#[cycle(acts)]
fn otherwise(
    alloc: Global,
    levels: u8,
    ts: &[Lexed],
) -> Result<(Option<Vec<Stmt>>, &[Lexed]), ParseStop>
    requires { 1 ≤ levels }
    ensures { Gives (λ x. (others_of x.0, x.1.now)) (IsElse (IsBlock levels)) after_else ts.now result }
{
    if begins_with(Symbol::Else, ts) {
        let rest = expect(Symbol::Else, ts)?;
        let (other, rest) = block(alloc, levels, rest)?;
        Ok((Some(other), rest))
    } else {
        Ok((None, ts))
    }
}

/// A word behind which blocks stand.
#[derive(Clone, Copy, PartialEq, Eq)]
pub enum Compound {
    If,
    While,
    For,
}

/// The word behind which blocks stand, if it is one.
fn compound_of(word: &Word) -> Option<Compound>
    ensures { result ≡ compound_of word.now }
{
    match word {
        Word::Symbol(Symbol::If) => Some(Compound::If),
        Word::Symbol(Symbol::While) => Some(Compound::While),
        Word::Symbol(Symbol::For) => Some(Compound::For),
        _ => None,
    }
}

/// An `if`, behind its word.
#[cycle(acts)]
fn choice(alloc: Global, levels: u8, ts: &[Lexed]) -> Result<(Stmt, &[Lexed]), ParseStop>
    requires { 1 ≤ levels }
    ensures { Gives (λ x. (model_of_stmt x.0, x.1.now)) (CompoundBehind levels (IsBlock levels) Chooses)
        after_else ts.now result }
{
    let (test, rest) = test(alloc, levels, ts)?;
    let (test, (yes, rest)) = keeping(test, block(alloc, levels, rest))?;
    let ((test, yes), (no, rest)) = keeping((test, yes), otherwise(alloc, levels, rest))?;
    Ok((Stmt::If { test, yes, no }, rest))
}

/// A `while`, behind its word.
#[cycle(acts)]
fn repetition(alloc: Global, levels: u8, ts: &[Lexed]) -> Result<(Stmt, &[Lexed]), ParseStop>
    requires { 1 ≤ levels }
    ensures { Gives (λ x. (model_of_stmt x.0, x.1.now)) (CompoundBehind levels (IsBlock levels) Repeats)
        after_else ts.now result }
{
    let (test, rest) = test(alloc, levels, ts)?;
    let (test, (body, rest)) = keeping(test, block(alloc, levels, rest))?;
    Ok((Stmt::While { test, body }, rest))
}

/// A `for`, behind its word.
#[cycle(acts)]
fn counting(alloc: Global, levels: u8, ts: &[Lexed]) -> Result<(Stmt, &[Lexed]), ParseStop>
    requires { 1 ≤ levels }
    ensures { Gives (λ x. (model_of_stmt x.0, x.1.now)) (CompoundBehind levels (IsBlock levels) Counts)
        after_else ts.now result }
{
    let (counter, rest) = name(alloc, ts)?;
    let (from, rest) = number_behind(Symbol::Equals, rest)?;
    let (to, rest) = number_behind(Symbol::To, rest)?;
    let (body, rest) = block(alloc, levels, rest)?;
    let act = Stmt::For {
        counter: counter.name,
        at: counter.at,
        from,
        to,
        body,
    };
    Ok((act, rest))
}

/// What stands behind a word with blocks.
#[cycle(acts)]
fn composed(
    alloc: Global,
    word: Compound,
    levels: u8,
    ts: &[Lexed],
) -> Result<(Stmt, &[Lexed]), ParseStop>
    requires { 1 ≤ levels }
    ensures { Gives (λ x. (model_of_stmt x.0, x.1.now)) (CompoundBehind levels (IsBlock levels) word)
        after_else ts.now result }
{
    match word {
        Compound::If => choice(alloc, levels, ts),
        Compound::While => repetition(alloc, levels, ts),
        Compound::For => counting(alloc, levels, ts),
    }
}

/// A statement.
#[cycle(acts)]
fn act(alloc: Global, levels: u8, ts: &[Lexed]) -> Result<(Stmt, &[Lexed]), ParseStop>
    ensures { Gives (λ x. (model_of_stmt x.0, x.1.now)) (IsStmt levels) after_else ts.now result }
{
    let Some((t, rest)) = front(ts) else {
        return Err(ParseStop::At(0));
    };
    if let Some(word) = compound_of(&t.word) {
        if levels == 0 {
            return Err(ParseStop::At(ts.len()));
        }
        return composed(alloc, word, levels, rest);
    }
    match &t.word {
        Word::Name(name) => assignment(alloc, name, t.at, levels, rest),
        _ => Err(ParseStop::At(ts.len())),
    }
}

//! Expressions. `levels` is how many levels may still be opened, and `room` how many tokens may
//! still be used.

ghost use Rattle.std.specs.Prelude.{◌≡◌, ◌≤◌, ◌-◌, ◌↔◌, IsTrue, IfOk, IfErr, false};
ghost use Rattle.grammar.specs.Reading.{Gives, Tail, Within, never};
ghost use Rattle.grammar.specs.declared.stop.ParseStop.TheVariants.{Memory as Exhausted};
ghost use Rattle.grammar.specs.declared.words.Word.TheVariants.{Name as Named, Symbol as Shows};
ghost use Rattle.src_model.specs.declared.words.Symbol.TheVariants.{Comma, LeftBracket, LeftParen, RightBracket, RightParen};
ghost use Rattle.grammar.specs.Tokens.{Before, Behind, IsNothing};
ghost use Rattle.src_model.specs.Grammar.{Called, Chains, Enclosed, IsExpr, IsIndex, IsOuter, IsUnary, PlaceBehind, Signed, UnaryBehind, join, op_at, op_of, rank};
ghost use Rattle.src_model.specs.Written.{index_of, model_of_src_expr, model_of_spot};
ghost use Rattle.src_parser.specs.Inner.Steps.{HasRoom, InExpr, OpensIndex, OpenBehind, after, least_of, may_follow, opening_of};

use grammar::{ParseStop, begins_with, expect, front, keeping, number_between};
use rec_bits::{Items, Name, Op1, Op2};
use src_model::{Call, Key, Lexed, Spot, SrcExpr, SrcNode, Symbol, Word};
use std::alloc::Global;

/// The most tokens of an expression that isn't inside another one.
const MOST_TOKENS: usize = 1024;

/// The rank of the operator that binds the least.
const LOOSEST: u8 = 6;

/// What opens a level of an expression.
#[derive(Clone, Copy, PartialEq, Eq)]
pub enum Opening {
    Sign(Op1),
    Paren,
    Call(Call),
}

/// What the word opens.
fn opening_of(word: &Word) -> Option<Opening>
    ensures { result ≡ opening_of word.now }
{
    match word {
        Word::Key(Key::Operator(Op2::Sub)) => Some(Opening::Sign(Op1::Neg)),
        Word::Symbol(Symbol::Tilde) => Some(Opening::Sign(Op1::Not)),
        Word::Symbol(Symbol::LeftParen) => Some(Opening::Paren),
        Word::Key(Key::Call(call)) => Some(Opening::Call(*call)),
        _ => None,
    }
}

/// The fewest tokens of what is opened, with its first one.
fn least_of(opening: Opening) -> usize
    ensures { result ≡ least_of opening }
{
    match opening {
        Opening::Sign(_) => 2,
        Opening::Paren => 3,
        Opening::Call(_) => 6,
    }
}

/// How tightly an operator binds: the least first.
fn rank(op: Op2) -> u8
    ensures { result ≡ rank op }
{
    match op {
        Op2::Mul => 1,
        Op2::Add | Op2::Sub => 2,
        Op2::Shl | Op2::Shr | Op2::Sar => 3,
        Op2::And => 4,
        Op2::Xor => 5,
        Op2::Or => 6,
        _ => 7,
    }
}

/// The operator of the rank `k` that the word is.
fn op_of(k: u8, word: &Word) -> Option<Op2>
    ensures { result ≡ op_of k word.now }
{
    match word {
        Word::Key(Key::Operator(op)) => { if rank(*op) == k { Some(*op) } else { None } }
        _ => None,
    }
}

/// An operator with its operands.
fn joined(alloc: Global, a: SrcExpr, op: Op2, b: SrcExpr) -> Result<SrcExpr, ParseStop>
    ensures made { IfOk result (λ e. model_of_src_expr e ≡ join (model_of_src_expr a) op (model_of_src_expr b)) }
    ensures refused { IfErr result (λ stop. stop ≡ Exhausted) }
{
    let at = a.at;
    let a = Box::new(alloc, a)?;
    let b = Box::new(alloc, b)?;
    Ok(SrcExpr {
        at,
        node: SrcNode::Bin(op, a, b),
    })
}

/// A call of an expression and a number of bits.
fn called(alloc: Global, call: Call, at: u64, a: SrcExpr, width: u64) -> Result<SrcExpr, ParseStop>
    ensures made { IfOk result (λ e.
        model_of_src_expr e ≡ record { at = at; shape = Rattle.src_model.specs.Grammar.called call (model_of_src_expr a) width }) }
    ensures refused { IfErr result (λ stop. stop ≡ Exhausted) }
{
    let a = Box::new(alloc, a)?;
    let node = match call {
        Call::Zext => SrcNode::Zext(a, width),
        Call::Sext => SrcNode::Sext(a, width),
        Call::Low => SrcNode::Low(a, width),
    };
    Ok(SrcExpr { at, node })
}

/// Whether a level can be opened that takes so many tokens.
fn has_room(levels: u8, room: usize, least: usize) -> bool
    ensures { IsTrue result ↔ HasRoom levels room least }
{
    levels > 0 && room >= least
}

/// Whether an index stands first that there is room for.
fn opens_index(levels: u8, room: usize, ts: &[Lexed]) -> bool
    ensures { IsTrue result ↔ OpensIndex levels room ts.now }
{
    begins_with(Symbol::LeftBracket, ts) && has_room(levels, room, 3)
}

/// An expression that isn't inside another one.
pub fn expr(alloc: Global, levels: u8, ts: &[Lexed]) -> Result<(SrcExpr, &[Lexed]), ParseStop>
    ensures { Gives (λ x. (model_of_src_expr x.0, x.1.now)) (IsOuter levels) (after 6) ts.now result }
{
    chain(alloc, LOOSEST, levels, MOST_TOKENS, ts)
}

/// A chain of the operators up to the rank `k`.
#[cycle(expr)]
fn chain(
    alloc: Global,
    k: u8,
    levels: u8,
    room: usize,
    ts: &[Lexed],
) -> Result<(SrcExpr, &[Lexed]), ParseStop>
    requires some { 1 ≤ room }
    requires ranked { k ≤ 6 }
    ensures { Gives (λ x. (model_of_src_expr x.0, x.1.now)) (Within room (Chains k (IsUnary levels))) (after k) ts.now result }
{
    if k == 0 {
        return unary(alloc, levels, room, ts);
    }
    let (first, rest) = chain(alloc, k - 1, levels, room, ts)?;
    tail(
        alloc,
        k,
        levels,
        room - (ts.len() - rest.len()),
        first,
        rest,
    )
}

/// The operators of the rank `k` with their right operands, behind a first operand.
#[cycle(expr)]
fn tail(
    alloc: Global,
    k: u8,
    levels: u8,
    room: usize,
    first: SrcExpr,
    ts: &[Lexed],
) -> Result<(SrcExpr, &[Lexed]), ParseStop>
    requires some { 1 ≤ k }
    requires ranked { k ≤ 6 }
    ensures { Gives (λ x. (model_of_src_expr x.0, x.1.now))
        (Within room (Tail (Chains (k - 1) (IsUnary levels)) (op_at k) join (model_of_src_expr first)))
        (after k) ts.now result }
{
    let mut left = first;
    let mut spare = room;
    let mut rest = ts;
    'chain: while let Some((t, behind)) = front(rest) {
        let Some(op) = op_of(k, &t.word) else {
            break;
        };
        if spare < 2 {
            break;
        }
        let (kept, (right, next)) = keeping(left, chain(alloc, k - 1, levels, spare - 1, behind))?;
        spare = spare - 1 - (behind.len() - next.len());
        left = joined(alloc, kept, op, right)?;
        rest = next;
    }
    Ok((left, rest))
}

/// An expression and a closing symbol.
#[cycle(expr)]
fn closed(
    alloc: Global,
    last: Symbol,
    levels: u8,
    room: usize,
    ts: &[Lexed],
) -> Result<(SrcExpr, &[Lexed]), ParseStop>
    requires long { 2 ≤ room }
    requires ends { may_follow 6 (Shows last) ≡ false }
    ensures { Gives (λ x. (model_of_src_expr x.0, x.1.now)) (Within room (Before (IsExpr levels) last)) never ts.now result }
{
    let (a, rest) = chain(alloc, LOOSEST, levels, room - 1, ts)?;
    keeping(a, expect(last, rest))
}

/// An index.
#[cycle(expr)]
fn bracket(
    alloc: Global,
    levels: u8,
    room: usize,
    ts: &[Lexed],
) -> Result<(SrcExpr, &[Lexed]), ParseStop>
    requires { 3 ≤ room }
    ensures { Gives (λ x. (model_of_src_expr x.0, x.1.now))
        (Within room (Behind LeftBracket (Before (IsExpr levels) RightBracket))) never ts.now result }
{
    let rest = expect(Symbol::LeftBracket, ts)?;
    closed(alloc, Symbol::RightBracket, levels, room - 1, rest)
}

/// An index, if there is one.
#[cycle(expr)]
fn index(
    alloc: Global,
    levels: u8,
    room: usize,
    ts: &[Lexed],
) -> Result<(Option<Box<SrcExpr>>, &[Lexed]), ParseStop>
    ensures { Gives (λ x. (index_of x.0, x.1.now)) (Within room (IsIndex (InExpr levels))) (after 0) ts.now result }
{
    if opens_index(levels, room, ts) {
        let (a, rest) = bracket(alloc, levels - 1, room, ts)?;
        let a = Box::new(alloc, a)?;
        Ok((Some(a), rest))
    } else {
        Ok((None, ts))
    }
}

/// What stands behind a name.
#[cycle(expr)]
fn named<'a>(
    alloc: Global,
    name: &Name,
    at: u64,
    levels: u8,
    room: usize,
    ts: &'a [Lexed],
) -> Result<(SrcExpr, &'a [Lexed]), ParseStop>
    ensures { Gives (λ x. (model_of_src_expr x.0, x.1.now))
        (Within room (UnaryBehind IsNothing (InExpr levels) (Named name.now) at)) (after 0) ts.now result }
{
    let (index, rest) = index(alloc, levels, room, ts)?;
    let name = Items::from_slice(alloc, name.as_slice())?;
    let node = SrcNode::Var(Spot { name, at, index });
    Ok((SrcExpr { at, node }, rest))
}

/// What stands behind a sign.
#[cycle(expr)]
fn signed(
    alloc: Global,
    op: Op1,
    at: u64,
    levels: u8,
    room: usize,
    ts: &[Lexed],
) -> Result<(SrcExpr, &[Lexed]), ParseStop>
    requires { 1 ≤ room }
    ensures { Gives (λ x. (model_of_src_expr x.0, x.1.now)) (Within room (Signed (IsUnary levels) op at))
        (after 0) ts.now result }
{
    let (a, rest) = unary(alloc, levels, room, ts)?;
    let node = SrcNode::Un(op, Box::new(alloc, a)?);
    Ok((SrcExpr { at, node }, rest))
}

/// What stands behind a parenthesis.
#[cycle(expr)]
fn enclosed(
    alloc: Global,
    at: u64,
    levels: u8,
    room: usize,
    ts: &[Lexed],
) -> Result<(SrcExpr, &[Lexed]), ParseStop>
    requires { 2 ≤ room }
    ensures { Gives (λ x. (model_of_src_expr x.0, x.1.now)) (Within room (Enclosed (IsExpr levels) at))
        (after 0) ts.now result }
{
    let (a, rest) = closed(alloc, Symbol::RightParen, levels, room, ts)?;
    Ok((SrcExpr { at, node: a.node }, rest))
}

/// A parenthesis and an expression.
#[cycle(expr)]
fn argument(
    alloc: Global,
    levels: u8,
    room: usize,
    ts: &[Lexed],
) -> Result<(SrcExpr, &[Lexed]), ParseStop>
    requires { 2 ≤ room }
    ensures { Gives (λ x. (model_of_src_expr x.0, x.1.now)) (Within room (Behind LeftParen (IsExpr levels)))
        (after 6) ts.now result }
{
    let rest = expect(Symbol::LeftParen, ts)?;
    chain(alloc, LOOSEST, levels, room - 1, rest)
}

/// What stands behind the word of a call.
#[cycle(expr)]
fn call(
    alloc: Global,
    call: Call,
    at: u64,
    levels: u8,
    room: usize,
    ts: &[Lexed],
) -> Result<(SrcExpr, &[Lexed]), ParseStop>
    requires { 5 ≤ room }
    ensures { Gives (λ x. (model_of_src_expr x.0, x.1.now)) (Within room (Called (IsExpr levels) call at))
        (after 0) ts.now result }
{
    let (a, rest) = argument(alloc, levels, room - 3, ts)?;
    let (a, (width, rest)) = keeping(a, number_between(Symbol::Comma, Symbol::RightParen, rest))?;
    let e = called(alloc, call, at, a, width)?;
    Ok((e, rest))
}

/// What stands behind the token that opens a level.
#[cycle(expr)]
fn opened(
    alloc: Global,
    opening: Opening,
    at: u64,
    levels: u8,
    room: usize,
    ts: &[Lexed],
) -> Result<(SrcExpr, &[Lexed]), ParseStop>
    requires { least_of opening - 1 ≤ room }
    ensures { Gives (λ x. (model_of_src_expr x.0, x.1.now))
        (Within room (OpenBehind (IsUnary levels) (IsExpr levels) opening at)) (after 0) ts.now result }
{
    match opening {
        Opening::Sign(op) => signed(alloc, op, at, levels, room, ts),
        Opening::Paren => enclosed(alloc, at, levels, room, ts),
        Opening::Call(name) => call(alloc, name, at, levels, room, ts),
    }
}

/// An operand.
#[cycle(expr)]
fn unary(
    alloc: Global,
    levels: u8,
    room: usize,
    ts: &[Lexed],
) -> Result<(SrcExpr, &[Lexed]), ParseStop>
    requires { 1 ≤ room }
    ensures { Gives (λ x. (model_of_src_expr x.0, x.1.now)) (Within room (IsUnary levels)) (after 0) ts.now result }
{
    let Some((t, rest)) = front(ts) else {
        return Err(ParseStop::At(0));
    };
    if let Some(opening) = opening_of(&t.word) {
        if !has_room(levels, room, least_of(opening)) {
            return Err(ParseStop::At(ts.len()));
        }
        return opened(alloc, opening, t.at, levels - 1, room - 1, rest);
    }
    match &t.word {
        Word::Number(n) => {
            let node = SrcNode::Num(*n);
            Ok((SrcExpr { at: t.at, node }, rest))
        }
        Word::Name(name) => named(alloc, name, t.at, levels, room - 1, rest),
        _ => Err(ParseStop::At(ts.len())),
    }
}

//! Expressions with their levels: `depth` is how many levels may still be opened.

ghost use Rattle.std.specs.Prelude.{◌≡◌, MatchOption, false, map};
ghost use Rattle.grammar.specs.Reading.{Gives, never};
ghost use Rattle.net_model.specs.declared.words.Operator.TheVariants.{Case, Read, Slice};
ghost use Rattle.grammar.specs.declared.words.Word.TheVariants.{Number, Symbol as Shows};
ghost use Rattle.net_model.specs.declared.words.Symbol.TheVariants.{Comma, RightParen};
ghost use Rattle.net_model.specs.Grammar.{ArmsBehind, IsArms, IsElse, IsExpr, IsOperated, IsPair, IsWidened, NumbersBehind, RowBehind, RowsBehind};
ghost use Rattle.grammar.specs.Tokens.{Before, Behind, ByWord, IsNumber};
ghost use Rattle.net_model.specs.Written.{other_of, model_of_net_expr, model_of_case_row};
ghost use Rattle.net_parser.specs.Inner.Steps.{HasNoNumber, HasNoOperator, OpensNumber, OpensOperator, after_arms, after_expr, after_list, after_rows, expr_word};

use crate::leaf::leaf;
use grammar::{
    ParseStop, begins_with, expect, front, keeping, name_behind, number_behind, number_between,
};
use net_model::{Key, Lexed, NetExpr, Operator, Symbol, Word};
use std::alloc::Global;

/// The operator that the first token is, and the other tokens.
fn operator_at(ts: &[Lexed]) -> Option<(Operator, &[Lexed])>
    ensures { MatchOption result (HasNoOperator ts.now) (λ p. OpensOperator p.0 ts.now p.1.now) }
{
    match front(ts) {
        Some((t, rest)) => match t.word {
            Word::Key(Key::Operator(operator)) => Some((operator, rest)),
            _ => None,
        },
        None => None,
    }
}

/// The number that the first token is, and the other tokens.
fn number_at(ts: &[Lexed]) -> Option<(u64, &[Lexed])>
    ensures { MatchOption result (HasNoNumber ts.now) (λ p. OpensNumber p.0 ts.now p.1.now) }
{
    match front(ts) {
        Some((t, rest)) => match t.word {
            Word::Number(number) => Some((number, rest)),
            _ => None,
        },
        None => None,
    }
}

/// The numbers of a row behind its first one.
fn numbers(alloc: Global, first: u64, ts: &[Lexed]) -> Result<(Vec<u64>, &[Lexed]), ParseStop>
    ensures { Gives (λ x. (x.0.items, x.1.now)) (NumbersBehind first) after_list ts.now result }
{
    let mut numbers = Vec::new(alloc);
    numbers.push(first)?;
    let mut rest = ts;
    'others: while begins_with(Symbol::Comma, rest) {
        let (number, next) = number_behind(Symbol::Comma, rest)?;
        numbers.push(number)?;
        rest = next;
    }
    Ok((numbers, rest))
}

/// An expression.
#[cycle(expr)]
pub fn expr(alloc: Global, depth: u8, ts: &[Lexed]) -> Result<(NetExpr, &[Lexed]), ParseStop>
    ensures { Gives (λ x. (model_of_net_expr x.0, x.1.now)) (IsExpr depth) after_expr ts.now result }
{
    let Some((operator, rest)) = operator_at(ts) else {
        return leaf(alloc, ts);
    };
    if depth == 0 {
        return leaf(alloc, ts);
    }
    operated(alloc, operator, depth - 1, rest)
}

/// What stands behind the word of an operator.
#[cycle(expr)]
fn operated(
    alloc: Global,
    operator: Operator,
    depth: u8,
    ts: &[Lexed],
) -> Result<(NetExpr, &[Lexed]), ParseStop>
    ensures { Gives (λ x. (model_of_net_expr x.0, x.1.now)) (IsOperated (IsExpr depth) operator) after_expr ts.now result }
{
    match operator {
        Operator::Unary(op) => {
            let (a, rest) = enclosed(alloc, Symbol::LeftParen, Symbol::RightParen, depth, ts)?;
            Ok((NetExpr::Un(op, Box::new(alloc, a)?), rest))
        }
        Operator::Binary(op) => {
            let ((a, b), rest) = pair(alloc, depth, ts)?;
            Ok((NetExpr::Bin(op, a, b), rest))
        }
        Operator::Cat => {
            let ((a, b), rest) = pair(alloc, depth, ts)?;
            Ok((NetExpr::Cat(a, b), rest))
        }
        Operator::Slice => sliced(alloc, depth, ts),
        Operator::Zext => {
            let ((a, width), rest) = widened(alloc, depth, ts)?;
            Ok((NetExpr::Zext(a, width), rest))
        }
        Operator::Sext => {
            let ((a, width), rest) = widened(alloc, depth, ts)?;
            Ok((NetExpr::Sext(a, width), rest))
        }
        Operator::Read => reading(alloc, depth, ts),
        Operator::Case => choice(alloc, depth, ts),
    }
}

/// A symbol and an expression.
#[cycle(expr)]
pub fn expr_behind(
    alloc: Global,
    symbol: Symbol,
    depth: u8,
    ts: &[Lexed],
) -> Result<(NetExpr, &[Lexed]), ParseStop>
    ensures { Gives (λ x. (model_of_net_expr x.0, x.1.now)) (Behind symbol (IsExpr depth)) after_expr ts.now result }
{
    let rest = expect(symbol, ts)?;
    expr(alloc, depth, rest)
}

/// An expression between two symbols.
#[cycle(expr)]
pub fn enclosed(
    alloc: Global,
    first: Symbol,
    last: Symbol,
    depth: u8,
    ts: &[Lexed],
) -> Result<(NetExpr, &[Lexed]), ParseStop>
    requires { expr_word (Shows last) ≡ false }
    ensures { Gives (λ x. (model_of_net_expr x.0, x.1.now)) (Before (Behind first (IsExpr depth)) last) never ts.now result }
{
    let (a, rest) = expr_behind(alloc, first, depth, ts)?;
    keeping(a, expect(last, rest))
}

/// Two operands.
#[cycle(expr)]
fn pair(
    alloc: Global,
    depth: u8,
    ts: &[Lexed],
) -> Result<((Box<NetExpr>, Box<NetExpr>), &[Lexed]), ParseStop>
    ensures { Gives (λ x. ((model_of_net_expr x.0.0.value, model_of_net_expr x.0.1.value), x.1.now))
        (IsPair (IsExpr depth)) never ts.now result }
{
    let (a, rest) = expr_behind(alloc, Symbol::LeftParen, depth, ts)?;
    let a = Box::new(alloc, a)?;
    let (b, rest) = enclosed(alloc, Symbol::Comma, Symbol::RightParen, depth, rest)?;
    let b = Box::new(alloc, b)?;
    Ok(((a, b), rest))
}

/// An operand and a width.
#[cycle(expr)]
fn widened(
    alloc: Global,
    depth: u8,
    ts: &[Lexed],
) -> Result<((Box<NetExpr>, u64), &[Lexed]), ParseStop>
    ensures { Gives (λ x. ((model_of_net_expr x.0.0.value, x.0.1), x.1.now)) (IsWidened (IsExpr depth)) never ts.now result }
{
    let (a, rest) = expr_behind(alloc, Symbol::LeftParen, depth, ts)?;
    let a = Box::new(alloc, a)?;
    let (width, rest) = number_between(Symbol::Comma, Symbol::RightParen, rest)?;
    Ok(((a, width), rest))
}

/// A slice, behind its word.
#[cycle(expr)]
fn sliced(alloc: Global, depth: u8, ts: &[Lexed]) -> Result<(NetExpr, &[Lexed]), ParseStop>
    ensures { Gives (λ x. (model_of_net_expr x.0, x.1.now)) (IsOperated (IsExpr depth) Slice) after_expr ts.now result }
{
    let (a, rest) = expr_behind(alloc, Symbol::LeftParen, depth, ts)?;
    let a = Box::new(alloc, a)?;
    let (high, rest) = number_behind(Symbol::Comma, rest)?;
    let (low, rest) = number_between(Symbol::Comma, Symbol::RightParen, rest)?;
    Ok((NetExpr::Slice(a, high, low), rest))
}

/// A read, behind its word.
#[cycle(expr)]
fn reading(alloc: Global, depth: u8, ts: &[Lexed]) -> Result<(NetExpr, &[Lexed]), ParseStop>
    ensures { Gives (λ x. (model_of_net_expr x.0, x.1.now)) (IsOperated (IsExpr depth) Read) after_expr ts.now result }
{
    let (memory, rest) = name_behind(alloc, Symbol::LeftParen, ts)?;
    let (a, rest) = enclosed(alloc, Symbol::Comma, Symbol::RightParen, depth, rest)?;
    let a = Box::new(alloc, a)?;
    Ok((NetExpr::Read(memory, a), rest))
}

/// A case, behind its word.
#[cycle(expr)]
fn choice(alloc: Global, depth: u8, ts: &[Lexed]) -> Result<(NetExpr, &[Lexed]), ParseStop>
    ensures { Gives (λ x. (model_of_net_expr x.0, x.1.now)) (IsOperated (IsExpr depth) Case) after_expr ts.now result }
{
    let (sel, rest) = expr(alloc, depth, ts)?;
    let sel = Box::new(alloc, sel)?;
    let ((rows, other), after) = braced(alloc, depth, rest)?;
    Ok((
        NetExpr::Case {
            sel,
            rows,
            rest: other,
        },
        after,
    ))
}

/// The rows and the rest of a case, in braces.
#[cycle(expr)]
fn braced(alloc: Global, depth: u8, ts: &[Lexed]) -> Result<(Arms, &[Lexed]), ParseStop>
    ensures { Gives (λ x. ((map model_of_case_row x.0.0.items, other_of x.0.1), x.1.now))
        (IsArms (IsExpr depth)) never ts.now result }
{
    let rest = expect(Symbol::LeftBrace, ts)?;
    let (arms, rest) = arms(alloc, depth, rest)?;
    keeping(arms, expect(Symbol::RightBrace, rest))
}

/// The rows of a case, and the value for all other numbers.
type Arms = (Vec<(Vec<u64>, NetExpr)>, Option<Box<NetExpr>>);

/// Rows and a rest, of which at least one stands there.
#[cycle(expr)]
fn arms(alloc: Global, depth: u8, ts: &[Lexed]) -> Result<(Arms, &[Lexed]), ParseStop>
    ensures { Gives (λ x. ((map model_of_case_row x.0.0.items, other_of x.0.1), x.1.now))
        (ByWord (ArmsBehind (IsExpr depth))) after_arms ts.now result }
{
    if let Some((number, rest)) = number_at(ts) {
        return rows_behind(alloc, number, depth, rest);
    }
    let rest = expect(Symbol::Else, ts)?;
    let (a, rest) = enclosed(alloc, Symbol::Colon, Symbol::Semicolon, depth, rest)?;
    let a = Box::new(alloc, a)?;
    Ok(((Vec::new(alloc), Some(a)), rest))
}

/// Rows and maybe a rest, behind the first number.
#[cycle(expr)]
fn rows_behind(
    alloc: Global,
    number: u64,
    depth: u8,
    ts: &[Lexed],
) -> Result<(Arms, &[Lexed]), ParseStop>
    ensures { Gives (λ x. ((map model_of_case_row x.0.0.items, other_of x.0.1), x.1.now))
        (ArmsBehind (IsExpr depth) (Number number) 0) after_arms ts.now result }
{
    let (first, rest) = row(alloc, number, depth, ts)?;
    let (rows, rest) = rows(alloc, first, depth, rest)?;
    let (other, rest) = otherwise(alloc, depth, rest)?;
    Ok(((rows, other), rest))
}

/// A row behind its first number.
#[cycle(expr)]
fn row(
    alloc: Global,
    number: u64,
    depth: u8,
    ts: &[Lexed],
) -> Result<((Vec<u64>, NetExpr), &[Lexed]), ParseStop>
    ensures { Gives (λ x. (model_of_case_row x.0, x.1.now)) (RowBehind (IsExpr depth) number) never ts.now result }
{
    let (numbers, rest) = numbers(alloc, number, ts)?;
    let (a, rest) = enclosed(alloc, Symbol::Colon, Symbol::Semicolon, depth, rest)?;
    Ok(((numbers, a), rest))
}

/// The first row and the rows behind it.
#[cycle(expr)]
fn rows(
    alloc: Global,
    first: (Vec<u64>, NetExpr),
    depth: u8,
    ts: &[Lexed],
) -> Result<(Vec<(Vec<u64>, NetExpr)>, &[Lexed]), ParseStop>
    ensures { Gives (λ x. (map model_of_case_row x.0.items, x.1.now))
        (RowsBehind (IsExpr depth) (model_of_case_row first)) after_rows ts.now result }
{
    let mut rows = Vec::new(alloc);
    rows.push(first)?;
    let mut rest = ts;
    'others: while let Some((number, after)) = number_at(rest) {
        let (other, next) = row(alloc, number, depth, after)?;
        rows.push(other)?;
        rest = next;
    }
    Ok((rows, rest))
}

/// The rest of a case, if there is one.
#[cycle(expr)]
fn otherwise(
    alloc: Global,
    depth: u8,
    ts: &[Lexed],
) -> Result<(Option<Box<NetExpr>>, &[Lexed]), ParseStop>
    ensures { Gives (λ x. (other_of x.0, x.1.now)) (IsElse (IsExpr depth)) after_arms ts.now result }
{
    if begins_with(Symbol::Else, ts) {
        let rest = expect(Symbol::Else, ts)?;
        let (a, rest) = enclosed(alloc, Symbol::Colon, Symbol::Semicolon, depth, rest)?;
        let a = Box::new(alloc, a)?;
        Ok((Some(a), rest))
    } else {
        Ok((None, ts))
    }
}

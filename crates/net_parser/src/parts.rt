//! Parts of items.

ghost use Rattle.std.specs.Prelude.{◌≡◌, ◌↔◌, IsTrue, map};
ghost use Rattle.grammar.specs.Reading.{Gives, ListOf, never};
ghost use Rattle.net_model.specs.declared.words.Symbol.TheVariants.{LeftBrace, LeftParen, RightBrace, RightParen, Semicolon};
ghost use Rattle.grammar.specs.Tokens.{Before, Behind, BeginsSo};
ghost use Rattle.net_model.specs.Grammar.{IsBinding, IsBindings, IsDirection, IsDriver, IsDrivers, IsEquation, IsLinks, IsPort, IsPorts, IsSized, IsWhen};
ghost use Rattle.net_model.specs.Written.{binding_of, driver_of, model_of_net_expr, when_of};
ghost use Rattle.net_parser.specs.Inner.Steps.{after_drivers, after_equations, after_expr, after_links, after_list, after_when, first_word, name_word};

use crate::expression::{enclosed, expr, expr_behind};
use grammar::{ParseStop, begins_with, expect, front, is_symbol, keeping, name, number_behind};
use net_model::{Ident, Key, Lexed, NetExpr, Port, Symbol, Word};
use rec_bits::Items;
use std::alloc::Global;

/// How many levels an expression may have.
pub const LEVELS: u8 = 64;

/// A name and its width.
pub fn sized_name(alloc: Global, ts: &[Lexed]) -> Result<((Ident, u64), &[Lexed]), ParseStop>
    ensures { Gives (λ x. (x.0, x.1.now)) IsSized never ts.now result }
{
    let (name, rest) = name(alloc, ts)?;
    let (width, rest) = number_behind(Symbol::Colon, rest)?;
    Ok(((name, width), rest))
}

/// An enable, if there is one.
fn when(alloc: Global, ts: &[Lexed]) -> Result<(Option<NetExpr>, &[Lexed]), ParseStop>
    ensures { Gives (λ x. (when_of x.0, x.1.now)) IsWhen after_when ts.now result }
{
    if begins_with(Symbol::When, ts) {
        let (enable, rest) = expr_behind(alloc, Symbol::When, LEVELS, ts)?;
        Ok((Some(enable), rest))
    } else {
        Ok((None, ts))
    }
}

/// An enable, if there is one, and the end of the item.
pub fn when_end(alloc: Global, ts: &[Lexed]) -> Result<(Option<NetExpr>, &[Lexed]), ParseStop>
    ensures { Gives (λ x. (when_of x.0, x.1.now)) (Before IsWhen Semicolon) never ts.now result }
{
    let (when, rest) = when(alloc, ts)?;
    keeping(when, expect(Symbol::Semicolon, rest))
}

/// Whether the first token begins an expression.
fn begins_expr(ts: &[Lexed]) -> bool
    ensures { IsTrue result ↔ BeginsSo first_word ts.now }
{
    match front(ts) {
        Some((t, _)) => matches!(
            &t.word,
            Word::Name(_) | Word::Number(_) | Word::Key(Key::Operator(_))
        ),
        None => false,
    }
}

/// Whether the first token is a name.
fn begins_name(ts: &[Lexed]) -> bool
    ensures { IsTrue result ↔ BeginsSo name_word ts.now }
{
    match front(ts) {
        Some((t, _)) => matches!(&t.word, Word::Name(_)),
        None => false,
    }
}

/// A driver: its value and its enable.
fn driver(alloc: Global, ts: &[Lexed]) -> Result<((NetExpr, NetExpr), &[Lexed]), ParseStop>
    ensures { Gives (λ x. (driver_of x.0, x.1.now)) IsDriver never ts.now result }
{
    let (value, rest) = expr(alloc, LEVELS, ts)?;
    let (value, (enable, rest)) = keeping(
        value,
        enclosed(alloc, Symbol::When, Symbol::Semicolon, LEVELS, rest),
    )?;
    Ok(((value, enable), rest))
}

/// One driver or several.
fn drivers(alloc: Global, ts: &[Lexed]) -> Result<(Items<(NetExpr, NetExpr)>, &[Lexed]), ParseStop>
    ensures { Gives (λ x. (map driver_of x.0, x.1.now)) IsDrivers after_drivers ts.now result }
{
    let (first, rest) = driver(alloc, ts)?;
    let mut drivers = Items::new(alloc);
    drivers.push(first)?;
    let mut rest = rest;
    'others: while begins_expr(rest) {
        let (other, next) = driver(alloc, rest)?;
        drivers.push(other)?;
        rest = next;
    }
    Ok((drivers, rest))
}

/// The drivers of a bus, in braces.
pub fn braced_drivers(
    alloc: Global,
    ts: &[Lexed],
) -> Result<(Items<(NetExpr, NetExpr)>, &[Lexed]), ParseStop>
    ensures { Gives (λ x. (map driver_of x.0, x.1.now))
        (Behind LeftBrace (Before IsDrivers RightBrace)) never ts.now result }
{
    let rest = expect(Symbol::LeftBrace, ts)?;
    let (drivers, rest) = drivers(alloc, rest)?;
    keeping(drivers, expect(Symbol::RightBrace, rest))
}

/// A name and what it is given.
fn binding(alloc: Global, ts: &[Lexed]) -> Result<((Ident, NetExpr), &[Lexed]), ParseStop>
    ensures { Gives (λ x. (binding_of x.0, x.1.now)) IsBinding after_expr ts.now result }
{
    let (name, rest) = name(alloc, ts)?;
    let (value, rest) = expr_behind(alloc, Symbol::Equals, LEVELS, rest)?;
    Ok(((name, value), rest))
}

/// An equation of a module.
fn equation(alloc: Global, ts: &[Lexed]) -> Result<((Ident, NetExpr), &[Lexed]), ParseStop>
    ensures { Gives (λ x. (binding_of x.0, x.1.now)) IsEquation never ts.now result }
{
    let (equation, rest) = binding(alloc, ts)?;
    keeping(equation, expect(Symbol::Semicolon, rest))
}

/// The equations of a module.
fn equations(alloc: Global, ts: &[Lexed]) -> Result<(Items<(Ident, NetExpr)>, &[Lexed]), ParseStop>
    ensures { Gives (λ x. (map binding_of x.0, x.1.now)) (ListOf IsEquation) after_equations ts.now result }
{
    let mut equations = Items::new(alloc);
    let mut rest = ts;
    'others: while begins_name(rest) {
        let (other, next) = equation(alloc, rest)?;
        equations.push(other)?;
        rest = next;
    }
    Ok((equations, rest))
}

/// The equations of a module, in braces.
pub fn braced_equations(
    alloc: Global,
    ts: &[Lexed],
) -> Result<(Items<(Ident, NetExpr)>, &[Lexed]), ParseStop>
    ensures { Gives (λ x. (map binding_of x.0, x.1.now))
        (Behind LeftBrace (Before (ListOf IsEquation) RightBrace)) never ts.now result }
{
    let rest = expect(Symbol::LeftBrace, ts)?;
    let (equations, rest) = equations(alloc, rest)?;
    keeping(equations, expect(Symbol::RightBrace, rest))
}

/// One link or several.
fn bindings(alloc: Global, ts: &[Lexed]) -> Result<(Items<(Ident, NetExpr)>, &[Lexed]), ParseStop>
    ensures { Gives (λ x. (map binding_of x.0, x.1.now)) IsBindings after_links ts.now result }
{
    let (first, rest) = binding(alloc, ts)?;
    let mut links = Items::new(alloc);
    links.push(first)?;
    let mut rest = rest;
    'others: while begins_with(Symbol::Comma, rest) {
        let next = expect(Symbol::Comma, rest)?;
        let (other, next) = binding(alloc, next)?;
        links.push(other)?;
        rest = next;
    }
    Ok((links, rest))
}

/// The links of a part.
fn links(alloc: Global, ts: &[Lexed]) -> Result<(Items<(Ident, NetExpr)>, &[Lexed]), ParseStop>
    ensures { Gives (λ x. (map binding_of x.0, x.1.now)) IsLinks after_links ts.now result }
{
    if begins_name(ts) {
        let (links, rest) = bindings(alloc, ts)?;
        Ok((links, rest))
    } else {
        Ok((Items::new(alloc), ts))
    }
}

/// The links of a part, in parentheses.
pub fn enclosed_links(
    alloc: Global,
    ts: &[Lexed],
) -> Result<(Items<(Ident, NetExpr)>, &[Lexed]), ParseStop>
    ensures { Gives (λ x. (map binding_of x.0, x.1.now))
        (Behind LeftParen (Before IsLinks RightParen)) never ts.now result }
{
    let rest = expect(Symbol::LeftParen, ts)?;
    let (links, rest) = links(alloc, rest)?;
    keeping(links, expect(Symbol::RightParen, rest))
}

/// Whether a port is an output.
fn direction(ts: &[Lexed]) -> Result<(bool, &[Lexed]), ParseStop>
    ensures { Gives (λ x. (x.0, x.1.now)) IsDirection never ts.now result }
{
    let Some((t, rest)) = front(ts) else {
        return Err(ParseStop::At(0));
    };
    if is_symbol(&t.word, Symbol::Out) {
        return Ok((true, rest));
    }
    if is_symbol(&t.word, Symbol::In) {
        return Ok((false, rest));
    }
    Err(ParseStop::At(ts.len()))
}

/// A port.
fn port(alloc: Global, ts: &[Lexed]) -> Result<(Port, &[Lexed]), ParseStop>
    ensures { Gives (λ x. (x.0, x.1.now)) IsPort never ts.now result }
{
    let (output, rest) = direction(ts)?;
    let ((name, width), rest) = sized_name(alloc, rest)?;
    Ok((
        Port {
            output,
            name,
            width,
        },
        rest,
    ))
}

/// One port or several.
fn ports(alloc: Global, ts: &[Lexed]) -> Result<(Items<Port>, &[Lexed]), ParseStop>
    ensures { Gives (λ x. (x.0, x.1.now)) IsPorts after_list ts.now result }
{
    let (first, rest) = port(alloc, ts)?;
    let mut ports = Items::new(alloc);
    ports.push(first)?;
    let mut rest = rest;
    'others: while begins_with(Symbol::Comma, rest) {
        let next = expect(Symbol::Comma, rest)?;
        let (other, next) = port(alloc, next)?;
        ports.push(other)?;
        rest = next;
    }
    Ok((ports, rest))
}

/// The ports of a module, in parentheses.
pub fn enclosed_ports(alloc: Global, ts: &[Lexed]) -> Result<(Items<Port>, &[Lexed]), ParseStop>
    ensures { Gives (λ x. (x.0, x.1.now)) (Behind LeftParen (Before IsPorts RightParen)) never ts.now result }
{
    let rest = expect(Symbol::LeftParen, ts)?;
    let (ports, rest) = ports(alloc, rest)?;
    keeping(ports, expect(Symbol::RightParen, rest))
}

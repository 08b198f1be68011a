//! Items.

ghost use Rattle.std.specs.Prelude.{◌≡◌, MatchOption, map};
ghost use Rattle.grammar.specs.Reading.{Gives, never};
ghost use Rattle.net_model.specs.declared.words.ItemWord.TheVariants.{Bus, Code, Module, Net, Part};
ghost use Rattle.net_model.specs.declared.words.Symbol.TheVariants.{At, Semicolon};
ghost use Rattle.grammar.specs.Tokens.{Before, Behind, ByWord, IsName};
ghost use Rattle.net_model.specs.Grammar.{IsBank, IsCells, IsFed, IsItem, IsItems, IsLatch, IsWrite, IsWritten, ItemBehind, WriteBehind, no_write};
ghost use Rattle.net_model.specs.Written.{const, model_of_unit, model_of_net_expr, when_of};
ghost use Rattle.net_parser.specs.Inner.Steps.{HasNoItem, OpensItem, after_items};

use crate::expression::{enclosed, expr, expr_behind};
use crate::parts::{
    LEVELS, braced_drivers, braced_equations, enclosed_links, enclosed_ports, sized_name, when_end,
};
use grammar::{ParseStop, expect, front, is_symbol, keeping, name, name_behind, number_behind};
use net_model::{Ident, ItemWord, Key, Lexed, NetExpr, RegisterKind, Space, Symbol, Unit, Word};
use rec_bits::Items;
use std::alloc::Global;

/// The word of an item that the first token is, and the other tokens.
fn item_at(ts: &[Lexed]) -> Option<(ItemWord, &[Lexed])>
    ensures { MatchOption result (HasNoItem ts.now) (λ p. OpensItem p.0 ts.now p.1.now) }
{
    match front(ts) {
        Some((t, rest)) => match t.word {
            Word::Key(Key::Item(word)) => Some((word, rest)),
            _ => None,
        },
        None => None,
    }
}

/// The name of what counts through an instruction memory, and the end of the item.
fn counter(alloc: Global, ts: &[Lexed]) -> Result<(Ident, &[Lexed]), ParseStop>
    ensures { Gives (λ x. (x.0, x.1.now)) (Before (Behind At IsName) Semicolon) never ts.now result }
{
    let (name, rest) = name_behind(alloc, Symbol::At, ts)?;
    keeping(name, expect(Symbol::Semicolon, rest))
}

/// An instruction memory, behind its word.
fn code(alloc: Global, ts: &[Lexed]) -> Result<(Unit, &[Lexed]), ParseStop>
    ensures { Gives (λ x. (model_of_unit x.0, x.1.now)) (ItemBehind Code) never ts.now result }
{
    let ((name, bits), rest) = sized_name(alloc, ts)?;
    let (size, rest) = number_behind(Symbol::Size, rest)?;
    let (counter, rest) = counter(alloc, rest)?;
    let unit = Unit::Code {
        name,
        bits,
        size,
        counter,
    };
    Ok((unit, rest))
}

/// What a storage takes, or where, behind a symbol, with its enable.
type Fed = (NetExpr, Option<NetExpr>);

/// An expression behind a symbol, an enable, if there is one, and the end of the item.
fn fed(alloc: Global, symbol: Symbol, ts: &[Lexed]) -> Result<(Fed, &[Lexed]), ParseStop>
    ensures { Gives (λ x. ((model_of_net_expr x.0.0, when_of x.0.1), x.1.now)) (IsFed symbol) never ts.now result }
{
    let (input, rest) = expr_behind(alloc, symbol, LEVELS, ts)?;
    let (input, (when, rest)) = keeping(input, when_end(alloc, rest))?;
    Ok(((input, when), rest))
}

/// What cells are written with: a value, and behind it where and when.
type Write = (NetExpr, Fed);

fn zero(width: u64) -> NetExpr
    ensures { model_of_net_expr result ≡ const 0 width }
{
    NetExpr::Const { value: 0, width }
}

/// Three constants of value 0 for what never writes.
fn no_write(width: u64, addr_width: u64) -> Write
    ensures { (model_of_net_expr result.0, (model_of_net_expr result.1.0, when_of result.1.1)) ≡ no_write width addr_width }
{
    (zero(width), (zero(addr_width), Some(zero(1))))
}

/// A register or the mode, behind its word.
fn register(alloc: Global, kind: RegisterKind, ts: &[Lexed]) -> Result<(Unit, &[Lexed]), ParseStop>
    ensures { Gives (λ x. (model_of_unit x.0, x.1.now)) (IsLatch kind) never ts.now result }
{
    let ((name, width), rest) = sized_name(alloc, ts)?;
    let ((input, when), rest) = fed(alloc, Symbol::In, rest)?;
    let unit = Unit::Register {
        kind,
        name,
        width,
        input,
        when,
    };
    Ok((unit, rest))
}

/// What is written to cells, where and when, and the end of the item, behind `write`.
fn stored(alloc: Global, ts: &[Lexed]) -> Result<(Write, &[Lexed]), ParseStop>
    ensures { Gives (λ x. ((model_of_net_expr x.0.0, (model_of_net_expr x.0.1.0, when_of x.0.1.1)), x.1.now))
        IsWritten never ts.now result }
{
    let (value, rest) = expr(alloc, LEVELS, ts)?;
    let (value, (fed, rest)) = keeping(value, fed(alloc, Symbol::At, rest))?;
    Ok(((value, fed), rest))
}

/// What is written to a memory or a file, where and when, and the end of the item.
fn written(alloc: Global, ts: &[Lexed]) -> Result<(Write, &[Lexed]), ParseStop>
    ensures { Gives (λ x. ((model_of_net_expr x.0.0, (model_of_net_expr x.0.1.0, when_of x.0.1.1)), x.1.now))
        IsWrite never ts.now result }
{
    let rest = expect(Symbol::Write, ts)?;
    stored(alloc, rest)
}

/// What is written to a bank, where and when, and the end of the item. Where nothing is, three
/// constants of value 0 stand for it.
fn maybe_written(
    alloc: Global,
    width: u64,
    addr_width: u64,
    ts: &[Lexed],
) -> Result<(Write, &[Lexed]), ParseStop>
    ensures { Gives (λ x. ((model_of_net_expr x.0.0, (model_of_net_expr x.0.1.0, when_of x.0.1.1)), x.1.now))
        (ByWord (WriteBehind (no_write width addr_width))) never ts.now result }
{
    let Some((t, rest)) = front(ts) else {
        return Err(ParseStop::At(0));
    };
    if is_symbol(&t.word, Symbol::Semicolon) {
        return Ok((no_write(width, addr_width), rest));
    }
    if is_symbol(&t.word, Symbol::Write) {
        return stored(alloc, rest);
    }
    Err(ParseStop::At(ts.len()))
}

/// A memory or a register file, behind its word.
fn memory(alloc: Global, space: Space, ts: &[Lexed]) -> Result<(Unit, &[Lexed]), ParseStop>
    ensures { Gives (λ x. (model_of_unit x.0, x.1.now)) (IsCells space) never ts.now result }
{
    let ((name, width), rest) = sized_name(alloc, ts)?;
    let (size, rest) = number_behind(Symbol::Size, rest)?;
    let (addr_width, rest) = number_behind(Symbol::Addr, rest)?;
    let ((value, (addr, when)), rest) = written(alloc, rest)?;
    let unit = Unit::Memory {
        space,
        name,
        width,
        size,
        addr_width,
        value,
        addr,
        when,
    };
    Ok((unit, rest))
}

/// A bank, behind its word.
fn bank(alloc: Global, ts: &[Lexed]) -> Result<(Unit, &[Lexed]), ParseStop>
    ensures { Gives (λ x. (model_of_unit x.0, x.1.now)) IsBank never ts.now result }
{
    let ((name, width), rest) = sized_name(alloc, ts)?;
    let (size, rest) = number_behind(Symbol::Size, rest)?;
    let (addr_width, rest) = number_behind(Symbol::Addr, rest)?;
    let ((value, (addr, when)), rest) = maybe_written(alloc, width, addr_width, rest)?;
    let unit = Unit::Memory {
        space: Space::File,
        name,
        width,
        size,
        addr_width,
        value,
        addr,
        when,
    };
    Ok((unit, rest))
}

/// A net, behind its word.
fn net(alloc: Global, ts: &[Lexed]) -> Result<(Unit, &[Lexed]), ParseStop>
    ensures { Gives (λ x. (model_of_unit x.0, x.1.now)) (ItemBehind Net) never ts.now result }
{
    let ((name, width), rest) = sized_name(alloc, ts)?;
    let (value, rest) = enclosed(alloc, Symbol::Equals, Symbol::Semicolon, LEVELS, rest)?;
    Ok((Unit::Net { name, width, value }, rest))
}

/// A bus, behind its word.
fn bus(alloc: Global, ts: &[Lexed]) -> Result<(Unit, &[Lexed]), ParseStop>
    ensures { Gives (λ x. (model_of_unit x.0, x.1.now)) (ItemBehind Bus) never ts.now result }
{
    let ((name, width), rest) = sized_name(alloc, ts)?;
    let (drivers, rest) = braced_drivers(alloc, rest)?;
    Ok((
        Unit::Bus {
            name,
            width,
            drivers,
        },
        rest,
    ))
}

/// A module, behind its word.
fn module(alloc: Global, ts: &[Lexed]) -> Result<(Unit, &[Lexed]), ParseStop>
    ensures { Gives (λ x. (model_of_unit x.0, x.1.now)) (ItemBehind Module) never ts.now result }
{
    let (name, rest) = name(alloc, ts)?;
    let (ports, rest) = enclosed_ports(alloc, rest)?;
    let (equations, rest) = braced_equations(alloc, rest)?;
    Ok((
        Unit::Module {
            name,
            ports,
            equations,
        },
        rest,
    ))
}

/// A part, behind its word.
fn part(alloc: Global, ts: &[Lexed]) -> Result<(Unit, &[Lexed]), ParseStop>
    ensures { Gives (λ x. (model_of_unit x.0, x.1.now)) (ItemBehind Part) never ts.now result }
{
    let (name, rest) = name(alloc, ts)?;
    let (module, rest) = name_behind(alloc, Symbol::Colon, rest)?;
    let (links, rest) = enclosed_links(alloc, rest)?;
    let rest = expect(Symbol::Semicolon, rest)?;
    Ok((
        Unit::Part {
            name,
            module,
            links,
        },
        rest,
    ))
}

/// An item behind its word.
fn item_behind(alloc: Global, word: ItemWord, ts: &[Lexed]) -> Result<(Unit, &[Lexed]), ParseStop>
    ensures { Gives (λ x. (model_of_unit x.0, x.1.now)) (ItemBehind word) never ts.now result }
{
    match word {
        ItemWord::Code => code(alloc, ts),
        ItemWord::Register => register(alloc, RegisterKind::Plain, ts),
        ItemWord::Mode => register(alloc, RegisterKind::Mode, ts),
        ItemWord::Memory => memory(alloc, Space::Memory, ts),
        ItemWord::File => memory(alloc, Space::File, ts),
        ItemWord::Bank => bank(alloc, ts),
        ItemWord::Net => net(alloc, ts),
        ItemWord::Bus => bus(alloc, ts),
        ItemWord::Module => module(alloc, ts),
        ItemWord::Part => part(alloc, ts),
    }
}

/// An item.
fn item(alloc: Global, ts: &[Lexed]) -> Result<(Unit, &[Lexed]), ParseStop>
    ensures { Gives (λ x. (model_of_unit x.0, x.1.now)) IsItem never ts.now result }
{
    let Some((word, rest)) = item_at(ts) else {
        return Err(ParseStop::At(ts.len()));
    };
    item_behind(alloc, word, rest)
}

/// The items at the front, one at least.
pub fn items(alloc: Global, ts: &[Lexed]) -> Result<(Items<Unit>, &[Lexed]), ParseStop>
    ensures { Gives (λ x. (map model_of_unit x.0, x.1.now)) IsItems after_items ts.now result }
{
    let (first, rest) = item(alloc, ts)?;
    let mut items = Items::new(alloc);
    items.push(first)?;
    let mut rest = rest;
    'others: while let Some((word, after)) = item_at(rest) {
        let (other, next) = item_behind(alloc, word, after)?;
        items.push(other)?;
        rest = next;
    }
    Ok((items, rest))
}

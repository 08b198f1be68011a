//! The line of a word.

ghost use Rattle.std.specs.Prelude.{◌≡◌, ◌<◌, ◌^◌, ◌↔◌, true, All, length, map, slice_get, IfOk, OnOk};
ghost use Rattle.std.specs.List.{flat_map};
ghost use Rattle.bit_bdd.specs.Diagrams.{has_word};
ghost use Rattle.net_model.specs.declared.hardware.Netlist.{Netlist};
ghost use Rattle.net_model.specs.Transfers.{IsClean};
ghost use Rattle.sym_expr.specs.Pools.{expr_of_id};
ghost use Rattle.transfer_set.specs.Ready.{IsReady};
ghost use Rattle.transfer_set.specs.Rows.{row_patterns};
ghost use Rattle.asm_words.specs.Shown.{IsLineOf, item_of};
ghost use Rattle.asm_words.specs.Slices.{once, slices};
ghost use Rattle.asm_words.specs.Tables.{HasExprs, HasSets};
ghost use Rattle.asm_words.specs.Inner.Given.{SliceFits, numbers_in, row_holds, row_slices, with_slice, with_slices};

use crate::slices::Slice;
use asm_text::{Item, Line};
use bit_bdd::{Book, SetId};
use rec_bits::{Items, NoMemory, slice};
use std::alloc::Global;
use sym_expr::{ExprId, Node, Pool};
use transfer_set::Patterns;

// Adds a slice, unless it stands there.
fn add_slice(found: &mut Items<Slice>, slice: Slice) -> Result<(), NoMemory>
    ensures { OnOk result (found.new ≡ with_slice found.old slice) }
{
    if !found.as_slice().contains(&slice) {
        found.push(slice)?;
    }
    Ok(())
}

// Adds the slices of the instruction word in an expression.
fn add_slices(pool: &Pool, found: &mut Items<Slice>, expr: ExprId) -> Result<(), NoMemory>
    requires { expr < length pool.now }
    ensures { OnOk result (found.new ≡ with_slices found.old (slices (expr_of_id pool.now expr))) }
{
    match pool.node(expr) {
        Node::Word(width) => add_slice(
            found,
            Slice {
                hi: width - 1,
                lo: 0,
            },
        ),
        Node::Reg(..) | Node::Const { .. } => Ok(()),
        Node::Read(a, _)
        | Node::Cell(a, _)
        | Node::Un(_, a)
        | Node::Zext(a, _)
        | Node::Sext(a, _) => { add_slices(pool, found, a) }
        Node::Bin(_, a, b) | Node::Cat(a, b) => {
            add_slices(pool, found, a)?;
            add_slices(pool, found, b)
        }
        Node::Slice(a, hi, lo) => match pool.node(a) {
            Node::Word(_) => add_slice(found, Slice { hi, lo }),
            _ => add_slices(pool, found, a),
        },
        Node::Select(c, a, b) => {
            add_slices(pool, found, c)?;
            add_slices(pool, found, a)?;
            add_slices(pool, found, b)
        }
    }
}

// Adds those in the transfer of a pattern: of its address first.
fn add_transfer(
    pool: &Pool,
    patterns: &Patterns,
    found: &mut Items<Slice>,
    number: u32,
) -> Result<(), NoMemory>
    requires { HasExprs pool.now patterns.now }
    ensures { OnOk result (found.new
        ≡ with_slices found.old (row_slices pool.now (slice_get patterns.now.rows number))) }
{
    let Some((addr, value)) = patterns.expr_of(number) else {
        return Ok(());
    };
    if let Some(addr) = addr {
        add_slices(pool, found, addr)?;
    }
    add_slices(pool, found, value)
}

// The slices of the instruction word in the transfers of patterns, each once.
fn slices_of(
    alloc: Global,
    pool: &Pool,
    patterns: &Patterns,
    numbers: &[u32],
) -> Result<Items<Slice>, NoMemory>
    requires { HasExprs pool.now patterns.now }
    ensures found { IfOk result (λ found. found
        ≡ once (flat_map (λ n. row_slices pool.now (slice_get patterns.now.rows n)) numbers.now)) }
    ensures fits { IfOk result (λ found. All SliceFits found) }
{
    // the number of ids tells that all expressions fit their widths
    let _ = pool.len();
    let mut found = Items::new(alloc);
    for number in numbers {
        add_transfer(pool, patterns, &mut found, *number)?;
    }
    Ok(found)
}

// Whether the words of the pattern of this number hold a word.
fn gives(book: &Book, patterns: &Patterns, number: u32, word: u64) -> bool
    requires { HasSets book.now patterns.now }
    ensures { result ≡ row_holds book.now word (slice_get patterns.now.rows number) }
{
    match patterns.set_of(number) {
        Some(set) => book.holds(set, word),
        None => false,
    }
}

// The patterns whose words hold a word, by their numbers.
fn numbers_of(
    alloc: Global,
    book: &Book,
    patterns: &Patterns,
    word: u64,
) -> Result<Items<u32>, NoMemory>
    requires { HasSets book.now patterns.now }
    ensures { IfOk result (λ numbers. numbers ≡ numbers_in book.now patterns.now.rows 0 word) }
{
    let mut numbers = Items::new(alloc);
    for number in 0..patterns.len() {
        if gives(book, patterns, number, word) {
            numbers.push(number)?;
        }
    }
    Ok(numbers)
}

// The bits that a word has in slices.
fn items_of(alloc: Global, slices: &[Slice], word: u64) -> Result<Items<Item>, NoMemory>
    requires { All SliceFits slices.now }
    ensures { IfOk result (λ items. items ≡ map (item_of word) slices.now) }
{
    let mut items = Items::new(alloc);
    for part in slices {
        items.push(Item {
            hi: part.hi,
            lo: part.lo,
            value: slice(word, part.hi, part.lo),
        })?;
    }
    Ok(items)
}

/// The line of a word: the word itself where it isn't in `legal`, the words without clash, and
/// otherwise all transfers that it gives, in order of their storages, with one item for each slice
/// of the instruction word in them, in the order of first occurrence. The patterns' sets are those
/// of the book, and their expressions those of the pool. Want of memory is the only refusal.
pub fn line_of(
    alloc: Global,
    book: &Book,
    pool: &Pool,
    patterns: &Patterns,
    legal: SetId,
    word: u64,
) -> Result<Line, NoMemory>
    requires legal { legal < length book.now.nodes }
    requires sets { HasSets book.now patterns.now }
    requires exprs { HasExprs pool.now patterns.now }
    ensures { IfOk result (λ line. (netlist : Netlist) → IsReady netlist book.now pool.now patterns.now →
        word < 2 ^ book.now.bits → (has_word book.now legal word ≡ true) ↔ IsClean netlist word →
        IsLineOf netlist (row_patterns pool.now patterns.now.rows) word line) }
{
    if !book.holds(legal, word) {
        return Ok(Line::Raw(word));
    }
    let numbers = numbers_of(alloc, book, patterns, word)?;
    let found = slices_of(alloc, pool, patterns, numbers.as_slice())?;
    let items = items_of(alloc, found.as_slice(), word)?;
    Ok(Line::Do {
        patterns: numbers,
        items,
    })
}

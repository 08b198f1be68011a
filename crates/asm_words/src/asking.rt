//! The words of a line.

ghost use Rattle.std.specs.Prelude.{◌≡◌, ◌++◌, ◌<◌, ◌≤◌, ◌^◌, ◌↔◌, true, ℕ, List, All, length, map, slice_get, IfOk, OnOk};
ghost use Rattle.bit_bdd.specs.Diagrams.{Extends, has_word};
ghost use Rattle.net_model.specs.declared.hardware.Netlist.{Netlist};
ghost use Rattle.sym_expr.specs.declared.pool.Node.{Node};
ghost use Rattle.transfer_set.specs.Ready.{IsReady};
ghost use Rattle.transfer_set.specs.Rows.{row_patterns};
ghost use Rattle.asm_text.specs.Lines.{ItemFits};
ghost use Rattle.asm_words.specs.Asked.{DoesLine, IsWordOfLine};
ghost use Rattle.asm_words.specs.Tables.{HasLine, HasSets};
ghost use Rattle.asm_words.specs.Inner.Wanted.{item_field, item_fields, is_row_of, kept_set, line_sets, number_set, row_named};

use asm_text::{Item, Line};
use bit_bdd::{Book, SetId};
use nop_synth::{FieldValue, words_held};
use rec_bits::{Items, NoMemory, mask};
use std::alloc::Global;
use transfer_set::{Patterns, span};

// The words of the pattern of this number.
fn set_of(patterns: &Patterns, number: u32) -> SetId
    ensures { result ≡ number_set patterns.now number }
{
    match patterns.set_of(number) {
        Some(set) => set,
        None => 0,
    }
}

// Whether the pattern of this number is of the storage.
fn is_of(patterns: &Patterns, number: u32, storage: u32) -> bool
    ensures { result ≡ is_row_of storage (slice_get patterns.now.rows number) }
{
    match patterns.storage_of(number) {
        Some(of) => of == storage,
        None => false,
    }
}

// Whether one of the patterns of these numbers is.
fn is_named(patterns: &Patterns, numbers: &[u32], storage: u32) -> bool
    ensures { result ≡ row_named patterns.now numbers.now storage }
{
    numbers
        .iter()
        .any(|number| is_of(patterns, *number, storage))
}

// For each pattern its words.
fn given_sets(alloc: Global, patterns: &Patterns, numbers: &[u32]) -> Result<Items<SetId>, NoMemory>
    ensures { IfOk result (λ sets. sets ≡ map (number_set patterns.now) numbers.now) }
{
    let mut sets = Items::new(alloc);
    for number in numbers {
        sets.push(set_of(patterns, *number))?;
    }
    Ok(sets)
}

// Adds the words that keep a storage, unless a pattern is of it.
fn add_storage(
    patterns: &Patterns,
    sets: &mut Items<SetId>,
    numbers: &[u32],
    storage: u32,
) -> Result<(), NoMemory>
    ensures { OnOk result (sets.new ≡ sets.old ++ kept_set patterns.now numbers.now storage) }
{
    if is_named(patterns, numbers, storage) {
        return Ok(());
    }
    if let Some(set) = patterns.keep_set(storage) {
        sets.push(set)?;
    }
    Ok(())
}

// All sets that are to hold a word of the line.
fn wanted_sets(
    alloc: Global,
    patterns: &Patterns,
    numbers: &[u32],
    storages: u32,
) -> Result<Items<SetId>, NoMemory>
    ensures { IfOk result (λ sets. sets ≡ line_sets patterns.now numbers.now storages) }
{
    let mut sets = given_sets(alloc, patterns, numbers)?;
    for storage in 0..storages {
        add_storage(patterns, &mut sets, numbers, storage)?;
    }
    Ok(sets)
}

// An item's bits and value, in their places.
fn field_of(item: Item) -> FieldValue
    requires { ItemFits 64 item }
    ensures { result ≡ item_field item }
{
    FieldValue {
        mask: span(item.hi, item.lo),
        value: item.value << item.lo,
    }
}

// Those of items.
fn fields_of(alloc: Global, items: &[Item]) -> Result<Items<FieldValue>, NoMemory>
    requires { All (ItemFits 64) items.now }
    ensures { IfOk result (λ fields. fields ≡ item_fields items.now) }
{
    let mut fields = Items::new(alloc);
    for item in items {
        fields.push(field_of(*item))?;
    }
    Ok(fields)
}

// The one word of a raw line.
fn one_word(alloc: Global, book: &mut Book, own: u64) -> Result<SetId, NoMemory>
    ensures grows { Extends book.old book.new }
    ensures within { IfOk result (λ id. id < length book.new.nodes) }
    ensures words { IfOk result (λ id. (word : ℕ) → word < 2 ^ book.old.bits →
        (has_word book.new id word ≡ true) ↔ (word ≡ own)) }
{
    let width = book.bits();
    // the size tells that the second id is the set of all words
    let _ = book.size();
    let field = FieldValue {
        mask: mask(width),
        value: own,
    };
    words_held(alloc, book, width, 1, &[], &[field])
}

// The words of a line of transfers and items.
fn doing(
    alloc: Global,
    book: &mut Book,
    patterns: &Patterns,
    numbers: &[u32],
    items: &[Item],
    storages: u32,
) -> Result<SetId, NoMemory>
    requires sets { HasSets book.old patterns.now }
    requires storages { length patterns.now.keeps ≡ storages }
    requires some { 0 < storages }
    requires items { All (ItemFits book.old.bits) items.now }
    ensures grows { Extends book.old book.new }
    ensures within { IfOk result (λ id. id < length book.new.nodes) }
    ensures words { IfOk result (λ id. (netlist : Netlist) (pool : List Node) →
        IsReady netlist book.old pool patterns.now → (word : ℕ) → word < 2 ^ book.old.bits →
        (has_word book.new id word ≡ true)
        ↔ DoesLine netlist (row_patterns pool patterns.now.rows) numbers.now items.now word) }
{
    let width = book.bits();
    // the size tells what the first two ids mean
    let _ = book.size();
    let sets = wanted_sets(alloc, patterns, numbers, storages)?;
    let fields = fields_of(alloc, items)?;
    words_held(alloc, book, width, 1, sets.as_slice(), fields.as_slice())
}

/// The words of a line: its one word where it is raw, and otherwise the words without clash that
/// give each named storage its transfer, let every other of the `storages` keep, and have each
/// item's bits. The line's patterns are those of the table, and its word or items fit the book's
/// bits.
///
/// The patterns' sets are those of the book, which grows, and what it held means what it meant.
/// Want of memory is the only refusal.
pub fn words(
    alloc: Global,
    book: &mut Book,
    patterns: &Patterns,
    line: &Line,
    storages: u32,
) -> Result<SetId, NoMemory>
    requires sets { HasSets book.old patterns.now }
    requires storages { length patterns.now.keeps ≡ storages }
    requires some { 0 < storages }
    requires line { HasLine book.old.bits patterns.now line.now }
    ensures grows { Extends book.old book.new }
    ensures within { IfOk result (λ id. id < length book.new.nodes) }
    ensures words { IfOk result (λ id. (netlist : Netlist) (pool : List Node) →
        IsReady netlist book.old pool patterns.now → (word : ℕ) → word < 2 ^ book.old.bits →
        (has_word book.new id word ≡ true) ↔ IsWordOfLine netlist (row_patterns pool patterns.now.rows) line.now word) }
{
    match line {
        Line::Raw(own) => one_word(alloc, book, *own),
        Line::Do {
            patterns: numbers,
            items,
        } => doing(
            alloc,
            book,
            patterns,
            numbers.as_slice(),
            items.as_slice(),
            storages,
        ),
    }
}

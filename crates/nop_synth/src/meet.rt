//! The words of several sets that have given values in some of their bits.

ghost use Rattle.std.specs.Prelude.{◌≡◌, ℕ, ◌^◌, ◌<◌, ◌≤◌, ◌&&◌, ◌==◌, true, false, min, length, IfOk};
ghost use Rattle.std.specs.Int.{bit_at};
ghost use Rattle.bit_bdd.specs.Diagrams.{Extends, has_word};
ghost use Rattle.nop_synth.specs.Wanted.{AllBelow, all_hold, bit_agrees, has_field, has_fields};

use bit_bdd::{Book, SetId};
use rec_bits::NoMemory;
use std::alloc::Global;

/// A value that words are to have in the bits of a mask, in their places.
#[derive(Clone, Copy)]
pub struct FieldValue {
    pub mask: u64,
    pub value: u64,
}

// The words in which a bit is that of a value.
fn like(alloc: Global, book: &mut Book, bit: u8, value: u64) -> Result<SetId, NoMemory>
    requires bit { bit < book.old.bits }
    requires few { bit < 64 }
    ensures grows { Extends book.old book.new }
    ensures within { IfOk result (λ id. id < length book.new.nodes) }
    ensures words { IfOk result (λ id. (word : ℕ) → has_word book.new id word ≡ (bit_at word bit == bit_at value bit)) }
{
    let ones = book.bit(alloc, bit)?;
    if (value >> bit) & 1 == 1 {
        return Ok(ones);
    }
    let zeros = book.not(alloc, ones)?;
    Ok(zeros)
}

// Those of some words in which a bit is that of a value.
fn with_bit(
    alloc: Global,
    book: &mut Book,
    set: SetId,
    bit: u8,
    value: u64,
) -> Result<SetId, NoMemory>
    requires set { set < length book.old.nodes }
    requires bit { bit < book.old.bits }
    requires few { bit < 64 }
    ensures grows { Extends book.old book.new }
    ensures within { IfOk result (λ id. id < length book.new.nodes) }
    ensures words { IfOk result (λ id. (word : ℕ) →
        has_word book.new id word ≡ (has_word book.old set word && (bit_at word bit == bit_at value bit))) }
{
    let right = like(alloc, book, bit, value)?;
    let both = book.and(alloc, set, right)?;
    Ok(both)
}

// Whether a bit of a word of this width is in a mask.
fn asks(mask: u64, bit: u8, width: u8) -> bool
    requires { bit < 64 }
    ensures yes { result ≡ true → (bit_at mask bit ≡ 1) × (bit < width) }
    ensures no { result ≡ false → (word : ℕ) → word < 2 ^ width → min (bit_at word bit) (bit_at mask bit) ≡ 0 }
{
    bit < width && (mask >> bit) & 1 == 1
}

// Those of some words that have a bit of a field's value, where the field has the bit.
fn narrowed(
    alloc: Global,
    book: &mut Book,
    width: u8,
    set: SetId,
    field: FieldValue,
    bit: u8,
) -> Result<SetId, NoMemory>
    requires width { book.old.bits ≡ width }
    requires set { set < length book.old.nodes }
    requires few { bit < 64 }
    ensures grows { Extends book.old book.new }
    ensures within { IfOk result (λ id. id < length book.new.nodes) }
    ensures words { IfOk result (λ id. (word : ℕ) → word < 2 ^ width →
        has_word book.new id word ≡ (has_word book.old set word && bit_agrees field.mask field.value word bit)) }
{
    if asks(field.mask, bit, width) {
        let some = with_bit(alloc, book, set, bit, field.value)?;
        return Ok(some);
    }
    if (field.value >> bit) & 1 == 1 {
        // the size tells that the first id is the empty set
        let _ = book.size();
        return Ok(0);
    }
    Ok(set)
}

// Those of some words that have a field's value.
fn with_bits(
    alloc: Global,
    book: &mut Book,
    width: u8,
    set: SetId,
    field: FieldValue,
) -> Result<SetId, NoMemory>
    requires width { book.old.bits ≡ width }
    requires set { set < length book.old.nodes }
    ensures grows { Extends book.old book.new }
    ensures within { IfOk result (λ id. id < length book.new.nodes) }
    ensures words { IfOk result (λ id. (word : ℕ) → word < 2 ^ width →
        has_word book.new id word ≡ (has_word book.old set word && has_field field.mask field.value word)) }
{
    let mut left = set;
    for bit in 0..64u8 {
        left = narrowed(alloc, book, width, left, field, bit)?;
    }
    Ok(left)
}

// Those of some words that have a value in the bits of each mask.
fn with_fields(
    alloc: Global,
    book: &mut Book,
    width: u8,
    set: SetId,
    fields: &[FieldValue],
) -> Result<SetId, NoMemory>
    requires width { book.old.bits ≡ width }
    requires set { set < length book.old.nodes }
    ensures grows { Extends book.old book.new }
    ensures within { IfOk result (λ id. id < length book.new.nodes) }
    ensures words { IfOk result (λ id. (word : ℕ) → word < 2 ^ width →
        has_word book.new id word ≡ (has_word book.old set word && has_fields fields.now word)) }
{
    let mut left = set;
    for field in fields {
        left = with_bits(alloc, book, width, left, *field)?;
    }
    Ok(left)
}

// Those of some words that each set holds.
fn all_in(alloc: Global, book: &mut Book, set: SetId, sets: &[SetId]) -> Result<SetId, NoMemory>
    requires set { set < length book.old.nodes }
    requires sets { AllBelow book.old sets.now }
    ensures grows { Extends book.old book.new }
    ensures within { IfOk result (λ id. id < length book.new.nodes) }
    ensures words { IfOk result (λ id.
        (word : ℕ) → has_word book.new id word ≡ (has_word book.old set word && all_hold book.old sets.now word)) }
{
    let mut left = set;
    for other in sets {
        left = book.and(alloc, left, *other)?;
    }
    Ok(left)
}

/// Those of some words that each set holds and that have a value in the bits of each mask. The book
/// grows, and what it held means what it meant. Want of memory is the only refusal.
pub fn words_held(
    alloc: Global,
    book: &mut Book,
    width: u8,
    set: SetId,
    sets: &[SetId],
    fields: &[FieldValue],
) -> Result<SetId, NoMemory>
    requires width { book.old.bits ≡ width }
    requires set { set < length book.old.nodes }
    requires sets { AllBelow book.old sets.now }
    ensures grows { Extends book.old book.new }
    ensures within { IfOk result (λ id. id < length book.new.nodes) }
    ensures words { IfOk result (λ id. (word : ℕ) → word < 2 ^ width →
        has_word book.new id word
        ≡ (has_word book.old set word && (all_hold book.old sets.now word && has_fields fields.now word))) }
{
    let held = all_in(alloc, book, set, sets)?;
    let fitting = with_fields(alloc, book, width, held, fields)?;
    Ok(fitting)
}

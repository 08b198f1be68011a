//! Counts the nodes that some diagrams take, and asks a small book each question. The time that
//! this takes is measured from outside.
//!
//! It promises nothing but safety and an end: its functions have only the conditions under which
//! `bit_bdd` may be called. What it prints is `stdout` beside `src/`. docs/BENCHMARKS.md has the
//! times.
//!
//! Files:
//!
//! - `main`: the carry out of adders whose operands' bits lie in turn or apart, conjunctions of
//!   random equalities over 48 bits, and the answers of a book of three bits.
//! - `specs/`: empty but for its root.
//! - `proofs/`: `carry_nodes/` and `equal_nodes/`, for the loops.
#![tactic(auto)]

ghost use Rattle.std.specs.Prelude.{◌≡◌, ◌+◌, ◌*◌, ◌<◌, ◌≤◌, length, IfOk};

use bit_bdd::{Book, SetId};
use rec_bits::NoMemory;
use std::alloc::Global;
use std::io;

// The empty set, and the set of all words.
const NONE: SetId = 0;

const ALL: SetId = 1;

// How the operands' bits lie in the word of an adder.
#[derive(Clone, Copy)]
enum Order {
    // Bit i of one operand and bit i of the other lie side by side.
    InTurn,
    // One operand lies above the other.
    Apart,
}

// The carry out of one place of an adder, by its two bits and the carry into it.
fn next_carry(alloc: Global, book: &mut Book, carry: SetId, i: u8, j: u8) -> Result<SetId, NoMemory>
    requires carry { carry < length book.old.nodes }
    requires i { i < book.old.bits }
    requires j { j < book.old.bits }
    ensures bits { book.new.bits ≡ book.old.bits }
    ensures within { IfOk result (λ id. id < length book.new.nodes) }
{
    let a = book.bit(alloc, i)?;
    let b = book.bit(alloc, j)?;
    let both = book.and(alloc, a, b)?;
    let either = book.or(alloc, a, b)?;
    book.ite(alloc, carry, either, both)
}

// Where bit `i` of the first operand and bit `i` of the second lie in the word.
fn places(order: Order, width: u8, i: u8) -> (u8, u8)
    requires i { i < width }
    requires width { width ≤ 32 }
    ensures first { result.0 < 2 * width }
    ensures second { result.1 < 2 * width }
{
    match order {
        Order::InTurn => (i + i, i + i + 1),
        Order::Apart => (i, i + width),
    }
}

// How many nodes a book has after the carry out of an adder of `width` bits.
fn carry_nodes(alloc: Global, order: Order, width: u8) -> Result<u64, NoMemory>
    requires some { 0 < width }
    requires width { width ≤ 32 }
{
    let mut book = Book::new(alloc, 2 * width)?;
    // There is no carry into the lowest place.
    let mut carry = NONE;
    for i in 0..width {
        let (a, b) = places(order, width, i);
        carry = next_carry(alloc, &mut book, carry, a, b)?;
    }
    Ok(book.size())
}

// The words of a set in which two bits are equal.
fn and_equal(alloc: Global, book: &mut Book, set: SetId, i: u8, j: u8) -> Result<SetId, NoMemory>
    requires set { set < length book.old.nodes }
    requires i { i < book.old.bits }
    requires j { j < book.old.bits }
    ensures bits { book.new.bits ≡ book.old.bits }
    ensures within { IfOk result (λ id. id < length book.new.nodes) }
{
    let a = book.bit(alloc, i)?;
    let b = book.bit(alloc, j)?;
    let not_b = book.not(alloc, b)?;
    let equal = book.ite(alloc, a, b, not_b)?;
    book.and(alloc, set, equal)
}

// The next state of a linear congruential generator.
fn next_random(state: u64) -> u64 {
    state
        .wrapping_mul(6_364_136_223_846_793_005)
        .wrapping_add(1_442_695_040_888_963_407)
}

// A bit below 48, by the upper half of a state.
fn random_bit(state: u64) -> u8
    ensures { result < 48 }
{
    ((state >> 32) % 48) as u8
}

// How many nodes a book of 48 bits has after a conjunction of equalities of two random bits each.
fn equal_nodes(alloc: Global, count: u8) -> Result<u64, NoMemory> {
    let mut book = Book::new(alloc, 48)?;
    let mut state = 1;
    let mut set = ALL;
    for _ in 0..count {
        let first = next_random(state);
        state = next_random(first);
        set = and_equal(alloc, &mut book, set, random_bit(first), random_bit(state))?;
    }
    Ok(book.size())
}

// What a book of three bits answers of `a`, the words of bit 2 that have bit 1 or bit 0 too. Of
// each set its words below 8 stand as the bits of a number.
#[derive(Clone, Copy)]
struct Answers {
    a: u8,
    a_least: Option<u64>,
    a_is_empty: bool,
    // The words that come into `a` by changing bit 2.
    by_bit_2: u8,
    // The set of the words that come into `a` by changing any bit.
    by_any_bit: SetId,
    // Whether `a` with bit 1 set to 1 is the set of bit 2.
    fixed_is_bit_2: bool,
    // The words of `a` that have bit 0, and those outside that do not.
    chosen: u8,
    // The words that are in `a` and outside.
    both: SetId,
    both_least: Option<u64>,
    both_is_empty: bool,
}

// The words below 8 of a set, as the bits of a number.
fn words_of(book: &Book, set: SetId) -> u8
    requires { set < length book.now.nodes }
{
    let mut words = 0;
    for word in 0..8 {
        if book.holds(set, word) {
            words |= 1 << word;
        }
    }
    words
}

// The answers for `a`, with the sets of bit 0 and bit 2.
fn ask(
    alloc: Global,
    book: &mut Book,
    bit_0: SetId,
    bit_2: SetId,
    a: SetId,
) -> Result<Answers, NoMemory>
    requires bits { book.old.bits ≡ 3 }
    requires bit_0 { bit_0 < length book.old.nodes }
    requires bit_2 { bit_2 < length book.old.nodes }
    requires a { a < length book.old.nodes }
{
    let by_bit_2 = book.exists(alloc, a, 1 << 2)?;
    let by_any_bit = book.exists(alloc, a, 0b111)?;
    let fixed = book.fix(alloc, a, 1, true)?;
    let not_a = book.not(alloc, a)?;
    let chosen = book.ite(alloc, bit_0, a, not_a)?;
    let both = book.and(alloc, a, not_a)?;
    Ok(Answers {
        a: words_of(book, a),
        a_least: book.least(a),
        a_is_empty: book.is_empty(a),
        by_bit_2: words_of(book, by_bit_2),
        by_any_bit,
        fixed_is_bit_2: fixed == bit_2,
        chosen: words_of(book, chosen),
        both,
        both_least: book.least(both),
        both_is_empty: book.is_empty(both),
    })
}

fn three_bits(alloc: Global) -> Result<Answers, NoMemory> {
    let mut book = Book::new(alloc, 3)?;
    let bit_0 = book.bit(alloc, 0)?;
    let bit_1 = book.bit(alloc, 1)?;
    let bit_2 = book.bit(alloc, 2)?;
    let either = book.or(alloc, bit_1, bit_0)?;
    let a = book.and(alloc, bit_2, either)?;
    ask(alloc, &mut book, bit_0, bit_2, a)
}

fn print_least(rt: &impl Print, what: &str, least: Option<u64>, is_empty: bool) -> io::Result<()> {
    match least {
        Some(word) => println!(rt; "{what}: least word {word}, empty {is_empty}"),
        None => println!(rt; "{what}: no least word, empty {is_empty}"),
    }
}

fn print_answers(rt: &impl Print, answers: Answers) -> io::Result<()> {
    println!(rt; "a, words 7 to 0: {:08b}", answers.a)?;
    print_least(rt, "a", answers.a_least, answers.a_is_empty)?;
    println!(rt; "into a by bit 2, words 7 to 0: {:08b}", answers.by_bit_2)?;
    println!(rt; "into a by any bit: id {}", answers.by_any_bit)?;
    println!(rt; "a with bit 1 set is bit 2: {}", answers.fixed_is_bit_2)?;
    println!(rt; "a by bit 0, words 7 to 0: {:08b}", answers.chosen)?;
    println!(rt; "a and not a: id {}", answers.both)?;
    print_least(rt, "a and not a", answers.both_least, answers.both_is_empty)
}

fn print_nodes(rt: &impl Print, what: &str, nodes: Result<u64, NoMemory>) -> io::Result<()> {
    match nodes {
        Ok(nodes) => println!(rt; "{what}: {nodes} nodes"),
        Err(NoMemory) => println!(rt; "{what}: out of memory"),
    }
}

fn main(rt: HostRuntime) -> io::Result<()> {
    let alloc = rt.alloc();
    print_nodes(
        &rt,
        "carry of 32 bits in turn",
        carry_nodes(alloc, Order::InTurn, 32),
    )?;
    print_nodes(
        &rt,
        "carry of 16 bits apart",
        carry_nodes(alloc, Order::Apart, 16),
    )?;
    print_nodes(&rt, "40 equalities of 48 bits", equal_nodes(alloc, 40))?;
    match three_bits(alloc) {
        Ok(answers) => print_answers(&rt, answers),
        Err(NoMemory) => println!(rt; "three bits: out of memory"),
    }
}

//! Sets of words of up to 64 bits, as reduced ordered binary decision diagrams that share their
//! nodes in one book.
//!
//! Promise: `bit`, `and`, `or`, `not`, `ite`, `exists` and `fix` give exactly the set that their
//! name says (`words`, in terms of `has_word`), and leave every node where it was, on want of
//! memory too (`grows`: `Extends`). `holds`, `least` and `is_empty` tell of a set what it holds.
//! Two ids of a book are equal exactly where their sets are (`canonical`: `IsCanonical`), and no id
//! changes its set while the book grows (`keeps`: `KeepsWords`).
//!
//! Invariant: `IsBook` in `specs/Memo`. The two constants come first, each other node stands behind
//! its two children, asks a higher bit than they, and has two different ones, and no two nodes are
//! equal (`IsReducedBook` in `specs/Shape`); each result that is remembered is right. `make` is the
//! one place that adds nodes. A result takes the place of an older one where both have the same
//! place in the table: what is forgotten is found again, with the same id, since its nodes are all
//! there.
//!
//! Files:
//!
//! - `lib`: `Book` with its public calls, then `choose` (and, or, not and if-then-else are cases of
//!   it) and `project` (which forgets bits), each by recursion over levels with its remembered
//!   results, and last `settled`, `make`, `node`, `level`, `split`, `finished` and `remember`.
//! - `specs/`: `Diagrams` is cited by public contracts; `Shape` and `Memo` say what a book keeps,
//!   and stand in no public clause but through the invariant.
//! - `proofs/`: `Canonical` and `Reduced` for equal sets, `Choice` and `Projection` for the
//!   operations, `Words` from points to words, `Least`, `Memo`, and `CallerLemmas`, which callers
//!   cite.
#![tactic(auto)]

ghost use Rattle.std.specs.Prelude.{◌≡◌, ℕ, ◌+◌, ◌<◌, ◌≤◌, [], ◌∷◌, ◌++◌, length, replicate, IfOk, OnOk, IfSome, IfNone, IsTrue, ◌&&◌, ◌||◌, ◌==◌, ◌^◌, ◌↔◌, true, false, not, if◌then◌else◌};
ghost use Rattle.std.specs.Int.{bit_at};
ghost use Rattle.bit_bdd.specs.Memo.{unused};

use indexmap::IndexSet;
use rec_bits::NoMemory;
use std::alloc::Global;
use std::marker::Model;

/// A set of words, by the place of its node in a book. Id 0 is the empty set, and id 1 the set of
/// all words.
pub type SetId = u64;

/// A node of a book: one of the two constants, or a question about one bit.
#[derive(Clone, Copy, PartialEq, Eq, Hash)]
pub enum Node {
    /// No word.
    Never,
    /// Every word.
    Always,
    /// The words of `low` where the bit is 0, and those of `high` where it is 1.
    Ask { bit: u8, low: SetId, high: SetId },
}

// An operation whose result a book remembers.
#[derive(Clone, Copy, PartialEq, Eq)]
enum Operation {
    Choose { test: SetId, on: SetId, off: SetId },
    Exists { set: SetId, bits: u64 },
}

// A finished operation and its result.
#[derive(Clone, Copy)]
struct Finished {
    operation: Operation,
    id: SetId,
}

impl Finished {
    // What stands where nothing was remembered yet. It is right in every book.
    fn unused() -> Finished
        ensures { result ≡ unused }
    {
        Finished {
            operation: Operation::Choose {
                test: 0,
                on: 0,
                off: 0,
            },
            id: 0,
        }
    }
}

// How many nodes of a book there are for each place of its table of finished operations, at most.
const NODES_PER_PLACE: usize = 4;

// How many places the table has at first. Their number is a power of two.
const FIRST_PLACES: usize = 256;

// The place of an operation in a table of so many places.
fn place_of(operation: Operation, places: usize) -> usize
    requires { 0 < places }
    ensures { result < places }
{
    let (a, b, c) = match operation {
        Operation::Choose { test, on, off } => (test, on, off),
        Operation::Exists { set, bits } => (set, bits, 1),
    };
    let mixed = a
        .wrapping_mul(0x9e37_79b9_7f4a_7c15)
        .wrapping_add(b.wrapping_mul(0xc2b2_ae3d_27d4_eb4f))
        .wrapping_add(c.wrapping_mul(0x1656_67b1_9e37_79f9));
    (mixed >> 32) as usize & (places - 1)
}

// Makes room for more finished operations in a table that is small beside so many nodes.
fn widen(done: &mut Vec<Finished>, nodes: usize) -> Result<(), NoMemory>
    requires { nodes < 2 ^ 63 }
    ensures some { OnOk result (0 < length done.new.items) }
    ensures more { (n : ℕ) × (done.new.items ≡ done.old.items ++ replicate n unused) }
{
    if nodes / NODES_PER_PLACE < done.len() {
        return Ok(());
    }
    let places = (2 * done.len()).max(FIRST_PLACES);
    done.resize(places, Finished::unused())?;
    Ok(())
}

/// Sets of words of some number of bits, with one id for each set. The highest bit is asked first.
///
/// A book only grows: an id means the same set for as long as the book lives. Want of memory is the
/// only refusal, and after it too every id that the book held means what it meant. Bits of a word
/// at or above the book's number are not looked at. `bits`, `holds`, `least`, `is_empty` and `size`
/// take no memory.
#[derive(Drop)]
pub struct Book {
    bits: u8,
    nodes: IndexSet<Node>,
    done: Vec<Finished>,
}

impl Model for Book {
    ghost use Rattle.bit_bdd.specs.Diagrams.{Diagrams};
    ghost use Rattle.bit_bdd.specs.Memo.{IsBook};

    ghost Value = { Diagrams };

    ghost view = { λ b. record { bits = b.bits; nodes = b.nodes.keys } };

    ghost invariant = { λ b. IsBook b.bits b.nodes.keys b.done.items };
}

impl Book {
    ghost use Rattle.bit_bdd.specs.Diagrams.{branch, has_word, set_of, node_set, Extends, KeepsWords, IsCanonical, CanReach, with_bit, Diagrams};
    ghost use Rattle.bit_bdd.specs.Shape.{AsksBelow, ChildrenSeeBelow, IsNodeAt, IsProjection, choice, level, level_of, projected_branch, top_level};
    ghost use Rattle.bit_bdd.specs.Memo.{IsChosen, IsResult};

    /// A book of words of `bits` bits, 1 to 64, with the two constants alone.
    pub fn new(alloc: Global, bits: u8) -> Result<Book, NoMemory>
        requires some { 0 < bits }
        requires most { bits ≤ 64 }
        ensures bits { IfOk result (λ book. book.bits ≡ bits) }
        ensures nodes { IfOk result (λ book. book.nodes ≡ Node.Never ∷ Node.Always ∷ []) }
    {
        let mut nodes = IndexSet::new(alloc);
        nodes.insert(Node::Never)?;
        nodes.insert(Node::Always)?;
        Ok(Book {
            bits,
            nodes,
            done: Vec::new(alloc),
        })
    }

    /// The number of bits of the book's words, 1 to 64.
    pub fn bits(&self) -> u8
        ensures bits { result ≡ self.now.bits }
        ensures some { 0 < result }
        ensures most { result ≤ 64 }
    {
        self.bits
    }

    /// The words in which a bit is 1.
    pub fn bit(&mut self, _alloc: Global, bit: u8) -> Result<SetId, NoMemory>
        requires { bit < self.old.bits }
        ensures grows { Extends self.old self.new }
        ensures within { IfOk result (λ id. id < length self.new.nodes) }
        ensures words { IfOk result (λ id. (word : ℕ) →
            has_word self.new id word ≡ (bit_at word bit == 1)) }
    {
        self.literal(bit, true)
    }

    /// The words of both sets.
    pub fn and(&mut self, _alloc: Global, a: SetId, b: SetId) -> Result<SetId, NoMemory>
        requires a { a < length self.old.nodes }
        requires b { b < length self.old.nodes }
        ensures grows { Extends self.old self.new }
        ensures within { IfOk result (λ id. id < length self.new.nodes) }
        ensures words { IfOk result (λ id. (word : ℕ) →
            has_word self.new id word ≡ (has_word self.old a word && has_word self.old b word)) }
    {
        let empty = self.constant(false);
        self.choose(a, b, empty)
    }

    /// The words of either set.
    pub fn or(&mut self, _alloc: Global, a: SetId, b: SetId) -> Result<SetId, NoMemory>
        requires a { a < length self.old.nodes }
        requires b { b < length self.old.nodes }
        ensures grows { Extends self.old self.new }
        ensures within { IfOk result (λ id. id < length self.new.nodes) }
        ensures words { IfOk result (λ id. (word : ℕ) →
            has_word self.new id word ≡ (has_word self.old a word || has_word self.old b word)) }
    {
        let full = self.constant(true);
        self.choose(a, full, b)
    }

    /// The words that are not in the set.
    pub fn not(&mut self, _alloc: Global, a: SetId) -> Result<SetId, NoMemory>
        requires { a < length self.old.nodes }
        ensures grows { Extends self.old self.new }
        ensures within { IfOk result (λ id. id < length self.new.nodes) }
        ensures words { IfOk result (λ id. (word : ℕ) →
            has_word self.new id word ≡ not (has_word self.old a word)) }
    {
        let empty = self.constant(false);
        let full = self.constant(true);
        self.choose(a, empty, full)
    }

    /// The words of `a` that are in `c`, and those of `b` that are not.
    pub fn ite(&mut self, _alloc: Global, c: SetId, a: SetId, b: SetId) -> Result<SetId, NoMemory>
        requires c { c < length self.old.nodes }
        requires a { a < length self.old.nodes }
        requires b { b < length self.old.nodes }
        ensures grows { Extends self.old self.new }
        ensures within { IfOk result (λ id. id < length self.new.nodes) }
        ensures words { IfOk result (λ id. (word : ℕ) →
            has_word self.new id word ≡
            (if has_word self.old c word then has_word self.old a word else has_word self.old b word)) }
    {
        self.choose(c, a, b)
    }

    /// The words that can be brought into the set by changing bits of the mask `bits`.
    pub fn exists(&mut self, _alloc: Global, a: SetId, bits: u64) -> Result<SetId, NoMemory>
        requires { a < length self.old.nodes }
        ensures grows { Extends self.old self.new }
        ensures within { IfOk result (λ id. id < length self.new.nodes) }
        ensures words { IfOk result (λ id. (word : ℕ) → word < 2 ^ self.old.bits →
            (has_word self.new id word ≡ true) ↔ CanReach self.old a bits word) }
    {
        // A field is read, here and below, where the proof needs what the book keeps.
        let _ = &self.bits;
        self.project(a, bits)
    }

    /// The words that lie in the set once a bit is set to a value.
    pub fn fix(&mut self, _alloc: Global, a: SetId, bit: u8, value: bool) -> Result<SetId, NoMemory>
        requires a { a < length self.old.nodes }
        requires bit { bit < self.old.bits }
        ensures grows { Extends self.old self.new }
        ensures within { IfOk result (λ id. id < length self.new.nodes) }
        ensures words { IfOk result (λ id. (word : ℕ) →
            has_word self.new id word ≡ has_word self.old a (with_bit word bit value)) }
    {
        let _ = &self.bits;
        let asked = self.literal(bit, value)?;
        let empty = self.constant(false);
        let both = self.choose(asked, a, empty)?;
        self.project(both, 1 << bit)
    }

    /// Whether a word is in the set.
    pub fn holds(&self, a: SetId, word: u64) -> bool
        requires { a < length self.now.nodes }
        ensures { result ≡ has_word self.now a word }
    {
        match self.node(a) {
            Node::Never => false,
            Node::Always => true,
            Node::Ask { bit, low, high } => {
                if (word >> bit) & 1 == 1 {
                    self.holds(high, word)
                } else {
                    self.holds(low, word)
                }
            }
        }
    }

    /// The least word of the set, or None where the set is empty.
    pub fn least(&self, a: SetId) -> Option<u64>
        requires { a < length self.now.nodes }
        ensures within { IfSome result (λ word. word < 2 ^ self.now.bits) }
        ensures some { IfSome result (λ word. has_word self.now a word ≡ true) }
        ensures least { IfSome result (λ word. (other : ℕ) → has_word self.now a other ≡ true → word ≤ other) }
        ensures none { IfNone result ((word : ℕ) → has_word self.now a word ≡ false) }
    {
        self.first(a)
    }

    /// Whether no word is in the set.
    pub fn is_empty(&self, a: SetId) -> bool
        requires { a < length self.now.nodes }
        ensures { IsTrue result ↔
            ((word : ℕ) → word < 2 ^ self.now.bits → has_word self.now a word ≡ false) }
    {
        let _ = &self.bits;
        a == self.constant(false)
    }

    /// How many ids there are: those below the answer. What holds of all ids is said here.
    pub fn size(&self) -> u64
        ensures size { result ≡ length self.now.nodes }
        ensures both { 2 ≤ result }
        ensures empty { (word : ℕ) → has_word self.now 0 word ≡ false }
        ensures full { (word : ℕ) → has_word self.now 1 word ≡ true }
        ensures canonical { IsCanonical self.now }
        ensures keeps { (older : Diagrams) → Extends older self.now → KeepsWords older self.now }
    {
        self.nodes.len() as u64
    }

    // The id of all words, or of none.
    fn constant(&self, value: bool) -> SetId
        ensures id { result ≡ (if value then 1 else 0) }
        ensures below { AsksBelow self.now result 0 }
        ensures set { set_of self.now.nodes result ≡ (λ _. value) }
    {
        let _ = &self.bits;
        SetId::from(value)
    }

    // The least word of a set, which lies below the set's level.
    fn first(&self, a: SetId) -> Option<u64>
        requires { a < length self.now.nodes }
        ensures below { IfSome result (λ word. word < 2 ^ level self.now.nodes a) }
        ensures within { IfSome result (λ word. word < 2 ^ self.now.bits) }
        ensures some { IfSome result (λ word. has_word self.now a word ≡ true) }
        ensures least { IfSome result (λ word. (other : ℕ) → has_word self.now a other ≡ true → word ≤ other) }
        ensures none { IfNone result ((word : ℕ) → has_word self.now a word ≡ false) }
    {
        match self.node(a) {
            Node::Never => None,
            Node::Always => Some(0),
            Node::Ask { bit, low, high } => match self.first(low) {
                Some(word) => Some(word),
                None => match self.first(high) {
                    Some(word) => Some((1 << bit) + word),
                    None => None,
                },
            },
        }
    }

    // The id of the points with this value of a bit.
    fn literal(&mut self, bit: u8, value: bool) -> Result<SetId, NoMemory>
        requires { bit < self.old.bits }
        ensures grows { Extends self.old self.new }
        ensures within { IfOk result (λ id. id < length self.new.nodes) }
        ensures set { IfOk result (λ id.
            set_of self.new.nodes id ≡ branch bit (λ _. not value) (λ _. value)) }
    {
        let low = self.constant(!value);
        let high = self.constant(value);
        self.make(bit, low, high)
    }

    // The id of the points that can be brought into a set by changing bits of the mask.
    fn project(&mut self, set: SetId, mask: u64) -> Result<SetId, NoMemory>
        requires { set < length self.old.nodes }
        ensures grows { Extends self.old self.new }
        ensures within { IfOk result (λ id. id < length self.new.nodes) }
        ensures lower { IfOk result (λ id. level self.new.nodes id ≤ level self.old.nodes set) }
        ensures is { IfOk result (λ id.
            IsProjection mask (set_of self.old.nodes set) (set_of self.new.nodes id)) }
    {
        match self.node(set) {
            Node::Never => Ok(set),
            Node::Always => Ok(set),
            Node::Ask { bit, low, high } => {
                let operation = Operation::Exists { set, bits: mask };
                if let Some(id) = self.finished(operation) {
                    return Ok(id);
                }
                let low = self.project(low, mask)?;
                let high = self.project(high, mask)?;
                let id = self.project_branch(bit, mask, low, high)?;
                self.remember(operation, id)?;
                Ok(id)
            }
        }
    }

    // One step of `project`: the bit is asked only if it is not in the mask.
    fn project_branch(
        &mut self,
        bit: u8,
        mask: u64,
        low: SetId,
        high: SetId,
    ) -> Result<SetId, NoMemory>
        requires bit { bit < self.old.bits }
        requires few { self.old.bits ≤ 64 }
        requires low { AsksBelow self.old low bit }
        requires high { AsksBelow self.old high bit }
        ensures grows { Extends self.old self.new }
        ensures set { IfOk result (λ id.
            set_of self.new.nodes id ≡
            projected_branch mask bit (set_of self.old.nodes low) (set_of self.old.nodes high)) }
        ensures lower { IfOk result (λ id. AsksBelow self.new id (bit + 1)) }
    {
        if (mask >> bit) & 1 == 1 {
            let full = self.constant(true);
            self.choose(low, full, high)
        } else {
            self.make(bit, low, high)
        }
    }

    // The id of the points that are in `on` where they are in `test`, and in `off` where they are
    // not.
    fn choose(&mut self, test: SetId, on: SetId, off: SetId) -> Result<SetId, NoMemory>
        requires test { test < length self.old.nodes }
        requires on { on < length self.old.nodes }
        requires off { off < length self.old.nodes }
        ensures grows { Extends self.old self.new }
        ensures within { IfOk result (λ id. id < length self.new.nodes) }
        ensures lower { IfOk result (λ id. level self.new.nodes id ≤ top_level self.old.nodes test on off) }
        ensures set { IfOk result (λ id.
            set_of self.new.nodes id ≡
            choice (set_of self.old.nodes test) (set_of self.old.nodes on) (set_of self.old.nodes off)) }
    {
        match self.node(test) {
            Node::Never => return Ok(off),
            Node::Always => return Ok(on),
            Node::Ask { .. } => {}
        }
        if on == off {
            return Ok(on);
        }
        if let Some(id) = self.settled(test, on, off) {
            return Ok(id);
        }
        let operation = Operation::Choose { test, on, off };
        if let Some(id) = self.finished(operation) {
            return Ok(id);
        }
        let bit = self.level(test).max(self.level(on)).max(self.level(off)) - 1;
        let (test_low, test_high) = self.split(test, bit);
        let (on_low, on_high) = self.split(on, bit);
        let (off_low, off_high) = self.split(off, bit);
        let low = self.choose(test_low, on_low, off_low)?;
        let high = self.choose(test_high, on_high, off_high)?;
        let id = self.make(bit, low, high)?;
        self.remember(operation, id)?;
        Ok(id)
    }

    // The result of a choice between all words and none, which is the test itself: to go down it
    // again would cost a call for each of its nodes.
    fn settled(&self, test: SetId, on: SetId, off: SetId) -> Option<SetId>
        requires { test < length self.now.nodes }
        ensures { IfSome result (λ id. IsChosen self.now.nodes test on off id) }
    {
        let _ = &self.bits;
        if on == 1 && off == 0 {
            Some(test)
        } else {
            None
        }
    }

    // The id of the set that has the points of `low` where the bit is 0, and of `high` where it is
    // 1.
    fn make(&mut self, bit: u8, low: SetId, high: SetId) -> Result<SetId, NoMemory>
        requires bit { bit < self.old.bits }
        requires low { AsksBelow self.old low bit }
        requires high { AsksBelow self.old high bit }
        ensures grows { Extends self.old self.new }
        ensures set { IfOk result (λ id.
            set_of self.new.nodes id ≡
            branch bit (set_of self.old.nodes low) (set_of self.old.nodes high)) }
        ensures lower { IfOk result (λ id. AsksBelow self.new id (bit + 1)) }
    {
        if low == high {
            return Ok(low);
        }
        let (place, _) = self.nodes.insert_full(Node::Ask { bit, low, high })?;
        Ok(place as u64)
    }

    // The node of an id.
    fn node(&self, id: SetId) -> Node
        requires { id < length self.now.nodes }
        ensures few { self.now.bits ≤ 64 }
        ensures place { IsNodeAt self.now id result }
        ensures level { level self.now.nodes id ≡ level_of result }
        ensures set { set_of self.now.nodes id ≡ node_set result (set_of self.now.nodes) }
        ensures below { ChildrenSeeBelow self.now result }
    {
        self.nodes.as_slice()[id as usize]
    }

    // The level of an id: 0 for a constant, and one more than the bit that it asks.
    fn level(&self, id: SetId) -> u8
        requires { id < length self.now.nodes }
        ensures level { result ≡ level self.now.nodes id }
        ensures within { result ≤ self.now.bits }
    {
        match self.node(id) {
            Node::Never => 0,
            Node::Always => 0,
            Node::Ask { bit, .. } => bit + 1,
        }
    }

    // The ids of the points of a set in which the bit is 0, and of those in which it is 1.
    fn split(&self, id: SetId, bit: u8) -> (SetId, SetId)
        requires { AsksBelow self.now id (bit + 1) }
        ensures set { set_of self.now.nodes id ≡
            branch bit (set_of self.now.nodes result.0) (set_of self.now.nodes result.1) }
        ensures low { AsksBelow self.now result.0 bit }
        ensures high { AsksBelow self.now result.1 bit }
    {
        if self.level(id) <= bit {
            return (id, id);
        }
        match self.node(id) {
            Node::Never => (id, id),
            Node::Always => (id, id),
            Node::Ask { low, high, .. } => (low, high),
        }
    }

    // The remembered result of an operation.
    fn finished(&self, operation: Operation) -> Option<SetId>
        ensures { IfSome result (λ id. IsResult self.now.nodes operation id) }
    {
        if self.done.is_empty() {
            return None;
        }
        let found = self.done[place_of(operation, self.done.len())];
        if found.operation == operation {
            Some(found.id)
        } else {
            None
        }
    }

    // Remembers the result of an operation.
    fn remember(&mut self, operation: Operation, id: SetId) -> Result<(), NoMemory>
        requires { IsResult self.old.nodes operation id }
        ensures same { self.new ≡ self.old }
        ensures right { IsResult self.new.nodes operation id }
    {
        widen(&mut self.done, self.nodes.len())?;
        let place = place_of(operation, self.done.len());
        self.done[place] = Finished { operation, id };
        Ok(())
    }
}

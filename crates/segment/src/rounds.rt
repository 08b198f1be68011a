//! Rounds of laws for two classes that aren't seen to have one value: their trees are listed in a
//! table of their own, so that nothing is joined in the segment's, and few trees stand beside them.

ghost use Rattle.std.specs.Prelude.{◌≡◌, true, IfOk, IfSome};
ghost use Rattle.rec_bits.specs.Operators.{IsWidth};
ghost use Rattle.tree_laws.specs.Classes.{Grows, cell_bits, width_in};
ghost use Rattle.class_values.specs.Inner.Numbers.{IsListed, IsSized};
ghost use Rattle.segment.specs.Copied.{AreAlike, IsCopy, IsCopyOf};

use class_values::{Fact, are_same, number, number_of};
use law_rounds::{Brings, Gate, Rounds};
use rec_bits::{NoMemory, mask};
use std::alloc::Global;
use sym_expr::Node;
use tree_laws::Classes;

/// How many rounds are asked at most, how many classes a table may have before no further law is
/// applied, and how deep trees are listed.
const ROUNDS: u8 = 3;

const CLASSES: u64 = 200;

const LEVELS: u8 = 10;

// A table without classes, for laws that bring any operator.
fn rounds_over(alloc: Global, word: u8) -> Rounds<'static>
    requires { IsWidth word }
    ensures { cell_bits result.table ≡ word }
{
    let gate = Gate {
        brings: Brings::All,
        widths: &[],
        most: CLASSES,
    };
    Rounds::new(alloc, word, gate)
}

// A width and a number that fits it.
#[derive(Clone, Copy)]
struct Sized {
    width: u8,
    number: u64,
}

// Two classes.
#[derive(Clone, Copy)]
struct Pair {
    first: u64,
    second: u64,
}

// Whether classes of two tables have one width.
fn are_as_wide(one: &Classes, a: u64, other: &Classes, b: u64) -> bool
    ensures { result ≡ true → width_in one.now a ≡ width_in other.now b }
{
    let Some(x) = one.width(a) else {
        return false;
    };
    let Some(y) = other.width(b) else {
        return false;
    };
    x == y
}

/// Classes whose trees are compared, where facts hold.
#[derive(Clone, Copy)]
pub(crate) struct Source<'a> {
    pub table: &'a Classes,
    pub facts: &'a [Fact],
}

impl Source<'_> {
    // Whether the memory's cells have so many bits.
    fn has_cells(&self, word: u8, class: u64) -> bool
        ensures bits { result ≡ true → cell_bits self.now.table.now ≡ word }
        ensures width { result ≡ true → IsWidth word }
    {
        match self.table.node_width(Node::Read(class, word)) {
            Some(_width) => true,
            None => false,
        }
    }

    // The number of a class, with its width.
    fn sized(&self, class: u64) -> Option<Sized>
        ensures { IfSome result (λ s. IsSized self.now.table.now self.now.facts.now class s.width s.number) }
    {
        let width = self.table.width(class)?;
        let number = number_of(self.table, self.facts, class)?;
        if 1 <= width && width <= 64 && number <= mask(width) {
            Some(Sized { width, number })
        } else {
            None
        }
    }

    // The node that was listed when a class was made, as long as each was made with one.
    fn node_of(&self, class: u64) -> Option<Node>
        ensures { IfSome result (λ node. IsListed self.now.table.now node class) }
    {
        let (node, _) = self.table.node(self.table.head(class) as usize)?;
        let found = self.table.find(node)?;
        if are_same(self.table, class, found) {
            Some(node)
        } else {
            None
        }
    }

    // The class in another table of a class's value, where its trees aren't deeper than so many levels.
    #[cycle(copy)]
    fn copied(&self, to: &mut Classes, class: u64, levels: u8) -> Result<Option<u64>, NoMemory>
        ensures grows { Grows to.old to.new }
        ensures is { IfOk result (λ found. IfSome found (IsCopy self.now.table.now self.now.facts.now to.new class)) }
    {
        if let Some(x) = self.sized(class) {
            return number(to, x.width, x.number);
        }
        let Some(node) = self.node_of(class) else {
            return Ok(None);
        };
        if levels == 0 {
            return Ok(None);
        }
        let Some(copy) = self.relisted(to, node, levels - 1)? else {
            return Ok(None);
        };
        if are_as_wide(to, copy, self.table, class) {
            Ok(Some(copy))
        } else {
            Ok(None)
        }
    }

    // The class there of a node's value.
    #[cycle(copy)]
    fn relisted(&self, to: &mut Classes, node: Node, levels: u8) -> Result<Option<u64>, NoMemory>
        ensures grows { Grows to.old to.new }
        ensures is { IfOk result (λ found. IfSome found (IsCopyOf self.now.table.now self.now.facts.now to.new node)) }
    {
        match node {
            Node::Read(a, width) => {
                let Some(addr) = self.copied(to, a, levels)? else {
                    return Ok(None);
                };
                to.add(Node::Read(addr, width))
            }
            Node::Un(op, a) => {
                let Some(of) = self.copied(to, a, levels)? else {
                    return Ok(None);
                };
                to.add(Node::Un(op, of))
            }
            Node::Bin(op, a, b) => {
                let Some(left) = self.copied(to, a, levels)? else {
                    return Ok(None);
                };
                let Some(right) = self.copied(to, b, levels)? else {
                    return Ok(None);
                };
                to.add(Node::Bin(op, left, right))
            }
            Node::Slice(a, hi, lo) => {
                let Some(of) = self.copied(to, a, levels)? else {
                    return Ok(None);
                };
                to.add(Node::Slice(of, hi, lo))
            }
            Node::Zext(a, width) => {
                let Some(of) = self.copied(to, a, levels)? else {
                    return Ok(None);
                };
                to.add(Node::Zext(of, width))
            }
            Node::Sext(a, width) => {
                let Some(of) = self.copied(to, a, levels)? else {
                    return Ok(None);
                };
                to.add(Node::Sext(of, width))
            }
            _ => Ok(None),
        }
    }

    // The classes there of two classes' values.
    fn both(&self, to: &mut Classes, a: u64, b: u64) -> Result<Option<Pair>, NoMemory>
        ensures grows { Grows to.old to.new }
        ensures first { IfOk result (λ found. IfSome found (λ pair. IsCopy self.now.table.now self.now.facts.now to.new a pair.first)) }
        ensures second { IfOk result (λ found. IfSome found (λ pair. IsCopy self.now.table.now self.now.facts.now to.new b pair.second)) }
    {
        let Some(first) = self.copied(to, a, LEVELS)? else {
            return Ok(None);
        };
        let Some(second) = self.copied(to, b, LEVELS)? else {
            return Ok(None);
        };
        Ok(Some(Pair { first, second }))
    }

    // Whether two classes have one value by so many rounds of laws.
    fn are_one_by(
        &self,
        alloc: Global,
        rounds: &mut Rounds<'_>,
        a: u64,
        b: u64,
        count: u8,
    ) -> Result<bool, NoMemory>
        requires { cell_bits rounds.old.table ≡ cell_bits self.now.table.now }
        ensures { IfOk result (λ yes. yes ≡ true → AreAlike self.now.table.now self.now.facts.now a b) }
    {
        let Some(pair) = self.both(&mut rounds.table, a, b)? else {
            return Ok(false);
        };
        if are_same(&rounds.table, pair.first, pair.second) {
            return Ok(true);
        }
        if count == 0 {
            return Ok(false);
        }
        if !rounds.round(alloc)? {
            return Ok(false);
        }
        self.are_one_by(alloc, rounds, a, b, count - 1)
    }

    /// Whether two classes have one value by laws, over a memory whose cells have so many bits.
    pub(crate) fn are_one(&self, alloc: Global, word: u8, a: u64, b: u64) -> Result<bool, NoMemory>
        ensures { IfOk result (λ yes. yes ≡ true → AreAlike self.now.table.now self.now.facts.now a b) }
    {
        if !self.has_cells(word, a) {
            return Ok(false);
        }
        let mut rounds = rounds_over(alloc, word);
        self.are_one_by(alloc, &mut rounds, a, b, ROUNDS)
    }
}

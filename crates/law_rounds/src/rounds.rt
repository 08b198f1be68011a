//! Laws applied to a table in rounds, up to a bound on classes.

ghost use Rattle.std.specs.Prelude.{◌≡◌};
ghost use Rattle.rec_bits.specs.Operators.{IsWidth};
ghost use Rattle.std.specs.List.{AllByRecursion};
ghost use Rattle.tree_laws.specs.Classes.{cell_bits};
ghost use Rattle.tree_laws.specs.Rules.{RuleHolds};

use crate::gate::{Gate, Side, is_wanted};
use crate::index::{Graph, Index};
use crate::kinds::Kind;
use crate::matching::{Sought, matches};
use rec_bits::NoMemory;
use std::alloc::Global;
use sym_expr::Node;
use tree_laws::{
    Classes, Rule, compare_rules, extend_rules, narrow_rules, numbers_rules, shifts_rules,
    sums_rules,
};

/// How many times as many classes a table may have as its gate says, with those that were joined
/// among them.
const JOINED: u64 = 8;

/// How often a table is closed at most until nothing is joined any more.
const CLOSINGS: usize = 32;

/// A table of classes in which laws are applied. A caller may list what it likes in between.
#[derive(Drop)]
pub struct Rounds<'a> {
    pub table: Classes,
    gate: Gate<'a>,
    // The places of the nodes over classes that stand for others, as far as these are known, and
    // how many places were looked at.
    places: Vec<usize>,
    seen: usize,
    // How often two classes were joined.
    joins: u64,
}

/// How far a table has grown: the nodes that are listed, and how often two classes were joined.
#[derive(Clone, Copy, PartialEq, Eq)]
pub struct Extent {
    nodes: usize,
    joins: u64,
}

impl<'a> Rounds<'a> {
    /// A table without classes, over cells of so many bits.
    pub fn new(alloc: Global, cell: u8, gate: Gate<'a>) -> Rounds<'a>
        requires { IsWidth cell }
        ensures { cell_bits result.table ≡ cell }
    {
        Rounds {
            table: Classes::new(alloc, cell),
            gate,
            places: Vec::new(alloc),
            seen: 0,
            joins: 0,
        }
    }

    /// The nodes of the table as it is, once it is closed.
    pub fn index(&self, alloc: Global) -> Result<Index, NoMemory> {
        Index::new(alloc, &self.table, &self.places)
    }

    /// Whether no further law is applied.
    pub fn is_full(&self) -> bool {
        let classes = self.table.len();
        classes >= self.gate.most.saturating_mul(JOINED)
            || classes.saturating_sub(self.joins) >= self.gate.most
    }

    /// How far the table has grown.
    pub fn extent(&self) -> Extent {
        Extent {
            nodes: self.table.node_count(),
            joins: self.joins,
        }
    }

    /// Applies each law wherever one of its sides stands, as long as there is room. Whether the table
    /// changed.
    pub fn round(&mut self, alloc: Global) -> Result<bool, NoMemory>
        ensures { cell_bits self.new.table ≡ cell_bits self.old.table }
    {
        let before = self.extent();
        self.close(alloc)?;
        let index = self.index(alloc)?;
        self.apply_laws(alloc, &index)?;
        Ok(before != self.extent())
    }

    // Applies each law.
    fn apply_laws(&mut self, alloc: Global, index: &Index) -> Result<(), NoMemory>
        ensures { cell_bits self.new.table ≡ cell_bits self.old.table }
    {
        self.apply_all(alloc, index, narrow_rules())?;
        self.apply_all(alloc, index, shifts_rules())?;
        self.apply_all(alloc, index, extend_rules())?;
        self.apply_all(alloc, index, sums_rules())?;
        self.apply_all(alloc, index, compare_rules())?;
        self.apply_all(alloc, index, numbers_rules())
    }

    // Applies each rule of a list both ways.
    fn apply_all(
        &mut self,
        alloc: Global,
        index: &Index,
        rules: &'static [Rule],
    ) -> Result<(), NoMemory>
        requires { AllByRecursion RuleHolds rules.now }
        ensures { cell_bits self.new.table ≡ cell_bits self.old.table }
    {
        for rule in rules {
            self.apply_side(alloc, index, rule, Side::of(rule))?;
            self.apply_side(alloc, index, rule, Side::of(rule).turned())?;
        }
        Ok(())
    }

    // Applies a rule one way where it is wanted, and closes the table where that joined classes.
    fn apply_side(
        &mut self,
        alloc: Global,
        index: &Index,
        rule: &Rule,
        side: Side,
    ) -> Result<(), NoMemory>
        requires { RuleHolds rule.now }
        ensures { cell_bits self.new.table ≡ cell_bits self.old.table }
    {
        if !is_wanted(rule, side, self.gate.brings) {
            return Ok(());
        }
        let sought = Sought {
            rule,
            side: side.found,
            widths: self.gate.widths,
        };
        let joins = self.joins;
        self.apply_everywhere(alloc, index, sought)?;
        if joins == self.joins {
            return Ok(());
        }
        self.close(alloc)
    }

    // Applies a rule at each node that is at the root of a side of it, as long as there is room.
    fn apply_everywhere(
        &mut self,
        alloc: Global,
        index: &Index,
        sought: Sought,
    ) -> Result<(), NoMemory>
        requires { RuleHolds sought.rule.now }
        ensures { cell_bits self.new.table ≡ cell_bits self.old.table }
    {
        let Some(root) = sought.root() else {
            return Ok(());
        };
        let Some(kind) = Kind::of_part(root) else {
            return Ok(());
        };
        for member in index.of_kind(kind) {
            if self.is_full() {
                return Ok(());
            }
            let graph = Graph {
                table: &self.table,
                index,
            };
            for choice in matches(alloc, graph, sought, root, member.node)? {
                let joined = self.table.apply(alloc, sought.rule, &choice)?;
                self.count(joined);
            }
        }
        Ok(())
    }

    /// Joins classes of nodes that became one, until nothing more is joined.
    pub fn close(&mut self, alloc: Global) -> Result<(), NoMemory>
        ensures { cell_bits self.new.table ≡ cell_bits self.old.table }
    {
        for _ in 0..CLOSINGS {
            let joins = self.joins;
            self.close_once(alloc)?;
            if joins == self.joins {
                return Ok(());
            }
        }
        Ok(())
    }

    // Goes through the nodes once, and lists those again over whose classes others stand.
    fn close_once(&mut self, alloc: Global) -> Result<(), NoMemory>
        ensures { cell_bits self.new.table ≡ cell_bits self.old.table }
    {
        self.note()?;
        self.places = self.closed_places(alloc)?;
        self.note()
    }

    // The places of the nodes over classes that stand for others; each other node is listed again.
    fn closed_places(&mut self, alloc: Global) -> Result<Vec<usize>, NoMemory>
        ensures { cell_bits self.new.table ≡ cell_bits self.old.table }
    {
        let mut places = Vec::new(alloc);
        for index in 0..self.places.len() {
            let Some((place, node)) = self.node_at(index) else {
                continue;
            };
            if self.table.canon(node) == node {
                places.push(place)?;
            } else {
                let joined = self.table.close_node(node)?;
                self.count(joined);
            }
        }
        Ok(places)
    }

    // One of the places, with its node.
    fn node_at(&self, index: usize) -> Option<(usize, Node)> {
        let place = *self.places.get(index)?;
        let (node, _) = self.table.node(place)?;
        Some((place, node))
    }

    // Counts two classes that were joined.
    fn count(&mut self, joined: bool)
        ensures { cell_bits self.new.table ≡ cell_bits self.old.table }
    {
        if joined {
            self.joins = self.joins.saturating_add(1);
        }
    }

    // Notes the places of nodes that were listed since.
    fn note(&mut self) -> Result<(), NoMemory>
        ensures { cell_bits self.new.table ≡ cell_bits self.old.table }
    {
        for place in self.seen..self.table.node_count() {
            self.places.push(place)?;
        }
        self.seen = self.table.node_count();
        Ok(())
    }
}

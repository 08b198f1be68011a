//! Addresses of arrays in trees.

ghost use Rattle.std.specs.Prelude.{◌≡◌, ℕ, ◌+◌, ◌<◌, ◌≤◌, false, map, OnOk};
ghost use Rattle.follow.specs.Safe.{base_in};
ghost use Rattle.form_model.specs.Forms.{aim_destination};
ghost use Rattle.form_model.specs.Trees.{model_of_tree};
ghost use Rattle.mark_start.specs.Marked.{GoesIn, AllReadArrays, IsAddress, IsComputed, IsInArrayAt, ReadsArrays};
ghost use Rattle.mark_start.specs.Runs.{IsGathered};

use crate::hints::Spot;
use crate::run::{Run, Start};
use form_model::{Aim, Tree};
use rec_bits::NoMemory;
use sym_run::Element;
use tree_laws::Classes;

// Whether a tree is a number.
fn is_literal(tree: &Tree) -> bool
    ensures { result ≡ false → IsComputed tree.now }
{
    matches!(tree, Tree::Lit { .. })
}

// The address of the first cell of the array of whose cell a tree is the address.
fn first_in(tree: &Tree) -> u64
    ensures { result ≡ base_in (model_of_tree tree.now) }
{
    match tree {
        Tree::Lit {
            width: _width,
            value,
        } => *value,
        Tree::Bin(_op, _a, b) => first_in(b),
        Tree::Slice(a, _hi, _lo) => first_in(a),
        Tree::Read(_addr, _width) => 0,
        Tree::Un(_op, _a) => 0,
        Tree::Zext(_a, _width) => 0,
        Tree::Sext(_a, _width) => 0,
    }
}

// The end of the array whose first cell has an address.
fn end_of(spots: &[Spot], base: u64) -> u64
    ensures { (a : ℕ) → IsInArrayAt spots.now base a → (base ≤ a) × (a < result) }
{
    let Some((spot, rest)) = spots.split_first() else {
        return 0;
    };
    later(end_in(*spot, base), end_of(rest, base))
}

// The end of a variable's cells, where it is that array.
fn end_in(spot: Spot, base: u64) -> u64
    ensures { spot.address ≡ base → spot.address + spot.len ≡ result }
{
    let first = u64::from(spot.address);
    if first == base {
        first + u64::from(spot.len)
    } else {
        0
    }
}

// The greater of two numbers.
fn later(a: u64, b: u64) -> u64
    ensures first { a ≤ result }
    ensures second { b ≤ result }
{
    if a < b { b } else { a }
}

impl Start<'_> {
    // The class of an array's address.
    fn element(&self, table: &mut Classes, run: &mut Run, addr: &Tree) -> Result<(), NoMemory>
        ensures { OnOk result (IsGathered self.now (λ now. IsAddress self.now.from.now.spots now (model_of_tree addr.now))
            table.old table.new run.old run.new) }
    {
        if is_literal(addr) {
            return Ok(());
        }
        let found = self.tree(table, run, addr)?;
        if let Some(class) = found {
            let first = first_in(addr);
            let element = Element {
                class,
                like: class,
                first,
                end: end_of(self.from.spots.as_slice(), first),
            };
            run.machine.inside.push(element)?;
            run.vars.inside.push(element)?;
        }
        Ok(())
    }

    // Those of all addresses in a tree.
    fn elements(&self, table: &mut Classes, run: &mut Run, tree: &Tree) -> Result<(), NoMemory>
        ensures { OnOk result (IsGathered self.now (λ now. ReadsArrays self.now.from.now.spots now (model_of_tree tree.now))
            table.old table.new run.old run.new) }
    {
        match tree {
            Tree::Lit {
                width: _width,
                value: _value,
            } => Ok(()),
            Tree::Read(addr, _width) => {
                self.elements(table, run, addr)?;
                self.element(table, run, addr)
            }
            Tree::Un(_op, a) => self.elements(table, run, a),
            Tree::Bin(_op, a, b) => {
                self.elements(table, run, a)?;
                self.elements(table, run, b)
            }
            Tree::Slice(a, _hi, _lo) => self.elements(table, run, a),
            Tree::Zext(a, _width) => self.elements(table, run, a),
            Tree::Sext(a, _width) => self.elements(table, run, a),
        }
    }

    /// Learns the classes of all addresses of arrays in some trees.
    pub fn all_elements(
        &self,
        table: &mut Classes,
        run: &mut Run,
        trees: &[Tree],
    ) -> Result<(), NoMemory>
        ensures { OnOk result (IsGathered self.now (λ now. AllReadArrays self.now.from.now.spots now (map model_of_tree trees.now))
            table.old table.new run.old run.new) }
    {
        let Some((tree, rest)) = trees.split_first() else {
            return Ok(());
        };
        self.elements(table, run, tree)?;
        self.all_elements(table, run, rest)
    }

    /// Learns those of the address to which a value goes.
    pub fn aim_elements(
        &self,
        table: &mut Classes,
        run: &mut Run,
        aim: &Aim,
    ) -> Result<(), NoMemory>
        ensures { OnOk result (IsGathered self.now (λ now. GoesIn self.now.from.now.spots now (aim_destination aim.now))
            table.old table.new run.old run.new) }
    {
        match aim {
            Aim::Store(addr) => {
                self.elements(table, run, addr)?;
                self.element(table, run, addr)
            }
            Aim::Cell(_address) => Ok(()),
            Aim::Test => Ok(()),
            Aim::Temp => Ok(()),
        }
    }
}

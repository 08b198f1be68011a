//! The program's side: classes of trees, and assignments.

ghost use Rattle.std.specs.Prelude.{IfOk, IfSome};
ghost use Rattle.form_model.specs.Trees.{model_of_tree};
ghost use Rattle.net_model.specs.Exprs.{const, write_at};
ghost use Rattle.sym_run.specs.Known.{Evaluates};
ghost use Rattle.sym_run.specs.Moves.{AreNextCells, IsNextPut};
ghost use Rattle.tree_laws.specs.Classes.{Grows};

use crate::eval::cell;
use crate::known::{Cell, Known, Put};
use crate::moves::{one_more, written};
use class_values::{Fact, binary, number, number_of, sign_extended, sliced, unary, zero_extended};
use form_model::Tree;
use rec_bits::{Items, NoMemory};
use std::alloc::Global;
use tree_laws::Classes;

/// What is known of the program's variables.
#[derive(Clone, Copy)]
pub struct Store<'a> {
    pub facts: &'a [Fact],
    pub known: &'a Known,
}

impl Store<'_> {
    /// The class of a tree's value, or None where it isn't known.
    pub fn tree(&self, table: &mut Classes, tree: &Tree) -> Result<Option<u64>, NoMemory>
        ensures grows { Grows table.old table.new }
        ensures is { IfOk result (λ found. IfSome found
            (Evaluates table.old table.new self.now.facts.now self.now.known.now 0 (model_of_tree tree.now))) }
    {
        match tree {
            Tree::Lit { width, value } => number(table, *width, *value),
            Tree::Read(addr, width) => {
                let Some(addr) = self.tree(table, addr)? else {
                    return Ok(None);
                };
                cell(table, self.facts, self.known, addr, *width)
            }
            Tree::Un(op, a) => {
                let Some(a) = self.tree(table, a)? else {
                    return Ok(None);
                };
                unary(table, self.facts, *op, a)
            }
            Tree::Bin(op, a, b) => {
                let Some(a) = self.tree(table, a)? else {
                    return Ok(None);
                };
                let Some(b) = self.tree(table, b)? else {
                    return Ok(None);
                };
                binary(table, self.facts, *op, a, b)
            }
            Tree::Slice(a, hi, lo) => {
                let Some(a) = self.tree(table, a)? else {
                    return Ok(None);
                };
                sliced(table, self.facts, a, *hi, *lo)
            }
            Tree::Zext(a, width) => {
                let Some(a) = self.tree(table, a)? else {
                    return Ok(None);
                };
                zero_extended(table, self.facts, a, *width)
            }
            Tree::Sext(a, width) => {
                let Some(a) = self.tree(table, a)? else {
                    return Ok(None);
                };
                sign_extended(table, self.facts, a, *width)
            }
        }
    }

    /// What was written to arrays behind an assignment to the element that a tree gives, or None where
    /// it is none or the value isn't known.
    pub fn put(
        &self,
        alloc: Global,
        table: &mut Classes,
        addr: &Tree,
        value: &Tree,
    ) -> Result<Option<Items<Put>>, NoMemory>
        ensures grows { Grows table.old table.new }
        ensures is { IfOk result (λ found. IfSome found (IsNextPut table.old table.new self.now.facts.now self.now.known.now
            0 (write_at (model_of_tree addr.now) (model_of_tree value.now)))) }
    {
        let at = self.tree(table, addr)?;
        let value = self.tree(table, value)?;
        let Some(at) = at else {
            return Ok(None);
        };
        let Some(value) = value else {
            return Ok(None);
        };
        one_more(alloc, table, self.facts, self.known, at, value)
    }

    /// The same of an assignment to the address that a number of this width gives.
    pub fn put_at(
        &self,
        alloc: Global,
        table: &mut Classes,
        width: u8,
        address: u64,
        value: &Tree,
    ) -> Result<Option<Items<Put>>, NoMemory>
        ensures grows { Grows table.old table.new }
        ensures is { IfOk result (λ found. IfSome found (IsNextPut table.old table.new self.now.facts.now self.now.known.now
            0 (write_at (const width address) (model_of_tree value.now)))) }
    {
        let at = number(table, width, address)?;
        let value = self.tree(table, value)?;
        let Some(at) = at else {
            return Ok(None);
        };
        let Some(value) = value else {
            return Ok(None);
        };
        one_more(alloc, table, self.facts, self.known, at, value)
    }

    /// What is known of the cells behind an assignment to the address that a tree gives, or None
    /// where the address isn't known or is an array's.
    pub fn assigned(
        &self,
        alloc: Global,
        table: &mut Classes,
        addr: &Tree,
        value: &Tree,
    ) -> Result<Option<Items<Cell>>, NoMemory>
        ensures grows { Grows table.old table.new }
        ensures is { IfOk result (λ found. IfSome found (AreNextCells table.old table.new self.now.facts.now self.now.known.now
            0 (write_at (model_of_tree addr.now) (model_of_tree value.now)))) }
    {
        let at = self.tree(table, addr)?;
        let value = self.tree(table, value)?;
        let Some(at) = at else {
            return Ok(None);
        };
        let Some(address) = number_of(table, self.facts, at) else {
            return Ok(None);
        };
        written(alloc, self.known, address, value)
    }
}

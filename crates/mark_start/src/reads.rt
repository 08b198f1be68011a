//! Classes of what is known of cells, of expressions and of the program's trees.

ghost use Rattle.std.specs.Prelude.{◌<◌, length, IfOk, IfSome, OnOk};
ghost use Rattle.form_model.specs.Trees.{model_of_tree};
ghost use Rattle.sym_expr.specs.Pools.{expr_of_id};
ghost use Rattle.tree_laws.specs.Classes.{Grows};
ghost use Rattle.mark_start.specs.Runs.{IsExprOf, IsInCell, IsTreeOf};

use crate::run::{Run, Start};
use class_values::{Fact, number};
use form_model::Tree;
use rec_bits::NoMemory;
use sym_expr::ExprId;
use sym_run::{Known, Step, Store, cell};
use tree_laws::Classes;

impl Start<'_> {
    /// The class of what is known of a cell, or None where it isn't known.
    pub fn in_cell(
        &self,
        table: &mut Classes,
        facts: &[Fact],
        known: &Known,
        address: u64,
    ) -> Result<Option<u64>, NoMemory>
        ensures grows { OnOk result (Grows table.old table.new) }
        ensures is { IfOk result (λ found. IfSome found (IsInCell table.old table.new facts.now known.now address)) }
    {
        let found = number(table, self.addr, address)?;
        let Some(at) = found else {
            return Ok(None);
        };
        cell(table, facts, known, at, self.word)
    }

    /// The class of an expression over what is known of the machine's state, or None where it isn't known.
    pub fn expr(&self, table: &mut Classes, run: &Run, id: ExprId) -> Result<Option<u64>, NoMemory>
        requires { id < length self.now.pool.now }
        ensures grows { OnOk result (Grows table.old table.new) }
        ensures is { IfOk result (λ found. IfSome found (IsExprOf table.old table.new run.now (expr_of_id self.now.pool.now id))) }
    {
        let step = Step {
            pool: self.pool,
            facts: run.facts.as_slice(),
            known: &run.machine,
            word: 0,
        };
        step.eval(table, id)
    }

    /// The class of a tree over what is known of the program's cells, or None where it isn't known.
    pub fn tree(&self, table: &mut Classes, run: &Run, tree: &Tree) -> Result<Option<u64>, NoMemory>
        ensures grows { OnOk result (Grows table.old table.new) }
        ensures is { IfOk result (λ found. IfSome found (IsTreeOf table.old table.new run.now (model_of_tree tree.now))) }
    {
        let store = Store {
            facts: run.facts.as_slice(),
            known: &run.vars,
        };
        store.tree(table, tree)
    }
}

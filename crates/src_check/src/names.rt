//! The rules of names, S1 and S2.

ghost use Rattle.std.specs.Prelude.{◌≡◌, ℕ, List, [], IfOk, option_copied};
ghost use Rattle.rec_bits.specs.Faults.{least};
ghost use Rattle.src_model.specs.Names.{declared, is_plain, is_array, repeats, unknown};
ghost use Rattle.src_model.specs.Written.{model_of_src_node, spot_node};

use indexmap::IndexMap;
use rec_bits::{Name, NoMemory, lesser_offset, offset_if};
use src_model::{Spot, SrcExpr, SrcNode, Var};
use std::alloc::Global;
use std::marker::Model;

/// The declarations of a program, with a table of their names. Contracts see the list of the
/// declarations.
#[derive(Drop)]
pub struct SymbolTable<'a> {
    vars: &'a [Var],
    first: IndexMap<&'a [u8], &'a Var>,
}

impl<'a> Model for SymbolTable<'a> {
    ghost use Rattle.std.specs.Prelude.{List};
    ghost use Rattle.src_model.specs.declared.program.Var.{Var as Declared};
    ghost use Rattle.src_check.specs.Inner.Tables.{Finds};

    ghost Value = { List Declared };

    ghost view = { λ table. table.vars.now };

    ghost invariant = { λ table. Finds table.first.entries table.vars.now };
}

impl<'a> SymbolTable<'a> {
    /// The first declaration of a name.
    pub fn find(&self, name: &Name) -> Option<&'a Var>
        ensures { option_copied result ≡ declared self.now name.now }
    {
        self.first.get(name.as_slice()).copied()
    }
}

/// The table of some declarations, and the least offset of a name that an earlier one has.
pub fn declare<'a>(
    alloc: Global,
    vars: &'a [Var],
) -> Result<(SymbolTable<'a>, Option<u64>), NoMemory>
    ensures table { IfOk result (λ made. made.0 ≡ vars.now) }
    ensures repeated { IfOk result (λ made. made.1 ≡ least (repeats [] vars.now)) }
{
    let mut first = IndexMap::new(alloc);
    let mut repeated = None;
    for var in vars {
        if first.get(var.name.as_slice()).is_some() {
            repeated = lesser_offset(repeated, Some(var.at));
        } else {
            first.insert(var.name.as_slice(), var)?;
        }
    }
    Ok((SymbolTable { vars, first }, repeated))
}

/// Whether a name is that of a plain variable.
pub fn is_plain(table: &SymbolTable<'_>, name: &Name) -> bool
    ensures { result ≡ is_plain (declared table.now name.now) }
{
    match table.find(name) {
        Some(var) => var.len.is_none(),
        None => false,
    }
}

fn is_array(table: &SymbolTable<'_>, name: &Name) -> bool
    ensures { result ≡ is_array (declared table.now name.now) }
{
    match table.find(name) {
        Some(var) => var.len.is_some(),
        None => false,
    }
}

/// The least offset in an expression of a name that doesn't stand for what is asked of it.
#[cycle(unknown)]
#[tactic(auto, using(rec_bits::proofs::Faults::least_rules))]
pub fn unknown(table: &SymbolTable<'_>, e: &SrcExpr) -> Option<u64>
    ensures { result ≡ least (unknown table.now (model_of_src_node e.now.node)) }
{
    match &e.node {
        SrcNode::Num(_) => None,
        SrcNode::Var(spot) => unknown_spot(table, spot),
        SrcNode::Un(_, x) | SrcNode::Zext(x, _) | SrcNode::Sext(x, _) | SrcNode::Low(x, _) => {
            unknown(table, x)
        }
        SrcNode::Bin(_, x, y) => lesser_offset(unknown(table, x), unknown(table, y)),
    }
}

/// The same of a place.
#[cycle(unknown)]
#[tactic(auto, using(rec_bits::proofs::Faults::least_rules))]
pub fn unknown_spot(table: &SymbolTable<'_>, spot: &Spot) -> Option<u64>
    ensures { result ≡ least (unknown table.now (spot_node spot.now)) }
{
    match &spot.index {
        None => offset_if(!is_plain(table, &spot.name), spot.at),
        Some(index) => {
            let found = offset_if(!is_array(table, &spot.name), spot.at);
            lesser_offset(found, unknown(table, index))
        }
    }
}

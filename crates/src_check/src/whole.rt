//! The check of a whole program.

ghost use Rattle.std.specs.Prelude.{◌≡◌, ◌≤◌, [], None, IfOk, IfErr, map};
ghost use Rattle.rec_bits.specs.Faults.{least, gather};
ghost use Rattle.src_model.specs.Written.{model_of_stmt, stmts_of, model_of_program};
ghost use Rattle.src_model.specs.Widths.{empty_array};
ghost use Rattle.src_model.specs.Loops.{breaks_in};
ghost use Rattle.src_model.specs.Sizes.{longest};
ghost use Rattle.src_model.specs.Rules.{above, limits, bad_widths, first_fault};
ghost use Rattle.rec_bits.specs.Faults.{fault_at};
ghost use Rattle.rec_bits.specs.Faults.{or_else};
ghost use Rattle.src_model.specs.declared.fault.SrcFault.TheVariants.{Duplicate};
ghost use Rattle.src_check.specs.Inner.LoopRules.{model_of_loop_rule};
ghost use Rattle.src_check.specs.Refusals.{program_with, behind_duplicates, IsCheckFault};

use crate::names::{SymbolTable, declare};
use crate::rounds::Rounds;
use crate::walk::{LoopRule, of_block};
use rec_bits::{NoMemory, lesser_offset, offset_if};
use src_model::{Program, SrcFault, SrcFault2, SrcKind, Stmt, Typed, Var, block_sizes};
use std::alloc::Global;

// The greatest length of an array, number of statements, and number of nodes of a tree.
const LENGTH: u64 = 65536;

const STATEMENTS: u64 = 65536;

const NODES: u64 = 255;

fn broken_in(question: &LoopRule<'_>, body: &[Stmt]) -> Option<u64>
    ensures { result ≡ least (breaks_in (model_of_loop_rule question.now) [] (stmts_of (map model_of_stmt body.now))) }
{
    of_block(question, &Rounds::Outside, body)
}

fn empty_array(var: &Var) -> Option<u64>
    ensures { result ≡ least (empty_array var.now) }
{
    offset_if(var.len == Some(0), var.at)
}

// The least offset of an array without cells.
fn empty_arrays(vars: &[Var]) -> Option<u64>
    ensures { result ≡ least (gather empty_array vars.now) }
{
    let mut found = None;
    for var in vars {
        found = lesser_offset(found, empty_array(var));
    }
    found
}

#[tactic(auto, using(rec_bits::proofs::Faults::least_rules))]
fn bad_width(vars: &[Var], word: u64, body: &[Stmt]) -> Option<u64>
    ensures { result ≡ least (bad_widths word (program_with vars.now body.now)) }
{
    lesser_offset(empty_arrays(vars), broken_in(&LoopRule::Widths(word), body))
}

// The greatest length of an array.
fn longest(vars: &[Var]) -> u64
    ensures { result ≡ longest vars.now }
{
    let mut len = 0;
    for var in vars {
        len = var.len.unwrap_or(0).max(len);
    }
    len
}

fn above(kind: SrcKind, count: u64, bound: u64) -> Option<SrcFault>
    ensures { result ≡ above kind count bound }
{
    if count > bound {
        Some(SrcFault::Limit { kind, count, bound })
    } else {
        None
    }
}

fn limits(vars: &[Var], word: u64, body: &[Stmt]) -> Option<SrcFault>
    ensures { result ≡ limits (program_with vars.now body.now) }
{
    let sizes = block_sizes(word, body);
    if let Some(fault) = above(SrcKind::Length, longest(vars), LENGTH) {
        return Some(fault);
    }
    if let Some(fault) = above(SrcKind::Statements, sizes.statements, STATEMENTS) {
        return Some(fault);
    }
    above(SrcKind::Nodes, sizes.nodes, NODES)
}

// The first fault of a program whose names are declared once.
fn behind_duplicates(
    table: &SymbolTable<'_>,
    vars: &[Var],
    word: u64,
    body: &[Stmt],
) -> Option<SrcFault>
    requires { table.now ≡ vars.now }
    ensures { result ≡ behind_duplicates word (program_with vars.now body.now) }
{
    if let Some(at) = broken_in(&LoopRule::Names(table), body) {
        return Some(SrcFault::Unknown(at));
    }
    if let Some(at) = bad_width(vars, word, body) {
        return Some(SrcFault::Width(at));
    }
    if let Some(at) = broken_in(&LoopRule::Indexes(table), body) {
        return Some(SrcFault::Index(at));
    }
    if let Some(at) = broken_in(&LoopRule::Counters(word), body) {
        return Some(SrcFault::Counter(at));
    }
    limits(vars, word, body)
}

// The first fault of a program, given the least offset of a name that is declared twice.
fn first_of(
    table: &SymbolTable<'_>,
    repeated: Option<u64>,
    vars: &[Var],
    word: u64,
    body: &[Stmt],
) -> Option<SrcFault>
    requires { table.now ≡ vars.now }
    ensures { result ≡ or_else (fault_at Duplicate repeated) (behind_duplicates word (program_with vars.now body.now)) }
{
    match repeated {
        Some(at) => Some(SrcFault::Duplicate(at)),
        None => behind_duplicates(table, vars, word, body),
    }
}

fn first_fault(alloc: Global, program: &Program, word: u64) -> Result<Option<SrcFault>, NoMemory>
    ensures { IfOk result (λ found. found ≡ first_fault word (model_of_program program.now)) }
{
    let vars = program.vars.as_slice();
    let (table, repeated) = declare(alloc, vars)?;
    Ok(first_of(&table, repeated, vars, word, &program.body))
}

/// Checks a program against the rules S1 to S6, for words of `width` bits, 1 to 64.
///
/// A program that breaks none is given back as checked. Otherwise the first rule that is broken is
/// answered, S1 to S5 with the least offset at which it is, and S6 with the count and its bound; a
/// count past the greatest number of 64 bits stands there. A program that is refused is given up.
pub fn check(alloc: Global, program: Program, width: u8) -> Result<Typed, SrcFault2>
    requires some { 1 ≤ width }
    requires most { width ≤ 64 }
    ensures taken { IfOk result (λ typed. first_fault width (model_of_program program) ≡ None) }
    ensures program { IfOk result (λ typed. typed.program ≡ program) }
    ensures width { IfOk result (λ typed. typed.width ≡ width) }
    ensures refused { IfErr result (IsCheckFault (first_fault width (model_of_program program))) }
{
    if let Some(fault) = first_fault(alloc, &program, u64::from(width))? {
        return Err(SrcFault2::Fault(fault));
    }
    Ok(Typed::new(program, width))
}

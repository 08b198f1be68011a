//! How many cuts covers have.

ghost use Rattle.std.specs.Prelude.{◌≡◌, ◌≤◌, IfOk, insert, vec_len};
ghost use Rattle.form_model.specs.CoverModels.{model_of_cover_cuts, model_of_cover_operands, model_of_cover};
ghost use Rattle.form_model.specs.Steps.{cut_count as cut_count_of, cut_counts as cut_counts_of, cuts_count as cuts_count_of, operand_counts as operand_counts_of, operands_count as operands_count_of};
ghost use Rattle.emit_seq.specs.Inner.CellLists.{ArePlaces};

use form_model::{Cover, CoverCuts, CoverOperands};
use rec_bits::NoMemory;
use std::alloc::Global;
use tree_grammar::plus;

// How many cuts the covers of operands have.
#[cycle(counting)]
fn operands_count(operands: &CoverOperands) -> Result<u64, NoMemory>
    ensures { IfOk result (λ n. n ≡ operands_count_of (model_of_cover_operands operands.now)) }
{
    match operands {
        CoverOperands::Empty => Ok(0),
        CoverOperands::Then { cover, rest, .. } => plus(cut_count(cover)?, operands_count(rest)?),
    }
}

// How many there are of these cuts and of those inside them.
#[cycle(counting)]
fn cuts_count(cuts: &CoverCuts) -> Result<u64, NoMemory>
    ensures { IfOk result (λ n. n ≡ cuts_count_of (model_of_cover_cuts cuts.now)) }
{
    match cuts {
        CoverCuts::Empty => Ok(0),
        CoverCuts::Then { cover, rest } => {
            let own = plus(cut_count(cover)?, 1)?;
            plus(own, cuts_count(rest)?)
        }
    }
}

/// How many cuts the cover has, inner ones among them.
#[cycle(counting)]
pub fn cut_count(cover: &Cover) -> Result<u64, NoMemory>
    ensures { IfOk result (λ n. n ≡ cut_count_of (model_of_cover cover.now)) }
{
    plus(operands_count(&cover.operands)?, cuts_count(&cover.cuts)?)
}

/// A list with one item more at this place.
pub fn inserted<T: Drop>(mut list: Vec<T>, place: usize, item: T) -> Result<Vec<T>, NoMemory>
    requires { place ≤ vec_len list }
    ensures { IfOk result (λ made. made.items ≡ insert list.items place item) }
{
    list.insert(place, item)?;
    Ok(list)
}

/// The operands' numbers of cuts, from left to right.
pub fn operand_counts(alloc: Global, operands: &CoverOperands) -> Result<Vec<u64>, NoMemory>
    requires { ArePlaces (model_of_cover_operands operands.now) }
    ensures { IfOk result (λ v. v.items ≡ operand_counts_of (model_of_cover_operands operands.now)) }
{
    match operands {
        CoverOperands::Empty => Ok(Vec::new(alloc)),
        CoverOperands::Then { place, cover, rest } => {
            let count = cut_count(cover)?;
            let counts = inserted(operand_counts(alloc, rest)?, *place, count)?;
            Ok(counts)
        }
    }
}

/// For each of the form's own cuts, from left to right, how many are inside it.
pub fn cut_counts(alloc: Global, cuts: &CoverCuts) -> Result<Vec<u64>, NoMemory>
    ensures { IfOk result (λ v. v.items ≡ cut_counts_of (model_of_cover_cuts cuts.now)) }
{
    match cuts {
        CoverCuts::Empty => Ok(Vec::new(alloc)),
        CoverCuts::Then { cover, rest } => {
            let count = cut_count(cover)?;
            let counts = inserted(cut_counts(alloc, rest)?, 0, count)?;
            Ok(counts)
        }
    }
}

//! The form at the root of a cover, with its match, its operands and cuts, and its step.

ghost use Rattle.std.specs.Prelude.{◌≡◌, ◌+◌, ◌<◌, Some, IfOk, IsSome, bit_or, false, length, slice_get, vec_len};
ghost use Rattle.form_model.specs.Covers.{IsOrderly};
ghost use Rattle.form_model.specs.CoverModels.{model_of_cover_cuts, model_of_cover_operands, model_of_cover};
ghost use Rattle.form_model.specs.Forms.{model_of_form};
ghost use Rattle.form_model.specs.Matches.{taken};
ghost use Rattle.form_model.specs.Steps.{cell_of as cell_of_plan, cut_count as cut_count_of, cut_counts as cut_counts_of, open_setting, operand_counts as operand_counts_of, operand_homes, own_setting as own_setting_of};
ghost use Rattle.form_model.specs.Covers.{home_destination, operands_of};
ghost use Rattle.form_model.specs.Trees.{model_of_tree};
ghost use Rattle.tree_grammar.specs.Leaves.{model_of_destination, model_of_match, model_of_home, models_of_leaves};
ghost use Rattle.tree_grammar.specs.declared.parts.Destination.TheVariants.{Temp};
ghost use Rattle.emit_seq.specs.Inner.CellLists.{AreMatchCells, ArePlaces, IsListed};
ghost use Rattle.emit_seq.specs.Models.{models_of_cut_cells, model_of_operand_cells, models_of_operand_cells, model_of_stock};
ghost use Rattle.emit_seq.specs.Emits.{IsRoot, IsTakenOut};

use crate::cells::{CutCells, MatchCells, OperandCells, match_cells};
use crate::counts::{cut_count, cut_counts, operand_counts};
use crate::homes::{cell_of, homes_of};
use crate::settings::{cells_setting, homes_setting, own_setting};
use form_model::{Cover, Form, Step, Tree};
use rec_bits::NoMemory;
use std::alloc::Global;
use tree_grammar::{Destination, Home, Leaf, Match, Subgoal, match_at, plus};

/// What covers are made of: the forms, the number of temporary cells, and that of the file's cells.
#[derive(Clone, Copy)]
pub struct Stock<'a> {
    pub forms: &'a [Form],
    pub temps: u32,
    pub file: u32,
}

/// What a cover is of: a tree, where it goes, whether it is whole, the first cell of the cuts in the
/// cover, and the cells of the file that operands hold meanwhile.
#[derive(Clone, Copy)]
pub struct Covered<'a> {
    pub tree: &'a Tree,
    pub destination: Destination<'a>,
    pub whole: bool,
    pub first: u64,
    pub held: u64,
}

/// A form at the root of a cover.
#[derive(Drop)]
pub struct Root<'a> {
    pub parts: Vec<Leaf<'a>>,
    pub operands: Vec<OperandCells<'a>>,
    pub cuts: Vec<CutCells<'a>>,
    pub step: Step,
}

pub(crate) fn form_at<'a>(stock: Stock<'a>, place: usize) -> &'a Form
    requires { place < length stock.forms.now }
    ensures { slice_get (model_of_stock stock.entry).forms place ≡ Some (model_of_form result.now) }
{
    &stock.forms[place]
}

fn found_at<'a>(
    alloc: Global,
    stock: Stock<'a>,
    form: &'a Form,
    covered: Covered<'a>,
) -> Result<Match<'a>, NoMemory>
    requires { IsSome (taken stock.temps (model_of_form form.now) (model_of_destination covered.destination)
        (model_of_tree covered.tree.now) covered.whole) }
    ensures { IfOk result (λ found. taken stock.entry.temps (model_of_form form.now)
        (model_of_destination covered.entry.destination) (model_of_tree covered.entry.tree.now)
        covered.entry.whole
        ≡ Some (model_of_match found)) }
{
    let goal = Subgoal {
        destination: covered.destination,
        tree: covered.tree,
        whole: covered.whole,
        at: 0,
    };
    match match_at(alloc, form, goal, stock.temps)? {
        Some(found) => Ok(found),
        None => unreachable!(),
    }
}

// The operands and the cuts of a match with these parts, with their cells from the first on.
fn cells_from<'a>(
    alloc: Global,
    parts: &[Leaf<'a>],
    cover: &Cover,
    first: u64,
) -> Result<MatchCells<'a>, NoMemory>
    requires { ArePlaces (model_of_cover_operands cover.now.operands) }
    ensures { IfOk result (AreMatchCells (models_of_leaves parts.now)
        (operand_counts_of (model_of_cover_operands cover.now.operands))
        (cut_counts_of (model_of_cover_cuts cover.now.cuts)) first) }
{
    let inside = operand_counts(alloc, &cover.operands)?;
    let own = cut_counts(alloc, &cover.cuts)?;
    let cells = match_cells(alloc, parts, inside.as_slice(), own.as_slice(), first)?;
    Ok(cells)
}

// The bits that name the cells of the cuts and the operands among a match's parts.
fn open_bits(
    alloc: Global,
    stock: Stock<'_>,
    cover: &Cover,
    held: u64,
    parts: &[Leaf],
    cuts: &[CutCells],
) -> Result<u64, NoMemory>
    requires { IsListed (model_of_stock stock) (model_of_cover cover.now) }
    ensures { IfOk result (λ n.
        n ≡ open_setting (operands_of (models_of_leaves parts.now)) (models_of_cut_cells cuts.now)
        (operand_homes (model_of_stock stock.entry) (model_of_cover_operands cover.now.operands) held)) }
{
    let homes = homes_of(alloc, stock, &cover.operands, held)?;
    Ok(cells_setting(cuts)? | homes_setting(parts, homes.cells.as_slice())?)
}

// The bits that name the cell in which the form at the root leaves its value.
fn own_bits(
    alloc: Global,
    stock: Stock<'_>,
    form: &Form,
    cover: &Cover,
    covered: Covered<'_>,
) -> Result<u64, NoMemory>
    requires { IsListed (model_of_stock stock) (model_of_cover cover.now) }
    ensures { IfOk result (λ n.
        n ≡ own_setting_of (model_of_destination covered.entry.destination) (model_of_form form.now).addr
        (covered.entry.first + cut_count_of (model_of_cover cover.now))
        (cell_of_plan (model_of_stock stock.entry) (model_of_cover cover.now) covered.entry.held)) }
{
    let cell = cell_of(alloc, stock, cover, covered.held)?;
    let last = plus(covered.first, cut_count(cover)?)?;
    own_setting(form, covered.destination, last, cell)
}

/// The form at the root of an orderly cover.
pub fn root_of<'a>(
    alloc: Global,
    stock: Stock<'a>,
    cover: &Cover,
    covered: Covered<'a>,
) -> Result<Root<'a>, NoMemory>
    requires { IsOrderly (model_of_stock stock) (model_of_destination covered.destination)
        (model_of_tree covered.tree.now) covered.whole (model_of_cover cover.now) }
    ensures { IfOk result (λ root. IsRoot (model_of_stock stock.entry) (model_of_cover cover.now)
        covered.entry.first covered.entry.held (model_of_destination covered.entry.destination)
        (model_of_tree covered.entry.tree.now) covered.entry.whole root) }
{
    let form = form_at(stock, cover.form);
    let own = own_bits(alloc, stock, form, cover, covered)?;
    let found = found_at(alloc, stock, form, covered)?;
    let cells = cells_from(alloc, found.parts.as_slice(), cover, covered.first)?;
    let open = open_bits(
        alloc,
        stock,
        cover,
        covered.held,
        found.parts.as_slice(),
        cells.cuts.as_slice(),
    )?;
    let step = Step {
        pattern: form.pattern,
        setting: (found.setting | open) | own,
    };
    Ok(Root {
        parts: found.parts,
        operands: cells.operands,
        cuts: cells.cuts,
        step,
    })
}

/// Takes the operand at this place out of those that are left.
pub fn take_out<'a>(left: &mut Vec<OperandCells<'a>>, place: usize) -> OperandCells<'a>
    requires { place < vec_len left.old }
    ensures { IsTakenOut (models_of_operand_cells left.old.items) place (model_of_operand_cells result)
        (models_of_operand_cells left.new.items) }
{
    left.remove(place)
}

// Where the cover of an operand with this home goes.
fn destination_of_home<'a>(home: Home<'a>) -> Destination<'a>
    ensures { model_of_destination result ≡ home_destination (model_of_home home.entry) }
{
    match home {
        Home::Register(id) => Destination::Register(id),
        Home::File(_) => Destination::File,
    }
}

/// What the cover of an operand is of, while these cells of the file are held.
pub fn operand_covered<'a>(cells: OperandCells<'a>, held: u64) -> Covered<'a>
    ensures goes { model_of_destination result.destination ≡ home_destination (model_of_home cells.entry.home) }
    ensures is { result ≡ record {
      tree = cells.entry.tree;
      destination = result.destination;
      whole = cells.entry.whole;
      first = cells.entry.first;
      held = held;
    } }
{
    Covered {
        tree: cells.tree,
        destination: destination_of_home(cells.home),
        whole: cells.whole,
        first: cells.first,
        held,
    }
}

/// What the cover of a cut is of. A cut is stored before any operand waits.
pub fn cut_covered<'a>(cells: CutCells<'a>) -> Covered<'a>
    ensures { result ≡ record {
      tree = cells.entry.tree;
      destination = Temp;
      whole = false;
      first = cells.entry.first;
      held = 0;
    } }
{
    Covered {
        tree: cells.tree,
        destination: Destination::Temp,
        whole: false,
        first: cells.first,
        held: 0,
    }
}

//! From a term to an expression.

ghost use Rattle.std.specs.Prelude.{◌≡◌, IfOk, IfErr, Ok, Err, Some, option_map};
ghost use Rattle.net_model.specs.Exprs.{ExprModel, model_of_expr};
ghost use Rattle.view_terms.specs.Inner.Reading.{Gives};
ghost use Rattle.view_terms.specs.Terms.{model_of_term};
ghost use Rattle.view_parts.specs.Parts.{both_part, bounds_in, cells_in, cells_named, constant_part, extended_part, pair_part, part_of, read_part, register_part, sliced_part, unary_part};

use crate::operators::{op1_of, op2_of};
use net_model::{Expr, Storage};
use std::alloc::Global;
use view_scope::{constant_width, name_in, number_in, register_spot};
use view_terms::{Stop, Term};

// A value beside what is made behind it. It is let go here where nothing is.
fn beside<T: Drop, R>(value: T, made: Result<R, Stop>) -> Result<(T, R), Stop>
    ensures read { IfOk result (λ x. (x.0 ≡ value) × (made ≡ Ok x.1)) }
    ensures stopped { IfErr result (λ stop. made ≡ Err stop) }
{
    let made = made?;
    Ok((value, made))
}

/// The first register of a name.
#[tactic(auto, unfolding(crate::specs::Parts::register_part))]
pub fn register_part(storages: &[Storage], name: &[u8]) -> Option<Expr>
    ensures { option_map model_of_expr result ≡ register_part storages.now name.now }
{
    let spot = register_spot(storages, name)?;
    let id = u32::try_from(spot.index).ok()?;
    Some(Expr::Reg(id, spot.width))
}

// A number with its width.
#[tactic(auto, unfolding(crate::specs::Parts::constant_part))]
fn constant_part(value: u64, width: u64) -> Option<Expr>
    ensures { option_map model_of_expr result ≡ constant_part value width }
{
    let width = constant_width(value, width)?;
    Some(Expr::Const { width, value })
}

// Whether cells are those of the register file, and their width.
fn cells_named(storages: &[Storage], name: &[u8]) -> Option<(bool, u8)>
    ensures { result ≡ cells_named storages.now name.now }
{
    let (storage, rest) = storages.split_first()?;
    match storage {
        Storage::Register { .. } => cells_named(rest, name),
        Storage::Memory(cells) => {
            if cells.name.as_slice() == name {
                Some((false, cells.width))
            } else {
                cells_named(rest, name)
            }
        }
        Storage::File(cells) => {
            if cells.name.as_slice() == name {
                Some((true, cells.width))
            } else {
                cells_named(rest, name)
            }
        }
    }
}

// A cell of these cells.
#[tactic(auto, unfolding(crate::specs::Parts::read_part))]
fn read_part(alloc: Global, cells: Option<(bool, u8)>, addr: Expr) -> Result<Expr, Stop>
    ensures { Gives model_of_expr (read_part cells (model_of_expr addr)) result }
{
    let Some((is_file, width)) = cells else {
        return Err(Stop::Form);
    };
    let addr = Box::new(alloc, addr)?;
    if is_file {
        Ok(Expr::Cell(addr, width))
    } else {
        Ok(Expr::Read(addr, width))
    }
}

// An operator of one value.
#[tactic(auto, unfolding(crate::specs::Parts::unary_part))]
fn unary_part(alloc: Global, word: &[u8], a: Expr) -> Result<Expr, Stop>
    ensures { Gives model_of_expr (unary_part word.now (model_of_expr a)) result }
{
    let Some(op) = op1_of(word) else {
        return Err(Stop::Form);
    };
    Ok(Expr::Un(op, Box::new(alloc, a)?))
}

// A value that is extended.
#[tactic(auto, unfolding(crate::specs::Parts::extended_part))]
fn extended_part(alloc: Global, word: &[u8], a: Expr, width: u64) -> Result<Expr, Stop>
    ensures { Gives model_of_expr (extended_part word.now (model_of_expr a) width) result }
{
    let Ok(width) = u8::try_from(width) else {
        return Err(Stop::Form);
    };
    let a = Box::new(alloc, a)?;
    if word == b"zext".as_slice() {
        Ok(Expr::Zext(a, width))
    } else if word == b"sext".as_slice() {
        Ok(Expr::Sext(a, width))
    } else {
        Err(Stop::Form)
    }
}

// Two expressions in boxes.
fn in_boxes(alloc: Global, a: Expr, b: Expr) -> Result<(Box<Expr>, Box<Expr>), Stop>
    ensures { Gives {V = ExprModel × ExprModel} (λ x. (model_of_expr x.0.value, model_of_expr x.1.value)) (Some (model_of_expr a, model_of_expr b)) result }
{
    let (b, a) = beside(b, in_box(alloc, a))?;
    let (a, b) = beside(a, in_box(alloc, b))?;
    Ok((a, b))
}

// An operator of two values.
#[tactic(auto, unfolding(crate::specs::Parts::pair_part))]
fn pair_part(alloc: Global, word: &[u8], a: Expr, b: Expr) -> Result<Expr, Stop>
    ensures { Gives model_of_expr (pair_part word.now (model_of_expr a) (model_of_expr b)) result }
{
    let (a, b) = in_boxes(alloc, a, b)?;
    if let Some(op) = op2_of(word) {
        return Ok(Expr::Bin(op, a, b));
    }
    if word == b"cat".as_slice() {
        Ok(Expr::Cat(a, b))
    } else {
        Err(Stop::Form)
    }
}

// The bits of a value between two of its bits.
#[tactic(auto, unfolding(crate::specs::Parts::sliced_part))]
fn sliced_part(alloc: Global, word: &[u8], a: Expr, hi: &Term, lo: &Term) -> Result<Expr, Stop>
    ensures { Gives model_of_expr (sliced_part word.now (model_of_expr a) (model_of_term hi.now) (model_of_term lo.now)) result }
{
    if word != b"slice".as_slice() {
        return Err(Stop::Form);
    }
    let Some((hi, lo)) = bounds_in(hi, lo) else {
        return Err(Stop::Form);
    };
    Ok(Expr::Slice(Box::new(alloc, a)?, hi, lo))
}

// The two numbers that terms are, below 256.
#[tactic(auto, unfolding(crate::specs::Parts::bounds_in))]
fn bounds_in(hi: &Term, lo: &Term) -> Option<(u8, u8)>
    ensures { result ≡ bounds_in (model_of_term hi.now) (model_of_term lo.now) }
{
    let hi = u8::try_from(number_in(hi)?).ok()?;
    let lo = u8::try_from(number_in(lo)?).ok()?;
    Some((hi, lo))
}

// A part, or why there is none.
fn found(part: Option<Expr>) -> Result<Expr, Stop>
    ensures { Gives model_of_expr (option_map model_of_expr part) result }
{
    match part {
        Some(part) => Ok(part),
        None => Err(Stop::Form),
    }
}

// An expression in a box.
fn in_box(alloc: Global, expr: Expr) -> Result<Box<Expr>, Stop>
    ensures { Gives (λ b. model_of_expr b.value) (Some (model_of_expr expr)) result }
{
    Ok(Box::new(alloc, expr)?)
}

// The cells that a term names, whether they are those of the register file, and their width.
#[tactic(auto, unfolding(crate::specs::Parts::cells_in))]
fn cells_in(storages: &[Storage], term: &Term) -> Option<(bool, u8)>
    ensures { result ≡ cells_in storages.now (model_of_term term.now) }
{
    cells_named(storages, name_in(term)?)
}

/// The expression that a term over registers and cells stands for. `Form` comes exactly where it
/// stands for none.
#[tactic(auto, unfolding(crate::specs::Parts::both_part))]
pub fn part_of(alloc: Global, storages: &[Storage], term: &Term) -> Result<Expr, Stop>
    ensures { Gives model_of_expr (part_of storages.now (model_of_term term.now)) result }
{
    match term {
        Term::Name(name) => found(register_part(storages, name.as_slice())),
        Term::Number(_) => Err(Stop::Form),
        Term::Constant { value, width } => found(constant_part(*value, *width)),
        Term::One(word, a) => {
            let a = part_of(alloc, storages, a)?;
            unary_part(alloc, word.as_slice(), a)
        }
        Term::Two(word, a, b) => {
            if let Some(width) = number_in(b) {
                let a = part_of(alloc, storages, a)?;
                return extended_part(alloc, word.as_slice(), a, width);
            }
            let second = part_of(alloc, storages, b)?;
            if word.as_slice() == b"read".as_slice() {
                return read_part(alloc, cells_in(storages, a), second);
            }
            let (second, first) = beside(second, part_of(alloc, storages, a))?;
            pair_part(alloc, word.as_slice(), first, second)
        }
        Term::Three(word, a, b, c) => {
            let a = part_of(alloc, storages, a)?;
            sliced_part(alloc, word.as_slice(), a, b, c)
        }
    }
}

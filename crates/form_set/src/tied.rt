//! The tied read of a form, by its place among the operands.

ghost use Rattle.std.specs.Prelude.{◌≡◌, ◌+◌, IfOk, option_map};
ghost use Rattle.operand_swaps.specs.Sides.{model_of_sides};
ghost use Rattle.form_set.specs.Targets.{first_of};
ghost use Rattle.form_set.specs.Tied.{operand_count, same_expr as same_term_of, tied_of as tied_of_sides, tied_place};
ghost use Rattle.net_model.specs.Exprs.{model_of_expr};

use net_model::Expr;
use operand_swaps::Sides;
use rec_bits::NoMemory;

// Whether two expressions are one.
fn same_term(left: &Expr, right: &Expr) -> bool
    ensures { result ≡ same_term_of (model_of_expr left.now) (model_of_expr right.now) }
{
    match (left, right) {
        (Expr::Word(w), Expr::Word(x)) => w == x,
        (Expr::Reg(r, w), Expr::Reg(q, x)) => r == q && w == x,
        (Expr::Const { width: w, value: v }, Expr::Const { width: x, value: u }) => {
            w == x && v == u
        }
        (Expr::Read(a, w), Expr::Read(b, x)) | (Expr::Cell(a, w), Expr::Cell(b, x)) => {
            same_term(a, b) && w == x
        }
        (Expr::Un(o, a), Expr::Un(p, b)) => o == p && same_term(a, b),
        (Expr::Bin(o, a, b), Expr::Bin(p, c, d)) => {
            o == p && (same_term(a, c) && same_term(b, d))
        }
        (Expr::Slice(a, hi, lo), Expr::Slice(b, top, low)) => {
            same_term(a, b) && (hi == top && lo == low)
        }
        (Expr::Cat(a, b), Expr::Cat(c, d)) => same_term(a, c) && same_term(b, d),
        (Expr::Zext(a, w), Expr::Zext(b, x)) | (Expr::Sext(a, w), Expr::Sext(b, x)) => {
            same_term(a, b) && w == x
        }
        (Expr::Select(c, a, b), Expr::Select(d, e, f)) => {
            same_term(c, d) && (same_term(a, e) && same_term(b, f))
        }
        _ => false,
    }
}

// What is told of the operands of an expression: how many there are, and the place of the first read
// of the register file at an address.
#[derive(Clone, Copy)]
struct Operands {
    count: u32,
    tied: Option<u32>,
}

// So many places behind some others. Want of memory where 32 bits don't hold it.
fn behind(count: u32, place: u32) -> Result<u32, NoMemory>
    ensures { IfOk result (λ sum. sum ≡ count + place) }
{
    match count.checked_add(place) {
        Some(sum) => Ok(sum),
        None => Err(NoMemory),
    }
}

// A place among the operands of the second of two expressions, as one among those of both.
fn moved(count: u32, place: Option<u32>) -> Result<Option<u32>, NoMemory>
    ensures { IfOk result (λ moved. moved ≡ option_map (λ k. count + k) place) }
{
    match place {
        None => Ok(None),
        Some(place) => {
            let sum = behind(count, place)?;
            Ok(Some(sum))
        }
    }
}

// What is told of two expressions together, the second behind the first.
fn joined(first: Operands, second: Operands) -> Result<Operands, NoMemory>
    ensures count { IfOk result (λ both. both.count ≡ first.count + second.count) }
    ensures tied { IfOk result (λ both.
        both.tied ≡ first_of first.tied (option_map (λ k. first.count + k) second.tied)) }
{
    let count = behind(first.count, second.count)?;
    let later = moved(first.count, second.tied)?;
    let tied = match first.tied {
        Some(place) => Some(place),
        None => later,
    };
    Ok(Operands { count, tied })
}

// The operands of an expression, where the register file is read at an address.
fn read_operands(addr: &Expr, expr: &Expr) -> Result<Operands, NoMemory>
    ensures count { IfOk result (λ found. found.count ≡ operand_count (model_of_expr expr.now)) }
    ensures tied { IfOk result (λ found. found.tied ≡ tied_place (model_of_expr addr.now) (model_of_expr expr.now)) }
{
    match expr {
        Expr::Word(_) | Expr::Const { .. } => Ok(Operands {
            count: 0,
            tied: None,
        }),
        Expr::Reg(..) => Ok(Operands {
            count: 1,
            tied: None,
        }),
        Expr::Cell(a, _) => Ok(Operands {
            count: 1,
            tied: if same_term(a, addr) { Some(0) } else { None },
        }),
        Expr::Read(a, _)
        | Expr::Un(_, a)
        | Expr::Slice(a, _, _)
        | Expr::Zext(a, _)
        | Expr::Sext(a, _) => read_operands(addr, a),
        Expr::Bin(_, a, b) | Expr::Cat(a, b) => {
            let first = read_operands(addr, a)?;
            let second = read_operands(addr, b)?;
            joined(first, second)
        }
        Expr::Select(c, a, b) => {
            let first = read_operands(addr, a)?;
            let second = read_operands(addr, b)?;
            let rest = joined(first, second)?;
            let chosen = read_operands(addr, c)?;
            joined(chosen, rest)
        }
    }
}

// The place of a form's tied read among its operands, from the left; `filed` tells whether the form
// writes the register file.
pub(crate) fn tied_of(filed: bool, sides: &Sides) -> Result<Option<u32>, NoMemory>
    ensures { IfOk result (λ tied. tied ≡ tied_of_sides filed (model_of_sides sides.now)) }
{
    if !filed {
        return Ok(None);
    }
    match &sides.addr {
        None => Ok(None),
        Some(addr) => {
            let found = read_operands(addr, &sides.value)?;
            Ok(found.tied)
        }
    }
}

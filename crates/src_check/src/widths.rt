//! The rule of widths, S3.

ghost use Rattle.std.specs.Prelude.{◌≡◌, ◌^◌, ℕ, nat_lt};
ghost use Rattle.src_model.specs.Written.{model_of_src_node, spot_node, model_of_src_expr};
ghost use Rattle.src_model.specs.Widths.{wide, whole, alike, extended, lowered, sides};

use rec_bits::written_result_width;
use src_model::{Spot, SrcExpr, SrcNode, is_literal};

/// Whether a number has no more than so many bits.
pub fn fits(n: u64, width: u64) -> bool
    ensures { result ≡ nat_lt n (2 ^ width) }
{
    width >= 64 || n >> width == 0
}

/// Whether what is as wide as a word keeps that rule too; `at` is its offset.
pub fn whole(word: u64, at: u64, width: Result<u64, u64>) -> Result<u64, u64>
    ensures { result ≡ whole word at width }
{
    match width {
        Ok(width) if width != word => Err(at),
        _ => width,
    }
}

fn alike(to: u64, left: Result<u64, u64>, right: Result<u64, u64>) -> Result<u64, u64>
    ensures { result ≡ alike to left right }
{
    match (left, right) {
        (Ok(left), Ok(right)) => { if right == left { Ok(left) } else { Err(to) } }
        (Ok(_), Err(fault)) | (Err(fault), Ok(_)) => Err(fault),
        (Err(fault), Err(other)) => Err(fault.min(other)),
    }
}

fn extended(to: u64, at: u64, width: Result<u64, u64>) -> Result<u64, u64>
    ensures { result ≡ extended to at width }
{
    let width = width?;
    if width < to && to <= 64 {
        Ok(to)
    } else {
        Err(at)
    }
}

fn lowered(to: u64, at: u64, width: Result<u64, u64>) -> Result<u64, u64>
    ensures { result ≡ lowered to at width }
{
    let width = width?;
    if 0 < to && to < width {
        Ok(to)
    } else {
        Err(at)
    }
}

/// The width of an expression, or the least offset at which the rule of widths is broken in it. A
/// literal has the width `asked`.
#[cycle(wide)]
pub fn wide(word: u64, asked: u64, e: &SrcExpr) -> Result<u64, u64>
    ensures { result ≡ wide word asked e.now.at (model_of_src_node e.now.node) }
{
    match &e.node {
        SrcNode::Num(n) => {
            if fits(*n, asked) {
                Ok(asked)
            } else {
                Err(e.at)
            }
        }
        SrcNode::Var(spot) => spot_wide(word, spot),
        SrcNode::Un(_, x) => wide(word, asked, x),
        SrcNode::Bin(op, x, y) => Ok(written_result_width(*op, sides(word, x, y)?)),
        SrcNode::Zext(x, to) | SrcNode::Sext(x, to) => extended(*to, e.at, wide(word, word, x)),
        SrcNode::Low(x, to) => lowered(*to, e.at, wide(word, word, x)),
    }
}

/// The same of a place.
#[cycle(wide)]
pub fn spot_wide(word: u64, spot: &Spot) -> Result<u64, u64>
    ensures { (asked at : ℕ) → result ≡ wide word asked at (spot_node spot.now) }
{
    match &spot.index {
        None => Ok(word),
        Some(index) => whole(word, index.at, wide(word, word, index)),
    }
}

/// The width of two operands, or of the sides of a test. A literal has the width of the other one,
/// and two literals have a word's.
#[cycle(wide)]
pub fn sides(word: u64, x: &SrcExpr, y: &SrcExpr) -> Result<u64, u64>
    ensures { result ≡ sides word (model_of_src_expr x.now) (model_of_src_expr y.now) }
{
    match (is_literal(x), is_literal(y)) {
        (true, false) => wide(word, wide(word, word, y)?, x),
        (false, true) => wide(word, wide(word, word, x)?, y),
        _ => alike(y.at, wide(word, word, x), wide(word, word, y)),
    }
}

//! Widths of expressions.

ghost use Rattle.std.specs.Prelude.{◌≡◌};
ghost use Rattle.rec_bits.specs.Operators.{IsWidth};
ghost use Rattle.src_model.specs.Fitting.{Fitting};
ghost use Rattle.src_model.specs.Inner.Narrow.{IsNarrow};
ghost use Rattle.src_model.specs.Meaning.{shape_width, operand_width};
ghost use Rattle.src_model.specs.Written.{model_of_src_node};

use crate::program::{SrcExpr, SrcNode};
use crate::sizes::is_literal;
use rec_bits::result_width;

// The width of an expression; a literal has the width `asked`.
fn written_width(word: u8, asked: u8, e: &SrcExpr) -> u8
    requires { IsNarrow (model_of_src_node e.now.node) }
    ensures { result ≡ shape_width word asked (model_of_src_node e.now.node) }
{
    match &e.node {
        SrcNode::Num(_) => asked,
        SrcNode::Var(_) => word,
        SrcNode::Un(_, x) => written_width(word, asked, x),
        SrcNode::Bin(op, x, y) => {
            let operand = if is_literal(x) { y } else { x };
            result_width(*op, written_width(word, word, operand))
        }
        SrcNode::Zext(_, width) | SrcNode::Sext(_, width) | SrcNode::Low(_, width) => *width as u8,
    }
}

/// The width of an expression that fits, 1 to 64; a literal has the width `asked`.
pub fn width_of(word: u8, asked: u8, e: &SrcExpr) -> u8
    requires word { IsWidth word }
    requires asked { IsWidth asked }
    requires fitting { Fitting word asked (model_of_src_node e.now.node) }
    ensures value { result ≡ shape_width word asked (model_of_src_node e.now.node) }
    ensures wide { IsWidth result }
{
    written_width(word, asked, e)
}

/// The width of both operands of an operator or a test: a literal has that of the other one, and two
/// literals have the word's.
pub fn operand_width(word: u8, x: &SrcExpr, y: &SrcExpr) -> u8
    requires word { IsWidth word }
    requires left { Fitting word (operand_width word (model_of_src_node x.now.node) (model_of_src_node y.now.node))
        (model_of_src_node x.now.node) }
    requires right { Fitting word (operand_width word (model_of_src_node x.now.node) (model_of_src_node y.now.node))
        (model_of_src_node y.now.node) }
    ensures value { result ≡ operand_width word (model_of_src_node x.now.node) (model_of_src_node y.now.node) }
    ensures wide { IsWidth result }
    ensures left { Fitting word result (model_of_src_node x.now.node) }
    ensures right { Fitting word result (model_of_src_node y.now.node) }
{
    if is_literal(x) {
        written_width(word, word, y)
    } else {
        written_width(word, word, x)
    }
}

//! The operators of trees without their operands.

use rec_bits::{Op1, Op2};
use sym_expr::Node;
use tree_laws::Part;

/// An operator of trees without its operands.
#[derive(Clone, Copy, PartialEq, Eq)]
pub enum Kind {
    Number,
    Read,
    Un(Op1),
    Bin(Op2),
    Slice,
    Zext,
    Sext,
}

impl Kind {
    /// The kind of a node of a tree.
    pub fn of_node(node: Node) -> Option<Kind> {
        match node {
            Node::Const { .. } => Some(Kind::Number),
            Node::Read(..) => Some(Kind::Read),
            Node::Un(op, _) => Some(Kind::Un(op)),
            Node::Bin(op, ..) => Some(Kind::Bin(op)),
            Node::Slice(..) => Some(Kind::Slice),
            Node::Zext(..) => Some(Kind::Zext),
            Node::Sext(..) => Some(Kind::Sext),
            Node::Word(_) | Node::Reg(..) | Node::Cell(..) => None,
            Node::Cat(..) | Node::Select(..) => None,
        }
    }

    /// The kind of a rule's part at its root; a variable's tree has none.
    pub(crate) fn of_part(part: Part) -> Option<Kind> {
        match part {
            Part::Tree(_) => None,
            Part::Const(..) => Some(Kind::Number),
            Part::Un(op, _) => Some(Kind::Un(op)),
            Part::Bin(op, ..) => Some(Kind::Bin(op)),
            Part::Slice(..) => Some(Kind::Slice),
            Part::Zext(..) => Some(Kind::Zext),
            Part::Sext(..) => Some(Kind::Sext),
        }
    }
}

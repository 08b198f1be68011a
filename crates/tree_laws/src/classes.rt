//! The table of classes.

ghost use Rattle.std.specs.Prelude.{◌≡◌, ◌<◌, ◌≤◌, SomeIff};
ghost use Rattle.net_model.specs.Exprs.{expr_width};
ghost use Rattle.rec_bits.specs.Operators.{IsWidth};
ghost use Rattle.tree_laws.specs.Meanings.{HaveMeanings};

mod listing;

use indexmap::IndexMap;
use rec_bits::{mask, result_width};
use std::alloc::Global;
use sym_expr::Node;

/// What is known of a class.
#[derive(Clone, Copy)]
pub struct Class {
    /// The width of its trees.
    width: u8,
    /// The class that stands for it since it was joined with others, and itself before.
    head: u64,
}

/// Classes of equal trees over a memory. A class has the place of an expression's id in the nodes
/// that are listed for it; nodes are those of trees alone. The table only grows, and classes are
/// only joined where all their trees are equal.
#[derive(Drop)]
pub struct Classes {
    cell: u8,
    classes: Vec<Class>,
    nodes: IndexMap<Node, u64>,
    ghost meanings: { ∥ HaveMeanings cell classes.items nodes.entries ∥₁ },
}

impl Classes {
    ghost use Rattle.tree_laws.specs.Classes.{FitsIn, canon_in, cell_bits, class_count, entry_in, head_in, listed_count, expr_in, width_in};

    /// No class, over a memory whose cells have so many bits.
    pub fn new(alloc: Global, cell: u8) -> Classes
        requires { IsWidth cell }
        ensures bits { cell_bits result ≡ cell }
        ensures empty { class_count result ≡ 0 }
        ensures unlisted { listed_count result ≡ 0 }
    {
        Classes {
            cell,
            classes: Vec::new(alloc),
            nodes: IndexMap::new(alloc),
        }
    }

    /// How many classes there are, those that were joined with others among them. Their numbers are
    /// those below the answer.
    pub fn len(&self) -> u64
        ensures { result ≡ class_count self.now }
    {
        self.classes.len() as u64
    }

    /// How many nodes are listed.
    pub fn node_count(&self) -> usize
        ensures { result ≡ listed_count self.now }
    {
        self.nodes.len()
    }

    /// The node that was listed at this place, with its class.
    pub fn node(&self, place: usize) -> Option<(Node, u64)>
        ensures { result ≡ entry_in self.now place }
    {
        let (node, class) = self.nodes.get_index(place)?;
        Some((*node, *class))
    }

    /// The class that stands for a class since it was joined with others.
    pub fn head(&self, class: u64) -> u64
        ensures { result ≡ head_in self.now class }
    {
        match self.classes.get(class as usize) {
            Some(found) => found.head,
            None => class,
        }
    }

    /// The width of a class's trees, where there is the class.
    pub fn width(&self, class: u64) -> Option<u8>
        ensures { SomeIff result (class < class_count self.now) (width_in self.now class) }
    {
        match self.classes.get(class as usize) {
            Some(found) => Some(found.width),
            None => None,
        }
    }

    /// The node over the classes that stand for its own.
    pub fn canon(&self, node: Node) -> Node
        ensures { result ≡ canon_in self.now node }
    {
        match node {
            Node::Read(a, w) => Node::Read(self.head(a), w),
            Node::Un(op, a) => Node::Un(op, self.head(a)),
            Node::Bin(op, a, b) => Node::Bin(op, self.head(a), self.head(b)),
            Node::Slice(a, hi, lo) => Node::Slice(self.head(a), hi, lo),
            Node::Zext(a, w) => Node::Zext(self.head(a), w),
            Node::Sext(a, w) => Node::Sext(self.head(a), w),
            Node::Const { .. } => node,
            Node::Word(_) | Node::Reg(..) | Node::Cell(..) => node,
            Node::Cat(..) | Node::Select(..) => node,
        }
    }

    /// The width of a node's trees, where trees have the node, its classes are there, and they have
    /// the widths that its operator asks for.
    pub fn node_width(&self, node: Node) -> Option<u8>
        ensures { SomeIff result (FitsIn self.now node) (expr_width (expr_in self.now node)) }
    {
        match node {
            Node::Const { width, value } => {
                if 1 <= width && width <= 64 && value <= mask(width) {
                    Some(width)
                } else {
                    None
                }
            }
            Node::Read(a, w) => {
                self.width(a)?;
                if w == self.cell && 1 <= w && w <= 64 {
                    Some(w)
                } else {
                    None
                }
            }
            Node::Un(_, a) => self.width(a),
            Node::Bin(op, a, b) => {
                let left = self.width(a)?;
                let right = self.width(b)?;
                if left == right {
                    Some(result_width(op, left))
                } else {
                    None
                }
            }
            Node::Slice(a, hi, lo) => {
                let width = self.width(a)?;
                if lo <= hi && hi < width {
                    Some(hi + 1 - lo)
                } else {
                    None
                }
            }
            Node::Zext(a, w) => self.extended(a, w),
            Node::Sext(a, w) => self.extended(a, w),
            Node::Word(_) | Node::Reg(..) | Node::Cell(..) => None,
            Node::Cat(..) | Node::Select(..) => None,
        }
    }

    // The width that is reached, where it is more than the class's.
    fn extended(&self, class: u64, width: u8) -> Option<u8>
        ensures { SomeIff result
            ((class < class_count self.now) × (width_in self.now class < width) × (width ≤ 64)) width }
    {
        let from = self.width(class)?;
        if from < width && width <= 64 {
            Some(width)
        } else {
            None
        }
    }
}

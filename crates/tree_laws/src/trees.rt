//! Trees into a table of classes, and out of it.

ghost use Rattle.std.specs.Prelude.{◌≡◌, ◌<◌, ◌==◌, false, true, length, option_and_then, Err, Some, IfErr, IfNone, IfOk, IfSome};
ghost use Rattle.form_model.specs.Trees.{model_of_tree};
ghost use Rattle.tree_laws.specs.Classes.{AreOne, Grows, IsOpposite, NodeStands, Stands, TreeFits, are_joined, cell_bits, class_count, class_of, found_in, head_in, opposite_of};
ghost use Rattle.tree_laws.specs.Equal.{AreEqual, AreOpposite};
ghost use Rattle.tree_laws.specs.Spelled.{IsSpelled, spells_one};
ghost use Rattle.tree_laws.specs.Inner.Reading.{IsRead, IsRoot, IsRootOf, IsUnread};
ghost use Rattle.tree_laws.specs.declared.trees.NoTree.{NoTree};

use crate::Classes;
use form_model::Tree;
use rec_bits::{NoMemory, Op1};
use std::alloc::{AllocFailed, Global};
use sym_expr::Node;

/// Why no tree was picked.
#[derive(Clone, Copy, PartialEq, Eq)]
pub enum NoTree {
    /// Want of memory.
    Memory,
    /// The given tree isn't listed, a node isn't one of its class, or there are too few.
    Unlisted,
}

// A tree, and the place behind its nodes.
#[derive(Drop)]
struct Picked {
    tree: Tree,
    next: usize,
}

// The same of an operand.
#[derive(Drop)]
struct Operand {
    tree: Box<Tree>,
    next: usize,
}

impl<T: Drop> From<AllocFailed<T>> for NoTree {
    ghost from_gives = { λ _ cause. cause ≡ NoTree.Memory };

    fn from(_: AllocFailed<T>) -> NoTree {
        NoTree::Memory
    }
}

impl Classes {
    // The root of a tree over the classes of its operands, where these are listed.
    #[cycle(find)]
    fn tree_node(&self, tree: &Tree) -> Option<Node>
        ensures { option_and_then (found_in self.now) result ≡ class_of self.now tree.now }
    {
        match tree {
            Tree::Lit { width, value } => Some(Node::Const {
                width: *width,
                value: *value,
            }),
            Tree::Read(a, w) => Some(Node::Read(self.find_tree(a)?, *w)),
            Tree::Un(op, a) => Some(Node::Un(*op, self.find_tree(a)?)),
            Tree::Bin(op, a, b) => {
                let left = self.find_tree(a)?;
                Some(Node::Bin(*op, left, self.find_tree(b)?))
            }
            Tree::Slice(a, hi, lo) => Some(Node::Slice(self.find_tree(a)?, *hi, *lo)),
            Tree::Zext(a, w) => Some(Node::Zext(self.find_tree(a)?, *w)),
            Tree::Sext(a, w) => Some(Node::Sext(self.find_tree(a)?, *w)),
        }
    }

    /// The class of a tree, where all its nodes are listed.
    #[cycle(find)]
    pub fn find_tree(&self, tree: &Tree) -> Option<u64>
        ensures stands { IfSome result (Stands self.now (model_of_tree tree.now)) }
        ensures class { result ≡ class_of self.now tree.now }
    {
        self.find(self.tree_node(tree)?)
    }

    // The root of a tree over the classes of its operands, which are listed if they weren't yet.
    #[cycle(list)]
    fn list_operands(&mut self, tree: &Tree) -> Result<Option<Node>, NoMemory>
        ensures root { IfOk result (λ found. IfSome found (IsRootOf self.new tree.now)) }
        ensures none { IfOk result (λ found. IfNone found (TreeFits (cell_bits self.old) tree.now → ⊥)) }
        ensures grows { Grows self.old self.new }
    {
        match tree {
            Tree::Lit { width, value } => Ok(Some(Node::Const {
                width: *width,
                value: *value,
            })),
            Tree::Read(a, w) => {
                let Some(of) = self.add_tree(a)? else {
                    return Ok(None);
                };
                Ok(Some(Node::Read(of, *w)))
            }
            Tree::Un(op, a) => {
                let Some(of) = self.add_tree(a)? else {
                    return Ok(None);
                };
                Ok(Some(Node::Un(*op, of)))
            }
            Tree::Bin(op, a, b) => {
                let Some(left) = self.add_tree(a)? else {
                    return Ok(None);
                };
                let Some(right) = self.add_tree(b)? else {
                    return Ok(None);
                };
                Ok(Some(Node::Bin(*op, left, right)))
            }
            Tree::Slice(a, hi, lo) => {
                let Some(of) = self.add_tree(a)? else {
                    return Ok(None);
                };
                Ok(Some(Node::Slice(of, *hi, *lo)))
            }
            Tree::Zext(a, w) => {
                let Some(of) = self.add_tree(a)? else {
                    return Ok(None);
                };
                Ok(Some(Node::Zext(of, *w)))
            }
            Tree::Sext(a, w) => {
                let Some(of) = self.add_tree(a)? else {
                    return Ok(None);
                };
                Ok(Some(Node::Sext(of, *w)))
            }
        }
    }

    /// Lists a tree's nodes. Its class, or None where its widths don't fit.
    #[cycle(list)]
    pub fn add_tree(&mut self, tree: &Tree) -> Result<Option<u64>, NoMemory>
        ensures stands { IfOk result (λ found. IfSome found (Stands self.new (model_of_tree tree.now))) }
        ensures class { IfOk result (λ found. IfSome found (λ c. class_of self.new tree.now ≡ Some c)) }
        ensures none { IfOk result (λ found. IfNone found (TreeFits (cell_bits self.old) tree.now → ⊥)) }
        ensures grows { Grows self.old self.new }
        ensures bits { cell_bits self.new ≡ cell_bits self.old }
    {
        match self.list_operands(tree)? {
            Some(node) => self.add(node),
            None => Ok(None),
        }
    }

    // The node at a place of a list, where it is one of the class.
    fn picked(&self, class: u64, nodes: &[Node], at: usize) -> Result<Node, NoTree>
        ensures place { IfOk result (λ node. at < length nodes.now) }
        ensures stands { IfOk result (λ node. NodeStands self.now node class) }
        ensures root { IfOk result (IsRoot self.now nodes.now class at) }
        ensures none { IfErr result (λ e. (e ≡ NoTree.Unlisted) × IsUnread self.now nodes.now class at) }
    {
        let Some(node) = nodes.get(at) else {
            return Err(NoTree::Unlisted);
        };
        match self.find(*node) {
            Some(found) if self.is_joined(found, class) => Ok(*node),
            _ => Err(NoTree::Unlisted),
        }
    }

    // Whether one class stands for both.
    fn is_joined(&self, a: u64, b: u64) -> bool
        ensures one { result ≡ true → AreOne self.now a b }
        ensures heads { a < class_count self.now → result ≡ (head_in self.now a == head_in self.now b) }
    {
        b < self.len() && self.head(a) == self.head(b)
    }

    /// Whether two trees are of one class. Those that aren't may be equal all the same.
    pub fn are_equal(&self, a: &Tree, b: &Tree) -> bool
        ensures equal { result ≡ true → AreEqual (cell_bits self.now) (model_of_tree a.now) (model_of_tree b.now) }
        ensures joined { result ≡ are_joined self.now (class_of self.now a.now) (class_of self.now b.now) }
    {
        match (self.find_tree(a), self.find_tree(b)) {
            (Some(x), Some(y)) => self.is_joined(x, y),
            _ => false,
        }
    }

    // The tree of a class whose nodes stand in a list from `at` on.
    #[cycle(pick)]
    fn tree(&self, alloc: Global, class: u64, nodes: &[Node], at: usize) -> Result<Picked, NoTree>
        ensures next { IfOk result (λ picked. at < picked.next) }
        ensures stands { IfOk result (λ picked. Stands self.now (model_of_tree picked.tree) class) }
        ensures read { IfOk result (λ picked. IsRead self.now nodes.now class at picked.next picked.tree) }
        ensures unlisted { result ≡ Err NoTree.Unlisted → IsUnread self.now nodes.now class at }
    {
        match self.picked(class, nodes, at)? {
            Node::Const { width, value } => Ok(Picked {
                tree: Tree::Lit { width, value },
                next: at + 1,
            }),
            Node::Read(a, w) => {
                let of = self.operand(alloc, a, nodes, at + 1)?;
                Ok(Picked {
                    tree: Tree::Read(of.tree, w),
                    next: of.next,
                })
            }
            Node::Un(op, a) => {
                let of = self.operand(alloc, a, nodes, at + 1)?;
                Ok(Picked {
                    tree: Tree::Un(op, of.tree),
                    next: of.next,
                })
            }
            Node::Bin(op, a, b) => {
                let left = self.operand(alloc, a, nodes, at + 1)?;
                let right = self.operand(alloc, b, nodes, left.next)?;
                Ok(Picked {
                    tree: Tree::Bin(op, left.tree, right.tree),
                    next: right.next,
                })
            }
            Node::Slice(a, hi, lo) => {
                let of = self.operand(alloc, a, nodes, at + 1)?;
                Ok(Picked {
                    tree: Tree::Slice(of.tree, hi, lo),
                    next: of.next,
                })
            }
            Node::Zext(a, w) => {
                let of = self.operand(alloc, a, nodes, at + 1)?;
                Ok(Picked {
                    tree: Tree::Zext(of.tree, w),
                    next: of.next,
                })
            }
            Node::Sext(a, w) => {
                let of = self.operand(alloc, a, nodes, at + 1)?;
                Ok(Picked {
                    tree: Tree::Sext(of.tree, w),
                    next: of.next,
                })
            }
            Node::Word(_) | Node::Reg(..) | Node::Cell(..) => Err(NoTree::Unlisted),
            Node::Cat(..) | Node::Select(..) => Err(NoTree::Unlisted),
        }
    }

    // The tree of an operand's class.
    #[cycle(pick)]
    fn operand(
        &self,
        alloc: Global,
        class: u64,
        nodes: &[Node],
        at: usize,
    ) -> Result<Operand, NoTree>
        ensures next { IfOk result (λ operand. at < operand.next) }
        ensures stands { IfOk result (λ operand. Stands self.now (model_of_tree operand.tree.value) class) }
        ensures read { IfOk result (λ operand. IsRead self.now nodes.now class at operand.next operand.tree.value) }
        ensures unlisted { result ≡ Err NoTree.Unlisted → IsUnread self.now nodes.now class at }
    {
        let picked = self.tree(alloc, class, nodes, at)?;
        Ok(Operand {
            tree: Box::new(alloc, picked.tree)?,
            next: picked.next,
        })
    }

    /// A tree that is equal to the given one: that of its class whose nodes are listed in order, a
    /// node before its operands and these from left to right, with or without further ones behind
    /// them. What was listed and joined before doesn't matter.
    pub fn equal_tree(&self, alloc: Global, tree: &Tree, nodes: &[Node]) -> Result<Tree, NoTree>
        ensures equal { IfOk result (λ equal. AreEqual (cell_bits self.now) (model_of_tree tree.now) (model_of_tree equal)) }
        ensures spelled { IfOk result (IsSpelled self.now (class_of self.now tree.now) nodes.now) }
        ensures unlisted { result ≡ Err NoTree.Unlisted →
            spells_one self.now (class_of self.now tree.now) nodes.now ≡ false }
    {
        match self.find_tree(tree) {
            Some(class) => Ok(self.tree(alloc, class, nodes, 0)?.tree),
            None => Err(NoTree::Unlisted),
        }
    }

    /// A tree that is 1 where the given test is 0, and 0 where it is 1: that of its negation's
    /// class whose nodes are listed in order.
    pub fn opposite_tree(&self, alloc: Global, test: &Tree, nodes: &[Node]) -> Result<Tree, NoTree>
        ensures opposite { IfOk result (λ other. AreOpposite (cell_bits self.now) (model_of_tree other) (model_of_tree test.now)) }
        ensures spelled { IfOk result (IsSpelled self.now (opposite_of self.now test.now) nodes.now) }
        ensures unlisted { result ≡ Err NoTree.Unlisted →
            spells_one self.now (opposite_of self.now test.now) nodes.now ≡ false }
    {
        match self.opposite(test) {
            Some(class) => Ok(self.tree(alloc, class, nodes, 0)?.tree),
            None => Err(NoTree::Unlisted),
        }
    }

    // The class of a test's negation, where it is listed.
    fn opposite(&self, test: &Tree) -> Option<u64>
        ensures stands { IfSome result (IsOpposite self.now (model_of_tree test.now)) }
        ensures class { result ≡ opposite_of self.now test.now }
    {
        let class = self.find_tree(test)?;
        if self.width(class)? != 1 {
            return None;
        }
        self.find(Node::Un(Op1::Not, class))
    }
}

//! Nodes into the table, and classes joined.

ghost use Rattle.std.specs.Prelude.{◌≡◌, ◌==◌, not, None, Some, IfNone, IfOk, IfSome};
ghost use Rattle.net_model.specs.Exprs.{expr_width};
ghost use Rattle.tree_laws.specs.Classes.{AreOne, FitsIn, Grows, IsJoined, IsOfClass, NodeStands, cell_bits, found_in, head_in, expr_in};
ghost use Rattle.tree_laws.specs.Meanings.{Redirected};

use crate::classes::{Class, Classes};
use rec_bits::NoMemory;
use sym_expr::Node;

impl Classes {
    // The class under which a node is listed as it is.
    fn listed(&self, node: Node) -> Option<u64>
        ensures { IfSome result (λ c. IsOfClass self.now node c) }
    {
        let class = self.nodes.get(&node)?;
        Some(*class)
    }

    /// The class of a node that is listed over the classes that stand for its own.
    pub fn find(&self, node: Node) -> Option<u64>
        ensures stands { IfSome result (λ c. NodeStands self.now node c) }
        ensures fits { IfSome result (λ c. FitsIn self.now node) }
        ensures listed { result ≡ found_in self.now node }
    {
        self.node_width(node)?;
        let class = self.nodes.get(&self.canon(node))?;
        Some(*class)
    }

    // Lists a node of a class.
    fn list(&mut self, node: Node, class: u64) -> Result<(), NoMemory>
        requires { IsOfClass self.old node class }
        ensures { cell_bits self.new ≡ cell_bits self.old }
    {
        let canon = self.canon(node);
        self.nodes.insert(canon, class)?;
        Ok(())
    }

    // A new class of this width, with a node.
    fn push(&mut self, width: u8, node: Node) -> Result<u64, NoMemory>
        requires fits { FitsIn self.old node }
        requires width { width ≡ expr_width (expr_in self.old node) }
        requires unlisted { found_in self.old node ≡ None }
        ensures listed { IfOk result (λ c. found_in self.new node ≡ Some c) }
        ensures grows { Grows self.old self.new }
    {
        let class = self.classes.len() as u64;
        let canon = self.canon(node);
        self.classes.push(Class { width, head: class })?;
        self.nodes.insert(canon, class)?;
        Ok(class)
    }

    /// The class of a node, which is a new one where there was none, or None where trees don't have
    /// such a node or the widths of its classes don't fit.
    pub fn add(&mut self, node: Node) -> Result<Option<u64>, NoMemory>
        ensures stands { IfOk result (λ found. IfSome found (λ c. NodeStands self.new node c)) }
        ensures listed { IfOk result (λ found. found ≡ found_in self.new node) }
        ensures none { IfOk result (λ found. IfNone found (FitsIn self.old node → ⊥)) }
        ensures grows { Grows self.old self.new }
        ensures bits { cell_bits self.new ≡ cell_bits self.old }
    {
        if let Some(class) = self.find(node) {
            return Ok(Some(class));
        }
        match self.node_width(node) {
            Some(width) => Ok(Some(self.push(width, node)?)),
            None => Ok(None),
        }
    }

    /// Makes one class of two whose trees are equal. Whether they were two before.
    pub fn join(&mut self, a: u64, b: u64) -> bool
        requires { AreOne self.old a b }
        ensures two { result ≡ not (head_in self.old b == head_in self.old a) }
        ensures joined { IsJoined a b self.old self.new }
    {
        let to = self.head(a);
        let from = self.head(b);
        redirect(&mut self.classes, from, to);
        from != to
    }

    /// Joins a listed node's class with that of the node over the classes that stand for its own, or
    /// lists it there: what nodes ask for that became one when their operands' classes were joined.
    /// Whether there were two classes.
    pub fn close_node(&mut self, node: Node) -> Result<bool, NoMemory>
        ensures { cell_bits self.new ≡ cell_bits self.old }
    {
        let Some(class) = self.listed(node) else {
            return Ok(false);
        };
        if let Some(other) = self.find(node) {
            return Ok(self.join(class, other));
        }
        self.list(node, class)?;
        Ok(false)
    }
}

// Lets `to` stand for every class for which `from` stands.
fn redirect(classes: &mut Vec<Class>, from: u64, to: u64)
    ensures { Redirected from to classes.old.items classes.new.items }
{
    for i in 0..classes.len() {
        let class = classes[i];
        if class.head == from {
            classes[i] = Class {
                width: class.width,
                head: to,
            };
        }
    }
}

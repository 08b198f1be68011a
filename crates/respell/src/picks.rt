//! The nodes of the trees that cost least, in order.

use crate::costs::{ClassHome, Costs, Root};
use form_model::Form;
use law_rounds::Graph;
use net_model::Expr;
use std::alloc::Global;
use sym_expr::Node;
use tree_grammar::is_field_shape;
use tree_laws::NoTree;

/// What trees are picked from.
#[derive(Clone, Copy)]
pub(crate) struct Picks<'a> {
    pub graph: Graph<'a>,
    pub costs: &'a Costs,
    pub forms: &'a [Form],
}

/// How many nodes a tree has at most: trees of programs have at most 255.
const NODES: usize = 4096;

// An expression of a form that is to have the value of a class.
#[derive(Clone, Copy)]
struct Asked<'a> {
    by: &'a Expr,
    class: u64,
}

impl<'a> Picks<'a> {
    /// The nodes of the value of a job.
    pub(crate) fn value(&self, alloc: Global, root: Root) -> Result<Vec<Node>, NoTree> {
        let Some(form) = self.forms.get(root.form) else {
            return Err(NoTree::Unlisted);
        };
        self.nodes(
            alloc,
            Asked {
                by: &form.value,
                class: root.value,
            },
        )
    }

    /// The nodes of the address of a store.
    pub(crate) fn address(&self, alloc: Global, root: Root) -> Result<Vec<Node>, NoTree> {
        let (Some(form), Some(class)) = (self.forms.get(root.form), root.address) else {
            return Err(NoTree::Unlisted);
        };
        match &form.addr {
            Some(addr) => self.nodes(alloc, Asked { by: addr, class }),
            None => Err(NoTree::Unlisted),
        }
    }

    // The nodes of what is asked for, a node before its operands.
    fn nodes(&self, alloc: Global, asked: Asked<'a>) -> Result<Vec<Node>, NoTree> {
        let mut nodes = Vec::new(alloc);
        self.put_all(alloc, &mut nodes, asked)?;
        Ok(nodes)
    }

    // Puts the nodes of what is asked for.
    fn put_all(
        &self,
        alloc: Global,
        nodes: &mut Vec<Node>,
        asked: Asked<'a>,
    ) -> Result<(), NoTree> {
        let mut open = Vec::new(alloc);
        open.push(asked)?;
        for _ in 0..NODES {
            match open.pop() {
                Some(next) => self.put(&mut open, nodes, next)?,
                None => return Ok(()),
            }
        }
        Err(NoTree::Unlisted)
    }

    // Puts the node of what is asked for, and asks for its operands; or asks for the form that
    // leaves the value where the expression reads it.
    fn put(
        &self,
        open: &mut Vec<Asked<'a>>,
        nodes: &mut Vec<Node>,
        asked: Asked<'a>,
    ) -> Result<(), NoTree> {
        let e = asked.by;
        let head = self.graph.table.head(asked.class);
        if is_field_shape(e) {
            return self.put_number(nodes, head);
        }
        match e {
            Expr::Reg(id, _) => self.put_form(open, head, ClassHome::Register(*id)),
            Expr::Cell(..) => self.put_form(open, head, ClassHome::File),
            Expr::Read(addr, width) => self.put_read(open, nodes, addr, *width, head),
            _ => self.put_operator(open, nodes, e, head),
        }
    }

    // The number that a class is.
    fn put_number(&self, nodes: &mut Vec<Node>, class: u64) -> Result<(), NoTree> {
        for node in self.graph.index.nodes(self.graph.table.head(class)) {
            if let Node::Const { .. } = node {
                nodes.push(*node)?;
                return Ok(());
            }
        }
        Err(NoTree::Unlisted)
    }

    // Asks for the value of the form that leaves a class in a place.
    fn put_form(
        &self,
        open: &mut Vec<Asked<'a>>,
        head: u64,
        place: ClassHome,
    ) -> Result<(), NoTree> {
        let Some(least) = self.costs.least(head, place) else {
            return Err(NoTree::Unlisted);
        };
        match self.forms.get(least.form) {
            Some(form) => {
                open.push(Asked {
                    by: &form.value,
                    class: head,
                })?;
                Ok(())
            }
            None => Err(NoTree::Unlisted),
        }
    }

    // A read of the class that costs least, or the value that a temporary cell is to have.
    fn put_read(
        &self,
        open: &mut Vec<Asked<'a>>,
        nodes: &mut Vec<Node>,
        addr: &'a Expr,
        width: u8,
        head: u64,
    ) -> Result<(), NoTree> {
        let stored = match self.costs.least(head, ClassHome::Cell) {
            Some(least) if is_field_shape(addr) => least.cost,
            _ => u64::MAX,
        };
        let mut best = stored;
        let mut picked = None;
        for node in self.graph.index.nodes(head) {
            if let Node::Read(of, w) = *node {
                let cost = self.costs.fit(self.graph, addr, of);
                if w == width && cost < best {
                    best = cost;
                    picked = Some(*node);
                }
            }
        }
        match picked {
            Some(node) => {
                nodes.push(node)?;
                if let Node::Read(of, _) = node {
                    open.push(Asked {
                        by: addr,
                        class: of,
                    })?;
                }
                Ok(())
            }
            None => self.put_form(open, head, ClassHome::Cell),
        }
    }

    // The node of the class that costs least for an operator.
    fn put_operator(
        &self,
        open: &mut Vec<Asked<'a>>,
        nodes: &mut Vec<Node>,
        e: &'a Expr,
        head: u64,
    ) -> Result<(), NoTree> {
        let mut best = u64::MAX;
        let mut picked = None;
        for node in self.graph.index.nodes(head) {
            let cost = self.costs.at_node(self.graph, e, *node);
            if cost < best {
                best = cost;
                picked = Some(*node);
            }
        }
        let Some(node) = picked else {
            return Err(NoTree::Unlisted);
        };
        nodes.push(node)?;
        ask_operands(open, e, node)
    }
}

// Asks for the operands of a node by those of the expression, the first of them last, so that it is
// the next that is put.
fn ask_operands<'a>(open: &mut Vec<Asked<'a>>, e: &'a Expr, node: Node) -> Result<(), NoTree> {
    match (e, node) {
        (Expr::Un(_, a), Node::Un(_, x)) => open.push(Asked { by: a, class: x })?,
        (Expr::Bin(_, a, b), Node::Bin(_, x, y)) => {
            open.push(Asked { by: b, class: y })?;
            open.push(Asked { by: a, class: x })?;
        }
        (Expr::Slice(a, ..), Node::Slice(x, ..)) => open.push(Asked { by: a, class: x })?,
        (Expr::Zext(a, _), Node::Zext(x, _)) => open.push(Asked { by: a, class: x })?,
        (Expr::Sext(a, _), Node::Sext(x, _)) => open.push(Asked { by: a, class: x })?,
        _ => return Err(NoTree::Unlisted),
    }
    Ok(())
}

//! The nodes of a table by class and by kind: those over classes that stand for others, since each
//! other node is listed so as well once the table is closed.

use crate::kinds::Kind;
use rec_bits::NoMemory;
use std::alloc::Global;
use sym_expr::Node;
use tree_laws::Classes;

/// A node with the class that stands for its own.
#[derive(Clone, Copy)]
pub struct Member {
    pub class: u64,
    pub node: Node,
}

/// The nodes of each class, and those of each kind, when the index was made. A class is told by the
/// one that stood for it then.
#[derive(Drop)]
pub struct Index {
    classes: Vec<Vec<Node>>,
    kinds: Vec<OfKind>,
    heads: Vec<u64>,
}

// The nodes of a kind.
#[derive(Drop)]
struct OfKind {
    kind: Kind,
    members: Vec<Member>,
}

/// A table of classes with its nodes, as laws and forms are matched in it.
#[derive(Clone, Copy)]
pub struct Graph<'a> {
    pub table: &'a Classes,
    pub index: &'a Index,
}

impl Index {
    /// The nodes that are listed at these places of a table, as far as they are over classes that
    /// stand for others.
    pub(crate) fn new(alloc: Global, table: &Classes, places: &[usize]) -> Result<Index, NoMemory> {
        let mut index = Index {
            classes: Vec::new(alloc),
            kinds: Vec::new(alloc),
            heads: Vec::new(alloc),
        };
        index.list_classes(alloc, table)?;
        index.list_nodes(alloc, table, places)?;
        Ok(index)
    }

    // Lists the classes, without nodes yet.
    fn list_classes(&mut self, alloc: Global, table: &Classes) -> Result<(), NoMemory> {
        for class in 0..table.len() {
            self.classes.push(Vec::new(alloc))?;
            if table.head(class) == class {
                self.heads.push(class)?;
            }
        }
        Ok(())
    }

    // Lists the nodes at these places.
    fn list_nodes(
        &mut self,
        alloc: Global,
        table: &Classes,
        places: &[usize],
    ) -> Result<(), NoMemory> {
        for place in places {
            if let Some((node, class)) = table.node(*place) {
                let class = table.head(class);
                self.add(alloc, Member { class, node })?;
            }
        }
        Ok(())
    }

    fn add(&mut self, alloc: Global, member: Member) -> Result<(), NoMemory> {
        if let Some(nodes) = self.classes.get_mut(member.class as usize) {
            nodes.push(member.node)?;
        }
        let Some(kind) = Kind::of_node(member.node) else {
            return Ok(());
        };
        for known in self.kinds.iter_mut() {
            if known.kind == kind {
                known.members.push(member)?;
                return Ok(());
            }
        }
        let mut members = Vec::new(alloc);
        members.push(member)?;
        self.kinds.push(OfKind { kind, members })?;
        Ok(())
    }

    /// The classes that stood for themselves.
    pub fn heads(&self) -> &[u64] {
        &self.heads
    }

    /// The nodes of a class.
    pub fn nodes(&self, class: u64) -> &[Node] {
        match self.classes.get(class as usize) {
            Some(nodes) => nodes,
            None => &[],
        }
    }

    /// The nodes of a kind.
    pub fn of_kind(&self, kind: Kind) -> &[Member] {
        match self.kinds.iter().find(|known| known.kind == kind) {
            Some(known) => &known.members,
            None => &[],
        }
    }

    /// The number of a class that is one.
    pub fn number(&self, class: u64) -> Option<u64> {
        self.nodes(class).iter().find_map(|node| match node {
            Node::Const { value, .. } => Some(*value),
            _ => None,
        })
    }
}

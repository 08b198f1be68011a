//! A pool of expressions that share their parts.

ghost use Rattle.std.specs.Prelude.{◌≡◌, ℕ, ◌+◌, ◌<◌, ◌≤◌, max, List, [], length, IfOk, OnErr, slice_index};
ghost use Rattle.rec_bits.specs.Counts.{capped};
ghost use Rattle.net_model.specs.Meaning.{mean};
ghost use Rattle.net_model.specs.Exprs.{size_of, model_of_expr, expr_width};
ghost use Rattle.sym_expr.specs.Pools.{AllBelow, Grows, HeadFits, IsOneEach, KeepsExprs, Suits, ExprFits, node_expr, children_of, expr_of_id};
ghost use Rattle.sym_expr.specs.Measures.{IsMeasure};
ghost use Rattle.sym_expr.specs.declared.pool.Node.{Node as TheNode};

use indexmap::IndexMap;
use net_model::{Expr, State};
use rec_bits::{NoMemory, Op1, Op2, apply1, apply2, cat, result_width, sext, slice};
use std::alloc::Global;
use std::marker::Model;

/// An expression, by the place of its node in a pool.
pub type ExprId = u64;

/// A leaf, or an operator over the ids of its operands, with the meanings of `net_model::Expr`.
/// Each tells its own width: in `Word`, `Reg`, `Read` and `Cell` the last number is the width,
/// in `Zext` and `Sext` the width that is reached.
#[derive(Clone, Copy, PartialEq, Eq, Hash)]
pub enum Node {
    Word(u8),
    Reg(u32, u8),
    Const { width: u8, value: u64 },
    /// A cell of the memory at an address, and one of the register file.
    Read(ExprId, u8),
    Cell(ExprId, u8),
    Un(Op1, ExprId),
    Bin(Op2, ExprId, ExprId),
    /// The bits from the first number down to the second.
    Slice(ExprId, u8, u8),
    Cat(ExprId, ExprId),
    Zext(ExprId, u8),
    Sext(ExprId, u8),
    /// The second where the first is 1, and otherwise the third.
    Select(ExprId, ExprId, ExprId),
}

// What is known of an expression from its parts alone: its width, and how many nodes it has, 2^64 -
// 1 standing for more.
#[derive(Clone, Copy, PartialEq, Eq)]
struct Measure {
    width: u8,
    size: u64,
}

/// Expressions of widths from 1 to 64 bits, with one id for each. A pool only grows: an id means
/// the same expression for as long as the pool lives, and want of memory leaves the pool as it was.
/// All calls but `new`, `intern` and `expr` take no memory.
#[derive(Drop)]
pub struct Pool {
    nodes: IndexMap<Node, Measure>,
}

impl Model for Pool {
    ghost use Rattle.std.specs.Prelude.{List};
    ghost use Rattle.indexmap.specs.IndexMap.{keys};
    ghost use Rattle.sym_expr.specs.declared.pool.Node.{Node as TheNode};
    ghost use Rattle.sym_expr.specs.Measures.{IsMeasuredPool};

    ghost Value = { List TheNode };

    ghost view = { λ p. keys p.nodes };

    ghost invariant = { λ p. IsMeasuredPool p.nodes.entries };
}

impl Pool {
    /// A pool with no expressions.
    pub fn new(alloc: Global) -> Result<Pool, NoMemory>
        ensures { IfOk result (λ pool. pool ≡ []) }
    {
        Ok(Pool {
            nodes: IndexMap::new(alloc),
        })
    }

    /// The id of an expression, of which its parts have ids below the pool's length and the widths
    /// that its operator asks for. It is the pool's length where the expression is new, and no
    /// other is added.
    pub fn intern(&mut self, _alloc: Global, node: Node) -> Result<ExprId, NoMemory>
        requires parts { AllBelow (length self.old) (children_of node) }
        requires fits { HeadFits (node_expr node (expr_of_id self.old)) }
        ensures grows { Grows self.old self.new }
        ensures refused { OnErr result (self.new ≡ self.old) }
        ensures within { IfOk result (λ id. id < length self.new) }
        ensures next { IfOk result (λ id. id ≤ length self.old) }
        ensures alone { IfOk result (λ id. length self.new ≤ max (length self.old) (id + 1)) }
        ensures expr { IfOk result (λ id. expr_of_id self.new id ≡ node_expr node (expr_of_id self.old)) }
    {
        if let Some(place) = self.nodes.get_index_of(&node) {
            return Ok(place as u64);
        }
        let measure = self.measure(node);
        let (place, _) = self.nodes.insert_full(node, measure)?;
        Ok(place as u64)
    }

    /// How many ids there are: those below the answer. What holds of all ids is said here.
    pub fn len(&self) -> u64
        ensures len { result ≡ length self.now }
        ensures one_each { IsOneEach self.now }
        ensures fits { (id : ℕ) → id < length self.now → ExprFits (expr_of_id self.now id) }
        ensures keeps { (older : List TheNode) → Grows older self.now → KeepsExprs older self.now }
    {
        self.nodes.len() as u64
    }

    /// The node of an id.
    pub fn node(&self, id: ExprId) -> Node
        requires { id < length self.now }
        ensures expr { expr_of_id self.now id ≡ node_expr result (expr_of_id self.now) }
        ensures below { AllBelow id (children_of result) }
        ensures fits { ExprFits (node_expr result (expr_of_id self.now)) }
    {
        self.nodes.keys().as_slice()[id as usize]
    }

    /// The width of an expression, 1 to 64 bits.
    pub fn width(&self, id: ExprId) -> u8
        requires { id < length self.now }
        ensures width { result ≡ expr_width (expr_of_id self.now id) }
        ensures low { 1 ≤ result }
        ensures high { result ≤ 64 }
    {
        self.measured(id).width
    }

    /// How many leaves and operators an expression has, or 2^64 - 1 where there are more.
    pub fn size(&self, id: ExprId) -> u64
        requires { id < length self.now }
        ensures { result ≡ capped (size_of (expr_of_id self.now id)) }
    {
        self.measured(id).size
    }

    /// The value of an expression in a state under an instruction word, where the registers, cells
    /// and the word that it names fit the widths with which it names them.
    pub fn eval(&self, id: ExprId, state: &State, word: u64) -> u64
        requires id { id < length self.now }
        requires suits { Suits (expr_of_id self.now id) state.now word }
        ensures { result ≡ mean (expr_of_id self.now id) state.now word }
    {
        match self.node(id) {
            Node::Word(_) => word,
            Node::Reg(register, _) => number_at(state.regs.as_slice(), u64::from(register)),
            Node::Const { value, .. } => value,
            Node::Read(addr, _) => {
                number_at(state.cells.as_slice(), self.eval(addr, state, word))
            }
            Node::Cell(addr, _) => {
                number_at(state.file.as_slice(), self.eval(addr, state, word))
            }
            Node::Un(op, a) => apply1(op, self.width(a), self.eval(a, state, word)),
            Node::Bin(op, a, b) => apply2(
                op,
                self.width(a),
                self.eval(a, state, word),
                self.eval(b, state, word),
            ),
            Node::Slice(a, hi, lo) => slice(self.eval(a, state, word), hi, lo),
            Node::Cat(a, b) => cat(
                self.eval(a, state, word),
                self.eval(b, state, word),
                self.width(b),
            ),
            Node::Zext(a, _) => self.eval(a, state, word),
            Node::Sext(a, width) => sext(self.eval(a, state, word), self.width(a), width),
            Node::Select(c, a, b) => {
                if self.eval(c, state, word) == 1 {
                    self.eval(a, state, word)
                } else {
                    self.eval(b, state, word)
                }
            }
        }
    }

    /// The expression of an id as a tree of its own.
    #[cycle(expr)]
    pub fn expr(&self, alloc: Global, id: ExprId) -> Result<Expr, NoMemory>
        requires { id < length self.now }
        ensures { IfOk result (λ expr. model_of_expr expr ≡ expr_of_id self.now id) }
    {
        Ok(match self.node(id) {
            Node::Word(width) => Expr::Word(width),
            Node::Reg(register, width) => Expr::Reg(register, width),
            Node::Const { width, value } => Expr::Const { width, value },
            Node::Read(addr, width) => Expr::Read(self.boxed(alloc, addr)?, width),
            Node::Cell(addr, width) => Expr::Cell(self.boxed(alloc, addr)?, width),
            Node::Un(op, a) => Expr::Un(op, self.boxed(alloc, a)?),
            Node::Bin(op, a, b) => Expr::Bin(op, self.boxed(alloc, a)?, self.boxed(alloc, b)?),
            Node::Slice(a, hi, lo) => Expr::Slice(self.boxed(alloc, a)?, hi, lo),
            Node::Cat(a, b) => Expr::Cat(self.boxed(alloc, a)?, self.boxed(alloc, b)?),
            Node::Zext(a, width) => Expr::Zext(self.boxed(alloc, a)?, width),
            Node::Sext(a, width) => Expr::Sext(self.boxed(alloc, a)?, width),
            Node::Select(c, a, b) => Expr::Select(
                self.boxed(alloc, c)?,
                self.boxed(alloc, a)?,
                self.boxed(alloc, b)?,
            ),
        })
    }

    // The expression of an operand.
    #[cycle(expr)]
    fn boxed(&self, alloc: Global, id: ExprId) -> Result<Box<Expr>, NoMemory>
        requires { id < length self.now }
        ensures { IfOk result (λ held. model_of_expr held.value ≡ expr_of_id self.now id) }
    {
        let expr = self.expr(alloc, id)?;
        let held = Box::new(alloc, expr)?;
        Ok(held)
    }

    // What is known of the expression of an id.
    fn measured(&self, id: ExprId) -> Measure
        requires { id < length self.now }
        ensures fits { ExprFits (expr_of_id self.now id) }
        ensures is { IsMeasure (expr_of_id self.now id) result }
    {
        self.nodes.values().as_slice()[id as usize]
    }

    // What is known of the expression that a node would be.
    fn measure(&self, node: Node) -> Measure
        requires parts { AllBelow (length self.now) (children_of node) }
        requires fits { HeadFits (node_expr node (expr_of_id self.now)) }
        ensures { IsMeasure (node_expr node (expr_of_id self.now)) result }
    {
        Measure {
            width: self.width_of(node),
            size: self.size_of(node),
        }
    }

    fn width_of(&self, node: Node) -> u8
        requires parts { AllBelow (length self.now) (children_of node) }
        requires fits { HeadFits (node_expr node (expr_of_id self.now)) }
        ensures { result ≡ expr_width (node_expr node (expr_of_id self.now)) }
    {
        match node {
            Node::Word(width) => width,
            Node::Reg(_, width) => width,
            Node::Const { width, .. } => width,
            Node::Read(_, width) | Node::Cell(_, width) => width,
            Node::Un(_, a) => self.width(a),
            Node::Bin(op, a, _) => result_width(op, self.width(a)),
            Node::Slice(a, hi, lo) => {
                let _of = self.width(a);
                hi + 1 - lo
            }
            Node::Cat(a, b) => self.width(a) + self.width(b),
            Node::Zext(_, width) => width,
            Node::Sext(_, width) => width,
            Node::Select(_, a, _) => self.width(a),
        }
    }

    fn size_of(&self, node: Node) -> u64
        requires parts { AllBelow (length self.now) (children_of node) }
        ensures { result ≡ capped (size_of (node_expr node (expr_of_id self.now))) }
    {
        match node {
            Node::Word(_) => 1,
            Node::Reg(..) => 1,
            Node::Const { .. } => 1,
            Node::Read(a, _) | Node::Cell(a, _) => self.size(a).saturating_add(1),
            Node::Un(_, a) => self.size(a).saturating_add(1),
            Node::Bin(_, a, b) => self.size(a).saturating_add(self.size(b)).saturating_add(1),
            Node::Slice(a, _, _) => self.size(a).saturating_add(1),
            Node::Cat(a, b) => self.size(a).saturating_add(self.size(b)).saturating_add(1),
            Node::Zext(a, _) => self.size(a).saturating_add(1),
            Node::Sext(a, _) => self.size(a).saturating_add(1),
            Node::Select(c, a, b) => self
                .size(c)
                .saturating_add(self.size(a))
                .saturating_add(self.size(b))
                .saturating_add(1),
        }
    }
}

// The number at a place of a list, and 0 past its end.
fn number_at(values: &[u64], place: u64) -> u64
    ensures { result ≡ slice_index values.now place }
{
    match values.get(place as usize) {
        Some(value) => *value,
        None => 0,
    }
}

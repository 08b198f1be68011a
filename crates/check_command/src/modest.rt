//! Views that do none of the program's work.

ghost use Rattle.std.specs.Prelude.{◌≡◌, ◌↔◌, ◌-◌, ◌^◌, min, IsTrue};
ghost use Rattle.net_model.specs.Exprs.{model_of_expr};
ghost use Rattle.check_command.specs.Views.{IsModest, has_binary, has_choice, has_unary, is_binary, is_choice, is_made_of, is_unary, nodes_of};

use net_model::{Expr, Gate, Net, Netlist};
use rec_bits::{Op1, Op2};

// The most nodes of a view.
const MOST_NODES: u64 = 8;

// The nodes of an expression; the greatest number where it has more.
fn nodes(expr: &Expr) -> u64
    ensures { result ≡ min (nodes_of (model_of_expr expr.now)) (2 ^ 64 - 1) }
{
    match expr {
        Expr::Word(_) | Expr::Reg(_, _) | Expr::Const { .. } => 1,
        Expr::Read(a, _) | Expr::Cell(a, _) | Expr::Un(_, a) => nodes(a).saturating_add(1),
        Expr::Slice(a, _, _) | Expr::Zext(a, _) | Expr::Sext(a, _) => nodes(a),
        Expr::Cat(a, b) => nodes(a).saturating_add(nodes(b)),
        Expr::Bin(_, a, b) => nodes(a).saturating_add(nodes(b)).saturating_add(1),
        Expr::Select(c, a, b) => nodes(c)
            .saturating_add(nodes(a))
            .saturating_add(nodes(b))
            .saturating_add(1),
    }
}

// Whether a gate is this operator of one operand.
fn is_unary(gate: &Gate, op: Op1) -> bool
    ensures { result ≡ is_unary op gate.now }
{
    match gate {
        Gate::Un(other, _) => *other == op,
        _ => false,
    }
}

// Whether a gate is this operator of two operands.
fn is_binary(gate: &Gate, op: Op2) -> bool
    ensures { result ≡ is_binary op gate.now }
{
    match gate {
        Gate::Bin(other, _, _) => *other == op,
        _ => false,
    }
}

// Whether a gate is a choice.
fn is_choice(gate: &Gate) -> bool
    ensures { result ≡ is_choice gate.now }
{
    matches!(gate, Gate::Case { .. })
}

// Whether a net is this operator of one operand.
fn has_unary(nets: &[Net], op: Op1) -> bool
    ensures { result ≡ has_unary nets.now op }
{
    nets.iter().any(|net| is_unary(&net.gate, op))
}

// Whether a net is this operator of two operands.
fn has_binary(nets: &[Net], op: Op2) -> bool
    ensures { result ≡ has_binary nets.now op }
{
    nets.iter().any(|net| is_binary(&net.gate, op))
}

// Whether a net is a choice.
fn has_choice(nets: &[Net]) -> bool
    ensures { result ≡ has_choice nets.now }
{
    nets.iter().any(|net| is_choice(&net.gate))
}

// Whether each operator of an expression is that of a net.
fn is_made_of(nets: &[Net], expr: &Expr) -> bool
    ensures { result ≡ is_made_of nets.now (model_of_expr expr.now) }
{
    match expr {
        Expr::Word(_) | Expr::Reg(_, _) | Expr::Const { .. } => true,
        Expr::Read(a, _)
        | Expr::Cell(a, _)
        | Expr::Slice(a, _, _)
        | Expr::Zext(a, _)
        | Expr::Sext(a, _) => is_made_of(nets, a),
        Expr::Un(op, a) => has_unary(nets, *op) && is_made_of(nets, a),
        Expr::Bin(op, a, b) => {
            has_binary(nets, *op) && is_made_of(nets, a) && is_made_of(nets, b)
        }
        Expr::Cat(a, b) => is_made_of(nets, a) && is_made_of(nets, b),
        Expr::Select(c, a, b) => {
            has_choice(nets) && is_made_of(nets, c) && is_made_of(nets, a) && is_made_of(nets, b)
        }
    }
}

/// Whether the expression of a view is modest: it has eight nodes at most, and each of its operators is
/// that of a net.
pub fn is_modest(netlist: &Netlist, expr: &Expr) -> bool
    ensures { IsTrue result ↔ IsModest netlist.now (model_of_expr expr.now) }
{
    nodes(expr) <= MOST_NODES && is_made_of(netlist.nets.as_slice(), expr)
}

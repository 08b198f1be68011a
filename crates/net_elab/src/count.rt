//! How many nets there are.

ghost use Rattle.std.specs.Prelude.{◌≡◌, ◌<◌, ◌^◌, map, option_map, option_copied};
ghost use Rattle.net_model.specs.Written.{binding_of, driver_of, other_of, model_of_net_expr, case_rest_of, model_of_case_row, case_rows_of};
ghost use Rattle.net_model.specs.Numbering.{bound, count, count_drivers, count_equation, count_equations, count_if, count_input, count_inputs, count_output, count_outputs, count_part, count_rest, count_rows};

use net_model::{Ident, NetExpr, Port};
use rec_bits::Name;

/// How many nets an expression gives.
#[cycle(count)]
pub fn count_nets(e: &NetExpr) -> u32
    requires { count (model_of_net_expr e.now) < 2 ^ 32 }
    ensures { result ≡ count (model_of_net_expr e.now) }
{
    match e {
        NetExpr::Named { bits, .. } => match bits {
            Some(_) => 1,
            None => 0,
        },
        NetExpr::Const { .. } => 1,
        NetExpr::Un(_, a)
        | NetExpr::Slice(a, _, _)
        | NetExpr::Zext(a, _)
        | NetExpr::Sext(a, _)
        | NetExpr::Read(_, a) => count_nets(a) + 1,
        NetExpr::Bin(_, a, b) | NetExpr::Cat(a, b) => count_nets(a) + count_nets(b) + 1,
        NetExpr::Case { sel, rows, rest } => {
            count_nets(sel) + count_rows(rows) + count_other(rest) + 1
        }
    }
}

/// How many nets the rows of a case give.
#[cycle(count)]
fn count_rows(rows: &[(Vec<u64>, NetExpr)]) -> u32
    requires { count_rows (case_rows_of (map model_of_case_row rows.now)) < 2 ^ 32 }
    ensures { result ≡ count_rows (case_rows_of (map model_of_case_row rows.now)) }
{
    let mut total = 0;
    for row in rows {
        total += count_nets(&row.1);
    }
    total
}

/// How many nets the rest of a case gives.
#[cycle(count)]
fn count_other(other: &Option<Box<NetExpr>>) -> u32
    requires { count_rest (case_rest_of (other_of other.now)) < 2 ^ 32 }
    ensures { result ≡ count_rest (case_rest_of (other_of other.now)) }
{
    match other {
        Some(a) => count_nets(a),
        None => 0,
    }
}

/// How many nets an expression gives, where there is one.
pub fn count_if(e: Option<&NetExpr>) -> u32
    requires { count_if (option_map model_of_net_expr (option_copied e)) < 2 ^ 32 }
    ensures { result ≡ count_if (option_map model_of_net_expr (option_copied e.entry)) }
{
    match e {
        Some(e) => count_nets(e),
        None => 0,
    }
}

/// How many nets the drivers of a bus give.
pub fn count_drivers(drivers: &[(NetExpr, NetExpr)]) -> u32
    requires { count_drivers (map driver_of drivers.now) < 2 ^ 32 }
    ensures { result ≡ count_drivers (map driver_of drivers.now) }
{
    let mut total = 0;
    for driver in drivers {
        total += count_nets(&driver.0) + count_nets(&driver.1);
    }
    total
}

/// The first expression that is bound to a name.
pub fn bound<'a>(bindings: &'a [(Ident, NetExpr)], name: &Name) -> Option<&'a NetExpr>
    ensures { option_map model_of_net_expr (option_copied result) ≡ bound (map binding_of bindings.now) name.now }
{
    for binding in bindings {
        if binding.0.name == *name {
            return Some(&binding.1);
        }
    }
    None
}

/// How many nets an input of a part gives: those of its link, and its wire.
pub fn count_input(links: &[(Ident, NetExpr)], port: &Port) -> u32
    requires { count_input (map binding_of links.now) port.now < 2 ^ 32 }
    ensures { result ≡ count_input (map binding_of links.now) port.now }
{
    if port.output {
        return 0;
    }
    count_if(bound(links, &port.name.name)) + 1
}

/// How many nets the inputs of a part give.
pub fn count_inputs(links: &[(Ident, NetExpr)], ports: &[Port]) -> u32
    requires { count_inputs (map binding_of links.now) ports.now < 2 ^ 32 }
    ensures { result ≡ count_inputs (map binding_of links.now) ports.now }
{
    let mut total = 0;
    for port in ports {
        total += count_input(links, port);
    }
    total
}

/// How many wires an output of a part gives.
pub fn count_output(port: &Port) -> u32
    ensures { result ≡ count_output port.now }
{
    if port.output { 1 } else { 0 }
}

/// How many wires the outputs of a part give.
pub fn count_outputs(ports: &[Port]) -> u32
    requires { count_outputs ports.now < 2 ^ 32 }
    ensures { result ≡ count_outputs ports.now }
{
    let mut total = 0;
    for port in ports {
        total += count_output(port);
    }
    total
}

/// How many nets the equation of an output gives.
pub fn count_equation(equations: &[(Ident, NetExpr)], port: &Port) -> u32
    requires { count_equation (map binding_of equations.now) port.now < 2 ^ 32 }
    ensures { result ≡ count_equation (map binding_of equations.now) port.now }
{
    if port.output {
        return count_if(bound(equations, &port.name.name));
    }
    0
}

/// How many nets the equations of a part give.
pub fn count_equations(equations: &[(Ident, NetExpr)], ports: &[Port]) -> u32
    requires { count_equations (map binding_of equations.now) ports.now < 2 ^ 32 }
    ensures { result ≡ count_equations (map binding_of equations.now) ports.now }
{
    let mut total = 0;
    for port in ports {
        total += count_equation(equations, port);
    }
    total
}

/// How many nets a part gives.
pub fn count_part(links: &[(Ident, NetExpr)], ports: &[Port], equations: &[(Ident, NetExpr)]) -> u32
    requires { count_part (map binding_of links.now) ports.now (map binding_of equations.now) < 2 ^ 32 }
    ensures { result ≡ count_part (map binding_of links.now) ports.now (map binding_of equations.now) }
{
    count_inputs(links, ports) + count_outputs(ports) + count_equations(equations, ports)
}

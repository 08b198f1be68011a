//! The nets of parts.

ghost use Rattle.std.specs.Prelude.{◌≡◌, ◌+◌, ◌<◌, ◌^◌, IsSome, OnOk, false, true, length, map, option_copied, option_map};
ghost use Rattle.std.specs.List.{AllByRecursion};
ghost use Rattle.net_model.specs.Elaborable.{PortFed, PortKeeps};
ghost use Rattle.net_model.specs.Elaborated.{bound_out, equation_nets, equations_nets, input_nets, inputs_nets, out_of, output_wire, output_wires, part_nets};
ghost use Rattle.net_model.specs.Numbering.{bound, count, count_equation, count_equations, count_if, count_input, count_inputs, count_output, count_outputs, count_part, scope_at};
ghost use Rattle.net_model.specs.TextNames.{in_module, in_text};
ghost use Rattle.net_model.specs.TextWidths.{wide};
ghost use Rattle.net_model.specs.Written.{binding_of, model_of_unit, model_of_net_expr};
ghost use Rattle.net_elab.specs.Inner.Emissions.{Grown, IsWideIf};
ghost use Rattle.net_elab.specs.Inner.Sites.{model_of_site};

use crate::count::{bound, count_equation, count_inputs, count_nets, count_outputs};
use crate::expression::{emit_if, push_net};
use crate::numbers::port_wires;
use crate::site::{Inside, Site, Text};
use net_model::{Gate, Ident, Net, NetExpr, Port};
use rec_bits::{Items, NoMemory};
use std::alloc::Global;

/// The nets of an input: those of its link, then its wire.
fn emit_input(
    alloc: Global,
    site: &Site,
    nets: &mut Items<Net>,
    at: u64,
    links: &[(Ident, NetExpr)],
    port: &Port,
) -> Result<(), NoMemory>
    requires narrow { PortKeeps port.now }
    requires fed { PortFed false (scope_at (model_of_site site.now)) (map binding_of links.now) port.now }
    requires room { length nets.old + count_input (map binding_of links.now) port.now < 2 ^ 32 }
    ensures { OnOk result (Grown
        (input_nets (model_of_site site.now) at (length nets.old) (map binding_of links.now) port.now)
        (count_input (map binding_of links.now) port.now) nets.old nets.new) }
{
    if port.output {
        return Ok(());
    }
    let from = emit_if(alloc, site, nets, at, bound(links, &port.name.name))?;
    let gate = Gate::Wire(from.unwrap_or(0));
    push_net(nets, at, port.width as u8, gate)?;
    Ok(())
}

/// The nets of the inputs.
fn emit_inputs(
    alloc: Global,
    site: &Site,
    nets: &mut Items<Net>,
    at: u64,
    links: &[(Ident, NetExpr)],
    ports: &[Port],
) -> Result<(), NoMemory>
    requires narrow { AllByRecursion PortKeeps ports.now }
    requires fed { AllByRecursion (PortFed false (scope_at (model_of_site site.now)) (map binding_of links.now)) ports.now }
    requires room { length nets.old + count_inputs (map binding_of links.now) ports.now < 2 ^ 32 }
    ensures { OnOk result (Grown
        (inputs_nets (model_of_site site.now) at (length nets.old) (map binding_of links.now) ports.now)
        (count_inputs (map binding_of links.now) ports.now) nets.old nets.new) }
{
    for port in ports {
        emit_input(alloc, site, nets, at, links, port)?;
    }
    Ok(())
}

/// The net that will have an expression's value, where the expression's own nets begin at a number.
fn out_of(site: &Site, start: u32, e: &NetExpr) -> u32
    requires widths { IsSome (wide (scope_at (model_of_site site.now)) (model_of_net_expr e.now)) }
    requires room { start + count (model_of_net_expr e.now) < 2 ^ 32 }
    ensures { result ≡ out_of (model_of_site site.now) start (model_of_net_expr e.now) }
{
    match e {
        NetExpr::Named {
            name,
            field,
            bits: None,
        } => {
            let Some(spot) = site.net(&name.name, field) else {
                unreachable!()
            };
            spot.net
        }
        NetExpr::Named { bits: Some(_), .. }
        | NetExpr::Const { .. }
        | NetExpr::Un(..)
        | NetExpr::Bin(..)
        | NetExpr::Cat(..)
        | NetExpr::Slice(..)
        | NetExpr::Zext(..)
        | NetExpr::Sext(..)
        | NetExpr::Read(..)
        | NetExpr::Case { .. } => (start + count_nets(e)).saturating_sub(1),
    }
}

/// The net that will have the value of a port's expression, and 0 where there is none.
fn bound_out(site: &Site, start: u32, e: Option<&NetExpr>) -> u32
    requires widths { IsWideIf (scope_at (model_of_site site.now)) (option_map model_of_net_expr (option_copied e)) }
    requires room { start + count_if (option_map model_of_net_expr (option_copied e)) < 2 ^ 32 }
    ensures { result ≡ bound_out (model_of_site site.now) start (option_map model_of_net_expr (option_copied e.entry)) }
{
    match e {
        Some(e) => out_of(site, start, e),
        None => 0,
    }
}

/// The wire of an output, whose equation's nets will begin at a number.
fn emit_output(
    site: &Site,
    nets: &mut Items<Net>,
    at: u64,
    start: u32,
    equations: &[(Ident, NetExpr)],
    port: &Port,
) -> Result<(), NoMemory>
    requires narrow { PortKeeps port.now }
    requires fed { PortFed true (scope_at (model_of_site site.now)) (map binding_of equations.now) port.now }
    requires room { length nets.old < 2 ^ 32 }
    requires behind { start + count_equation (map binding_of equations.now) port.now < 2 ^ 32 }
    ensures { OnOk result (Grown (output_wire (model_of_site site.now) at start (map binding_of equations.now) port.now)
        (count_output port.now) nets.old nets.new) }
{
    if port.output {
        let from = bound_out(site, start, bound(equations, &port.name.name));
        push_net(nets, at, port.width as u8, Gate::Wire(from))?;
    }
    Ok(())
}

/// The wires of the outputs, whose equations' nets will begin at a number.
fn emit_outputs(
    site: &Site,
    nets: &mut Items<Net>,
    at: u64,
    start: u32,
    equations: &[(Ident, NetExpr)],
    ports: &[Port],
) -> Result<(), NoMemory>
    requires narrow { AllByRecursion PortKeeps ports.now }
    requires fed { AllByRecursion
        (PortFed true (scope_at (model_of_site site.now)) (map binding_of equations.now)) ports.now }
    requires room { length nets.old + count_outputs ports.now < 2 ^ 32 }
    requires behind { start + count_equations (map binding_of equations.now) ports.now < 2 ^ 32 }
    ensures { OnOk result (Grown (output_wires (model_of_site site.now) at start (map binding_of equations.now) ports.now)
        (count_outputs ports.now) nets.old nets.new) }
{
    let mut next = start;
    for port in ports {
        emit_output(site, nets, at, next, equations, port)?;
        next += count_equation(equations, port);
    }
    Ok(())
}

/// The nets of an output's equation.
fn emit_equation(
    alloc: Global,
    site: &Site,
    nets: &mut Items<Net>,
    at: u64,
    equations: &[(Ident, NetExpr)],
    port: &Port,
) -> Result<(), NoMemory>
    requires fed { PortFed true (scope_at (model_of_site site.now)) (map binding_of equations.now) port.now }
    requires room { length nets.old + count_equation (map binding_of equations.now) port.now < 2 ^ 32 }
    ensures { OnOk result (Grown
        (equation_nets (model_of_site site.now) at (length nets.old) (map binding_of equations.now) port.now)
        (count_equation (map binding_of equations.now) port.now) nets.old nets.new) }
{
    if port.output {
        emit_if(alloc, site, nets, at, bound(equations, &port.name.name))?;
    }
    Ok(())
}

/// The nets of the equations.
fn emit_equations(
    alloc: Global,
    site: &Site,
    nets: &mut Items<Net>,
    at: u64,
    equations: &[(Ident, NetExpr)],
    ports: &[Port],
) -> Result<(), NoMemory>
    requires fed { AllByRecursion
        (PortFed true (scope_at (model_of_site site.now)) (map binding_of equations.now)) ports.now }
    requires room { length nets.old + count_equations (map binding_of equations.now) ports.now < 2 ^ 32 }
    ensures { OnOk result (Grown
        (equations_nets (model_of_site site.now) at (length nets.old) (map binding_of equations.now) ports.now)
        (count_equations (map binding_of equations.now) ports.now) nets.old nets.new) }
{
    for port in ports {
        emit_equation(alloc, site, nets, at, equations, port)?;
    }
    Ok(())
}

/// The ports of a module, and the equations of its outputs.
#[derive(Clone, Copy)]
pub struct ModuleBody<'a> {
    pub ports: &'a [Port],
    pub equations: &'a [(Ident, NetExpr)],
}

/// The nets of a part, of a module with this body.
pub fn emit_part(
    alloc: Global,
    text: &Text,
    nets: &mut Items<Net>,
    at: u64,
    links: &[(Ident, NetExpr)],
    body: &ModuleBody,
) -> Result<(), NoMemory>
    requires narrow { AllByRecursion PortKeeps body.now.ports.now }
    requires links { AllByRecursion
        (PortFed false (in_text (map model_of_unit text.now)) (map binding_of links.now)) body.now.ports.now }
    requires equations { AllByRecursion
        (PortFed true (in_module body.now.ports.now) (map binding_of body.now.equations.now)) body.now.ports.now }
    requires room { length nets.old
        + count_part (map binding_of links.now) body.now.ports.now (map binding_of body.now.equations.now) < 2 ^ 32 }
    ensures { OnOk result (Grown (part_nets (map model_of_unit text.now) at (length nets.old)
        (map binding_of links.now) body.now.ports.now (map binding_of body.now.equations.now))
        (count_part (map binding_of links.now) body.now.ports.now (map binding_of body.now.equations.now))
        nets.old nets.new) }
{
    let ports = body.ports;
    let equations = body.equations;
    let start = nets.len() as u32;
    let wire = start + count_inputs(links, ports);
    let first = wire + count_outputs(ports);
    let wires = port_wires(alloc, start, wire, links, ports)?;
    emit_inputs(alloc, &Site::Top(text), nets, at, links, ports)?;
    let inside = Inside::new(ports, wires.as_slice());
    let site = Site::Part(&inside);
    emit_outputs(&site, nets, at, first, equations, ports)?;
    emit_equations(alloc, &site, nets, at, equations, ports)
}

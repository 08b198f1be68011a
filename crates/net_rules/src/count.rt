//! How many nets there are. Counts stop at 2^64 - 1.

ghost use Rattle.std.specs.Prelude.{◌≡◌, IfOk, map, option_copied, option_map};
ghost use Rattle.rec_bits.specs.Counts.{capped};
ghost use Rattle.net_model.specs.Numbering.{count, count_drivers, count_equations, count_if, count_inputs, count_item, count_items, count_outputs, count_rest, count_rows};
ghost use Rattle.net_model.specs.TextNames.{item_named};
ghost use Rattle.net_model.specs.TextWidths.{ports_of};
ghost use Rattle.net_model.specs.Written.{binding_of, driver_of, model_of_unit, other_of, model_of_net_expr, case_rest_of, model_of_case_row, case_rows_of, when_of};
ghost use Rattle.net_names.specs.Places.{lent};
ghost use Rattle.net_rules.specs.Inner.Counts.{count_linked, count_part_of, capped_module};

use crate::text::Text;
use net_model::{Ident, NetExpr, Port, Unit};
use net_names::Bindings;
use rec_bits::{Items, Name, NoMemory};
use std::alloc::Global;

// ---- expressions

#[cycle(count)]
#[tactic(auto, using(crate::proofs::Counts::counts))]
fn count(e: &NetExpr) -> u64
    ensures { result ≡ capped (count (model_of_net_expr e.now)) }
{
    match e {
        NetExpr::Named { bits, .. } => match bits {
            Some(_) => 1,
            None => 0,
        },
        NetExpr::Const { .. } => 1,
        NetExpr::Un(_, a)
        | NetExpr::Slice(a, _, _)
        | NetExpr::Zext(a, _)
        | NetExpr::Sext(a, _)
        | NetExpr::Read(_, a) => count(a).saturating_add(1),
        NetExpr::Bin(_, a, b) | NetExpr::Cat(a, b) => {
            count(a).saturating_add(count(b)).saturating_add(1)
        }
        NetExpr::Case { sel, rows, rest } => {
            let values = count(sel).saturating_add(count_rows(rows));
            values.saturating_add(count_rest(rest)).saturating_add(1)
        }
    }
}

#[cycle(count)]
fn count_rows(rows: &[(Vec<u64>, NetExpr)]) -> u64
    ensures { result ≡ capped (count_rows (case_rows_of (map model_of_case_row rows.now))) }
{
    let mut total: u64 = 0;
    for row in rows {
        total = total.saturating_add(count(&row.1));
    }
    total
}

#[cycle(count)]
fn count_rest(other: &Option<Box<NetExpr>>) -> u64
    ensures { result ≡ capped (count_rest (case_rest_of (other_of other.now))) }
{
    match other {
        Some(a) => count(a),
        None => 0,
    }
}

fn count_if(e: Option<&NetExpr>) -> u64
    ensures { result ≡ capped (count_if (option_map model_of_net_expr (option_copied e.entry))) }
{
    match e {
        Some(e) => count(e),
        None => 0,
    }
}

fn count_drivers(drivers: &[(NetExpr, NetExpr)]) -> u64
    ensures { result ≡ capped (count_drivers (map driver_of drivers.now)) }
{
    let mut total: u64 = 0;
    for driver in drivers {
        let both = count(&driver.0).saturating_add(count(&driver.1));
        total = total.saturating_add(both);
    }
    total
}

// ---- parts

fn count_linked(links: &Bindings, inputs: &[&Port]) -> u64
    ensures { result ≡ capped (count_linked (map binding_of links.now) (map lent inputs.now)) }
{
    let mut total: u64 = 0;
    for input in inputs {
        let link = count_if(links.bound(&input.name.name));
        total = total.saturating_add(link.saturating_add(1));
    }
    total
}

// The nets that a part has for the inputs of its module. The module's outputs aren't looked at.
fn count_inputs(text: &Text, owner: &Name, links: &Bindings) -> u64
    ensures { result ≡
        capped (count_inputs (map binding_of links.now) (ports_of (item_named (map model_of_unit text.now) owner.now))) }
{
    match text.ports(owner) {
        Some(ports) => count_linked(links, ports.inputs()),
        None => 0,
    }
}

fn count_outputs(ports: &[Port]) -> u64
    ensures { result ≡ capped (count_outputs ports.now) }
{
    let mut total: u64 = 0;
    for port in ports {
        if port.output {
            total = total.saturating_add(1);
        }
    }
    total
}

fn count_equations(equations: &Bindings, ports: &[Port]) -> u64
    ensures { result ≡ capped (count_equations (map binding_of equations.now) ports.now) }
{
    let mut total: u64 = 0;
    for port in ports {
        if port.output {
            total = total.saturating_add(count_if(equations.bound(&port.name.name)));
        }
    }
    total
}

// The nets that a part has for the outputs of its module.
fn count_module(alloc: Global, unit: &Unit) -> Result<u64, NoMemory>
    ensures { IfOk result (λ n. n ≡ capped_module unit.now) }
{
    match unit {
        Unit::Module {
            ports,
            equations,
            ..
        } => {
            let ports = ports.as_slice();
            let equations = Bindings::new(alloc, equations.as_slice())?;
            Ok(count_outputs(ports).saturating_add(count_equations(&equations, ports)))
        }
        _ => Ok(0),
    }
}

fn count_modules(alloc: Global, units: &[Unit]) -> Result<Items<u64>, NoMemory>
    ensures { IfOk result (λ counts. counts ≡ map capped_module units.now) }
{
    let mut counts = Items::new(alloc);
    for unit in units {
        counts.push(count_module(alloc, unit)?)?;
    }
    Ok(counts)
}

// ---- items

fn count_part(
    alloc: Global,
    text: &Text,
    modules: &Items<u64>,
    owner: &Ident,
    links: &[(Ident, NetExpr)],
) -> Result<u64, NoMemory>
    requires { modules.now ≡ map capped_module text.now }
    ensures { IfOk result (λ n.
        n ≡ capped (count_part_of (map model_of_unit text.now) owner.now (map binding_of links.now))) }
{
    let links = Bindings::new(alloc, links)?;
    let inputs = count_inputs(text, &owner.name, &links);
    match modules.get(text.place(&owner.name)) {
        Some(outputs) => Ok(inputs.saturating_add(*outputs)),
        None => Ok(inputs),
    }
}

fn count_item(
    alloc: Global,
    text: &Text,
    modules: &Items<u64>,
    unit: &Unit,
) -> Result<u64, NoMemory>
    requires { modules.now ≡ map capped_module text.now }
    ensures { IfOk result (λ n. n ≡ capped (count_item (map model_of_unit text.now) (model_of_unit unit.now))) }
{
    match unit {
        Unit::Code { .. } => Ok(1),
        Unit::Register { input, when, .. } => {
            let when = count_if(when.as_ref());
            Ok(count(input).saturating_add(when).saturating_add(1))
        }
        Unit::Memory {
            value,
            addr,
            when,
            ..
        } => {
            let when = count_if(when.as_ref());
            Ok(
                count(value)
                    .saturating_add(count(addr))
                    .saturating_add(when),
            )
        }
        Unit::Net { value, .. } => Ok(count(value).saturating_add(1)),
        Unit::Bus { drivers, .. } => Ok(count_drivers(drivers.as_slice()).saturating_add(1)),
        Unit::Module { .. } => Ok(0),
        Unit::Part { module, links, .. } => {
            count_part(alloc, text, modules, module, links.as_slice())
        }
    }
}

/// How many nets the items of a text give.
pub(crate) fn count_items(alloc: Global, text: &Text, units: &[Unit]) -> Result<u64, NoMemory>
    requires { text.now ≡ units.now }
    ensures { IfOk result (λ n. n ≡ capped (count_items (map model_of_unit units.now) (map model_of_unit units.now))) }
{
    let modules = count_modules(alloc, units)?;
    let mut total: u64 = 0;
    for unit in units {
        total = total.saturating_add(count_item(alloc, text, &modules, unit)?);
    }
    Ok(total)
}

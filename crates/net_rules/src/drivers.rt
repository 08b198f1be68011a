//! N4 in items: inputs, outputs and cases without an expression, or with two.

ghost use Rattle.std.specs.Prelude.{◌≡◌, ◌&&◌, IfOk, [], map, true, false};
ghost use Rattle.std.specs.List.{list_all};
ghost use Rattle.rec_bits.specs.Faults.{least};
ghost use Rattle.net_model.specs.DriverRules.{binding_name, covers_binding, covers_driver, covers, covers_if, drives_once, is_driven, is_driven_item, names_new, undriven, undrivens};
ghost use Rattle.net_model.specs.TextNames.{item_named, in_module, in_text};
ghost use Rattle.net_model.specs.TextWidths.{ports_of};
ghost use Rattle.net_model.specs.Written.{binding_of, driver_of, model_of_unit, model_of_net_expr, when_of};
ghost use Rattle.net_names.specs.Places.{lent};
ghost use Rattle.net_rules.specs.Inner.Modules.{is_bound, item_ports};
ghost use Rattle.net_rules.specs.Inner.Scopes.{model_of_scope};

use crate::cases::{both, covers};
use crate::text::{Scope, Text};
use net_model::{Ident, NetExpr, Port, Unit};
use net_names::{Bindings, Ports, SymbolTable, name_of};
use rec_bits::{Name, NoMemory, lesser_offset, offset_if};
use std::alloc::Global;

// ---- ports

fn is_bound(bindings: &Bindings, port: &Port) -> bool
    ensures { result ≡ is_bound (map binding_of bindings.now) port.now }
{
    bindings.bound(&port.name.name).is_some()
}

fn is_output_driven(equations: &Bindings, port: &Port) -> bool
    ensures { result ≡ is_driven true (map binding_of equations.now) port.now }
{
    !port.output || is_bound(equations, port)
}

fn are_outputs_driven(equations: &Bindings, ports: &[Port]) -> bool
    ensures { result ≡ list_all (is_driven true (map binding_of equations.now)) ports.now }
{
    for port in ports {
        if !is_output_driven(equations, port) {
            return false;
        }
    }
    true
}

fn are_bound(links: &Bindings, inputs: &[&Port]) -> bool
    ensures { result ≡ list_all (is_bound (map binding_of links.now)) (map lent inputs.now) }
{
    for input in inputs {
        if !is_bound(links, input) {
            return false;
        }
    }
    true
}

// Whether the inputs of a module are driven. Its outputs, which may be many for each of many parts,
// aren't looked at.
fn are_inputs_driven(text: &Text, owner: &Name, links: &Bindings) -> bool
    ensures { result
        ≡ list_all (is_driven false (map binding_of links.now))
        (ports_of (item_named (map model_of_unit text.now) owner.now)) }
{
    match text.ports(owner) {
        Some(ports) => are_bound(links, ports.inputs()),
        None => true,
    }
}

fn are_names_new(alloc: Global, bindings: &[(Ident, NetExpr)]) -> Result<bool, NoMemory>
    ensures { IfOk result (λ new. new ≡ names_new [] (map binding_name (map binding_of bindings.now))) }
{
    let mut seen = SymbolTable::new(alloc);
    enter_new(&mut seen, bindings)
}

// Enters names until one is there already, and says whether all are new.
fn enter_new<'a>(
    seen: &mut SymbolTable<'a>,
    bindings: &'a [(Ident, NetExpr)],
) -> Result<bool, NoMemory>
    requires { seen.old ≡ [] }
    ensures { IfOk result (λ new. new ≡ names_new [] (map binding_name (map binding_of bindings.now))) }
{
    for binding in bindings {
        if seen.place(&binding.0.name).is_some() {
            return Ok(false);
        }
        seen.enter(&binding.0.name, 0)?;
    }
    Ok(true)
}

fn drives_outputs(
    alloc: Global,
    ports: &[Port],
    equations: &[(Ident, NetExpr)],
) -> Result<bool, NoMemory>
    ensures { IfOk result (λ once. once ≡ drives_once true ports.now (map binding_of equations.now)) }
{
    let new = are_names_new(alloc, equations)?;
    let table = Bindings::new(alloc, equations)?;
    Ok(are_outputs_driven(&table, ports) & new)
}

fn drives_inputs(
    alloc: Global,
    text: &Text,
    owner: &Name,
    links: &[(Ident, NetExpr)],
) -> Result<bool, NoMemory>
    ensures { IfOk result (λ once.
        once ≡ drives_once false (ports_of (item_named (map model_of_unit text.now) owner.now)) (map binding_of links.now)) }
{
    let new = are_names_new(alloc, links)?;
    let table = Bindings::new(alloc, links)?;
    Ok(are_inputs_driven(text, owner, &table) & new)
}

// ---- items

fn covers_if(alloc: Global, place: &Scope, when: &Option<NetExpr>) -> Result<bool, NoMemory>
    ensures { IfOk result (λ covered. covered ≡ covers_if (model_of_scope place.now) (when_of when.now)) }
{
    match when {
        Some(e) => covers(alloc, place, e),
        None => Ok(true),
    }
}

fn covers_two(alloc: Global, place: &Scope, a: &NetExpr, b: &NetExpr) -> Result<bool, NoMemory>
    ensures { IfOk result (λ covered. covered ≡ covers_driver (model_of_scope place.now) (driver_of (a.now, b.now))) }
{
    both(covers(alloc, place, a), covers(alloc, place, b))
}

fn covers_drivers(
    alloc: Global,
    place: &Scope,
    drivers: &[(NetExpr, NetExpr)],
) -> Result<bool, NoMemory>
    ensures { IfOk result (λ covered.
        covered ≡ list_all (covers_driver (model_of_scope place.now)) (map driver_of drivers.now)) }
{
    for driver in drivers {
        if !covers_two(alloc, place, &driver.0, &driver.1)? {
            return Ok(false);
        }
    }
    Ok(true)
}

fn covers_bindings(
    alloc: Global,
    place: &Scope,
    bindings: &[(Ident, NetExpr)],
) -> Result<bool, NoMemory>
    ensures { IfOk result (λ covered.
        covered ≡ list_all (covers_binding (model_of_scope place.now)) (map binding_of bindings.now)) }
{
    for binding in bindings {
        if !covers(alloc, place, &binding.1)? {
            return Ok(false);
        }
    }
    Ok(true)
}

fn is_driven_item(alloc: Global, text: &Text, ports: &Ports, unit: &Unit) -> Result<bool, NoMemory>
    requires { ports.now ≡ item_ports unit.now }
    ensures { IfOk result (λ driven. driven ≡ is_driven_item (map model_of_unit text.now) (model_of_unit unit.now)) }
{
    let place = Scope::Items(text);
    match unit {
        Unit::Code { .. } => Ok(true),
        Unit::Register { input, when, .. } => {
            both(covers(alloc, &place, input), covers_if(alloc, &place, when))
        }
        Unit::Memory {
            value,
            addr,
            when,
            ..
        } => {
            let written = covers_two(alloc, &place, value, addr);
            both(written, covers_if(alloc, &place, when))
        }
        Unit::Net { value, .. } => covers(alloc, &place, value),
        Unit::Bus { drivers, .. } => covers_drivers(alloc, &place, drivers.as_slice()),
        Unit::Module { equations, .. } => {
            let equations = equations.as_slice();
            let once = drives_outputs(alloc, ports.as_slice(), equations);
            both(
                once,
                covers_bindings(alloc, &Scope::Ports(ports), equations),
            )
        }
        Unit::Part { module, links, .. } => {
            let links = links.as_slice();
            let once = drives_inputs(alloc, text, &module.name, links);
            both(once, covers_bindings(alloc, &place, links))
        }
    }
}

/// The least offset of an item in which an input, an output or a number of a case has no
/// expression, or two.
pub(crate) fn first_undriven(
    alloc: Global,
    text: &Text,
    units: &[Unit],
) -> Result<Option<u64>, NoMemory>
    requires { text.now ≡ units.now }
    ensures { IfOk result (λ found. found ≡ least (undrivens (map model_of_unit units.now))) }
{
    let mut found = None;
    for (i, unit) in units.iter().enumerate() {
        let driven = is_driven_item(alloc, text, text.own_ports(i), unit)?;
        found = lesser_offset(found, offset_if(!driven, name_of(unit).at));
    }
    Ok(found)
}

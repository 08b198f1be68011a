//! N2: names that stand for nothing in their place.

ghost use Rattle.std.specs.Prelude.{◌≡◌, ◌++◌, map, option_copied, option_map, is_some, true, false};
ghost use Rattle.rec_bits.specs.Faults.{gather, least};
ghost use Rattle.net_model.specs.NameRules.{has_value, is_register, is_memory, is_module, is_part, unknown, unknown_output, unknown_name, unknown_memory, unknown_in, unknown_rows, unknown_rest, unknown_if, unknown_driver, unknown_binding, unknown_in_item, unknowns};
ghost use Rattle.net_model.specs.TextNames.{item_named, in_module, in_text};
ghost use Rattle.net_model.specs.TextWidths.{ports_of};
ghost use Rattle.net_model.specs.Written.{binding_of, driver_of, model_of_unit, other_of, model_of_net_expr, case_rest_of, model_of_case_row, case_rows_of, when_of};
ghost use Rattle.net_rules.specs.Inner.Modules.{item_ports};
ghost use Rattle.net_rules.specs.Inner.Scopes.{model_of_scope};

use crate::text::{Scope, Text};
use net_model::{Ident, NetExpr, Unit};
use net_names::Ports;
use rec_bits::{lesser_offset, offset_if};

// ---- what names stand for

fn has_value(item: Option<&Unit>) -> bool
    ensures { result ≡ has_value (option_map model_of_unit (option_copied item.entry)) }
{
    match item {
        Some(Unit::Code { .. } | Unit::Register { .. } | Unit::Net { .. } | Unit::Bus { .. }) =>
            true,
        _ => false,
    }
}

fn is_register(item: Option<&Unit>) -> bool
    ensures { result ≡ is_register (option_map model_of_unit (option_copied item.entry)) }
{
    match item {
        Some(Unit::Register { .. }) => true,
        _ => false,
    }
}

fn is_memory(item: Option<&Unit>) -> bool
    ensures { result ≡ is_memory (option_map model_of_unit (option_copied item.entry)) }
{
    match item {
        Some(Unit::Memory { .. }) => true,
        _ => false,
    }
}

fn is_module(item: Option<&Unit>) -> bool
    ensures { result ≡ is_module (option_map model_of_unit (option_copied item.entry)) }
{
    match item {
        Some(Unit::Module { .. }) => true,
        _ => false,
    }
}

// The offset of a name, where it isn't known.
fn unknown(is_known: bool, name: &Ident) -> Option<u64>
    ensures { result ≡ least (unknown is_known name.now) }
{
    offset_if(!is_known, name.at)
}

// ---- expressions

fn unknown_output(text: &Text, name: &Ident, field: &Ident) -> Option<u64>
    ensures { result ≡ least (unknown_output (map model_of_unit text.now) name.now field.now) }
{
    match text.item(&name.name) {
        Some(Unit::Part { module, .. }) => {
            unknown(text.output(&module.name, &field.name).is_some(), field)
        }
        _ => Some(name.at),
    }
}

fn unknown_name(place: &Scope, name: &Ident, field: &Option<Ident>) -> Option<u64>
    ensures { result ≡ least (unknown_name (model_of_scope place.now) name.now field.now) }
{
    match (place, field) {
        (Scope::Items(text), None) => unknown(has_value(text.item(&name.name)), name),
        (Scope::Items(text), Some(field)) => unknown_output(text, name, field),
        (Scope::Ports(ports), None) => unknown(ports.input(&name.name).is_some(), name),
        (Scope::Ports(_), Some(_)) => Some(name.at),
    }
}

fn unknown_memory(place: &Scope, name: &Ident) -> Option<u64>
    ensures { result ≡ least (unknown_memory (model_of_scope place.now) name.now) }
{
    match place {
        Scope::Items(text) => unknown(is_memory(text.item(&name.name)), name),
        Scope::Ports(_) => Some(name.at),
    }
}

#[cycle(unknown)]
#[tactic(auto, using(rec_bits::proofs::Faults::least_rules))]
fn unknown_in(place: &Scope, e: &NetExpr) -> Option<u64>
    ensures { result ≡ least (unknown_in (model_of_scope place.now) (model_of_net_expr e.now)) }
{
    match e {
        NetExpr::Named { name, field, .. } => unknown_name(place, name, field),
        NetExpr::Const { .. } => None,
        NetExpr::Un(_, a) | NetExpr::Slice(a, _, _) | NetExpr::Zext(a, _) | NetExpr::Sext(a, _) =>
            unknown_in(place, a),
        NetExpr::Bin(_, a, b) | NetExpr::Cat(a, b) => {
            lesser_offset(unknown_in(place, a), unknown_in(place, b))
        }
        NetExpr::Read(memory, a) => lesser_offset(
            unknown_memory(place, memory),
            unknown_in(place, a),
        ),
        NetExpr::Case { sel, rows, rest } => {
            let found = lesser_offset(unknown_in(place, sel), unknown_rows(place, rows));
            lesser_offset(found, unknown_other(place, rest))
        }
    }
}

#[cycle(unknown)]
#[tactic(auto, using(rec_bits::proofs::Faults::least_rules))]
fn unknown_rows(place: &Scope, rows: &[(Vec<u64>, NetExpr)]) -> Option<u64>
    ensures { result ≡ least (unknown_rows (model_of_scope place.now) (case_rows_of (map model_of_case_row rows.now))) }
{
    let mut found = None;
    for row in rows {
        found = lesser_offset(found, unknown_in(place, &row.1));
    }
    found
}

#[cycle(unknown)]
fn unknown_other(place: &Scope, other: &Option<Box<NetExpr>>) -> Option<u64>
    ensures { result ≡ least (unknown_rest (model_of_scope place.now) (case_rest_of (other_of other.now))) }
{
    match other {
        Some(a) => unknown_in(place, a),
        None => None,
    }
}

fn unknown_if(place: &Scope, when: &Option<NetExpr>) -> Option<u64>
    ensures { result ≡ least (unknown_if (model_of_scope place.now) (when_of when.now)) }
{
    match when {
        Some(e) => unknown_in(place, e),
        None => None,
    }
}

// ---- items

#[tactic(auto, using(rec_bits::proofs::Faults::least_rules))]
fn unknown_driver(place: &Scope, driver: &(NetExpr, NetExpr)) -> Option<u64>
    ensures { result ≡ least (unknown_driver (model_of_scope place.now) (driver_of driver.now)) }
{
    lesser_offset(unknown_in(place, &driver.0), unknown_in(place, &driver.1))
}

fn unknown_in_drivers(place: &Scope, drivers: &[(NetExpr, NetExpr)]) -> Option<u64>
    ensures { result ≡ least (gather (unknown_driver (model_of_scope place.now)) (map driver_of drivers.now)) }
{
    let mut found = None;
    for driver in drivers {
        found = lesser_offset(found, unknown_driver(place, driver));
    }
    found
}

// The equations of a module are for its outputs.
fn unknown_in_equations(ports: &Ports, equations: &[(Ident, NetExpr)]) -> Option<u64>
    ensures { result ≡
        least (gather (unknown_binding true ports.now (in_module ports.now)) (map binding_of equations.now)) }
{
    let mut found = None;
    for equation in equations {
        found = lesser_offset(found, unknown_equation(ports, equation));
    }
    found
}

#[tactic(auto, using(rec_bits::proofs::Faults::least_rules))]
fn unknown_equation(ports: &Ports, equation: &(Ident, NetExpr)) -> Option<u64>
    ensures { result ≡ least (unknown_binding true ports.now (in_module ports.now) (binding_of equation.now)) }
{
    let found = unknown(ports.output(&equation.0.name).is_some(), &equation.0);
    lesser_offset(found, unknown_in(&Scope::Ports(ports), &equation.1))
}

// The links of a part are to the inputs of its module.
fn unknown_in_links(text: &Text, owner: &Ident, links: &[(Ident, NetExpr)]) -> Option<u64>
    ensures { result ≡ least (gather (unknown_binding false
        (ports_of (item_named (map model_of_unit text.now) owner.now.name))
        (in_text (map model_of_unit text.now)))
        (map binding_of links.now)) }
{
    let mut found = None;
    for link in links {
        found = lesser_offset(found, unknown_link(text, owner, link));
    }
    found
}

#[tactic(auto, using(rec_bits::proofs::Faults::least_rules))]
fn unknown_link(text: &Text, owner: &Ident, link: &(Ident, NetExpr)) -> Option<u64>
    ensures { result ≡ least (unknown_binding false
        (ports_of (item_named (map model_of_unit text.now) owner.now.name))
        (in_text (map model_of_unit text.now)) (binding_of link.now)) }
{
    let found = unknown(text.input(&owner.name, &link.0.name).is_some(), &link.0);
    lesser_offset(found, unknown_in(&Scope::Items(text), &link.1))
}

#[tactic(auto, using(rec_bits::proofs::Faults::least_rules))]
fn unknown_in_item(text: &Text, ports: &Ports, unit: &Unit) -> Option<u64>
    requires { ports.now ≡ item_ports unit.now }
    ensures { result ≡ least (unknown_in_item (map model_of_unit text.now) (model_of_unit unit.now)) }
{
    let place = Scope::Items(text);
    match unit {
        Unit::Code { counter, .. } => unknown(is_register(text.item(&counter.name)), counter),
        Unit::Register { input, when, .. } => {
            lesser_offset(unknown_in(&place, input), unknown_if(&place, when))
        }
        Unit::Memory {
            value,
            addr,
            when,
            ..
        } => {
            let found = lesser_offset(unknown_in(&place, value), unknown_in(&place, addr));
            lesser_offset(found, unknown_if(&place, when))
        }
        Unit::Net { value, .. } => unknown_in(&place, value),
        Unit::Bus { drivers, .. } => unknown_in_drivers(&place, drivers.as_slice()),
        Unit::Module { equations, .. } => unknown_in_equations(ports, equations.as_slice()),
        Unit::Part { module, links, .. } => {
            let found = unknown(is_module(text.item(&module.name)), module);
            lesser_offset(found, unknown_in_links(text, module, links.as_slice()))
        }
    }
}

/// The least offset of a name that stands for nothing in its place.
pub(crate) fn first_unknown(text: &Text, units: &[Unit]) -> Option<u64>
    requires { text.now ≡ units.now }
    ensures { result ≡ least (unknowns (map model_of_unit units.now)) }
{
    let mut found = None;
    for (i, unit) in units.iter().enumerate() {
        found = lesser_offset(found, unknown_in_item(text, text.own_ports(i), unit));
    }
    found
}

//! N3: widths that don't fit.

ghost use Rattle.std.specs.Prelude.{◌≡◌, ◌<◌, ◌≤◌, ◌^◌, ◌&&◌, map, option_copied, option_map, if◌then◌else◌, true, false};
ghost use Rattle.std.specs.List.{list_all};
ghost use Rattle.rec_bits.specs.Faults.{gather, least};
ghost use Rattle.net_model.specs.TextNames.{item_named, in_module, in_text, port_named};
ghost use Rattle.net_model.specs.TextWidths.{bits_of, extended, is_below, is_width, joined_width, memory_of, memory_widths, named_width, numbers_fit, paired, port_width, ports_of, read_width, row_seen, seen_first, seen_more, seen_rest, seen_rows, seen_width, sliced, value_width, wide};
ghost use Rattle.net_model.specs.WidthRules.{binding_feeds, driver_feeds, enables, feeds, feeds_port, has_width, misfit, misfits, port_keeps, widths_fit};
ghost use Rattle.net_model.specs.Written.{binding_of, driver_of, model_of_unit, other_of, model_of_net_expr, case_rest_of, model_of_case_row, case_rows_of, when_of};
ghost use Rattle.net_rules.specs.Inner.Modules.{item_ports};
ghost use Rattle.net_rules.specs.Inner.Scopes.{model_of_scope};
ghost use Rattle.net_rules.specs.Inner.Widths.{model_of_seen, model_of_memory_widths};

use crate::text::{Scope, Text};
use net_model::{Ident, NetExpr, Port, Unit};
use net_names::{Ports, name_of};
use rec_bits::{Name, Op2, lesser_offset, offset_if, written_result_width};

const LEAST_WIDTH: u64 = 1;

const GREATEST_WIDTH: u64 = 64;

/// The widths of a memory or a file: of a cell, and of an address.
#[derive(Clone, Copy)]
struct MemoryWidths {
    cell: u64,
    address: u64,
}

/// The width of the rows of a case that were looked at.
#[derive(Clone, Copy)]
enum Seen {
    Nothing,
    Width(u64),
    Broken,
}

pub(crate) fn is_width(width: u64) -> bool
    ensures { result ≡ is_width width }
{
    LEAST_WIDTH <= width && width <= GREATEST_WIDTH
}

/// Whether so many bits hold a number.
pub(crate) fn is_below(n: u64, width: u64) -> bool
    ensures { result ≡ is_below n width }
{
    if width >= GREATEST_WIDTH {
        true
    } else {
        n >> width == 0
    }
}

// ---- names

fn value_width(item: Option<&Unit>) -> Option<u64>
    ensures { result ≡ value_width (option_map model_of_unit (option_copied item.entry)) }
{
    match item {
        Some(Unit::Code { bits, .. }) => Some(*bits),
        Some(Unit::Register { width, .. } | Unit::Net { width, .. } | Unit::Bus { width, .. }) =>
            Some(*width),
        _ => None,
    }
}

pub(crate) fn port_width(port: Option<&Port>) -> Option<u64>
    ensures { result ≡ port_width (option_copied port.entry) }
{
    match port {
        Some(port) => Some(port.width),
        None => None,
    }
}

// The width of an output of a part.
fn output_width(text: &Text, name: &Ident, field: &Ident) -> Option<u64>
    ensures { result ≡ named_width (in_text (map model_of_unit text.now)) name.now.name (Some field.now) }
{
    match text.item(&name.name) {
        Some(Unit::Part { module, .. }) => port_width(text.output(&module.name, &field.name)),
        _ => None,
    }
}

fn named_width(place: &Scope, name: &Ident, field: &Option<Ident>) -> Option<u64>
    ensures { result ≡ named_width (model_of_scope place.now) name.now.name field.now }
{
    match (place, field) {
        (Scope::Items(text), None) => value_width(text.item(&name.name)),
        (Scope::Items(text), Some(field)) => output_width(text, name, field),
        (Scope::Ports(ports), None) => port_width(ports.input(&name.name)),
        (Scope::Ports(_), Some(_)) => None,
    }
}

fn memory_of(item: Option<&Unit>) -> Option<MemoryWidths>
    ensures { option_map model_of_memory_widths result ≡ memory_of (option_map model_of_unit (option_copied item.entry)) }
{
    match item {
        Some(
            Unit::Memory {
                width,
                addr_width,
                ..
            },
        ) => Some(MemoryWidths {
            cell: *width,
            address: *addr_width,
        }),
        _ => None,
    }
}

fn memory_widths(place: &Scope, name: &Ident) -> Option<MemoryWidths>
    ensures { option_map model_of_memory_widths result ≡ memory_widths (model_of_scope place.now) name.now.name }
{
    match place {
        Scope::Items(text) => memory_of(text.item(&name.name)),
        Scope::Ports(_) => None,
    }
}

// ---- operators

fn sliced(hi: u64, lo: u64, width: Option<u64>) -> Option<u64>
    ensures { result ≡ sliced hi lo width }
{
    match width {
        Some(width) if lo <= hi && hi < width => Some(hi - lo + 1),
        _ => None,
    }
}

fn bits_of(bits: &Option<(u64, u64)>, width: Option<u64>) -> Option<u64>
    ensures { result ≡ bits_of bits.now width }
{
    match bits {
        Some((hi, lo)) => sliced(*hi, *lo, width),
        None => width,
    }
}

fn paired(op: Op2, a: Option<u64>, b: Option<u64>) -> Option<u64>
    ensures { result ≡ paired op a b }
{
    match (a, b) {
        (Some(a), Some(b)) if a == b => Some(written_result_width(op, a)),
        _ => None,
    }
}

fn joined_width(a: Option<u64>, b: Option<u64>) -> Option<u64>
    ensures { result ≡ joined_width a b }
{
    match (a, b) {
        (Some(a), Some(b)) if a <= GREATEST_WIDTH && b <= GREATEST_WIDTH - a => Some(a + b),
        _ => None,
    }
}

fn extended(width: u64, a: Option<u64>) -> Option<u64>
    ensures { result ≡ extended width a }
{
    match a {
        Some(a) if is_width(width) && a < width => Some(width),
        _ => None,
    }
}

fn read_width(memory: Option<MemoryWidths>, address: Option<u64>) -> Option<u64>
    ensures { result ≡ read_width (option_map model_of_memory_widths memory) address }
{
    match (memory, address) {
        (Some(memory), Some(address)) if memory.address == address => Some(memory.cell),
        _ => None,
    }
}

fn const_width(value: u64, width: u64) -> Option<u64>
    ensures { result ≡ (if is_width width && is_below value width then Some width else None) }
{
    if is_width(width) && is_below(value, width) {
        Some(width)
    } else {
        None
    }
}

// ---- cases

fn numbers_fit(width: u64, numbers: &[u64]) -> bool
    ensures { result ≡ numbers_fit width numbers.now }
{
    for n in numbers {
        if !is_below(*n, width) {
            return false;
        }
    }
    true
}

fn seen_more(before: Seen, width: Option<u64>) -> Seen
    ensures { model_of_seen result ≡ seen_more (model_of_seen before) width }
{
    match (before, width) {
        (Seen::Nothing, Some(width)) => Seen::Width(width),
        (Seen::Width(before), Some(width)) if before == width => Seen::Width(before),
        _ => Seen::Broken,
    }
}

fn seen_first(selector: Option<u64>) -> Seen
    ensures { model_of_seen result ≡ seen_first selector }
{
    match selector {
        Some(_) => Seen::Nothing,
        None => Seen::Broken,
    }
}

fn row_seen(selector: Option<u64>, before: Seen, numbers: &[u64], width: Option<u64>) -> Seen
    ensures { model_of_seen result ≡ row_seen selector (model_of_seen before) numbers.now width }
{
    match selector {
        Some(selector) if numbers_fit(selector, numbers) => seen_more(before, width),
        _ => Seen::Broken,
    }
}

fn seen_width(seen: Seen) -> Option<u64>
    ensures { result ≡ seen_width (model_of_seen seen) }
{
    match seen {
        Seen::Width(width) => Some(width),
        Seen::Nothing | Seen::Broken => None,
    }
}

// ---- expressions

/// The width of an expression, or None where the rule of widths is broken in it.
#[cycle(wide)]
pub(crate) fn wide(place: &Scope, e: &NetExpr) -> Option<u64>
    ensures { result ≡ wide (model_of_scope place.now) (model_of_net_expr e.now) }
{
    match e {
        NetExpr::Named { name, field, bits } => bits_of(bits, named_width(place, name, field)),
        NetExpr::Const { value, width } => const_width(*value, *width),
        NetExpr::Un(_, a) => wide(place, a),
        NetExpr::Bin(op, a, b) => paired(*op, wide(place, a), wide(place, b)),
        NetExpr::Cat(a, b) => joined_width(wide(place, a), wide(place, b)),
        NetExpr::Slice(a, hi, lo) => sliced(*hi, *lo, wide(place, a)),
        NetExpr::Zext(a, width) | NetExpr::Sext(a, width) => extended(*width, wide(place, a)),
        NetExpr::Read(memory, a) => read_width(memory_widths(place, memory), wide(place, a)),
        NetExpr::Case { sel, rows, rest } => {
            let selector = wide(place, sel);
            let seen = seen_rows(place, selector, rows);
            seen_width(seen_rest(place, seen, rest))
        }
    }
}

#[cycle(wide)]
fn seen_rows(place: &Scope, selector: Option<u64>, rows: &[(Vec<u64>, NetExpr)]) -> Seen
    ensures { model_of_seen result ≡
        seen_rows (model_of_scope place.now) selector (seen_first selector) (case_rows_of (map model_of_case_row rows.now)) }
{
    let mut seen = seen_first(selector);
    for row in rows {
        seen = row_seen(selector, seen, row.0.as_slice(), wide(place, &row.1));
    }
    seen
}

#[cycle(wide)]
fn seen_rest(place: &Scope, before: Seen, other: &Option<Box<NetExpr>>) -> Seen
    ensures { model_of_seen result ≡ seen_rest (model_of_scope place.now) (model_of_seen before) (case_rest_of (other_of other.now)) }
{
    match other {
        Some(a) => seen_more(before, wide(place, a)),
        None => before,
    }
}

fn feeds(place: &Scope, width: u64, e: &NetExpr) -> bool
    ensures { result ≡ feeds (model_of_scope place.now) width (model_of_net_expr e.now) }
{
    match wide(place, e) {
        Some(found) => found == width,
        None => false,
    }
}

fn enables(place: &Scope, when: &Option<NetExpr>) -> bool
    ensures { result ≡ enables (model_of_scope place.now) (when_of when.now) }
{
    match when {
        Some(e) => feeds(place, 1, e),
        None => true,
    }
}

// ---- items

fn driver_feeds(place: &Scope, width: u64, driver: &(NetExpr, NetExpr)) -> bool
    ensures { result ≡ driver_feeds (model_of_scope place.now) width (driver_of driver.now) }
{
    feeds(place, width, &driver.0) && feeds(place, 1, &driver.1)
}

fn drivers_feed(place: &Scope, width: u64, drivers: &[(NetExpr, NetExpr)]) -> bool
    ensures { result ≡ list_all (driver_feeds (model_of_scope place.now) width) (map driver_of drivers.now) }
{
    for driver in drivers {
        if !driver_feeds(place, width, driver) {
            return false;
        }
    }
    true
}

fn ports_keep(ports: &[Port]) -> bool
    ensures { result ≡ list_all port_keeps ports.now }
{
    for port in ports {
        if !is_width(port.width) {
            return false;
        }
    }
    true
}

fn feeds_port(place: &Scope, width: Option<u64>, e: &NetExpr) -> bool
    ensures { result ≡ feeds_port (model_of_scope place.now) width (model_of_net_expr e.now) }
{
    match width {
        Some(width) => feeds(place, width, e),
        None => false,
    }
}

fn equation_feeds(ports: &Ports, equation: &(Ident, NetExpr)) -> bool
    ensures { result ≡ binding_feeds true ports.now (in_module ports.now) (binding_of equation.now) }
{
    let width = port_width(ports.output(&equation.0.name));
    feeds_port(&Scope::Ports(ports), width, &equation.1)
}

fn equations_feed(ports: &Ports, equations: &[(Ident, NetExpr)]) -> bool
    ensures { result ≡
        list_all (binding_feeds true ports.now (in_module ports.now)) (map binding_of equations.now) }
{
    for equation in equations {
        if !equation_feeds(ports, equation) {
            return false;
        }
    }
    true
}

fn link_feeds(text: &Text, owner: &Name, link: &(Ident, NetExpr)) -> bool
    ensures { result ≡
        binding_feeds false (ports_of (item_named (map model_of_unit text.now) owner.now)) (in_text (map model_of_unit text.now))
        (binding_of link.now) }
{
    let width = port_width(text.input(owner, &link.0.name));
    feeds_port(&Scope::Items(text), width, &link.1)
}

fn links_feed(text: &Text, owner: &Name, links: &[(Ident, NetExpr)]) -> bool
    ensures { result
        ≡ list_all
        (binding_feeds false (ports_of (item_named (map model_of_unit text.now) owner.now))
        (in_text (map model_of_unit text.now)))
        (map binding_of links.now) }
{
    for link in links {
        if !link_feeds(text, owner, link) {
            return false;
        }
    }
    true
}

fn widths_fit(text: &Text, ports: &Ports, unit: &Unit) -> bool
    requires { ports.now ≡ item_ports unit.now }
    ensures { result ≡ widths_fit (map model_of_unit text.now) (model_of_unit unit.now) }
{
    let place = Scope::Items(text);
    match unit {
        Unit::Code { bits, .. } => is_width(*bits),
        Unit::Register {
            width,
            input,
            when,
            ..
        } => is_width(*width) && feeds(&place, *width, input) && enables(&place, when),
        Unit::Memory {
            width,
            addr_width,
            value,
            addr,
            when,
            ..
        } => {
            is_width(*width)
                && is_width(*addr_width)
                && feeds(&place, *width, value)
                && feeds(&place, *addr_width, addr)
                && enables(&place, when)
        }
        Unit::Net { width, value, .. } => is_width(*width) && feeds(&place, *width, value),
        Unit::Bus { width, drivers, .. } => {
            is_width(*width) && drivers_feed(&place, *width, drivers.as_slice())
        }
        Unit::Module { equations, .. } => {
            ports_keep(ports.as_slice()) && equations_feed(ports, equations.as_slice())
        }
        Unit::Part { module, links, .. } => links_feed(text, &module.name, links.as_slice()),
    }
}

/// The least offset of an item in which widths don't fit.
pub(crate) fn first_misfit(text: &Text, units: &[Unit]) -> Option<u64>
    requires { text.now ≡ units.now }
    ensures { result ≡ least (misfits (map model_of_unit units.now)) }
{
    let mut found = None;
    for (i, unit) in units.iter().enumerate() {
        let fits = widths_fit(text, text.own_ports(i), unit);
        found = lesser_offset(found, offset_if(!fits, name_of(unit).at));
    }
    found
}

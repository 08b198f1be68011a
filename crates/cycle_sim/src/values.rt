// The values of all nets in a state under an instruction word, one net after the other.

ghost use Rattle.std.specs.Prelude.{◌≡◌, ◌≤◌, IfOk, length, replicate, slice_index};
ghost use Rattle.net_model.specs.Nets.{width_at};
ghost use Rattle.net_model.specs.Value.{bus_value, case_value, gate_value, value_of};
ghost use Rattle.net_model.specs.Widths.{GateFits, IsTyped, StateFits, ValuesFit, WordFits};

use net_model::{Checked, Gate, Net, Netlist, State};
use rec_bits::{Items, NoMemory, apply1, apply2, cat, sext, slice};
use std::alloc::Global;

// What stands past the end of a list of numbers.
const PAST_THE_END: u64 = 0;

/// The number at a place; 0 past the last.
pub fn number_at(numbers: &[u64], place: u64) -> u64
    ensures { result ≡ slice_index numbers.now place }
{
    match numbers.get(place as usize) {
        Some(number) => *number,
        None => PAST_THE_END,
    }
}

/// The value of a net, by the values of all nets; 0 past the last.
pub fn value_at(values: &[u64], net: u32) -> u64
    ensures { result ≡ slice_index values.now net }
{
    number_at(values, u64::from(net))
}

/// A zero for each of so many nets.
pub fn zeros(alloc: Global, nets: usize) -> Result<Items<u64>, NoMemory>
    ensures { IfOk result (λ values. values ≡ replicate nets 0) }
{
    Ok(Items::from_vec(vec![in alloc; 0; nets]?))
}

/// The values of all nets in a state under an instruction word, each net evaluated once, in order.
/// What stood in `values` doesn't count.
pub fn evaluate(checked: &Checked, state: &State, word: u64, values: &mut Items<u64>)
    requires long { length values.old ≡ length checked.now.netlist.nets }
    requires fit { ValuesFit checked.now.netlist (slice_index values.old) }
    requires state { StateFits checked.now.netlist state.now }
    requires word { WordFits checked.now.netlist word }
    ensures values { slice_index values.new ≡ value_of checked.now.netlist state.now word }
    ensures fit { ValuesFit checked.now.netlist (slice_index values.new) }
    ensures long { length values.new ≡ length checked.now.netlist.nets }
{
    let netlist = checked.netlist();
    let nets = netlist.nets.as_slice();
    let order = checked.order().as_slice();
    for id in order {
        let at = *id as usize;
        let current = values.as_slice();
        let value = gate_of(netlist, state, word, current, &nets[at]);
        values.set(at, value);
    }
}

/// The value of a net's gate, from the values of the nets that it names.
pub fn gate_of(netlist: &Netlist, state: &State, word: u64, values: &[u64], net: &Net) -> u64
    requires typed { IsTyped netlist.now }
    requires fit { ValuesFit netlist.now (slice_index values.now) }
    requires low { 1 ≤ net.now.width }
    requires high { net.now.width ≤ 64 }
    requires gate { GateFits netlist.now net.now.width net.now.gate }
    ensures { result ≡ gate_value (slice_index values.now) netlist.now state.now word net.now.width net.now.gate }
{
    match &net.gate {
        Gate::Word(_) => word,
        Gate::Reg(id) => value_at(state.regs.as_slice(), *id),
        Gate::Read { memory, addr } => {
            let cells = state.cells_in(netlist.space(*memory)).as_slice();
            number_at(cells, value_at(values, *addr))
        }
        Gate::Const(value) => *value,
        Gate::Wire(a) | Gate::Zext(a) => value_at(values, *a),
        Gate::Un(op, a) => apply1(*op, net.width, value_at(values, *a)),
        Gate::Bin(op, a, b) => {
            let width = net_width(netlist, *a);
            apply2(*op, width, value_at(values, *a), value_at(values, *b))
        }
        Gate::Slice { of, hi, lo } => slice(value_at(values, *of), *hi, *lo),
        Gate::Cat(a, b) => {
            let low_width = net_width(netlist, *b);
            cat(value_at(values, *a), value_at(values, *b), low_width)
        }
        Gate::Sext(a) => {
            let from = net_width(netlist, *a);
            sext(value_at(values, *a), from, net.width)
        }
        Gate::Case { sel, rows, rest } => {
            case_of(values, value_at(values, *sel), rows.as_slice(), *rest)
        }
        Gate::Bus(drivers) => bus_of(values, drivers.as_slice()),
    }
}

pub(crate) fn net_width(netlist: &Netlist, id: u32) -> u8
    ensures { result ≡ width_at netlist.now id }
{
    match netlist.net(id) {
        Some(net) => net.width,
        None => 0,
    }
}

// The value of the row with this number, or of the rest.
pub(crate) fn case_of(values: &[u64], key: u64, rows: &[(u64, u32)], rest: Option<u32>) -> u64
    ensures { result ≡ case_value (slice_index values.now) key rows.now rest }
{
    for row in rows {
        if row.0 == key {
            return value_at(values, row.1);
        }
    }
    match rest {
        Some(id) => value_at(values, id),
        None => 0,
    }
}

// The value of the first enabled driver, and 0 where none is enabled.
pub(crate) fn bus_of(values: &[u64], drivers: &[(u32, u32)]) -> u64
    ensures { result ≡ bus_value (slice_index values.now) drivers.now }
{
    for driver in drivers {
        if value_at(values, driver.1) == 1 {
            return value_at(values, driver.0);
        }
    }
    0
}

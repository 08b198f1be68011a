//! N1: names that stand for two things.

ghost use Rattle.std.specs.Prelude.{◌≡◌, IfOk, OnOk, [], map, is_some};
ghost use Rattle.std.specs.Map.{lookup};
ghost use Rattle.rec_bits.specs.Faults.{offsets_if, gather, least};
ghost use Rattle.net_model.specs.NameRules.{duplicates, port_name, repeated, repeated_ports};
ghost use Rattle.net_model.specs.TextNames.{own_name};
ghost use Rattle.rec_bits.specs.Faults.{same_name};
ghost use Rattle.net_model.specs.Written.{model_of_unit};
ghost use Rattle.net_names.specs.Places.{Enters};

use net_model::{Ident, Port, Unit, Units};
use net_names::{SymbolTable, name_of};
use rec_bits::{NoMemory, lesser_offset, offset_if};
use std::alloc::Global;

/// The least offset of a name that an earlier item has, or an earlier port of the same module.
pub(crate) fn first_duplicate(alloc: Global, units: &Units) -> Result<Option<u64>, NoMemory>
    ensures { IfOk result (λ found. found ≡ least (duplicates (map model_of_unit units.now.items))) }
{
    let items = units.items.as_slice();
    let found = first_repeated_item(alloc, items)?;
    Ok(lesser_offset(found, first_repeated_port(alloc, items)?))
}

fn first_repeated_item(alloc: Global, units: &[Unit]) -> Result<Option<u64>, NoMemory>
    ensures { IfOk result (λ found. found ≡ least (repeated [] (map own_name (map model_of_unit units.now)))) }
{
    let mut seen = SymbolTable::new(alloc);
    see_items(&mut seen, units)
}

fn see_items<'a>(seen: &mut SymbolTable<'a>, units: &'a [Unit]) -> Result<Option<u64>, NoMemory>
    requires { seen.old ≡ [] }
    ensures { IfOk result (λ found. found ≡ least (repeated [] (map own_name (map model_of_unit units.now)))) }
{
    let mut found = None;
    for unit in units {
        found = lesser_offset(found, see(seen, name_of(unit))?);
    }
    Ok(found)
}

fn first_repeated_port(alloc: Global, units: &[Unit]) -> Result<Option<u64>, NoMemory>
    ensures { IfOk result (λ found. found ≡ least (gather repeated_ports (map model_of_unit units.now))) }
{
    let mut found = None;
    for unit in units {
        found = lesser_offset(found, repeated_in(alloc, unit)?);
    }
    Ok(found)
}

fn repeated_in(alloc: Global, unit: &Unit) -> Result<Option<u64>, NoMemory>
    ensures { IfOk result (λ found. found ≡ least (repeated_ports (model_of_unit unit.now))) }
{
    match unit {
        Unit::Module { ports, .. } => repeated_among(alloc, ports.as_slice()),
        _ => Ok(None),
    }
}

fn repeated_among(alloc: Global, ports: &[Port]) -> Result<Option<u64>, NoMemory>
    ensures { IfOk result (λ found. found ≡ least (repeated [] (map port_name ports.now))) }
{
    let mut seen = SymbolTable::new(alloc);
    see_ports(&mut seen, ports)
}

fn see_ports<'a>(seen: &mut SymbolTable<'a>, ports: &'a [Port]) -> Result<Option<u64>, NoMemory>
    requires { seen.old ≡ [] }
    ensures { IfOk result (λ found. found ≡ least (repeated [] (map port_name ports.now))) }
{
    let mut found = None;
    for port in ports {
        found = lesser_offset(found, see(seen, &port.name)?);
    }
    Ok(found)
}

// The offset of the name, if it was seen before; it is seen now.
fn see<'a>(seen: &mut SymbolTable<'a>, name: &'a Ident) -> Result<Option<u64>, NoMemory>
    ensures found { IfOk result (λ found.
        found ≡ least (offsets_if (is_some (lookup (same_name name.now.name) seen.old)) name.now.at)) }
    ensures seen { OnOk result (Enters seen.old seen.new name.now.name 0) }
{
    let is_known = seen.place(&name.name).is_some();
    seen.enter(&name.name, 0)?;
    Ok(offset_if(is_known, name.at))
}

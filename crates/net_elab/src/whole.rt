//! The netlist of a text.

ghost use Rattle.std.specs.Prelude.{◌≡◌, IfOk, map};
ghost use Rattle.net_model.specs.CheckedRules.{IsWellFormed};
ghost use Rattle.net_model.specs.Elaborable.{IsElaborable, IsFewIn};
ghost use Rattle.net_model.specs.Elaborated.{netlist_in, netlist_of};
ghost use Rattle.net_model.specs.Written.{model_of_unit, model_of_units};

use crate::declared::Declared;
use crate::item::emit_item;
use crate::modes::special_in;
use crate::site::Text;
use net_model::{Netlist, Units};
use net_names::Names;
use rec_bits::{Items, NoMemory};
use std::alloc::Global;

/// The nets, storages and codes of the items.
fn emit_items(alloc: Global, edition: u8, text: &Text) -> Result<Netlist, NoMemory>
    requires { IsElaborable (map model_of_unit text.now) }
    ensures { IfOk result (λ netlist. netlist ≡ netlist_in edition (map model_of_unit text.now)) }
{
    let special = special_in(alloc, edition, text.declared().units())?;
    let mut netlist = Netlist {
        nets: Items::new(alloc),
        storages: Items::new(alloc),
        codes: Items::new(alloc),
        edition,
        special,
    };
    for unit in text.declared().units() {
        emit_item(alloc, text, &mut netlist, unit)?;
    }
    Ok(Netlist {
        nets: netlist.nets,
        storages: netlist.storages,
        codes: netlist.codes,
        edition,
        special,
    })
}

/// The netlist that the items of a text say, where they keep the rules of names, widths, drivers
/// and limits. `names` are the items'.
pub fn elaborate(alloc: Global, units: &Units, names: &Names) -> Result<Netlist, NoMemory>
    requires names { names.now ≡ units.now.items }
    requires keeps { IsElaborable (map model_of_unit units.now.items) }
    requires few { IsFewIn units.now.edition (map model_of_unit units.now.items) }
    ensures exact { IfOk result (λ netlist. netlist ≡ netlist_of (model_of_units units.now)) }
    ensures formed { IfOk result IsWellFormed }
{
    let text = Text::new(alloc, Declared::new(units, names))?;
    emit_items(alloc, units.edition, &text)
}

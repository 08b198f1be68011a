//! Where an expression stands: among the items of a text, or in a module.

ghost use Rattle.std.specs.Prelude.{◌≡◌, ◌<◌, IfOk, length, map, slice_get, option_copied, option_map, true, false};
ghost use Rattle.net_model.specs.TextNames.{item_named, place_named, port_named};
ghost use Rattle.net_model.specs.TextWidths.{ports_of};
ghost use Rattle.net_rules.specs.Inner.Modules.{item_ports, ports_or_none};
ghost use Rattle.net_model.specs.Written.{model_of_unit};

use net_model::{Port, Unit, Units};
use net_names::{Names, Ports};
use rec_bits::{Items, Name, NoMemory};
use std::alloc::Global;
use std::marker::Model;

/// The items of a text and the ports of its modules, found by their names. Contracts see it as the
/// list of the items.
#[derive(Drop)]
pub(crate) struct Text<'a> {
    names: &'a Names<'a>,
    modules: Items<Ports<'a>>,
}

impl<'a> Model for Text<'a> {
    ghost use Rattle.std.specs.Prelude.{◌≡◌, List, map};
    ghost use Rattle.std.specs.Coded.{codes};
    ghost use Rattle.net_model.specs.contracts.units.NetExpr as e;
    ghost use Rattle.net_model.specs.declared.units.Unit.{Unit as Item};
    ghost use Rattle.net_rules.specs.Inner.Modules.{item_ports};

    ghost Value = { List Item };

    ghost coded = { Prim.hlevel (codes, e.the_row.coded) };

    ghost view = { λ text. text.names.now };

    ghost invariant = { λ text. text.modules ≡ map item_ports text.names.now };
}

impl<'a> Text<'a> {
    /// The items of a text, whose names are those.
    pub(crate) fn new(
        alloc: Global,
        units: &'a Units,
        names: &'a Names<'a>,
    ) -> Result<Text<'a>, NoMemory>
        requires { names.now ≡ units.now.items }
        ensures { IfOk result (λ text. text ≡ units.now.items) }
    {
        let mut modules = Items::new(alloc);
        for unit in units.items.as_slice() {
            modules.push(Ports::new(alloc, ports_of(unit))?)?;
        }
        Ok(Text { names, modules })
    }

    /// The first item of a name.
    pub(crate) fn item(&self, name: &Name) -> Option<&'a Unit>
        ensures { option_map model_of_unit (option_copied result) ≡ item_named (map model_of_unit self.now) name.now }
    {
        self.names.item(name)
    }

    /// The ports of the module of a name.
    pub(crate) fn ports(&self, name: &Name) -> Option<&Ports<'a>>
        ensures { ports_or_none (option_copied result) ≡ ports_of (item_named (map model_of_unit self.now) name.now) }
    {
        self.modules.get(self.names.place(name))
    }

    /// The place of the first item of a name, and the number of items where there is none.
    pub(crate) fn place(&self, name: &Name) -> usize
        ensures { result ≡ place_named (map model_of_unit self.now) name.now }
    {
        self.names.place(name)
    }

    /// The ports of the item at a place.
    pub(crate) fn own_ports(&self, place: usize) -> &Ports<'a>
        requires { place < length self.now }
        ensures { slice_get (map item_ports self.now) place ≡ Some result.now }
    {
        &self.modules.as_slice()[place]
    }

    /// The first input of a name that the module of a name has.
    pub(crate) fn input(&self, owner: &Name, name: &Name) -> Option<&'a Port>
        ensures { option_copied result
            ≡ port_named false (ports_of (item_named (map model_of_unit self.now) owner.now)) name.now }
    {
        match self.ports(owner) {
            Some(ports) => ports.input(name),
            None => None,
        }
    }

    /// The first output of a name that the module of a name has.
    pub(crate) fn output(&self, owner: &Name, name: &Name) -> Option<&'a Port>
        ensures { option_copied result
            ≡ port_named true (ports_of (item_named (map model_of_unit self.now) owner.now)) name.now }
    {
        match self.ports(owner) {
            Some(ports) => ports.output(name),
            None => None,
        }
    }
}

/// Where an expression stands: among the items of a text, or in a module with these ports.
#[derive(Clone, Copy)]
pub(crate) enum Scope<'a> {
    Items(&'a Text<'a>),
    Ports(&'a Ports<'a>),
}

/// The ports of an item, which only a module has.
fn ports_of(unit: &Unit) -> &[Port]
    ensures { result.now ≡ item_ports unit.now }
{
    match unit {
        Unit::Module { ports, .. } => ports.as_slice(),
        _ => &[],
    }
}

//! What the items of a text are by their names.

ghost use Rattle.std.specs.Prelude.{◌≡◌, ◌<◌, ◌≤◌, ◌^◌, ℕ, Some, map, option_copied, option_map};
ghost use Rattle.std.specs.List.{AllByRecursion};
ghost use Rattle.net_model.specs.Elaborable.{IsElaborable, PortKeeps};
ghost use Rattle.net_model.specs.Numbering.{count_item, equations_of};
ghost use Rattle.net_model.specs.TextNames.{item_named, place_named};
ghost use Rattle.net_model.specs.TextWidths.{part_ports, ports_of, value_width};
ghost use Rattle.net_model.specs.Written.{binding_of, model_of_unit};
ghost use Rattle.net_elab.specs.Inner.Found.{ModuleKeeps, cell_width};

use crate::count::{count_drivers, count_if, count_nets, count_part};
use net_model::{Ident, NetExpr, Port, Unit, Units};
use net_names::Names;
use rec_bits::Name;
use std::marker::Model;

/// The items of a text that keep the rules, with the places of their names.
#[derive(Drop)]
pub struct Declared<'a> {
    units: &'a Units,
    names: &'a Names<'a>,
}

impl<'a> Model for Declared<'a> {
    ghost use Rattle.std.specs.Prelude.{List};
    ghost use Rattle.std.specs.Coded.{codes};
    ghost use Rattle.net_model.specs.contracts.units.NetExpr as e;
    ghost use Rattle.net_model.specs.declared.units.Unit.{Unit as Item};
    ghost use Rattle.net_elab.specs.Inner.Found.{IsDeclared};

    ghost Value = { List Item };

    ghost coded = { Prim.hlevel (codes, e.the_row.coded) };

    ghost view = { λ declared. declared.units.now.items };

    ghost invariant = { λ declared. IsDeclared declared.units.now.items declared.names.now };
}

impl<'a> Declared<'a> {
    /// The items of a text.
    pub fn new(units: &'a Units, names: &'a Names<'a>) -> Declared<'a>
        requires names { names.now ≡ units.now.items }
        requires keeps { IsElaborable (map model_of_unit units.now.items) }
        ensures { result ≡ units.now.items }
    {
        Declared { units, names }
    }

    /// The items in their order.
    pub fn units(&self) -> &[Unit]
        ensures items { result.now ≡ self.now }
        ensures keeps { IsElaborable (map model_of_unit self.now) }
    {
        self.units.items.as_slice()
    }

    /// The place of the first item of a name.
    pub fn place(&self, name: &Name) -> usize
        ensures { result ≡ place_named (map model_of_unit self.now) name.now }
    {
        self.names.place(name)
    }

    /// The first item of a name.
    fn item(&self, name: &Name) -> Option<&Unit>
        ensures item { option_map model_of_unit (option_copied result) ≡ item_named (map model_of_unit self.now) name.now }
        ensures keeps { IsElaborable (map model_of_unit self.now) }
    {
        self.names.item(name)
    }

    /// The width of what a name stands for.
    pub fn value_width(&self, name: &Name) -> Option<u64>
        ensures width { result ≡ value_width (item_named (map model_of_unit self.now) name.now) }
        ensures narrow { (width : ℕ) → result ≡ Some width → width ≤ 64 }
    {
        match self.item(name)? {
            Unit::Code { bits: width, .. }
            | Unit::Register { width, .. }
            | Unit::Net { width, .. }
            | Unit::Bus { width, .. } => Some(*width),
            Unit::Memory { .. } | Unit::Module { .. } | Unit::Part { .. } => None,
        }
    }

    /// The width of the cells of the memory or the file of a name.
    pub fn cell_width(&self, name: &Name) -> Option<u64>
        ensures width { result ≡ cell_width (item_named (map model_of_unit self.now) name.now) }
        ensures narrow { (width : ℕ) → result ≡ Some width → width ≤ 64 }
    {
        match self.item(name)? {
            Unit::Memory { width, .. } => Some(*width),
            _ => None,
        }
    }

    /// The ports of the module of a name.
    pub fn ports(&self, name: &Name) -> &[Port]
        ensures ports { result.now ≡ ports_of (item_named (map model_of_unit self.now) name.now) }
        ensures narrow { AllByRecursion PortKeeps result.now }
    {
        match self.item(name) {
            Some(Unit::Module { ports, .. }) => ports.as_slice(),
            _ => &[],
        }
    }

    /// The ports of the module of the part of a name.
    pub fn part_ports(&self, part: &Name) -> &[Port]
        ensures ports { result.now ≡ part_ports (map model_of_unit self.now) (item_named (map model_of_unit self.now) part.now) }
        ensures narrow { AllByRecursion PortKeeps result.now }
    {
        match self.item(part) {
            Some(Unit::Part { module, .. }) => self.ports(&module.name),
            _ => &[],
        }
    }

    /// The equations of the module of a name.
    pub fn equations(&self, name: &Name) -> &[(Ident, NetExpr)]
        ensures equations { map binding_of result.now ≡ equations_of (item_named (map model_of_unit self.now) name.now) }
        ensures keeps { ModuleKeeps (item_named (map model_of_unit self.now) name.now) }
    {
        match self.item(name) {
            Some(Unit::Module { equations, .. }) => equations.as_slice(),
            _ => &[],
        }
    }

    /// How many nets an item gives.
    pub fn count_item(&self, unit: &Unit) -> u32
        requires { count_item (map model_of_unit self.now) (model_of_unit unit.now) < 2 ^ 32 }
        ensures { result ≡ count_item (map model_of_unit self.now) (model_of_unit unit.now) }
    {
        match unit {
            Unit::Code { .. } => 1,
            Unit::Register { input, when, .. } => count_nets(input) + count_if(when.as_ref()) + 1,
            Unit::Memory {
                value,
                addr,
                when,
                ..
            } => count_nets(value) + count_nets(addr) + count_if(when.as_ref()),
            Unit::Net { value, .. } => count_nets(value) + 1,
            Unit::Bus { drivers, .. } => count_drivers(drivers.as_slice()) + 1,
            Unit::Module { .. } => 0,
            Unit::Part { module, links, .. } => {
                let ports = self.ports(&module.name);
                let equations = self.equations(&module.name);
                count_part(links.as_slice(), ports, equations)
            }
        }
    }
}

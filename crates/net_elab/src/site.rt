//! What the names of an expression stand for, where it stands.

ghost use Rattle.std.specs.Prelude.{◌≡◌, IfOk, MatchOption, None, false, true, map, option_copied, option_map, slice_index};
ghost use Rattle.std.specs.List.{AllByRecursion};
ghost use Rattle.net_model.specs.Elaborable.{PortKeeps};
ghost use Rattle.net_model.specs.Numbering.{item_net, memory_at, net_named, port_place, scope_at, storage_named};
ghost use Rattle.net_model.specs.TextNames.{item_named, port_named};
ghost use Rattle.net_model.specs.TextWidths.{field_width, input_width, memory_widths, named_width, part_ports, port_width, value_width};
ghost use Rattle.net_model.specs.Written.{model_of_unit};
ghost use Rattle.net_elab.specs.Inner.Found.{IsCells, IsSpot, cell_width_of, cell_width, field_of};
ghost use Rattle.net_elab.specs.Inner.Sites.{model_of_site};

use crate::declared::Declared;
use crate::numbers::{Numbers, list_at, number_at, numbered};
use net_model::{Ident, Port};
use rec_bits::{Name, NoMemory};
use std::alloc::Global;
use std::marker::Model;

/// A net by its number, and its width.
#[derive(Clone, Copy)]
pub struct NetRef {
    pub net: u32,
    pub width: u8,
}

/// A memory or a file by its storage's number, and the width of its cells.
#[derive(Clone, Copy)]
pub struct Readable {
    pub memory: u32,
    pub width: u8,
}

/// The items of a text with their numbers.
#[derive(Drop)]
pub struct Text<'a> {
    declared: Declared<'a>,
    numbers: Numbers,
}

impl<'a> Model for Text<'a> {
    ghost use Rattle.std.specs.Prelude.{List, map};
    ghost use Rattle.std.specs.Coded.{codes};
    ghost use Rattle.net_model.specs.contracts.units.NetExpr as e;
    ghost use Rattle.net_model.specs.declared.units.Unit.{Unit as Item};
    ghost use Rattle.net_model.specs.Written.{model_of_unit};
    ghost use Rattle.net_elab.specs.Inner.Found.{IsNumbered};

    ghost Value = { List Item };

    ghost coded = { Prim.hlevel (codes, e.the_row.coded) };

    ghost view = { λ text. text.declared };

    ghost invariant = { λ text. IsNumbered (map model_of_unit text.declared) text.numbers.nets
        text.numbers.storages text.numbers.wires };
}

impl<'a> Text<'a> {
    /// The items with their numbers.
    pub fn new(alloc: Global, declared: Declared<'a>) -> Result<Text<'a>, NoMemory>
        ensures { IfOk result (λ text. text ≡ declared.entry) }
    {
        let numbers = numbered(alloc, &declared)?;
        Ok(Text { declared, numbers })
    }

    /// The items.
    pub fn declared(&self) -> &Declared<'a>
        ensures { result.now ≡ self.now }
    {
        &self.declared
    }

    /// The storage of the first item of a name.
    pub fn storage(&self, name: &Name) -> u32
        ensures { result ≡ storage_named (map model_of_unit self.now) name.now }
    {
        number_at(self.numbers.storages.as_slice(), self.declared.place(name))
    }

    /// The memory or the file of a name.
    fn cells(&self, name: &Name) -> Option<Readable>
        ensures { MatchOption result
            (cell_width (item_named (map model_of_unit self.now) name.now) ≡ None)
            (λ cells. IsCells (cell_width (item_named (map model_of_unit self.now) name.now))
            (storage_named (map model_of_unit self.now) name.now) cells) }
    {
        let width = self.declared.cell_width(name)?;
        Some(Readable {
            memory: self.storage(name),
            width: width as u8,
        })
    }

    /// The output of the item of a name.
    fn output(&self, name: &Name) -> Option<NetRef>
        ensures { MatchOption result
            (value_width (item_named (map model_of_unit self.now) name.now) ≡ None)
            (λ spot. IsSpot (value_width (item_named (map model_of_unit self.now) name.now))
            (item_net (map model_of_unit self.now) name.now None) spot) }
    {
        let width = self.declared.value_width(name)?;
        let net = number_at(self.numbers.nets.as_slice(), self.declared.place(name));
        Some(NetRef {
            net,
            width: width as u8,
        })
    }

    /// The wire of an output of the part of a name.
    fn port(&self, name: &Name, field: &Ident) -> Option<NetRef>
        ensures { MatchOption result
            (field_width (map model_of_unit self.now) name.now (field_of field.now) ≡ None)
            (λ spot. IsSpot (field_width (map model_of_unit self.now) name.now (field_of field.now))
            (item_net (map model_of_unit self.now) name.now (field_of field.now)) spot) }
    {
        let ports = self.declared.part_ports(name);
        let wires = list_at(self.numbers.wires.as_slice(), self.declared.place(name));
        wire_of(true, ports, wires, &field.name)
    }

    /// What a name stands for among the items.
    fn net(&self, name: &Name, field: &Option<Ident>) -> Option<NetRef>
        ensures { MatchOption result (field_width (map model_of_unit self.now) name.now field.now ≡ None)
            (λ spot. IsSpot (field_width (map model_of_unit self.now) name.now field.now)
            (item_net (map model_of_unit self.now) name.now field.now) spot) }
    {
        match field {
            None => self.output(name),
            Some(field) => self.port(name, field),
        }
    }
}

/// The place of the first port of a direction and a name, and the number of ports where there is
/// none.
fn port_place(output: bool, ports: &[Port], name: &Name) -> usize
    ensures { result ≡ port_place output ports.now name.now }
{
    for (place, port) in ports.iter().enumerate() {
        if port.output == output && port.name.name == *name {
            return place;
        }
    }
    ports.len()
}

/// The first port of a direction and a name.
fn port_named<'a>(output: bool, ports: &'a [Port], name: &Name) -> Option<&'a Port>
    ensures { option_copied result ≡ port_named output ports.now name.now }
{
    for port in ports {
        if port.output == output && port.name.name == *name {
            return Some(port);
        }
    }
    None
}

/// The wire of the first port of a direction and a name.
fn wire_of(output: bool, ports: &[Port], wires: &[u32], name: &Name) -> Option<NetRef>
    requires { AllByRecursion PortKeeps ports.now }
    ensures { MatchOption result (port_width (port_named output ports.now name.now) ≡ None)
        (λ spot. IsSpot (port_width (port_named output ports.now name.now))
        (slice_index wires.now (port_place output ports.now name.now)) spot) }
{
    let port = port_named(output, ports, name)?;
    Some(NetRef {
        net: number_at(wires, port_place(output, ports, name)),
        width: port.width as u8,
    })
}

/// The ports of a part's module, and their wires in the part.
#[derive(Drop)]
pub struct Inside<'a> {
    ports: &'a [Port],
    wires: &'a [u32],
}

impl<'a> Model for Inside<'a> {
    ghost use Rattle.std.specs.Prelude.{List, ℕ};
    ghost use Rattle.std.specs.List.{AllByRecursion};
    ghost use Rattle.net_model.specs.declared.units.Port.{Port as Gate};
    ghost use Rattle.net_model.specs.Elaborable.{PortKeeps};

    ghost Value = { List Gate × List ℕ };

    ghost view = { λ inside. (inside.ports.now, inside.wires.now) };

    ghost invariant = { λ inside. AllByRecursion PortKeeps inside.ports.now };
}

impl<'a> Inside<'a> {
    /// The ports and their wires.
    pub fn new(ports: &'a [Port], wires: &'a [u32]) -> Inside<'a>
        requires { AllByRecursion PortKeeps ports.now }
        ensures { result ≡ (ports.now, wires.now) }
    {
        Inside { ports, wires }
    }

    /// The wire of the input of a name.
    fn input(&self, name: &Name) -> Option<NetRef>
        ensures { MatchOption result (port_width (port_named false self.now.0 name.now) ≡ None)
            (λ spot. IsSpot (port_width (port_named false self.now.0 name.now))
            (slice_index self.now.1 (port_place false self.now.0 name.now)) spot) }
    {
        wire_of(false, self.ports, self.wires, name)
    }
}

/// Where an expression stands: among the items, or in a part.
#[derive(Drop)]
pub enum Site<'a> {
    Top(&'a Text<'a>),
    Part(&'a Inside<'a>),
}

impl<'a> Site<'a> {
    /// What a name stands for.
    pub fn net(&self, name: &Name, field: &Option<Ident>) -> Option<NetRef>
        ensures { MatchOption result
            (named_width (scope_at (model_of_site self.now)) name.now field.now ≡ None)
            (λ spot. IsSpot (named_width (scope_at (model_of_site self.now)) name.now field.now)
            (net_named (model_of_site self.now) name.now field.now) spot) }
    {
        match (self, field) {
            (Site::Top(text), field) => text.net(name, field),
            (Site::Part(inside), None) => inside.input(name),
            (Site::Part(_), Some(_)) => None,
        }
    }

    /// The memory or the file of a name.
    pub fn cells(&self, name: &Name) -> Option<Readable>
        ensures { MatchOption result (memory_widths (scope_at (model_of_site self.now)) name.now ≡ None)
            (λ cells. IsCells (option_map cell_width_of (memory_widths (scope_at (model_of_site self.now)) name.now))
            (memory_at (model_of_site self.now) name.now) cells) }
    {
        match self {
            Site::Top(text) => text.cells(name),
            Site::Part(_) => None,
        }
    }
}

//! The ports of a module by their names.

ghost use Rattle.std.specs.Prelude.{◌≡◌, [], IfOk, OnOk, length, map, option_copied, true, false};
ghost use Rattle.net_model.specs.TextNames.{port_named};
ghost use Rattle.net_names.specs.Places.{HasPortPlaces, inputs_of, lent};

use crate::table::{SymbolTable, item_at};
use net_model::Port;
use rec_bits::{Items, Name, NoMemory};
use std::alloc::Global;
use std::marker::Model;

/// The ports of a module, found by their names. Contracts see it as the list of the ports.
#[derive(Drop)]
pub struct Ports<'a> {
    ports: &'a [Port],
    input_ports: Items<&'a Port>,
    inputs: SymbolTable<'a>,
    outputs: SymbolTable<'a>,
}

impl<'a> Model for Ports<'a> {
    ghost use Rattle.std.specs.Prelude.{◌≡◌, List, length, map};
    ghost use Rattle.net_model.specs.declared.units.Port.{Port as Written};
    ghost use Rattle.net_names.specs.Places.{HasPortPlaces, inputs_of, lent};

    ghost Value = { List Written };

    ghost view = { λ table. table.ports.now };

    ghost invariant = { λ table. HasPortPlaces table.inputs table.outputs table.ports.now (length table.ports.now)
        × (map lent table.input_ports ≡ inputs_of table.ports.now) };
}

/// Gives the names of ports their first places, each in the table of its direction. The tables are
/// empty before.
fn enter_ports<'a>(
    inputs: &mut SymbolTable<'a>,
    outputs: &mut SymbolTable<'a>,
    ports: &'a [Port],
) -> Result<(), NoMemory>
    requires inputs { inputs.old ≡ [] }
    requires outputs { outputs.old ≡ [] }
    ensures { OnOk result (HasPortPlaces inputs.new outputs.new ports.now (length ports.now)) }
{
    for (i, port) in ports.iter().enumerate() {
        if port.output {
            outputs.enter(&port.name.name, i)?;
        } else {
            inputs.enter(&port.name.name, i)?;
        }
    }
    Ok(())
}

/// The inputs among some ports, in their order.
fn inputs_of<'a>(alloc: Global, ports: &'a [Port]) -> Result<Items<&'a Port>, NoMemory>
    ensures { IfOk result (λ inputs. map lent inputs ≡ inputs_of ports.now) }
{
    let mut inputs = Items::new(alloc);
    for port in ports {
        if !port.output {
            inputs.push(port)?;
        }
    }
    Ok(inputs)
}

impl<'a> Ports<'a> {
    /// The names of some ports.
    pub fn new(alloc: Global, ports: &'a [Port]) -> Result<Ports<'a>, NoMemory>
        ensures { IfOk result (λ table. table ≡ ports.now) }
    {
        let input_ports = inputs_of(alloc, ports)?;
        let mut inputs = SymbolTable::new(alloc);
        let mut outputs = SymbolTable::new(alloc);
        enter_ports(&mut inputs, &mut outputs, ports)?;
        Ok(Ports {
            ports,
            input_ports,
            inputs,
            outputs,
        })
    }

    /// The ports in their order.
    pub fn as_slice(&self) -> &'a [Port]
        ensures { result.now ≡ self.now }
    {
        self.ports
    }

    /// The inputs in their order.
    pub fn inputs(&self) -> &[&'a Port]
        ensures { map lent result.now ≡ inputs_of self.now }
    {
        self.input_ports.as_slice()
    }

    /// The first input of a name, or None where there is none.
    pub fn input(&self, name: &Name) -> Option<&'a Port>
        ensures { option_copied result ≡ port_named false self.now name.now }
    {
        item_at(self.ports, self.inputs.place(name))
    }

    /// The first output of a name, or None where there is none.
    pub fn output(&self, name: &Name) -> Option<&'a Port>
        ensures { option_copied result ≡ port_named true self.now name.now }
    {
        item_at(self.ports, self.outputs.place(name))
    }
}

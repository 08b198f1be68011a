//! The nets that enable writes and the drivers of buses.

ghost use Rattle.std.specs.Prelude.{◌≡◌, ◌++◌, map, option_to_list, IfOk, OnOk};
ghost use Rattle.rec_bits.specs.Faults.{gather};
ghost use Rattle.net_model.specs.CheckedRules.{all_file_addrs, file_addrs, gate_file_addrs, storage_file_addrs};
ghost use Rattle.net_model.specs.Control.{control_places, enables, gate_enables, selectors, storage_enables, write_enables};

use crate::{Gate, Netlist, Space, Storage, is_banked};
use rec_bits::{Items, NoMemory};
use std::alloc::Global;

impl Storage {
    /// The net of the write enable, or None where the storage takes its input at each clock.
    pub fn when(&self) -> Option<u32>
        ensures { option_to_list result ≡ storage_enables self.now }
    {
        match self {
            Storage::Register { when, .. } => *when,
            Storage::Memory(cells) | Storage::File(cells) => cells.when,
        }
    }
}

impl Netlist {
    // The nets of the write enables, in order of the storages.
    fn write_enables(&self, alloc: Global) -> Result<Items<u32>, NoMemory>
        ensures { IfOk result (λ nets. nets ≡ write_enables self.now) }
    {
        let mut nets = Items::new(alloc);
        for storage in self.storages.as_slice() {
            if let Some(when) = storage.when() {
                nets.push(when)?;
            }
        }
        Ok(nets)
    }

    /// The nets of write enables, in order of the storages, then those of bus enables, in order of
    /// the nets and of their drivers.
    pub fn enables(&self, alloc: Global) -> Result<Items<u32>, NoMemory>
        ensures { IfOk result (λ nets. nets ≡ enables self.now) }
    {
        let mut nets = self.write_enables(alloc)?;
        for net in self.nets.as_slice() {
            net.gate.push_enables(&mut nets)?;
        }
        Ok(nets)
    }

    /// The nets of the selectors of cases, in order of the nets.
    pub fn selectors(&self, alloc: Global) -> Result<Items<u32>, NoMemory>
        ensures { IfOk result (λ nets. nets ≡ selectors self.now) }
    {
        let mut nets = Items::new(alloc);
        self.push_selectors(&mut nets)?;
        Ok(nets)
    }

    /// The nets that stand in control places: enables, then selectors.
    pub fn control_places(&self, alloc: Global) -> Result<Items<u32>, NoMemory>
        ensures { IfOk result (λ nets. nets ≡ control_places self.now) }
    {
        let mut nets = self.enables(alloc)?;
        self.push_selectors(&mut nets)?;
        Ok(nets)
    }

    // The addresses at which the file is written, in order of the storages.
    fn file_writes(&self, alloc: Global) -> Result<Items<u32>, NoMemory>
        ensures { IfOk result (λ nets. nets ≡ gather storage_file_addrs self.now.storages) }
    {
        let mut nets = Items::new(alloc);
        for storage in self.storages.as_slice() {
            if let Storage::File(cells) = storage {
                nets.push(cells.addr)?;
            }
        }
        Ok(nets)
    }

    // Adds the address of a gate that reads the file; any other gate adds none.
    fn push_file_read(&self, nets: &mut Items<u32>, gate: &Gate) -> Result<(), NoMemory>
        ensures { OnOk result (nets.new ≡ nets.old ++ gate_file_addrs self.now gate.now) }
    {
        match gate {
            Gate::Read { memory, addr } => match self.space(*memory) {
                Space::Memory => Ok(()),
                Space::File => nets.push(*addr),
            },
            _ => Ok(()),
        }
    }

    // The addresses at which a file is written, in order of the storages, then of those at which
    // one is read, in order of the nets.
    fn all_file_addrs(&self, alloc: Global) -> Result<Items<u32>, NoMemory>
        ensures { IfOk result (λ nets. nets ≡ all_file_addrs self.now) }
    {
        let mut nets = self.file_writes(alloc)?;
        for net in self.nets.as_slice() {
            self.push_file_read(&mut nets, &net.gate)?;
        }
        Ok(nets)
    }

    /// The nets of the addresses at which the register file is written, in order of the storages,
    /// then of those at which it is read, in order of the nets. A bank is no register file.
    pub fn file_addrs(&self, alloc: Global) -> Result<Items<u32>, NoMemory>
        ensures { IfOk result (λ nets. nets ≡ file_addrs self.now) }
    {
        if is_banked(self.edition) {
            return Ok(Items::new(alloc));
        }
        self.all_file_addrs(alloc)
    }

    fn push_selectors(&self, nets: &mut Items<u32>) -> Result<(), NoMemory>
        ensures { OnOk result (nets.new ≡ nets.old ++ selectors self.now) }
    {
        for net in self.nets.as_slice() {
            if let Gate::Case { sel, .. } = &net.gate {
                nets.push(*sel)?;
            }
        }
        Ok(())
    }
}

impl Gate {
    // Adds the nets that enable the drivers of a bus, in order of the drivers; any other gate adds
    // none.
    fn push_enables(&self, nets: &mut Items<u32>) -> Result<(), NoMemory>
        ensures { OnOk result (nets.new ≡ nets.old ++ gate_enables self.now) }
    {
        match self {
            Gate::Bus(drivers) => push_driver_enables(nets, drivers.as_slice()),
            _ => Ok(()),
        }
    }
}

fn push_driver_enables(nets: &mut Items<u32>, drivers: &[(u32, u32)]) -> Result<(), NoMemory>
    ensures { OnOk result (nets.new ≡ nets.old ++ map (λ driver. driver.1) drivers.now) }
{
    for driver in drivers {
        nets.push(driver.1)?;
    }
    Ok(())
}

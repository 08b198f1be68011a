//! From the text of a netlist to that of its patterns.

ghost use Rattle.std.specs.Prelude.{◌≡◌, ◌<◌, ◌^◌, ◌++◌, length, IfOk, IfErr, OnOk};
ghost use Rattle.net_model.specs.ModeRules.{modes_in};
ghost use Rattle.isa_extract.specs.Extracts.{AreTextsBelow, IsExtracted, IsModesText, IsTextOf, extracted_edition, mode_line};
ghost use Rattle.isa_extract.specs.Extraction.{AreIsas, IsIsaOf};
ghost use Rattle.isa_extract.specs.Taken.{IsRoutedTakenRefusal, IsTakenModes};

use crate::netlists::{Isa, read_extracted};
use itoa::Buffer;
use net_front::NetRefusal;
use net_model::{Checked, Modes};
use rec_bits::NoMemory;
use std::alloc::Global;
use transfer_set::Machine;

// The newest edition of netlist texts: each is taken.
const NEWEST: u8 = 4;

/// The netlist of a text, which keeps all rules, N10, N12 and N13 among them, with what it is in
/// its modes. The refusals are those of `read_extracted`.
pub fn read_routed(alloc: Global, bytes: &[u8]) -> Result<Modes, NetRefusal>
    requires { length bytes.now < 2 ^ 32 }
    ensures found { IfOk result (IsTakenModes extracted_edition bytes.now) }
    ensures refused { IfErr result (IsRoutedTakenRefusal extracted_edition bytes.now) }
{
    let (modes, _) = read_extracted(alloc, bytes, NEWEST)?;
    Ok(modes)
}

// The text of the patterns of a netlist.
fn patterns_text(alloc: Global, checked: &Checked, isa: &Isa) -> Result<Vec<u8>, NoMemory>
    requires { IsIsaOf checked.now.netlist isa.now }
    ensures { IfOk result (λ text. IsTextOf checked.now.netlist text.items) }
{
    let Isa {
        book,
        pool,
        patterns,
        legal: _,
    } = isa;
    let machine = Machine {
        checked,
        pool,
        patterns,
    };
    machine.print(alloc, book)
}

// Adds the line of a mode.
fn add_mode(text: &mut Vec<u8>, mode: usize) -> Result<(), NoMemory>
    ensures { OnOk result (text.new.items ≡ text.old.items ++ mode_line mode) }
{
    let mut digits = Buffer::new();
    text.extend_from_slice(b"mode ")?;
    text.extend_from_slice(digits.format(mode as u64).as_bytes())?;
    text.push(b'\n')?;
    Ok(())
}

// For each mode its line and the text of its patterns.
fn mode_texts(alloc: Global, modes: &Modes, isas: &[Isa]) -> Result<Vec<u8>, NoMemory>
    requires { AreIsas modes.now.bases isas.now }
    ensures { IfOk result (λ text. AreTextsBelow modes.now.netlist (modes_in modes.now.netlist) text.items) }
{
    let bases = modes.bases();
    let mut text = Vec::new(alloc);
    let mut mode = 0;
    for isa in isas {
        add_mode(&mut text, mode)?;
        let own = patterns_text(alloc, &bases[mode], isa)?;
        text.extend_from_slice(own.as_slice())?;
        mode += 1;
    }
    Ok(text)
}

// The text of the instruction sets of a netlist.
fn modes_text(alloc: Global, modes: &Modes, isas: &[Isa]) -> Result<Vec<u8>, NoMemory>
    requires { AreIsas modes.now.bases isas.now }
    ensures { IfOk result (λ text. IsModesText modes.now.netlist.special modes.now.netlist text.items) }
{
    if modes.netlist().special.is_some() {
        return mode_texts(alloc, modes, isas);
    }
    patterns_text(alloc, modes.first(), &isas[0])
}

/// The text of the patterns of a netlist's text: how many there are, and for each a line with its
/// number, its transfer, and the least instruction word that gives it; and so of each mode, where
/// the netlist has modes, behind a line that names it. The refusals are those of `read_extracted`.
pub fn extract(alloc: Global, bytes: &[u8]) -> Result<Vec<u8>, NetRefusal>
    requires { length bytes.now < 2 ^ 32 }
    ensures text { IfOk result (λ text. IsExtracted bytes.now text.items) }
    ensures refused { IfErr result (IsRoutedTakenRefusal extracted_edition bytes.now) }
{
    let (modes, isas) = read_extracted(alloc, bytes, NEWEST)?;
    let text = modes_text(alloc, &modes, isas.as_slice())?;
    Ok(text)
}

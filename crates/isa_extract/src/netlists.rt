//! What is extracted from a netlist.

ghost use Rattle.std.specs.Prelude.{◌<◌, ◌^◌, length, IfOk, IfErr};
ghost use Rattle.isa_extract.specs.Extracts.{AreRoutedModes, IsModesRefusal, IsRouteRefusal, IsRouted};
ghost use Rattle.isa_extract.specs.Extraction.{AreExtractedFrom, AreIsas, IsExtractedFrom};
ghost use Rattle.isa_extract.specs.Inner.Modes.{AreControlledIn, IsClashRefusal, IsControlledIn, IsLimitRefusal};
ghost use Rattle.isa_extract.specs.Taken.{IsRoutedBankedRefusal, IsRoutedTakenRefusal, IsTakenModes, IsViewedModes};

use crate::routed::{controls_of, patterns_of};
use bit_bdd::{Book, SetId};
use ctl_bdd::ControlBits;
use net_front::{NetRefusal, read_banked, read_net};
use net_model::{CheckFault, Checked, Modes};
use rec_bits::Items;
use std::alloc::Global;
use sym_expr::Pool;
use transfer_set::Patterns;

/// The instruction set of a netlist without modes, or of one in a mode: its patterns and its words
/// without clash. Sets are of the book, and expressions of the pool.
#[derive(Drop)]
pub struct Isa {
    pub book: Book,
    pub pool: Pool,
    pub patterns: Patterns,
    /// The words without clash.
    pub legal: SetId,
}

// The control bits of a netlist, over a book of its words.
#[derive(Drop)]
pub(crate) struct Controlled {
    pub book: Book,
    pub controls: ControlBits,
}

// The control bits of a netlist that keeps N10.
fn with_controls(alloc: Global, checked: &Checked) -> Result<Controlled, CheckFault>
    ensures found { IfOk result (IsControlledIn checked.now.netlist) }
    ensures refused { IfErr result (IsClashRefusal checked.now.netlist) }
{
    let mut book = Book::new(alloc, checked.netlist().word_width())?;
    let controls = controls_of(alloc, checked, &mut book)?;
    Ok(Controlled { book, controls })
}

// What is extracted from a netlist, from its control bits.
fn routed(alloc: Global, checked: &Checked, controlled: Controlled) -> Result<Isa, CheckFault>
    requires { IsControlledIn checked.now.netlist controlled }
    ensures extracted { IfOk result (IsExtractedFrom checked.now.netlist) }
    ensures kept { IfOk result (λ _. IsRouted checked.now.netlist) }
    ensures refused { IfErr result (IsLimitRefusal checked.now.netlist) }
{
    let Controlled { mut book, controls } = controlled;
    let mut pool = Pool::new(alloc)?;
    let patterns = patterns_of(alloc, checked, &controls, &mut book, &mut pool)?;
    Ok(Isa {
        book,
        pool,
        patterns,
        legal: controls.legal,
    })
}

/// What is extracted from a netlist that keeps N10, N12 and N13. `Fault` comes exactly where it
/// breaks one of these rules, with N10 before the others, and else with the first net that breaks
/// N12 or N13. `Memory` is want of memory.
pub fn extract_netlist(alloc: Global, checked: &Checked) -> Result<Isa, CheckFault>
    ensures extracted { IfOk result (IsExtractedFrom checked.now.netlist) }
    ensures kept { IfOk result (λ _. IsRouted checked.now.netlist) }
    ensures refused { IfErr result (IsRouteRefusal checked.now.netlist) }
{
    let controlled = with_controls(alloc, checked)?;
    routed(alloc, checked, controlled)
}

// The control bits of what a netlist is in its modes, each of which keeps N10.
fn all_controlled(alloc: Global, modes: &Modes) -> Result<Vec<Controlled>, CheckFault>
    ensures found { IfOk result (λ list. AreControlledIn modes.now.bases list.items) }
    ensures refused { IfErr result (IsModesRefusal modes.now.netlist) }
{
    let mut list = Vec::new(alloc);
    for base in modes.bases() {
        list.push(with_controls(alloc, base)?)?;
    }
    Ok(list)
}

// What is extracted from what a netlist is in its modes, from their control bits.
fn all_routed(
    alloc: Global,
    modes: &Modes,
    controlled: Vec<Controlled>,
) -> Result<Items<Isa>, CheckFault>
    requires { AreControlledIn modes.now.bases controlled.items }
    ensures extracted { IfOk result (AreExtractedFrom modes.now.bases) }
    ensures kept { IfOk result (λ _. AreRoutedModes modes.now.netlist) }
    ensures refused { IfErr result (IsModesRefusal modes.now.netlist) }
{
    let bases = modes.bases();
    let mut list = Items::new(alloc);
    let mut mode = 0;
    for one in controlled {
        list.push(routed(alloc, &bases[mode], one)?)?;
        mode += 1;
    }
    Ok(list)
}

/// The instruction set of each mode of a netlist that keeps N10, N12 and N13 in all of them, in
/// their order; one of a netlist without modes. `Fault` comes exactly where it breaks one of these
/// rules: N10, which is tried in all modes first, or else N12 or N13 with the first net that breaks
/// one of them in the first mode in which a net does. `Memory` is want of memory.
pub fn extract_modes(alloc: Global, modes: &Modes) -> Result<Items<Isa>, CheckFault>
    ensures extracted { IfOk result (AreExtractedFrom modes.now.bases) }
    ensures kept { IfOk result (λ _. AreRoutedModes modes.now.netlist) }
    ensures refused { IfErr result (IsModesRefusal modes.now.netlist) }
{
    let controlled = all_controlled(alloc, modes)?;
    all_routed(alloc, modes, controlled)
}

/// The netlist of a text that keeps all rules, N10, N12 and N13 among them, with what it is in its
/// modes, and the instruction set of each; of a text with a bank it is the view of its netlist.
/// `Text` comes exactly where the bytes are no netlist text, and `Fault` exactly where they are one
/// that breaks a rule, with the first: N10, and then N12 and N13, come after all others. A text whose
/// edition is later than `newest` is refused as by `net_front::read_net`. `Memory` is want of memory.
pub fn read_extracted(
    alloc: Global,
    bytes: &[u8],
    newest: u8,
) -> Result<(Modes, Items<Isa>), NetRefusal>
    requires { length bytes.now < 2 ^ 32 }
    ensures netlist { IfOk result (λ both. IsTakenModes newest bytes.now both.0) }
    ensures isas { IfOk result (λ both. AreIsas both.0.bases both.1) }
    ensures refused { IfErr result (IsRoutedTakenRefusal newest bytes.now) }
{
    let (_, modes) = read_net(alloc, bytes, newest)?;
    let isas = extract_modes(alloc, &modes)?;
    Ok((modes, isas))
}

/// The view of the netlist of a text that has a bank and keeps all rules, with its instruction set,
/// which is the only one. The refusals of such a text are those of `read_extracted`, and those of
/// another are those of `net_front::read_banked`.
pub fn read_viewed(alloc: Global, bytes: &[u8]) -> Result<(Modes, Items<Isa>), NetRefusal>
    requires { length bytes.now < 2 ^ 32 }
    ensures netlist { IfOk result (λ both. IsViewedModes bytes.now both.0) }
    ensures isas { IfOk result (λ both. AreIsas both.0.bases both.1) }
    ensures refused { IfErr result (IsRoutedBankedRefusal bytes.now) }
{
    let (_, modes) = read_banked(alloc, bytes)?;
    let isas = extract_modes(alloc, &modes)?;
    Ok((modes, isas))
}

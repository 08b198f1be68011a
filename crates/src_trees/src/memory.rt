//! The data memory, as the trees of a program see it.

ghost use Rattle.std.specs.Prelude.{◌≡◌, ◌≤◌};
ghost use Rattle.src_trees.specs.Lowered.{base_of};
ghost use Rattle.rec_bits.specs.Operators.{IsWidth};

use code_model::Place;
use rec_bits::Name;
use std::marker::Model;

/// The data memory: how wide its cells and its addresses are, and where the variables stand.
/// Contracts see these three.
#[derive(Drop)]
pub(crate) struct DataMemory<'a> {
    word: u8,
    addr: u8,
    places: &'a [Place],
}

impl<'a> Model for DataMemory<'a> {
    ghost use Rattle.std.specs.Prelude.{◌≤◌};
    ghost use Rattle.src_trees.specs.Lowered.{MemoryMap};
    ghost use Rattle.rec_bits.specs.Operators.{IsWidth};

    ghost Value = { MemoryMap };

    ghost view = { λ memory. record { word = memory.word; addr = memory.addr; places = memory.places.now } };

    ghost invariant = { λ memory. IsWidth memory.word × (1 ≤ memory.addr) };
}

impl<'a> DataMemory<'a> {
    /// The memory with cells of `word` bits and addresses of `addr` bits, each 1 to 64, that holds
    /// variables at these places.
    pub(crate) fn new(word: u8, addr: u8, places: &'a [Place]) -> DataMemory<'a>
        requires word { IsWidth word }
        requires addr { 1 ≤ addr }
        ensures { result ≡ record { word = word; addr = addr; places = places.now } }
    {
        DataMemory { word, addr, places }
    }

    /// The bits of a cell.
    pub(crate) fn word(&self) -> u8
        ensures value { result ≡ self.now.word }
        ensures wide { IsWidth result }
    {
        self.word
    }

    /// The bits of an address.
    pub(crate) fn addr(&self) -> u8
        ensures value { result ≡ self.now.addr }
        ensures some { 1 ≤ result }
    {
        self.addr
    }

    /// The address of the first cell of a variable.
    pub(crate) fn base(&self, name: &Name) -> u32
        ensures { result ≡ base_of self.now.places name.now }
    {
        base(self.places, name)
    }
}

fn base(places: &[Place], name: &Name) -> u32
    ensures { result ≡ base_of places.now name.now }
{
    for place in places {
        if name.as_slice() == place.name.as_slice() {
            return place.address;
        }
    }
    0
}

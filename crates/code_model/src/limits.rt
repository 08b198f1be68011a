//! What an image has to keep to.

ghost use Rattle.std.specs.Prelude.{◌≡◌, ◌≤◌, ◌<◌, ◌^◌};
ghost use Rattle.code_model.specs.ImageFits.{limits_of};

use net_model::Checked;

/// The bits of a word and the greatest number of words of a netlist's code.
#[derive(Clone, Copy, PartialEq, Eq)]
pub struct Limits {
    pub bits: u8,
    pub words: u32,
}

impl Limits {
    /// Those of a netlist.
    pub fn of(checked: &Checked) -> Limits
        ensures value { result ≡ limits_of checked.now.netlist }
        ensures some { 1 ≤ result.bits }
        ensures narrow { result.bits ≤ 64 }
        ensures few { result.words < 2 ^ 32 }
    {
        match checked.netlist().codes.get(0) {
            Some(code) => Limits {
                bits: code.bits,
                words: code.words,
            },
            None => Limits { bits: 0, words: 0 },
        }
    }
}

//! What is told of.

use code_model::Place;
use form_model::Forms;
use near_forms::{Means, Names};
use net_model::Checked;

/// The text of a program, the places of its variables, a netlist with its forms, and the program's
/// temporary cells.
#[derive(Clone, Copy)]
pub(crate) struct Subject<'a> {
    pub src: &'a [u8],
    pub places: &'a [Place],
    pub checked: &'a Checked,
    pub forms: &'a Forms,
    pub temps: u32,
}

impl<'a> Subject<'a> {
    /// What has names.
    pub(crate) fn names(&self) -> Names<'a> {
        Names {
            checked: self.checked,
            places: self.places,
        }
    }

    /// What trees are covered by.
    pub(crate) fn means(&self) -> Means<'a> {
        Means {
            forms: self.forms,
            temps: self.temps,
        }
    }
}

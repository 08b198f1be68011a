//! The items of a text by their names.

ghost use Rattle.std.specs.Prelude.{◌≡◌, IfOk, option_copied, option_map, map};
ghost use Rattle.net_model.specs.TextNames.{own_name, place_named, item_named};
ghost use Rattle.net_model.specs.Written.{model_of_unit};

use crate::table::SymbolTable;
use net_model::{Ident, Unit, Units};
use rec_bits::{Name, NoMemory};
use std::alloc::Global;
use std::marker::Model;

/// The items of a text, found by their names. Contracts see it as the list of the items.
#[derive(Drop)]
pub struct Names<'a> {
    units: &'a Units,
    table: SymbolTable<'a>,
}

impl<'a> Model for Names<'a> {
    ghost use Rattle.std.specs.Prelude.{List, [], map, length};
    ghost use Rattle.std.specs.Coded.{codes};
    ghost use Rattle.net_model.specs.contracts.units.NetExpr as e;
    ghost use Rattle.net_model.specs.declared.units.Unit.{Unit as Item};
    ghost use Rattle.net_model.specs.TextNames.{place_named};
    ghost use Rattle.net_model.specs.Written.{model_of_unit};
    ghost use Rattle.net_names.specs.Places.{HasPlaces};

    ghost Value = { List Item };

    ghost coded = { Prim.hlevel (codes, e.the_row.coded) };

    ghost view = { λ names. names.units.now.items };

    ghost invariant = { λ names. HasPlaces names.table (length names.units.now.items)
        (place_named []) (place_named (map model_of_unit names.units.now.items)) };
}

impl<'a> Names<'a> {
    /// The names of the items of a text.
    pub fn new(alloc: Global, units: &'a Units) -> Result<Names<'a>, NoMemory>
        ensures { IfOk result (λ names. names ≡ units.now.items) }
    {
        let mut table = SymbolTable::new(alloc);
        for (i, unit) in units.items.as_slice().iter().enumerate() {
            table.enter(&name_of(unit).name, i)?;
        }
        Ok(Names { units, table })
    }

    /// The place of the first item of a name, and the number of items where there is none.
    pub fn place(&self, name: &Name) -> usize
        ensures { result ≡ place_named (map model_of_unit self.now) name.now }
    {
        match self.table.place(name) {
            Some(place) => place,
            None => self.units.items.len(),
        }
    }

    /// The first item of a name, or None where there is none.
    pub fn item(&self, name: &Name) -> Option<&'a Unit>
        ensures { option_map model_of_unit (option_copied result) ≡ item_named (map model_of_unit self.now) name.now }
    {
        self.units.items.get(self.place(name))
    }
}

/// The name of an item.
pub fn name_of(unit: &Unit) -> &Ident
    ensures { result.now ≡ own_name (model_of_unit unit.now) }
{
    match unit {
        Unit::Code { name, .. }
        | Unit::Register { name, .. }
        | Unit::Memory { name, .. }
        | Unit::Net { name, .. }
        | Unit::Bus { name, .. }
        | Unit::Module { name, .. }
        | Unit::Part { name, .. } => name,
    }
}

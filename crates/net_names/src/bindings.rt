//! The links of a part and the equations of a module by their names.

ghost use Rattle.std.specs.Prelude.{◌≡◌, IfOk, map, option_copied, option_map};
ghost use Rattle.net_model.specs.Numbering.{bound};
ghost use Rattle.net_model.specs.Written.{binding_of, model_of_net_expr};

use crate::table::{SymbolTable, item_at};
use net_model::{Ident, NetExpr};
use rec_bits::{Name, NoMemory};
use std::alloc::Global;
use std::marker::Model;

/// Names with what is bound to them. Contracts see it as the list of the pairs.
#[derive(Drop)]
pub struct Bindings<'a> {
    bindings: &'a [(Ident, NetExpr)],
    table: SymbolTable<'a>,
}

impl<'a> Model for Bindings<'a> {
    ghost use Rattle.std.specs.Prelude.{List, [], map, length};
    ghost use Rattle.std.specs.Coded.{codes};
    ghost use Rattle.net_model.specs.contracts.units.NetExpr as e;
    ghost use Rattle.grammar.specs.declared.words.Ident.{Ident as Named};
    ghost use Rattle.net_model.specs.declared.units.NetExpr.{NetExpr as Expression};
    ghost use Rattle.net_model.specs.Written.{binding_of};
    ghost use Rattle.net_names.specs.Places.{HasPlaces, bound_place};

    ghost Value = { List (Named × Expression) };

    ghost coded = { Prim.hlevel (codes, e.the_row.coded) };

    ghost view = { λ b. b.bindings.now };

    ghost invariant = { λ b. HasPlaces b.table (length b.bindings.now) (bound_place [])
        (bound_place (map binding_of b.bindings.now)) };
}

impl<'a> Bindings<'a> {
    /// The names of some bindings.
    pub fn new(alloc: Global, bindings: &'a [(Ident, NetExpr)]) -> Result<Bindings<'a>, NoMemory>
        ensures { IfOk result (λ b. b ≡ bindings.now) }
    {
        let mut table = SymbolTable::new(alloc);
        for (i, binding) in bindings.iter().enumerate() {
            table.enter(&binding.0.name, i)?;
        }
        Ok(Bindings { bindings, table })
    }

    /// What is bound to a name first, or None where nothing is.
    pub fn bound(&self, name: &Name) -> Option<&'a NetExpr>
        ensures { option_map model_of_net_expr (option_copied result) ≡ bound (map binding_of self.now) name.now }
    {
        match item_at(self.bindings, self.table.place(name)) {
            Some(binding) => Some(&binding.1),
            None => None,
        }
    }
}

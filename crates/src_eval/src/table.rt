//! The cells of a program's variables, by their names.

ghost use Rattle.std.specs.Prelude.{◌≡◌, ◌^◌, ◌<◌, List, IfOk};
ghost use Rattle.src_model.specs.Meaning.{cells_in, cell_count, first_cell};

use indexmap::IndexMap;
use rec_bits::{Name, NoMemory};
use src_model::Var;
use std::alloc::Global;
use std::marker::Model;

/// The declarations of a program, with a table of their first cells. Contracts see the list of the
/// declarations.
#[derive(Drop)]
pub struct SymbolTable<'a> {
    vars: &'a [Var],
    first: IndexMap<&'a [u8], u64>,
    total: u64,
}

impl<'a> Model for SymbolTable<'a> {
    ghost use Rattle.std.specs.Prelude.{List};
    ghost use Rattle.src_model.specs.declared.program.Var.{Var as Declared};
    ghost use Rattle.src_eval.specs.Inner.Tables.{IsCellTable};

    ghost Value = { List Declared };

    ghost view = { λ table. table.vars.now };

    ghost invariant = { λ table. IsCellTable table.first.entries table.total table.vars.now };
}

impl<'a> SymbolTable<'a> {
    /// The first cell of a variable, and the number of all cells where there is none of that name.
    pub fn first_cell(&self, name: &Name) -> u64
        ensures { result ≡ first_cell self.now name.now }
    {
        self.first
            .get(name.as_slice())
            .copied()
            .unwrap_or(self.total)
    }
}

/// The table of some declarations.
pub fn declare<'a>(alloc: Global, vars: &'a [Var]) -> Result<SymbolTable<'a>, NoMemory>
    requires { cell_count vars.now < 2 ^ 64 }
    ensures { IfOk result (λ table. table ≡ vars.now) }
{
    let mut first = IndexMap::new(alloc);
    let mut total = 0;
    for var in vars {
        if first.get(var.name.as_slice()).is_none() {
            first.insert(var.name.as_slice(), total)?;
        }
        total += var.len.unwrap_or(1);
    }
    Ok(SymbolTable { vars, first, total })
}

/// Where the names of a program are resolved.
#[derive(Drop)]
pub struct Scope<'a> {
    /// The width of a word, in bits.
    pub word: u8,
    /// The cells of the program's variables.
    pub table: SymbolTable<'a>,
}

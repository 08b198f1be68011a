//! The layout: temporary cells, and then the variables.

ghost use Rattle.std.specs.Prelude.{◌≡◌, ◌+◌, ◌*◌, ◌^◌, ◌<◌, ◌≤◌, IfOk, IfErr, length};
ghost use Rattle.src_model.specs.Written.{model_of_program};
ghost use Rattle.src_model.specs.Sizes.{longest};
ghost use Rattle.src_model.specs.Meaning.{cells_in, cell_count};
ghost use Rattle.code_model.specs.Places.{places_from, Apart};
ghost use Rattle.code_model.specs.Layout.{variables_of, layout_of, need_of};
ghost use Rattle.binding.specs.Refusals.{IsBindFault};

use crate::BindFault;
use code_model::{Place, Places};
use rec_bits::{Items, NoMemory};
use src_model::{Typed, Var};
use std::alloc::Global;

/// The cells of a variable: one, or those of an array.
pub fn cells_in(var: &Var) -> u64
    ensures { result ≡ cells_in var.now }
{
    var.len.unwrap_or(1)
}

// The cells of all variables.
fn cell_count(vars: &[Var]) -> u64
    requires few { length vars.now < 2 ^ 32 }
    requires lengths { longest vars.now ≤ 65536 }
    ensures { result ≡ cell_count vars.now }
{
    let mut count = 0;
    for var in vars {
        count += cells_in(var);
    }
    count
}

/// The place of a variable whose first cell has this address. The variable has fewer than 2^32
/// cells.
pub fn place(alloc: Global, var: &Var, address: u32) -> Result<Place, NoMemory>
    requires { cells_in var.now < 2 ^ 32 }
    ensures { IfOk result (λ made. made ≡ record { name = var.now.name; address = address; len = cells_in var.now }) }
{
    let name = Items::from_slice(alloc, var.name.as_slice())?;
    Ok(Place {
        name,
        address,
        len: cells_in(var) as u32,
    })
}

// The variables' places from an address on, one behind the other.
fn places(alloc: Global, first: u32, vars: &[Var]) -> Result<Items<Place>, NoMemory>
    requires { first + cell_count vars.now < 2 ^ 32 }
    ensures { IfOk result (λ places. places ≡ places_from first (variables_of vars.now)) }
{
    let mut places = Items::new(alloc);
    let mut address = first;
    for var in vars {
        places.push(place(alloc, var, address)?)?;
        address += cells_in(var) as u32;
    }
    Ok(places)
}

/// The places of a program's variables in a memory of so many words: behind the temporary cells,
/// which stand from address 0 on, in the order of their declarations, arrays whole. The program has
/// fewer than 2^32 variables. It is refused exactly where it needs more cells than there are.
pub fn bind(alloc: Global, typed: &Typed, words: u32) -> Result<Places, BindFault>
    requires few { length typed.now.program.vars < 2 ^ 32 }
    ensures places { IfOk result (λ places. places ≡ layout_of typed.now.width (model_of_program typed.now.program)) }
    ensures apart { IfOk result (λ places. Apart places.temps places.list words) }
    ensures enough { IfOk result (λ places. need_of typed.now.width (model_of_program typed.now.program) ≤ words) }
    ensures refused { IfErr result (IsBindFault (need_of typed.now.width (model_of_program typed.now.program)) words) }
{
    let vars = typed.program().vars.as_slice();
    let temps = typed.temps();
    let need = u64::from(temps) + cell_count(vars);
    let have = u64::from(words);
    if need > have {
        return Err(BindFault::DataFull { need, have });
    }
    let list = places(alloc, temps, vars)?;
    Ok(Places { temps, list })
}

//! The places of variables in two memories.

ghost use Rattle.std.specs.Prelude.{◌≡◌, ◌+◌, ◌*◌, ◌^◌, ◌<◌, ◌≤◌, IfOk, IfErr, MatchResult, length};
ghost use Rattle.src_model.specs.Written.{model_of_program};
ghost use Rattle.src_model.specs.Sizes.{longest};
ghost use Rattle.src_model.specs.Meaning.{cells_in};
ghost use Rattle.dual_bank.specs.Layouts.{bank_cells, memory_cells, memory_need, places_by, bank_layout, IsBankFault};

use binding::{BindFault, cells_in, place};
use code_model::{Place, Places};
use rec_bits::{Items, NoMemory};
use src_model::{Typed, Var};
use std::alloc::Global;

// The cells of the variables that are in the memory, and of those that are in the bank.
fn cell_counts(in_bank: &[bool], vars: &[Var]) -> (u64, u64)
    requires few { length vars.now < 2 ^ 32 }
    requires flags { length in_bank.now ≡ length vars.now }
    requires lengths { longest vars.now ≤ 65536 }
    ensures memory { result.0 ≡ memory_cells in_bank.now vars.now }
    ensures bank { result.1 ≡ bank_cells in_bank.now vars.now }
{
    let mut memory = 0;
    let mut bank = 0;
    for (number, var) in vars.iter().enumerate() {
        let cells = cells_in(var);
        if in_bank[number] {
            bank += cells;
        } else {
            memory += cells;
        }
    }
    (memory, bank)
}

// The variables' places: those in the memory from one address on, and those in the bank from
// another.
fn places(
    alloc: Global,
    low: u32,
    high: u32,
    in_bank: &[bool],
    vars: &[Var],
) -> Result<Items<Place>, NoMemory>
    requires flags { length in_bank.now ≡ length vars.now }
    requires memory { low + memory_cells in_bank.now vars.now < 2 ^ 32 }
    requires bank { high + bank_cells in_bank.now vars.now < 2 ^ 32 }
    ensures { IfOk result (λ places. places ≡ places_by low high in_bank.now vars.now) }
{
    let mut places = Items::new(alloc);
    let mut low = low;
    let mut high = high;
    for (number, var) in vars.iter().enumerate() {
        if in_bank[number] {
            places.push(place(alloc, var, high)?)?;
            high += cells_in(var) as u32;
        } else {
            places.push(place(alloc, var, low)?)?;
            low += cells_in(var) as u32;
        }
    }
    Ok(places)
}

fn tried(need: u64, have: u64) -> Result<(), BindFault>
    ensures { MatchResult result (λ _. need ≤ have) (λ fault. (fault ≡ BindFault.DataFull need have) × (have < need)) }
{
    if need > have {
        Err(BindFault::DataFull { need, have })
    } else {
        Ok(())
    }
}

/// The places of a program's variables in two memories, of which the first has 2 to the power of
/// `addr_width` words and the second `bank`: in the first behind the temporary cells, which stand
/// from address 0 on, those that `in_bank` doesn't tell, and from 2 to the power of `addr_width` on
/// those that it does. The program has fewer than 2^32 variables. It is refused exactly where the
/// first memory has too few cells, or else the second.
pub fn bind_banks(
    alloc: Global,
    typed: &Typed,
    in_bank: &Vec<bool>,
    addr_width: u8,
    bank: u32,
) -> Result<Places, BindFault>
    requires few { length typed.now.program.vars < 2 ^ 32 }
    requires flags { length in_bank.now.items ≡ length typed.now.program.vars }
    requires some { 1 ≤ addr_width }
    requires narrow { addr_width ≤ 15 }
    requires bank { bank ≤ 2 ^ addr_width }
    ensures places { IfOk result (λ places. places
        ≡ bank_layout typed.now.width addr_width in_bank.now.items (model_of_program typed.now.program)) }
    ensures memory { IfOk result (λ _. memory_need typed.now.width in_bank.now.items (model_of_program typed.now.program)
        ≤ 2 ^ addr_width) }
    ensures enough { IfOk result (λ _. bank_cells in_bank.now.items typed.now.program.vars ≤ bank) }
    ensures refused { IfErr result (IsBankFault
        (memory_need typed.now.width in_bank.now.items (model_of_program typed.now.program)) (2 ^ addr_width)
        (bank_cells in_bank.now.items typed.now.program.vars) bank) }
{
    let flags = in_bank.as_slice();
    let vars = typed.program().vars.as_slice();
    let temps = typed.temps();
    let (memory_cells, bank_cells) = cell_counts(flags, vars);
    let size = 1u64 << addr_width;
    tried(u64::from(temps) + memory_cells, size)?;
    tried(bank_cells, u64::from(bank))?;
    let list = places(alloc, temps, size as u32, flags, vars)?;
    Ok(Places { temps, list })
}

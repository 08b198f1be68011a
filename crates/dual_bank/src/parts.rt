//! Which variables stand in the bank, as a text tells.

ghost use Rattle.std.specs.Prelude.{◌≡◌, IfOk, IfErr, option_copied, Some};
ghost use Rattle.std.specs.Str.{bytes_eq};
ghost use Rattle.text_lines.specs.Fields.{line_end};
ghost use Rattle.dual_bank.specs.Parts.{newly_named, none_told, untold, variable_at, IsPart, IsPartRefusal};

use rec_bits::{Items, NoMemory, ParseFault};
use src_model::{Typed, Var};
use std::alloc::Global;
use text_lines::{first_line, line_end};

fn is_named(var: &Var, name: &[u8]) -> bool
    ensures { result ≡ bytes_eq var.now.name name.now }
{
    var.name.as_slice() == name
}

fn first_named(vars: &[Var], name: &[u8]) -> Option<usize>
    ensures { result ≡ variable_at vars.now (Some name.now) }
{
    vars.iter().position(|var| is_named(var, name))
}

fn variable_at(vars: &[Var], name: Option<&[u8]>) -> Option<usize>
    ensures { result ≡ variable_at vars.now (option_copied name.entry) }
{
    match name {
        Some(name) => first_named(vars, name),
        None => None,
    }
}

fn untold(told: &[bool], number: Option<usize>) -> Option<usize>
    ensures { result ≡ untold told.now number }
{
    let number = number?;
    match told.get(number) {
        Some(false) => Some(number),
        _ => None,
    }
}

// The variable that a line names, which no line before it does.
fn newly_named(vars: &[Var], told: &[bool], line: &[u8]) -> Option<usize>
    ensures { result ≡ newly_named vars.now told.now line.now }
{
    untold(told, variable_at(vars, line_end(line)))
}

fn none_told(alloc: Global, vars: &[Var]) -> Result<Items<bool>, NoMemory>
    ensures { IfOk result (λ told. told ≡ none_told vars.now) }
{
    Ok(Items::from_vec(vec![in alloc; false; vars.len()]?))
}

// For each of these variables whether the text names it.
fn tell(alloc: Global, bytes: &[u8], vars: &[Var]) -> Result<Items<bool>, ParseFault>
    ensures told { IfOk result (λ told. IsPart vars.now bytes.now told) }
    ensures refused { IfErr result (IsPartRefusal vars.now bytes.now) }
{
    let mut told = none_told(alloc, vars)?;
    let mut rest = bytes;
    while let Some((line, more)) = first_line(rest) {
        let Some(number) = newly_named(vars, told.as_slice(), line) else {
            return Err(ParseFault::Text((bytes.len() - rest.len()) as u64));
        };
        told.set(number, true);
        rest = more;
    }
    Ok(told)
}

/// For each variable of a program whether the text names it. `Text` comes exactly where a line
/// isn't a declared name with LF behind, or repeats one, with the first such line's offset.
/// `Memory` is want of memory.
pub fn part(alloc: Global, bytes: &[u8], typed: &Typed) -> Result<Vec<bool>, ParseFault>
    ensures told { IfOk result (λ told. IsPart typed.now.program.vars bytes.now told.items) }
    ensures refused { IfErr result (IsPartRefusal typed.now.program.vars bytes.now) }
{
    let told = tell(alloc, bytes, typed.program().vars.as_slice())?;
    Ok(told.into_vec())
}

//! The netlist of a number.

ghost use Rattle.std.specs.Prelude.{◌≡◌, ◌+◌, ◌++◌, ◌<◌, ◌≤◌, ◌^◌, ◌%◌, IfOk, OnOk, length, string_bytes};
ghost use Rattle.job_gen.specs.Each.{each};
ghost use Rattle.job_gen.specs.NetText.{memory_line, net_text, register_line, register_numbers, register_rows, store_number, store_row};

use rec_bits::NoMemory;
use std::alloc::Global;

// The code, its fields and the program counter.
const HEAD: &[u8] = b"code I : 24 size 4096 at PC;
net f : 16 = I[15:0];
net op : 8 = I[23:16];
register PC : 16 in case op { 6: f; 7: case eq(A0, 0#16) { 1: f; 0: add(PC, 1#16); }; else: add(PC, 1#16); };
";

// How many accumulators there are at most.
const MOST: u64 = 4;

// How many operations each accumulator has numbers for.
const OPERATIONS: u64 = 8;

// What an accumulator takes under each of its operations but the last.
#[tactic(auto, unfolding(crate::specs::NetText::register_rows))]
fn register_rows(alloc: Global, k: u64) -> Result<String, NoMemory>
    requires { k < MOST }
    ensures { IfOk result (λ rows. string_bytes rows ≡ register_rows k) }
{
    let load = OPERATIONS * k + 1;
    let add = OPERATIONS * k + 2;
    let sub = OPERATIONS * k + 3;
    Ok(format!(in alloc;
        "{load}: read(M, f); {add}: add(A{k}, read(M, f)); {sub}: sub(A{k}, read(M, f)); "
    )?)
}

// The numbers of the operations under which an accumulator takes something.
#[tactic(auto, unfolding(crate::specs::NetText::register_numbers))]
fn register_numbers(alloc: Global, k: u64) -> Result<String, NoMemory>
    requires { k < MOST }
    ensures { IfOk result (λ numbers. string_bytes numbers ≡ register_numbers k) }
{
    let load = OPERATIONS * k + 1;
    let add = OPERATIONS * k + 2;
    let sub = OPERATIONS * k + 3;
    let set = OPERATIONS * k + 5;
    Ok(format!(in alloc; "{load}, {add}, {sub}, {set}")?)
}

// The line of an accumulator.
#[tactic(auto, unfolding(crate::specs::NetText::register_line))]
fn register_line(alloc: Global, k: u64) -> Result<String, NoMemory>
    requires { k < MOST }
    ensures { IfOk result (λ line. string_bytes line ≡ register_line k) }
{
    let rows = register_rows(alloc, k)?;
    let numbers = register_numbers(alloc, k)?;
    Ok(format!(in alloc;
        "register A{k} : 16 in case op {{ {rows}else: f; }} when case op {{ {numbers}: 1#1; else: 0#1; }};\n"
    )?)
}

// What the memory takes under the operation that stores an accumulator.
#[tactic(auto, unfolding(crate::specs::NetText::store_row))]
fn store_row(alloc: Global, k: u64) -> Result<String, NoMemory>
    requires { k < MOST }
    ensures { IfOk result (λ row. string_bytes row ≡ store_row k) }
{
    let store = OPERATIONS * k + 4;
    Ok(format!(in alloc; "{store}: A{k}; ")?)
}

// The number of the operation that stores the next accumulator.
#[tactic(auto, unfolding(crate::specs::NetText::store_number))]
fn store_number(alloc: Global, k: u64) -> Result<String, NoMemory>
    requires { k < MOST }
    ensures { IfOk result (λ number. string_bytes number ≡ store_number k) }
{
    let store = OPERATIONS * (k + 1) + 4;
    Ok(format!(in alloc; ", {store}")?)
}

fn put_registers(alloc: Global, out: &mut Vec<u8>, count: u64) -> Result<(), NoMemory>
    requires { count ≤ MOST }
    ensures { OnOk result (out.new.items ≡ out.old.items ++ each register_line count) }
{
    for k in 0..count {
        out.extend_from_slice(register_line(alloc, k)?.as_bytes())?;
    }
    Ok(())
}

fn put_store_rows(alloc: Global, out: &mut Vec<u8>, count: u64) -> Result<(), NoMemory>
    requires { count ≤ MOST }
    ensures { OnOk result (out.new.items ≡ out.old.items ++ each store_row count) }
{
    for k in 0..count {
        out.extend_from_slice(store_row(alloc, k)?.as_bytes())?;
    }
    Ok(())
}

fn put_store_numbers(alloc: Global, out: &mut Vec<u8>, count: u64) -> Result<(), NoMemory>
    requires { count ≤ MOST }
    ensures { OnOk result (out.new.items ≡ out.old.items ++ each store_number count) }
{
    for k in 0..count {
        out.extend_from_slice(store_number(alloc, k)?.as_bytes())?;
    }
    Ok(())
}

// The line of the memory, for so many accumulators behind the first.
fn put_memory(alloc: Global, out: &mut Vec<u8>, more: u64) -> Result<(), NoMemory>
    requires { more < MOST }
    ensures { OnOk result (out.new.items ≡ out.old.items ++ memory_line more) }
{
    out.extend_from_slice(b"memory M : 16 size 4096 addr 16 write case op { ")?;
    put_store_rows(alloc, out, more + 1)?;
    out.extend_from_slice(b"else: A0; } at f when case op { 4")?;
    put_store_numbers(alloc, out, more)?;
    out.extend_from_slice(b": 1#1; else: 0#1; };\n")?;
    Ok(())
}

/// The text of the netlist of a number from 1 to 1,000: a processor with one to four accumulators.
#[tactic(auto, unfolding(crate::specs::NetText::net_text))]
pub fn netlist(alloc: Global, number: u64) -> Result<Vec<u8>, NoMemory>
    ensures text { IfOk result (λ text. text.items ≡ net_text number) }
    ensures short { IfOk result (λ text. length text.items < 2 ^ 32) }
{
    let more = number % MOST;
    let mut text = Vec::from_slice(alloc, HEAD)?;
    put_registers(alloc, &mut text, more + 1)?;
    put_memory(alloc, &mut text, more)?;
    Ok(text)
}

//! What the expressions of a pool read.

ghost use Rattle.std.specs.Prelude.{◌≡◌, ◌<◌, length, IfOk};
ghost use Rattle.net_model.specs.Occurs.{has_read};
ghost use Rattle.sym_expr.specs.Pools.{expr_of_id};
ghost use Rattle.compaction.specs.Tables.{AreReaders, AreTables};

use form_model::RegSet;
use live_sets::{flag_at, reads_table};
use rec_bits::{Items, NoMemory};
use std::alloc::Global;
use sym_expr::{ExprId, Node, Pool};

/// What each expression of a pool reads, by its id: the registers below 16, and whether the memory
/// or the file.
#[derive(Drop)]
pub struct Tables {
    pub registers: Items<RegSet>,
    pub memory: Items<bool>,
}

// Whether an expression reads the memory or the file, from whether its parts do.
fn node_reads_memory(pool: &Pool, flags: &[bool], id: ExprId) -> bool
    requires within { id < length pool.now }
    requires long { length flags.now ≡ id }
    requires readers { AreReaders pool.now flags.now }
    ensures { result ≡ has_read (expr_of_id pool.now id) }
{
    match pool.node(id) {
        Node::Word(_) | Node::Const { .. } | Node::Reg(..) => false,
        Node::Read(..) | Node::Cell(..) => true,
        Node::Un(_, a) | Node::Slice(a, ..) | Node::Zext(a, _) | Node::Sext(a, _) => {
            flag_at(flags, a)
        }
        Node::Bin(_, a, b) | Node::Cat(a, b) => flag_at(flags, a) || flag_at(flags, b),
        Node::Select(c, a, b) => { flag_at(flags, c) || (flag_at(flags, a) || flag_at(flags, b)) }
    }
}

// For each expression of a pool whether it reads the memory or the file.
fn memory_table(alloc: Global, pool: &Pool) -> Result<Items<bool>, NoMemory>
    ensures long { IfOk result (λ flags. length flags ≡ length pool.now) }
    ensures readers { IfOk result (λ flags. AreReaders pool.now flags) }
{
    let mut flags = Items::new(alloc);
    for id in 0..pool.len() {
        let flag = node_reads_memory(pool, flags.as_slice(), id);
        flags.push(flag)?;
    }
    Ok(flags)
}

/// What the expressions of a pool read, which a `KnownMachine` is lent for all blocks. Want of
/// memory is the only refusal.
pub fn tables_of(alloc: Global, pool: &Pool) -> Result<Tables, NoMemory>
    ensures { IfOk result (λ tables. AreTables pool.now tables.registers tables.memory) }
{
    let registers = reads_table(alloc, pool)?;
    let memory = memory_table(alloc, pool)?;
    Ok(Tables { registers, memory })
}

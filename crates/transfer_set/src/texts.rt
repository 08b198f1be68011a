//! The texts of expressions and transfers, from ids of a pool.

ghost use Rattle.std.specs.Prelude.{◌≡◌, ◌<◌, ◌∷◌, [], ◌++◌, codes, length, IfOk, OnOk};
ghost use Rattle.std.specs.Fmt.{decimal};
ghost use Rattle.std.specs.List.{concat};
ghost use Rattle.net_model.specs.Texts.{first_name, space_name, text_of_transfer, name_of, op1_text, op2_text, expr_text};
ghost use Rattle.sym_expr.specs.Pools.{expr_of_id};
ghost use Rattle.transfer_set.specs.Entries.{IsAddrKnown, ids_transfer};

use itoa::Buffer;
use net_model::{Checked, Space};
use rec_bits::{NoMemory, Op1, Op2};
use std::alloc::Global;
use sym_expr::{ExprId, Node, Pool};

// The name of the storage of this number, of which there is none past the last.
fn storage_name(checked: &Checked, id: u32) -> &[u8]
    ensures { result.now ≡ name_of checked.now.netlist id }
{
    match checked.netlist().storage(id) {
        Some(storage) => storage.name(),
        None => &[],
    }
}

// The name of the instruction word.
fn word_name(checked: &Checked) -> &[u8]
    ensures { result.now ≡ first_name checked.now.netlist.codes }
{
    match checked.netlist().codes.get(0) {
        Some(code) => code.name.as_slice(),
        None => &[],
    }
}

/// The word of an operator of one operand.
pub fn word_of_one(op: Op1) -> &'static str
    ensures { result.now ≡ op1_text op }
{
    match op {
        Op1::Not => "not",
        Op1::Neg => "neg",
    }
}

/// The word of an operator of two operands.
pub fn word_of_two(op: Op2) -> &'static str
    ensures { result.now ≡ op2_text op }
{
    match op {
        Op2::Add => "add",
        Op2::Sub => "sub",
        Op2::Mul => "mul",
        Op2::And => "and",
        Op2::Or => "or",
        Op2::Xor => "xor",
        Op2::Shl => "shl",
        Op2::Shr => "shr",
        Op2::Sar => "sar",
        Op2::Eq => "eq",
        Op2::Ltu => "ltu",
        Op2::Lts => "lts",
    }
}

/// Adds bytes as they stand. The only error is want of memory, here and in the following.
pub fn add_bytes(text: &mut Vec<u8>, bytes: &[u8]) -> Result<(), NoMemory>
    ensures { OnOk result (text.new.items ≡ text.old.items ++ bytes.now) }
{
    text.extend_from_slice(bytes)?;
    Ok(())
}

/// Adds a number in decimal digits.
pub fn add_number(text: &mut Vec<u8>, number: u64) -> Result<(), NoMemory>
    ensures { OnOk result (text.new.items ≡ text.old.items ++ decimal number) }
{
    let mut buffer = Buffer::new();
    text.extend_from_slice(buffer.format(number).as_bytes())?;
    Ok(())
}

/// Adds a constant with its width: `VALUE#WIDTH`.
pub fn add_constant(text: &mut Vec<u8>, value: u64, width: u8) -> Result<(), NoMemory>
    ensures { OnOk result (text.new.items ≡ text.old.items ++ concat (decimal value ∷ codes "#" ∷ decimal width ∷ [])) }
{
    add_number(text, value)?;
    add_bytes(text, b"#")?;
    add_number(text, u64::from(width))
}

// A number as an operand behind others.
fn add_more(text: &mut Vec<u8>, number: u8) -> Result<(), NoMemory>
    ensures { OnOk result (text.new.items ≡ text.old.items ++ concat (codes "," ∷ decimal number ∷ [])) }
{
    add_bytes(text, b",")?;
    add_number(text, u64::from(number))
}

/// Adds a number as the last operand, and the end: `,NUMBER)`.
pub fn add_last(text: &mut Vec<u8>, number: u8) -> Result<(), NoMemory>
    ensures { OnOk result (text.new.items ≡ text.old.items ++ concat (codes "," ∷ decimal number ∷ codes ")" ∷ [])) }
{
    add_more(text, number)?;
    add_bytes(text, b")")
}

/// Adds the bounds of a slice as the last operands, and the end: `,HI,LO)`.
pub fn add_bounds(text: &mut Vec<u8>, hi: u8, lo: u8) -> Result<(), NoMemory>
    ensures { OnOk result (text.new.items ≡ text.old.items
        ++ concat (codes "," ∷ decimal hi ∷ codes "," ∷ decimal lo ∷ codes ")" ∷ [])) }
{
    add_more(text, hi)?;
    add_last(text, lo)
}

// `read(MEMORY`, and so for a file.
fn add_memory(text: &mut Vec<u8>, checked: &Checked, space: Space) -> Result<(), NoMemory>
    ensures { OnOk result (text.new.items
        ≡ text.old.items ++ concat (codes "read(" ∷ space_name checked.now.netlist space ∷ [])) }
{
    add_bytes(text, b"read(")?;
    add_bytes(text, checked.name(space))
}

// `WORD(A`.
#[cycle(term)]
fn add_first(
    text: &mut Vec<u8>,
    checked: &Checked,
    pool: &Pool,
    word: &[u8],
    a: ExprId,
) -> Result<(), NoMemory>
    requires { a < length pool.now }
    ensures { OnOk result (text.new.items ≡ text.old.items
        ++ concat (word.now ∷ codes "(" ∷ expr_text checked.now.netlist (expr_of_id pool.now a) ∷ [])) }
{
    add_bytes(text, word)?;
    add_bytes(text, b"(")?;
    add_term(text, checked, pool, a)
}

// An expression as an operand behind others.
#[cycle(term)]
fn add_next(text: &mut Vec<u8>, checked: &Checked, pool: &Pool, b: ExprId) -> Result<(), NoMemory>
    requires { b < length pool.now }
    ensures { OnOk result (text.new.items ≡ text.old.items
        ++ concat (codes "," ∷ expr_text checked.now.netlist (expr_of_id pool.now b) ∷ [])) }
{
    add_bytes(text, b",")?;
    add_term(text, checked, pool, b)
}

// `read(MEMORY,ADDRESS)`, and so for a file.
#[cycle(term)]
fn add_read(
    text: &mut Vec<u8>,
    checked: &Checked,
    pool: &Pool,
    space: Space,
    addr: ExprId,
) -> Result<(), NoMemory>
    requires { addr < length pool.now }
    ensures { OnOk result (text.new.items ≡ text.old.items ++ concat
        (codes "read(" ∷ space_name checked.now.netlist space ∷ codes ","
        ∷ expr_text checked.now.netlist (expr_of_id pool.now addr) ∷ codes ")" ∷ [])) }
{
    add_memory(text, checked, space)?;
    add_next(text, checked, pool, addr)?;
    add_bytes(text, b")")
}

// `WORD(A)`.
#[cycle(term)]
fn add_one(
    text: &mut Vec<u8>,
    checked: &Checked,
    pool: &Pool,
    word: &[u8],
    a: ExprId,
) -> Result<(), NoMemory>
    requires { a < length pool.now }
    ensures { OnOk result (text.new.items ≡ text.old.items
        ++ concat (word.now ∷ codes "(" ∷ expr_text checked.now.netlist (expr_of_id pool.now a) ∷ codes ")" ∷ [])) }
{
    add_first(text, checked, pool, word, a)?;
    add_bytes(text, b")")
}

// `WORD(A,B)`.
#[cycle(term)]
fn add_two(
    text: &mut Vec<u8>,
    checked: &Checked,
    pool: &Pool,
    word: &[u8],
    a: ExprId,
    b: ExprId,
) -> Result<(), NoMemory>
    requires a { a < length pool.now }
    requires b { b < length pool.now }
    ensures { OnOk result (text.new.items ≡ text.old.items
        ++ concat (word.now ∷ codes "(" ∷ expr_text checked.now.netlist (expr_of_id pool.now a) ∷ codes ","
        ∷ expr_text checked.now.netlist (expr_of_id pool.now b) ∷ codes ")" ∷ [])) }
{
    add_first(text, checked, pool, word, a)?;
    add_next(text, checked, pool, b)?;
    add_bytes(text, b")")
}

// `slice(A,HI,LO)`.
#[cycle(term)]
fn add_slice(
    text: &mut Vec<u8>,
    checked: &Checked,
    pool: &Pool,
    a: ExprId,
    hi: u8,
    lo: u8,
) -> Result<(), NoMemory>
    requires { a < length pool.now }
    ensures { OnOk result (text.new.items ≡ text.old.items ++ concat
        (codes "slice(" ∷ expr_text checked.now.netlist (expr_of_id pool.now a) ∷ codes ","
        ∷ decimal hi ∷ codes "," ∷ decimal lo ∷ codes ")" ∷ [])) }
{
    add_first(text, checked, pool, b"slice", a)?;
    add_bounds(text, hi, lo)
}

// `WORD(A,WIDTH)`.
#[cycle(term)]
fn add_extension(
    text: &mut Vec<u8>,
    checked: &Checked,
    pool: &Pool,
    word: &[u8],
    a: ExprId,
    width: u8,
) -> Result<(), NoMemory>
    requires { a < length pool.now }
    ensures { OnOk result (text.new.items ≡ text.old.items ++ concat
        (word.now ∷ codes "(" ∷ expr_text checked.now.netlist (expr_of_id pool.now a) ∷ codes ","
        ∷ decimal width ∷ codes ")" ∷ [])) }
{
    add_first(text, checked, pool, word, a)?;
    add_last(text, width)
}

// `select(C,A,B)`.
#[cycle(term)]
fn add_select(
    text: &mut Vec<u8>,
    checked: &Checked,
    pool: &Pool,
    c: ExprId,
    a: ExprId,
    b: ExprId,
) -> Result<(), NoMemory>
    requires c { c < length pool.now }
    requires a { a < length pool.now }
    requires b { b < length pool.now }
    ensures { OnOk result (text.new.items ≡ text.old.items ++ concat
        (codes "select(" ∷ expr_text checked.now.netlist (expr_of_id pool.now c) ∷ codes ","
        ∷ expr_text checked.now.netlist (expr_of_id pool.now a) ∷ codes ","
        ∷ expr_text checked.now.netlist (expr_of_id pool.now b) ∷ codes ")" ∷ [])) }
{
    add_first(text, checked, pool, b"select", c)?;
    add_next(text, checked, pool, a)?;
    add_next(text, checked, pool, b)?;
    add_bytes(text, b")")
}

// The text of an expression.
#[cycle(term)]
fn add_term(
    text: &mut Vec<u8>,
    checked: &Checked,
    pool: &Pool,
    expr: ExprId,
) -> Result<(), NoMemory>
    requires { expr < length pool.now }
    ensures { OnOk result (text.new.items ≡ text.old.items ++ expr_text checked.now.netlist (expr_of_id pool.now expr)) }
{
    match pool.node(expr) {
        Node::Word(_) => add_bytes(text, word_name(checked)),
        Node::Reg(id, _) => add_bytes(text, storage_name(checked, id)),
        Node::Const { width, value } => add_constant(text, value, width),
        Node::Read(addr, _) => add_read(text, checked, pool, Space::Memory, addr),
        Node::Cell(addr, _) => add_read(text, checked, pool, Space::File, addr),
        Node::Un(op, a) => add_one(text, checked, pool, word_of_one(op).as_bytes(), a),
        Node::Bin(op, a, b) => add_two(text, checked, pool, word_of_two(op).as_bytes(), a, b),
        Node::Slice(a, hi, lo) => add_slice(text, checked, pool, a, hi, lo),
        Node::Cat(a, b) => add_two(text, checked, pool, b"cat", a, b),
        Node::Zext(a, width) => add_extension(text, checked, pool, b"zext", a, width),
        Node::Sext(a, width) => add_extension(text, checked, pool, b"sext", a, width),
        Node::Select(c, a, b) => add_select(text, checked, pool, c, a, b),
    }
}

// `[ADDRESS]`.
fn add_place(
    text: &mut Vec<u8>,
    checked: &Checked,
    pool: &Pool,
    addr: ExprId,
) -> Result<(), NoMemory>
    requires { addr < length pool.now }
    ensures { OnOk result (text.new.items ≡ text.old.items
        ++ concat (codes "[" ∷ expr_text checked.now.netlist (expr_of_id pool.now addr) ∷ codes "]" ∷ [])) }
{
    add_bytes(text, b"[")?;
    add_term(text, checked, pool, addr)?;
    add_bytes(text, b"]")
}

// A transfer of a storage.
fn add_transfer(
    text: &mut Vec<u8>,
    checked: &Checked,
    pool: &Pool,
    storage: u32,
    addr: Option<ExprId>,
    value: ExprId,
) -> Result<(), NoMemory>
    requires addr { IsAddrKnown (length pool.now) addr }
    requires value { value < length pool.now }
    ensures { OnOk result (text.new.items
        ≡ text.old.items ++ text_of_transfer checked.now.netlist storage (ids_transfer pool.now addr value)) }
{
    add_bytes(text, storage_name(checked, storage))?;
    if let Some(addr) = addr {
        add_place(text, checked, pool, addr)?;
    }
    add_bytes(text, b" := ")?;
    add_term(text, checked, pool, value)
}

/// The text of a transfer of a storage: of the memory or the register file where there is an
/// address, and otherwise of a register.
pub(crate) fn transfer_text(
    alloc: Global,
    checked: &Checked,
    pool: &Pool,
    storage: u32,
    addr: Option<ExprId>,
    value: ExprId,
) -> Result<Vec<u8>, NoMemory>
    requires addr { IsAddrKnown (length pool.now) addr }
    requires value { value < length pool.now }
    ensures { IfOk result (λ text. text.items ≡ text_of_transfer checked.now.netlist storage (ids_transfer pool.now addr value)) }
{
    let mut text = Vec::new(alloc);
    add_transfer(&mut text, checked, pool, storage, addr, value)?;
    Ok(text)
}

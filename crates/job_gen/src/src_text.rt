//! The program of a number.

ghost use Rattle.std.specs.Prelude.{◌≡◌, ◌+◌, ◌*◌, ◌/◌, ◌%◌, ◌++◌, ◌<◌, ◌≤◌, ◌^◌, IfOk, OnOk, length, string_bytes};
ghost use Rattle.job_gen.specs.SrcText.{sign, src_text, statement_line, statements};

use rec_bits::NoMemory;
use std::alloc::Global;

// The variables, their first values, and the loop.
const HEAD: &[u8] = b"var v0, v1, v2, v3, v4, v5, v6, v7, i;
v0 = 1;
v1 = 2;
v2 = 3;
v3 = 4;
v4 = 5;
v5 = 6;
v6 = 7;
v7 = 8;
for i = 0 to 9 {
";

// The next number is so many times the last, and so much more, up to multiples of the modulus.
const FACTOR: u64 = 25173;

const INCREMENT: u64 = 13849;

const MODULUS: u64 = 65536;

// How many variables the statements use.
const VARIABLES: u64 = 8;

// The number behind x.
fn next_number(x: u64) -> u64
    requires { x < MODULUS }
    ensures { result ≡ (25173 * x + 13849) % 65536 }
{
    (FACTOR * x + INCREMENT) % MODULUS
}

// The operator of the statement that is read off x.
fn sign(x: u64) -> &'static str
    ensures { result.now ≡ sign x }
{
    if x / 8192 % 2 == 1 { "-" } else { "+" }
}

// The statement that is read off x.
#[tactic(auto, unfolding(crate::specs::SrcText::statement_line))]
fn statement_line(alloc: Global, x: u64) -> Result<String, NoMemory>
    ensures { IfOk result (λ line. string_bytes line ≡ statement_line x) }
{
    let to = x / 16 % VARIABLES;
    let left = x / 128 % VARIABLES;
    let right = x / 1024 % VARIABLES;
    let sign = sign(x);
    Ok(format!(in alloc; "v{to} = v{left} {sign} v{right};\n")?)
}

// As many statements as the number tells, each read off a number of its own.
fn put_statements(alloc: Global, out: &mut Vec<u8>, number: u64) -> Result<(), NoMemory>
    requires { number < MODULUS }
    ensures { OnOk result (out.new.items ≡ out.old.items ++ statements number number) }
{
    let mut x = number;
    for _ in 0..number {
        x = next_number(x);
        out.extend_from_slice(statement_line(alloc, x)?.as_bytes())?;
    }
    Ok(())
}

/// The text of the program of a number from 1 to 1,000: a loop round so many sums and differences.
#[tactic(auto, unfolding(crate::specs::SrcText::src_text))]
pub fn program(alloc: Global, number: u64) -> Result<Vec<u8>, NoMemory>
    requires { number ≤ 1000 }
    ensures text { IfOk result (λ text. text.items ≡ src_text number) }
    ensures short { IfOk result (λ text. length text.items < 2 ^ 32) }
{
    let mut text = Vec::from_slice(alloc, HEAD)?;
    put_statements(alloc, &mut text, number)?;
    text.extend_from_slice(b"}\n")?;
    Ok(text)
}

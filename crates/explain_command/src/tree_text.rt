//! The text of a tree, as the patterns of a netlist are written.

ghost use Rattle.std.specs.Prelude.{◌≡◌, ◌++◌, ◌∷◌, [], OnOk, codes};
ghost use Rattle.std.specs.Fmt.{decimal};
ghost use Rattle.std.specs.List.{concat};
ghost use Rattle.net_model.specs.Texts.{memory_name, expr_text};
ghost use Rattle.form_model.specs.Trees.{model_of_tree};

use form_model::Tree;
use net_model::Checked;
use rec_bits::NoMemory;
use transfer_set::{add_bounds, add_bytes, add_constant, add_last, word_of_one, word_of_two};

// `read(MEMORY`.
fn add_memory(text: &mut Vec<u8>, checked: &Checked) -> Result<(), NoMemory>
    ensures { OnOk result (text.new.items
        ≡ text.old.items ++ concat (codes "read(" ∷ memory_name checked.now.netlist ∷ [])) }
{
    add_bytes(text, b"read(")?;
    add_bytes(text, checked.memory_name())
}

// `WORD(A`.
#[cycle(tree)]
fn add_first(text: &mut Vec<u8>, checked: &Checked, word: &[u8], a: &Tree) -> Result<(), NoMemory>
    ensures { OnOk result (text.new.items ≡ text.old.items
        ++ concat (word.now ∷ codes "(" ∷ expr_text checked.now.netlist (model_of_tree a.now) ∷ [])) }
{
    add_bytes(text, word)?;
    add_bytes(text, b"(")?;
    add_tree(text, checked, a)
}

// A tree as an operand behind others.
#[cycle(tree)]
fn add_next(text: &mut Vec<u8>, checked: &Checked, b: &Tree) -> Result<(), NoMemory>
    ensures { OnOk result (text.new.items ≡ text.old.items
        ++ concat (codes "," ∷ expr_text checked.now.netlist (model_of_tree b.now) ∷ [])) }
{
    add_bytes(text, b",")?;
    add_tree(text, checked, b)
}

// `read(MEMORY,ADDRESS)`.
#[cycle(tree)]
fn add_read(text: &mut Vec<u8>, checked: &Checked, addr: &Tree) -> Result<(), NoMemory>
    ensures { OnOk result (text.new.items ≡ text.old.items ++ concat
        (codes "read(" ∷ memory_name checked.now.netlist ∷ codes ","
        ∷ expr_text checked.now.netlist (model_of_tree addr.now) ∷ codes ")" ∷ [])) }
{
    add_memory(text, checked)?;
    add_next(text, checked, addr)?;
    add_bytes(text, b")")
}

// `WORD(A)`.
#[cycle(tree)]
fn add_one(text: &mut Vec<u8>, checked: &Checked, word: &[u8], a: &Tree) -> Result<(), NoMemory>
    ensures { OnOk result (text.new.items ≡ text.old.items
        ++ concat (word.now ∷ codes "(" ∷ expr_text checked.now.netlist (model_of_tree a.now) ∷ codes ")" ∷ [])) }
{
    add_first(text, checked, word, a)?;
    add_bytes(text, b")")
}

// `WORD(A,B)`.
#[cycle(tree)]
fn add_two(
    text: &mut Vec<u8>,
    checked: &Checked,
    word: &[u8],
    a: &Tree,
    b: &Tree,
) -> Result<(), NoMemory>
    ensures { OnOk result (text.new.items ≡ text.old.items
        ++ concat (word.now ∷ codes "(" ∷ expr_text checked.now.netlist (model_of_tree a.now) ∷ codes ","
        ∷ expr_text checked.now.netlist (model_of_tree b.now) ∷ codes ")" ∷ [])) }
{
    add_first(text, checked, word, a)?;
    add_next(text, checked, b)?;
    add_bytes(text, b")")
}

// `slice(A,HI,LO)`.
#[cycle(tree)]
fn add_slice(
    text: &mut Vec<u8>,
    checked: &Checked,
    a: &Tree,
    hi: u8,
    lo: u8,
) -> Result<(), NoMemory>
    ensures { OnOk result (text.new.items ≡ text.old.items ++ concat
        (codes "slice(" ∷ expr_text checked.now.netlist (model_of_tree a.now) ∷ codes ","
        ∷ decimal hi ∷ codes "," ∷ decimal lo ∷ codes ")" ∷ [])) }
{
    add_first(text, checked, b"slice", a)?;
    add_bounds(text, hi, lo)
}

// `WORD(A,WIDTH)`.
#[cycle(tree)]
fn add_extension(
    text: &mut Vec<u8>,
    checked: &Checked,
    word: &[u8],
    a: &Tree,
    width: u8,
) -> Result<(), NoMemory>
    ensures { OnOk result (text.new.items ≡ text.old.items ++ concat
        (word.now ∷ codes "(" ∷ expr_text checked.now.netlist (model_of_tree a.now) ∷ codes ","
        ∷ decimal width ∷ codes ")" ∷ [])) }
{
    add_first(text, checked, word, a)?;
    add_last(text, width)
}

/// The text of a tree.
#[cycle(tree)]
pub(crate) fn add_tree(text: &mut Vec<u8>, checked: &Checked, tree: &Tree) -> Result<(), NoMemory>
    ensures { OnOk result (text.new.items ≡ text.old.items ++ expr_text checked.now.netlist (model_of_tree tree.now)) }
{
    match tree {
        Tree::Lit { width, value } => add_constant(text, *value, *width),
        Tree::Read(addr, _) => add_read(text, checked, addr),
        Tree::Un(op, a) => add_one(text, checked, word_of_one(*op).as_bytes(), a),
        Tree::Bin(op, a, b) => add_two(text, checked, word_of_two(*op).as_bytes(), a, b),
        Tree::Slice(a, hi, lo) => add_slice(text, checked, a, *hi, *lo),
        Tree::Zext(a, width) => add_extension(text, checked, b"zext", a, *width),
        Tree::Sext(a, width) => add_extension(text, checked, b"sext", a, *width),
    }
}

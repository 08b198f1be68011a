//! What a step writes.

ghost use Rattle.std.specs.Prelude.{◌≡◌, ◌==◌, List, slice_get};
ghost use Rattle.form_model.specs.Effects.{is_store, same_space as same_space_of, space_in as space_in_of, writes};
ghost use Rattle.form_model.specs.Live.{group_writes};
ghost use Rattle.sym_expr.specs.declared.pool.Node.{Node};
ghost use Rattle.word_fit.specs.Fits.{group_stores, stores_in as stores_in_of};
ghost use Rattle.word_fit.specs.Steps.{step_operation};
ghost use Rattle.word_fit.specs.Writing.{operation_written, row_written};

use form_model::Step;
use net_model::Space;
use transfer_set::Patterns;

/// What a step writes.
#[derive(Clone, Copy, PartialEq, Eq)]
pub enum Written {
    /// The register of this number.
    Register(u32),
    /// A cell of the data memory or of the register file.
    Cells(Space),
    /// Nothing: the step's pattern isn't one of the table.
    Nothing,
}

/// The cells that a write of cells by the storage of this number is of.
pub fn space_in(patterns: &Patterns, storage: u32) -> Space
    ensures { result ≡ space_in_of patterns.now.file storage }
{
    match patterns.file() {
        None => Space::Memory,
        Some(file) => {
            if file == storage {
                Space::File
            } else {
                Space::Memory
            }
        }
    }
}

// What the row of a pattern writes.
fn row_written(patterns: &Patterns, pattern: u32) -> Written
    ensures { result ≡ row_written patterns.now.file (slice_get patterns.now.rows pattern) }
{
    match patterns.storage_of(pattern) {
        None => Written::Nothing,
        Some(storage) => match patterns.expr_of(pattern) {
            None => Written::Nothing,
            Some((None, _)) => Written::Register(storage),
            Some((Some(_), _)) => Written::Cells(space_in(patterns, storage)),
        },
    }
}

/// The register that a step writes, or the memory or the file.
pub fn written_by(patterns: &Patterns, step: Step) -> Written
    ensures { (pool : List Node) → result ≡ operation_written (step_operation pool patterns.now step) }
{
    row_written(patterns, step.pattern)
}

/// Whether two spaces are one.
pub fn same_space(a: Space, b: Space) -> bool
    ensures { result ≡ same_space_of a b }
{
    match (a, b) {
        (Space::Memory, Space::Memory) | (Space::File, Space::File) => true,
        _ => false,
    }
}

/// Whether a step writes cells of the data memory, or of the register file.
pub fn stores_in(patterns: &Patterns, space: Space, step: Step) -> bool
    ensures { (pool : List Node) → result ≡ stores_in_of space (step_operation pool patterns.now step) }
{
    match written_by(patterns, step) {
        Written::Cells(own) => same_space(own, space),
        _ => false,
    }
}

/// Whether a step writes cells, of either.
pub fn stores_cells(patterns: &Patterns, step: Step) -> bool
    ensures { (pool : List Node) → result ≡ is_store (step_operation pool patterns.now step).move }
{
    match written_by(patterns, step) {
        Written::Cells(_) => true,
        _ => false,
    }
}

/// Whether a step writes the register of this number.
pub fn writes_register(patterns: &Patterns, step: Step, register: u32) -> bool
    ensures { (pool : List Node) → result ≡ writes (step_operation pool patterns.now step) register }
{
    written_by(patterns, step) == Written::Register(register)
}

/// Whether a step of the group writes cells of the data memory, or of the register file.
pub fn stores(patterns: &Patterns, space: Space, group: &[Step]) -> bool
    ensures { (pool : List Node) → result ≡ group_stores space (step_operation pool patterns.now) group.now }
{
    match group {
        [] => false,
        [step, rest @ ..] => stores_in(patterns, space, *step) || stores(patterns, space, rest),
    }
}

/// Whether a step of the group writes the register of this number.
pub fn writes(patterns: &Patterns, group: &[Step], register: u32) -> bool
    ensures { (pool : List Node) → result ≡ group_writes (step_operation pool patterns.now) group.now register }
{
    match group {
        [] => false,
        [step, rest @ ..] => {
            writes_register(patterns, *step, register) || writes(patterns, rest, register)
        }
    }
}

//! The text of a summary.

ghost use Rattle.std.specs.Prelude.{◌≡◌, ◌++◌, IfOk, OnOk, codes, slice_index, string_bytes};
ghost use Rattle.std.specs.List.{flat_map};
ghost use Rattle.make_command.specs.Summary.{summary_head, summary_text, variable_line};

use code_model::Place;
use cycle_sim::ModeSim;
use itoa::Buffer;
use rec_bits::NoMemory;
use std::alloc::Global;

// The lines of the number, of the image's words, of the clocks and of the program's checkpoints.
pub(crate) fn head_lines(
    alloc: Global,
    number: u32,
    words: usize,
    cycles: u32,
    checkpoints: u32,
) -> Result<String, NoMemory>
    ensures { IfOk result (λ lines. string_bytes lines ≡ summary_head number words cycles checkpoints) }
{
    Ok(format!(in alloc;
        "make {number}\nwords {words}\ncycles {cycles}\ncheckpoints {checkpoints}\n"
    )?)
}

// What the memory holds at a place.
fn value_at(sim: &ModeSim<'_>, place: &Place) -> u64
    ensures { result ≡ slice_index sim.now.state.cells place.now.address }
{
    sim.cell(place.address).unwrap_or(0)
}

// The line of a variable: its name, and what the memory holds at its place.
#[tactic(auto, unfolding(crate::specs::Summary::variable_line))]
fn put_variable(out: &mut Vec<u8>, place: &Place, sim: &ModeSim<'_>) -> Result<(), NoMemory>
    ensures { OnOk result (out.new.items ≡ out.old.items ++ variable_line sim.now.state.cells place.now) }
{
    let value = value_at(sim, place);
    let mut buffer = Buffer::new();
    out.extend_from_slice(place.name.as_slice())?;
    out.extend_from_slice(b"=")?;
    out.extend_from_slice(buffer.format(value).as_bytes())?;
    out.extend_from_slice(b"\n")?;
    Ok(())
}

fn put_variables(out: &mut Vec<u8>, places: &[Place], sim: &ModeSim<'_>) -> Result<(), NoMemory>
    ensures { OnOk result (out.new.items ≡ out.old.items ++ flat_map (variable_line sim.now.state.cells) places.now) }
{
    for place in places {
        put_variable(out, place, sim)?;
    }
    Ok(())
}

// The head of a summary, the variables at these places, and the end.
pub(crate) fn summary(
    head: String,
    places: &[Place],
    sim: &ModeSim<'_>,
) -> Result<Vec<u8>, NoMemory>
    ensures { IfOk result (λ text.
        text.items ≡ string_bytes head ++ (flat_map (variable_line sim.now.state.cells) places.now ++ codes "done\n")) }
{
    let mut text = head.into_bytes();
    put_variables(&mut text, places, sim)?;
    text.extend_from_slice(b"done\n")?;
    Ok(text)
}

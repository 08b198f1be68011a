//! Clocks, and what is seen between them.

ghost use Rattle.std.specs.Prelude.{◌≡◌, OnOk, IfOk};
ghost use Rattle.net_model.specs.Clock.{clock, Next};
ghost use Rattle.net_model.specs.Widths.{IsState};
ghost use Rattle.code_model.specs.Machine.{label_in, mtrace, store_in};
ghost use Rattle.code_model.specs.Places.{words_of};
ghost use Rattle.checkpoint_watch.specs.Puts.{Puts};
ghost use Rattle.checkpoint_watch.specs.Inner.Scenes.{IsScene};
ghost use Rattle.checkpoint_watch.specs.Inner.Traces.{IsNext, IsShown, ends_at, line_at, store_after_line, trace_ends, trace_lines};

use crate::line::SeenCheckpoint;
use crate::marks::label_at;
use crate::writer::LineWriter;
use code_model::Image;
use cycle_sim::{Clocked, ModeSim};
use rec_io::{Sink, WriteFault};
use src_model::Checkpoint;

// One clock, which doesn't clash.
fn step(sim: &mut ModeSim<'_>)
    requires { IsNext (clock sim.old.netlist sim.old.words sim.old.state) }
    ensures netlist { sim.new.netlist ≡ sim.old.netlist }
    ensures words { sim.new.words ≡ sim.old.words }
    ensures clocked { clock sim.old.netlist sim.old.words sim.old.state ≡ Next sim.new.state }
    ensures state { IsState sim.new.netlist sim.new.state }
{
    match sim.clock() {
        Clocked::Stepped => {}
        Clocked::Clash(_) => unreachable!(),
    }
}

// Looks at the simulator's state: puts its line where it stands at a mark, and tells whether that
// is the end.
fn look<S: Sink>(
    image: &Image,
    sim: &ModeSim<'_>,
    writer: &mut LineWriter<'_>,
    cycle: u32,
    sink: &mut S,
) -> Result<bool, WriteFault>
    requires scene { IsScene sim.now.netlist image.now writer.old.vars.now writer.old.address }
    requires state { IsState sim.now.netlist sim.now.state }
    ensures puts { Puts (S.state sink.old) (S.state sink.new)
        (line_at writer.old.vars.now writer.old.last_cells
        (label_in sim.now.netlist image.now sim.now.state) cycle (store_in image.now sim.now.state)) result }
    ensures last_cells { OnOk result (writer.new.last_cells
        ≡ store_after_line (label_in sim.now.netlist image.now sim.now.state) writer.old.last_cells
        (store_in image.now sim.now.state)) }
    ensures ended { IfOk result (λ ended. ended ≡ ends_at (label_in sim.now.netlist image.now sim.now.state)) }
    ensures vars { writer.new.vars.now ≡ writer.old.vars.now }
    ensures address { writer.new.address ≡ writer.old.address }
{
    match label_at(image.marks.as_slice(), sim.pc()) {
        None => Ok(false),
        Some(label) => {
            let seen = SeenCheckpoint { cycle, label };
            writer.write(seen, sim.now(), sink)?;
            Ok(label == Checkpoint::End)
        }
    }
}

/// Puts the lines of the states after 0, 1, and so on clocks, up to the end mark or so many clocks,
/// and tells whether the end mark was seen.
pub(crate) fn write_lines<S: Sink>(
    image: &Image,
    sim: &mut ModeSim<'_>,
    writer: &mut LineWriter<'_>,
    clocks: u32,
    sink: &mut S,
) -> Result<bool, WriteFault>
    requires scene { IsScene sim.old.netlist image.now writer.old.vars.now writer.old.address }
    requires state { IsState sim.old.netlist sim.old.state }
    requires words { sim.old.words ≡ words_of image.now }
    requires shown { IsShown (mtrace sim.old.netlist image.now sim.old.state 0 clocks) }
    ensures puts { Puts (S.state sink.old) (S.state sink.new)
        (trace_lines writer.old.vars.now writer.old.last_cells
        (mtrace sim.old.netlist image.now sim.old.state 0 clocks)) result }
    ensures ended { IfOk result (λ ended.
        ended ≡ trace_ends (mtrace sim.old.netlist image.now sim.old.state 0 clocks)) }
{
    for cycle in 0..clocks {
        if look(image, sim, writer, cycle, sink)? {
            return Ok(true);
        }
        step(sim);
    }
    let ended = look(image, sim, writer, clocks, sink)?;
    Ok(ended)
}

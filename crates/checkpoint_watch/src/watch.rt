//! Watching a program.

ghost use Rattle.std.specs.Prelude.{◌≡◌, IfOk};
ghost use Rattle.net_model.specs.declared.hardware.Netlist.{Netlist};
ghost use Rattle.src_model.specs.Rules.{temp_count};
ghost use Rattle.src_model.specs.Trace.{strace};
ghost use Rattle.src_model.specs.Written.{model_of_program};
ghost use Rattle.code_model.specs.ImageFits.{IsFitting, limits_of};
ghost use Rattle.code_model.specs.Layout.{variables_of};
ghost use Rattle.code_model.specs.Machine.{IsCalm};
ghost use Rattle.code_model.specs.Right.{IsLaidOut, TracesRight};
ghost use Rattle.checkpoint_watch.specs.Texts.{last_line};
ghost use Rattle.checkpoint_watch.specs.Puts.{Puts};
ghost use Rattle.checkpoint_watch.specs.Watched.{IsTraceText};

use crate::watching::write_lines;
use crate::writer::LineWriter;
use code_model::{Image, words_of};
use cycle_sim::ModeSim;
use net_model::{Modes, State};
use rec_bits::NoMemory;
use rec_io::{Sink, WriteFault, put_all};
use src_model::Typed;
use std::alloc::Global;
use std::marker::Model;

/// The text of the checkpoints that a netlist shows of a program. It is made while it is written,
/// and all its room is taken before.
#[derive(Drop)]
pub struct Watch<'a> {
    sim: ModeSim<'a>,
    image: &'a Image,
    writer: LineWriter<'a>,
    clocks: u32,
}

impl<'a> Model for Watch<'a> {
    ghost use Rattle.std.specs.Prelude.{ℕ, List};
    ghost use Rattle.code_model.specs.Machine.{mtrace};
    ghost use Rattle.checkpoint_watch.specs.Inner.Ready.{IsWatchable};
    ghost use Rattle.checkpoint_watch.specs.Texts.{checkpoint_text};
    ghost use Rattle.checkpoint_watch.specs.Traces.{entries_of};

    ghost Value = { List ℕ };

    ghost view = { λ watch. checkpoint_text watch.writer.vars.now
        (entries_of (mtrace watch.sim.netlist watch.image.now watch.sim.state 0 watch.clocks)) };

    ghost invariant = { λ watch. IsWatchable watch.sim watch.image.now watch.writer.vars.now
        watch.writer.address watch.writer.last_cells watch.clocks };
}

fn last_line(ended: bool) -> &'static [u8]
    ensures { result.now ≡ last_line ended }
{
    if ended { b"end\n" } else { b"budget\n" }
}

impl<'a> Watch<'a> {
    /// The text of the checkpoints of a program over so many clocks from the state `start`, where
    /// `image` is code that traces the program and fits the netlist. Nothing more is asked for when
    /// the text is written.
    pub fn new(
        alloc: Global,
        modes: &'a Modes,
        typed: &'a Typed,
        image: &'a Image,
        start: State,
        clocks: u32,
    ) -> Result<Watch<'a>, NoMemory>
        requires layout { IsLaidOut modes.now.netlist
            (temp_count typed.now.width (model_of_program typed.now.program))
            (variables_of typed.now.program.vars) image.now }
        requires traces { TracesRight modes.now.netlist image.now
            (strace typed.now.width (model_of_program typed.now.program)) }
        requires fits { IsFitting (limits_of modes.now.netlist) image.now }
        requires start { IsCalm modes.now.netlist 0 start }
        ensures { IfOk result (λ watch. IsTraceText modes.now.netlist image.now
            typed.now.program.vars (strace typed.now.width (model_of_program typed.now.program)) start clocks watch) }
    {
        // the rules that a checked netlist keeps, for the sizes of its memory
        let _netlist = modes.netlist();
        let words = words_of(alloc, image)?;
        let sim = ModeSim::new(alloc, modes, words, start)?;
        let writer = LineWriter::new(alloc, typed.program().vars.as_slice(), image.temps)?;
        Ok(Watch {
            sim,
            image,
            writer,
            clocks,
        })
    }

    /// Clocks the netlist and puts the text, line by line. Takes no memory.
    ///
    /// # Errors
    ///
    /// `WriteFault` where a put failed, behind which nothing more is put: the sink's count of faults
    /// rose by one, and it took a front of the text, and not all of it.
    pub fn run<S: Sink>(self, sink: &mut S) -> Result<(), WriteFault>
        ensures { Puts (S.state sink.old) (S.state sink.new) self.entry result }
    {
        let Watch {
            mut sim,
            image,
            mut writer,
            clocks,
        } = self;
        let ended = write_lines(image, &mut sim, &mut writer, clocks, sink)?;
        put_all(sink, last_line(ended))
    }
}

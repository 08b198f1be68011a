//! Laws of what is shown: of the end, and of the longest line.

ghost use Rattle.std.specs.Prelude.{ℕ, List, ◌↔◌, ◌≤◌, length};
ghost use Rattle.net_model.specs.declared.hardware.Netlist.{Netlist};
ghost use Rattle.net_model.specs.declared.states.State.{State};
ghost use Rattle.src_model.specs.Trace.{strace};
ghost use Rattle.src_model.specs.Written.{ProgramModel};
ghost use Rattle.code_model.specs.declared.image.Image.{Image};
ghost use Rattle.code_model.specs.Machine.{IsCalm, TraceEntry, store_in};
ghost use Rattle.code_model.specs.Right.{TracesRight};
ghost use Rattle.checkpoint_watch.specs.Ends.{PassesEnd, ReachesEnd};
ghost use Rattle.src_model.specs.declared.program.Var.{Var as Declared};
ghost use Rattle.checkpoint_watch.specs.Rooms.{line_room, EntryFits};
ghost use Rattle.checkpoint_watch.specs.Texts.{checkpoint_line};

/// A netlist on an image that traces a program comes to the end mark exactly when the program ends,
/// from every state to start from.
pub fn law_of_ends()
    ensures { (netlist : Netlist) (image : Image) (width : ℕ) (program : ProgramModel) (s : State) →
        TracesRight netlist image (strace width program) → IsCalm netlist 0 s →
        (PassesEnd (strace width program) (store_in image s) ↔ ReachesEnd netlist image s) }
{}

/// No line is longer than its room, whatever store it is relative to.
pub fn law_of_room()
    ensures { (vars : List Declared) (before : List ℕ) (entry : TraceEntry) → EntryFits entry →
        length (checkpoint_line vars before entry) ≤ line_room vars }
{}

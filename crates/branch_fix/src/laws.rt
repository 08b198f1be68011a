//! Laws of the layout, proved here once for all that make code of programs.

ghost use Rattle.std.specs.Prelude.{ℕ, ◌≡◌, ◌≤◌, ◌<◌, ◌+◌, ◌%◌, ◌^◌, Bool, true, false, List, None, Some, length, slice_get, slice_index};
ghost use Rattle.net_model.specs.declared.hardware.Netlist.{Netlist};
ghost use Rattle.net_model.specs.declared.states.State.{State};
ghost use Rattle.net_model.specs.Exprs.{ExprModel, expr_width};
ghost use Rattle.net_model.specs.Meaning.{mean};
ghost use Rattle.net_model.specs.Nets.{memory_size, memory_width};
ghost use Rattle.src_model.specs.Written.{ProgramModel, stmts_of};
ghost use Rattle.src_model.specs.Sizes.{statements_in};
ghost use Rattle.src_model.specs.Rules.{first_fault};
ghost use Rattle.src_model.specs.Trace.{strace};
ghost use Rattle.code_model.specs.declared.image.Image.{Image};
ghost use Rattle.code_model.specs.Places.{words_of};
ghost use Rattle.code_model.specs.Right.{TracesRight};
ghost use Rattle.form_model.specs.declared.flow.Flow.{Flow};
ghost use Rattle.form_model.specs.Forms.{FormModel, absolute, relative};
ghost use Rattle.form_model.specs.Shapes.{shows};
ghost use Rattle.src_trees.specs.Flows.{program_flow};
ghost use Rattle.src_trees.specs.Held.{HasCellRoom, HoldsVars};
ghost use Rattle.src_trees.specs.Lowered.{MemoryMap, JobModel};
ghost use Rattle.src_trees.specs.Meant.{DoProgram};
ghost use Rattle.src_trees.specs.Turned.{Turns, TurnsTests, jobs_of_told, turned_flow};
ghost use Rattle.branch_fix.specs.declared.outline.Branch.{Branch};
ghost use Rattle.branch_fix.specs.declared.part.BranchedTest.{BranchedTest};
ghost use Rattle.branch_fix.specs.declared.part.LayoutPart.{LayoutPart};
ghost use Rattle.branch_fix.specs.declared.part.LayoutPart.TheVariants.{Test};
ghost use Rattle.branch_fix.specs.Parts.{address, parts_of, starts, total, PartsFit};
ghost use Rattle.branch_fix.specs.Rounds.{form_shows, target_shows, IsFixpoint};
ghost use Rattle.branch_fix.specs.Items.{jump_step, target_setting};
ghost use Rattle.branch_fix.specs.Bounds.{bound_of, control_words, program_bound, sum_of};
ghost use Rattle.branch_fix.specs.Costs.{block_costs, SizesWithin};
ghost use Rattle.branch_fix.specs.Made.{IsMade};

/// An image whose words stand for the parts of a program's flow, by jobs that do what its statements
/// say, and whose marks are the parts', traces the program, and stands in mode 0 at each mark. So
/// does one of a flow some tests of which are turned, by jobs that do so once they are turned back.
pub fn law_of_layouts()
    ensures own { (netlist : Netlist) (image : Image)
        (m : MemoryMap) (temps : ℕ) (l : ProgramModel) (jobs : List JobModel) (forms : List FormModel) (parts : List LayoutPart) →
        first_fault m.word l ≡ None → memory_width netlist.storages ≡ m.word →
        HoldsVars temps l.vars m → HasCellRoom temps m (memory_size netlist.storages) →
        image.places ≡ m.places → DoProgram m temps l jobs →
        IsMade netlist image temps forms (program_flow l) jobs parts →
        length (words_of image) ≡ total parts →
        TracesRight netlist image (strace m.word l) }
    ensures turned { (netlist : Netlist) (image : Image)
        (m : MemoryMap) (temps : ℕ) (l : ProgramModel) (turned : Turns) (jobs : List JobModel) (forms : List FormModel)
        (parts : List LayoutPart) →
        first_fault m.word l ≡ None → memory_width netlist.storages ≡ m.word →
        HoldsVars temps l.vars m → HasCellRoom temps m (memory_size netlist.storages) →
        image.places ≡ m.places → TurnsTests turned (program_flow l) →
        DoProgram m temps l (jobs_of_told turned jobs) →
        IsMade netlist image temps forms (turned_flow turned (program_flow l)) jobs parts →
        length (words_of image) ≡ total parts →
        TracesRight netlist image (strace m.word l) }
{}

/// The rounds settle on one list of parts, which stand for the places of the flow one by one. Each
/// relative branch that is not three words shows its distance, between the addresses that the parts
/// have.
pub fn law_of_parts()
    ensures one { (forms : List FormModel) (first a b : List LayoutPart) → IsFixpoint forms first a →
        IsFixpoint forms first b → a ≡ b }
    ensures fit { (forms : List FormModel) (flow : List Flow) (sizes : List ℕ) (branches : List Branch)
        (parts : List LayoutPart) →
        IsFixpoint forms (parts_of forms flow sizes branches) parts →
        PartsFit forms flow 0 flow parts }
    ensures shown { (forms : List FormModel) (first parts : List LayoutPart) (k : ℕ) (f : BranchedTest) →
        IsFixpoint forms first parts → slice_get parts k ≡ Some (Test f) → f.long ≡ false →
        form_shows (slice_get forms f.form) (address parts k + f.words) (slice_index (starts parts) f.to) ≡ true }
    ensures addresses { (parts : List LayoutPart) (k : ℕ) → k ≤ length parts →
        slice_index (starts parts) k ≡ address parts k }
{}

/// The bound of a program's flow is the program's own, and blocks that have no more words than they
/// cost keep to it; so it is where some tests are turned.
pub fn law_of_bounds()
    ensures program { (l : ProgramModel) (costs : List ℕ) → bound_of (program_flow l) costs ≡ program_bound l costs }
    ensures blocks { (l : ProgramModel) (costs sizes : List ℕ) →
        length costs ≡ statements_in (stmts_of l.body) →
        SizesWithin sizes (block_costs (program_flow l) costs (program_flow l) 0) →
        sum_of sizes + control_words (program_flow l) ≤ bound_of (program_flow l) costs }
    ensures turned { (l : ProgramModel) (turned : Turns) (costs : List ℕ) →
        bound_of (turned_flow turned (program_flow l)) costs ≡ program_bound l costs }
    ensures turned_blocks { (l : ProgramModel) (turned : Turns) (costs sizes : List ℕ) →
        length costs ≡ statements_in (stmts_of l.body) →
        SizesWithin sizes (block_costs (turned_flow turned (program_flow l)) costs (turned_flow turned (program_flow l)) 0) →
        sum_of sizes + control_words (turned_flow turned (program_flow l))
        ≤ bound_of (turned_flow turned (program_flow l)) costs }
{}

/// The bits that a jump or branch word has for its target lead to it from every state, where the
/// target's shape shows them.
pub fn law_of_targets()
    ensures jumps { (form : FormModel) (s : State) (to : ℕ) → shows form.value to ≡ true →
        mean form.value s (jump_step (Some form) to).setting ≡ to }
    ensures absolute { (shape : ExprModel) (s : State) (from to : ℕ) (long : Bool) → shows shape to ≡ true →
        mean shape s (target_setting (absolute shape) from to long) ≡ to }
    ensures relative { (shape : ExprModel) (s : State) (from to : ℕ) → expr_width shape ≤ 64 →
        to < 2 ^ expr_width shape → target_shows (relative shape) from to ≡ true →
        (from + mean shape s (target_setting (relative shape) from to false)) % 2 ^ expr_width shape ≡ to }
    ensures long { (shape : ExprModel) (s : State) (from to : ℕ) → shows shape 2 ≡ true →
        mean shape s (target_setting (relative shape) from to true) ≡ 2 }
{}

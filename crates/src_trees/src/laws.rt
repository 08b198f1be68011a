//! Laws of the trees and the flow of programs, proved here once for all that make code of them. The
//! variables of a program stand at the places of a memory map, behind so many temporary cells.

ghost use Rattle.std.specs.Prelude.{ℕ, ◌≡◌, ◌≤◌, ◌<◌, ◌+◌, List, None, Some, length, map};
ghost use Rattle.net_model.specs.declared.hardware.Netlist.{Netlist};
ghost use Rattle.net_model.specs.Nets.{memory_size, memory_width};
ghost use Rattle.src_model.specs.declared.program.Var.{Var as Declared};
ghost use Rattle.src_model.specs.Written.{SrcNodeModel, SrcExprModel, SpotModel, ProgramModel, stmts_of};
ghost use Rattle.src_model.specs.Rules.{first_fault, node_count, temp_count};
ghost use Rattle.src_model.specs.Meaning.{shape_value, index_value, cell_count};
ghost use Rattle.src_model.specs.Trace.{strace};
ghost use Rattle.code_model.specs.declared.image.Image.{Image};
ghost use Rattle.code_model.specs.Right.{TracesRight};
ghost use Rattle.src_trees.specs.Lowered.{MemoryMap, JobModel, base_of, tree_of, job_of_assign};
ghost use Rattle.src_trees.specs.Flows.{places_in, program_flow, program_jobs};
ghost use Rattle.src_trees.specs.Held.{HoldsVars, HasCellRoom};
ghost use Rattle.src_trees.specs.Seen.{memory_map, seen_store, tree_value, ReadsCells, InReach, CanRead, CanAssign};
ghost use Rattle.src_trees.specs.Doing.{destination_cell};
ghost use Rattle.src_trees.specs.Meant.{DoProgram, KeepsMeaning};
ghost use Rattle.src_trees.specs.Measures.{most_nodes, most_temps, AllSmall};
ghost use Rattle.src_trees.specs.Placed.{IsPlaced};
ghost use Rattle.src_trees.specs.Turned.{Turns, TurnsTests, jobs_of_told, turned_flow};

/// A memory that has the variables behind each other holds them, and has room for them where it has
/// so many cells.
pub fn law_of_rows()
    ensures held { (bits addr temps : ℕ) (vars : List Declared) → InReach bits addr temps vars →
        HoldsVars temps vars (memory_map bits addr temps vars) }
    ensures room { (bits addr temps size : ℕ) (vars : List Declared) → temps + cell_count vars ≤ size →
        HasCellRoom temps (memory_map bits addr temps vars) size }
{}

/// The tree of an expression has the expression's value in the store that the memory holds, and
/// reads the variables' cells alone.
pub fn law_of_trees()
    ensures value { (m : MemoryMap) (temps : ℕ) (vars : List Declared) (cells : List ℕ) (asked : ℕ) (e : SrcNodeModel) →
        HoldsVars temps vars m → HasCellRoom temps m (length cells) →
        CanRead m.word vars (seen_store m cells) asked e →
        tree_value cells (tree_of m asked e) ≡ shape_value m.word vars (seen_store m cells) asked e }
    ensures reads { (m : MemoryMap) (temps : ℕ) (vars : List Declared) (cells : List ℕ) (asked : ℕ) (e : SrcNodeModel) →
        HoldsVars temps vars m → HasCellRoom temps m (length cells) →
        CanRead m.word vars (seen_store m cells) asked e → ReadsCells temps cells (tree_of m asked e) }
{}

/// The job of an assignment goes to the cell of its place: that of the element, behind the address
/// of the variable.
pub fn law_of_assignments()
    ensures { (m : MemoryMap) (temps : ℕ) (vars : List Declared) (cells : List ℕ) (place : SpotModel) (e : SrcExprModel) →
        HoldsVars temps vars m → HasCellRoom temps m (length cells) →
        CanAssign m.word vars (seen_store m cells) place e →
        destination_cell cells (job_of_assign m place e).destination
        ≡ Some (base_of m.places place.name + index_value m.word vars (seen_store m cells) place.index) }
{}

/// The jobs of statements change the store that a memory of cells that fit holds as the statements
/// do, by values that fit, and the trees of tests tell them; they read and write the variables'
/// cells alone. So do all jobs of a program,
/// and those that are made from them by a change that keeps that.
pub fn law_of_jobs()
    ensures own { (m : MemoryMap) (temps : ℕ) (vars : List Declared) → HoldsVars temps vars m →
        KeepsMeaning m temps vars (λ job. job) }
    ensures all { (m : MemoryMap) (temps : ℕ) (l : ProgramModel) → HoldsVars temps l.vars m →
        DoProgram m temps l (program_jobs m l) }
    ensures changed { (m : MemoryMap) (temps : ℕ) (l : ProgramModel) (change : JobModel → JobModel) →
        KeepsMeaning m temps l.vars change → DoProgram m temps l (map change (program_jobs m l)) }
{}

/// The temporary cells of a program are the greatest count over its trees, where addresses have some
/// bits. These are trees, of at most 510 nodes each.
pub fn law_of_temps()
    ensures count { (m : MemoryMap) (l : ProgramModel) → first_fault m.word l ≡ None → 1 ≤ m.addr →
        temp_count m.word l ≡ most_temps m.word (program_jobs m l) }
    ensures small { (m : MemoryMap) (l : ProgramModel) → first_fault m.word l ≡ None → 1 ≤ m.addr →
        AllSmall m.word (temp_count m.word l) 510 (program_jobs m l) }
{}

/// The nodes that a program has at most in a tree, as its rules count them, are the greatest count
/// over the trees of its jobs, both trees of a test for equality among them, where addresses are
/// narrower than words; where they are as wide, no address needs a slice, and trees may have fewer.
pub fn law_of_nodes()
    ensures count { (m : MemoryMap) (l : ProgramModel) → m.addr < m.word →
        node_count l ≡ most_nodes (program_jobs m l) }
    ensures most { (m : MemoryMap) (l : ProgramModel) → most_nodes (program_jobs m l) ≤ node_count l }
{}

/// An image whose words do what the flow of a program says, each block, test and jump at its
/// address, by jobs that do what the program's statements say, traces the program, and stands in
/// mode 0 at each mark. So does one of a flow some tests of which are turned, by jobs that do what
/// the statements say once they are turned back.
pub fn law_of_flow()
    ensures own { (netlist : Netlist) (image : Image) (m : MemoryMap) (temps : ℕ) (l : ProgramModel)
        (jobs : List JobModel) (starts : ℕ → ℕ) →
        first_fault m.word l ≡ None → memory_width netlist.storages ≡ m.word →
        HoldsVars temps l.vars m → HasCellRoom temps m (memory_size netlist.storages) →
        image.places ≡ m.places → DoProgram m temps l jobs →
        IsPlaced netlist image temps (program_flow l) jobs starts (places_in (stmts_of l.body)) →
        TracesRight netlist image (strace m.word l) }
    ensures turned { (netlist : Netlist) (image : Image) (m : MemoryMap) (temps : ℕ) (l : ProgramModel)
        (turned : Turns) (jobs : List JobModel) (starts : ℕ → ℕ) →
        first_fault m.word l ≡ None → memory_width netlist.storages ≡ m.word →
        HoldsVars temps l.vars m → HasCellRoom temps m (memory_size netlist.storages) →
        image.places ≡ m.places → TurnsTests turned (program_flow l) →
        DoProgram m temps l (jobs_of_told turned jobs) →
        IsPlaced netlist image temps (turned_flow turned (program_flow l)) jobs starts (places_in (stmts_of l.body)) →
        TracesRight netlist image (strace m.word l) }
{}

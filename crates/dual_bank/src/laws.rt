//! Laws of programs over two memories, proved here once for all that make code of them.

ghost use Rattle.std.specs.Prelude.{ℕ, ◌≡◌, ◌≤◌, ◌+◌, ◌*◌, ◌^◌, Bool, List, length, map};
ghost use Rattle.net_model.specs.Exprs.{ExprModel};
ghost use Rattle.src_model.specs.Written.{ProgramModel};
ghost use Rattle.src_model.specs.Rules.{temp_count};
ghost use Rattle.src_trees.specs.Lowered.{JobModel};
ghost use Rattle.src_trees.specs.Held.{HoldsVars, HasCellRoom};
ghost use Rattle.src_trees.specs.Meant.{DoProgram};
ghost use Rattle.src_trees.specs.Doing.{done};
ghost use Rattle.src_trees.specs.Seen.{tree_value};
ghost use Rattle.src_trees.specs.Measures.{AllSmall};
ghost use Rattle.dual_bank.specs.Banked.{banked_tree, job_of_banked, jobs_of_banked, joined_memory, IndexesLie, JobIndexesLie};
ghost use Rattle.dual_bank.specs.Layouts.{bank_cells, bank_layout, memory_need, FitsBanks};

/// The layout of two memories holds a program's variables, each in one of them, and both memories'
/// cells are room for them.
pub fn law_of_banks()
    ensures held { (word k bank : ℕ) (in_bank : List Bool) (l : ProgramModel) → FitsBanks word k bank in_bank l →
        HoldsVars (temp_count word l) l.vars (joined_memory word k (bank_layout word k in_bank l).list) }
    ensures room { (word k bank : ℕ) (in_bank : List Bool) (l : ProgramModel) → FitsBanks word k bank in_bank l →
        HasCellRoom (temp_count word l) (joined_memory word k (bank_layout word k in_bank l).list) (2 ^ k + bank) }
{}

/// In each store in which its indexes lie in their memories, a tree over two memories has the value
/// that it has over one, and a job leaves what it leaves over one. The jobs of a program over two do
/// what the program's statements say.
pub fn law_of_banked()
    ensures values { (k : ℕ) (cells : List ℕ) (t : ExprModel) → IndexesLie k cells t →
        tree_value cells (banked_tree k t) ≡ tree_value cells t }
    ensures effects { (k : ℕ) (cells : List ℕ) (job : JobModel) → JobIndexesLie k cells job →
        done (job_of_banked k job) cells ≡ done job cells }
    ensures meaning { (word k bank : ℕ) (in_bank : List Bool) (l : ProgramModel) → FitsBanks word k bank in_bank l →
        DoProgram (joined_memory word k (bank_layout word k in_bank l).list) (temp_count word l) l
        (jobs_of_banked k (joined_memory word k (bank_layout word k in_bank l).list) l) }
{}

/// Jobs over two memories need no more temporary cells than over one, and have at most twice the
/// nodes.
pub fn law_of_sizes()
    ensures { (bits temps most k : ℕ) (jobs : List JobModel) → 1 ≤ k → k + 2 ≤ bits → AllSmall bits temps most jobs →
        AllSmall bits temps (2 * most) (map (job_of_banked k) jobs) }
{}

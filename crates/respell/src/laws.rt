//! Laws of respelled jobs, proved here once for all that make code of them.

ghost use Rattle.std.specs.Prelude.{ℕ, ◌≡◌, ◌<◌, Bool, List};
ghost use Rattle.src_model.specs.Written.{ProgramModel};
ghost use Rattle.src_trees.specs.Lowered.{MemoryMap, JobModel};
ghost use Rattle.src_trees.specs.Doing.{AllAre, Lies, done};
ghost use Rattle.src_trees.specs.Meant.{DoProgram};
ghost use Rattle.src_trees.specs.Turned.{Turns, job_of_told, jobs_of_told};
ghost use Rattle.tree_laws.specs.Equal.{CellsFit};
ghost use Rattle.respell.specs.Respelled.{AreRespelled, IsRespelled};

/// In cells that fit, a respelled job changes the memory as the job itself does, reads and writes
/// where that lies in it, and its tree tells a test, turned back where it is turned.
pub fn law_of_respelled_jobs()
    ensures done { (width : ℕ) (turned : Bool) (old new : JobModel) (cells : List ℕ) → CellsFit width cells →
        IsRespelled width turned old new → done (job_of_told turned new) cells ≡ done old cells }
    ensures lies { (width temps : ℕ) (turned : Bool) (old new : JobModel) (cells : List ℕ) → CellsFit width cells →
        IsRespelled width turned old new → Lies temps cells old → Lies temps cells (job_of_told turned new) }
    ensures tells { (width v : ℕ) (turned : Bool) (old new : JobModel) (cells : List ℕ) → CellsFit width cells →
        IsRespelled width turned old new → v < 2 → AllAre v cells old.trees →
        AllAre v cells (job_of_told turned new).trees }
{}

/// Jobs that do what a program's statements say still do so where they are respelled, once turned
/// tests are turned back.
pub fn law_of_respelled_programs()
    ensures { (m : MemoryMap) (temps : ℕ) (l : ProgramModel) (turned : Turns) (own respelled : List JobModel) →
        AreRespelled m.word turned own respelled → DoProgram m temps l own →
        DoProgram m temps l (jobs_of_told turned respelled) }
{}

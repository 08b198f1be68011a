//! The law of places.

ghost use Rattle.std.specs.Prelude.{◌≡◌, length};
ghost use Rattle.src_model.specs.Written.{ProgramModel};
ghost use Rattle.src_trees.specs.Flows.{program_jobs};
ghost use Rattle.src_trees.specs.Lowered.{MemoryMap};
ghost use Rattle.job_places.specs.Places.{program_job_places};

/// A program has as many places as jobs, in every memory.
pub fn law_of_places()
    ensures { (memory : MemoryMap) (program : ProgramModel) →
        length (program_job_places program) ≡ length (program_jobs memory program) }
{}

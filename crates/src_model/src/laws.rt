//! Laws of programs, proved here once for all that work with checked ones.

ghost use Rattle.std.specs.Prelude.{ℕ, ◌≡◌, List, None};
ghost use Rattle.src_model.specs.Written.{ProgramModel};
ghost use Rattle.src_model.specs.Rules.{first_fault};
ghost use Rattle.src_model.specs.Meaning.{FitsStore};
ghost use Rattle.src_model.specs.Trace.{strace};
ghost use Rattle.src_model.specs.Inside.{strace_inside};

/// In each run of a program that keeps the rules every index lies in its array: one that would stop
/// at the first index that doesn't passes the same checkpoints.
pub fn law_of_indexes()
    ensures { (word : ℕ) (program : ProgramModel) (cells : List ℕ) (m : ℕ) →
        first_fault word program ≡ None → FitsStore word program.vars cells →
        strace_inside word program cells m ≡ strace word program cells m }
{}

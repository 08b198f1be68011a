//! Laws of the words of a checked task's code: each step and each jump of it has one.

ghost use Rattle.std.specs.Prelude.{ℕ, ◌≡◌, true, List, Some, slice_get};
ghost use Rattle.form_model.specs.declared.forms.Step.{Step};
ghost use Rattle.compaction.specs.Laws.{operation_in};
ghost use Rattle.form_model.specs.Live.{Regs, no_regs, singles};
ghost use Rattle.form_model.specs.Forms.{tested};
ghost use Rattle.form_set.specs.Listing.{greatest_reach};
ghost use Rattle.emit_seq.specs.Spares.{wanted};
ghost use Rattle.mode_set.specs.Costs.{PlanModel};
ghost use Rattle.mode_set.specs.Keeping.{Isas, held};
ghost use Rattle.net_model.specs.ModeRules.{base_at};
ghost use Rattle.src_trees.specs.Blocks.{jobs_at};
ghost use Rattle.src_trees.specs.Lowered.{JobModel};
ghost use Rattle.word_fit.specs.Fits.{fits_over};
ghost use Rattle.word_fit.specs.Groups.{AllHaveWords};
ghost use Rattle.branch_fix.specs.Items.{items_from, jump_form};
ghost use Rattle.branch_fix.specs.Parts.{starts};
ghost use Rattle.branch_fix.specs.declared.laid.Item.TheVariants.{Jump};
ghost use Rattle.branch_fix.specs.declared.part.BranchedTest.{BranchedTest};
ghost use Rattle.branch_fix.specs.declared.part.LayoutPart.{LayoutPart};
ghost use Rattle.branch_fix.specs.declared.part.LayoutPart.TheVariants.{Test};
ghost use Rattle.right_code.specs.Covered.{ArePlans, mode_stock};
ghost use Rattle.right_code.specs.Cuts.{Cut, cuts_of, plans_at, with_mode};
ghost use Rattle.right_code.specs.Images.{IsBranchOf};
ghost use Rattle.right_code.specs.Jobs.{job_steps, jobs_steps, tree_used};
ghost use Rattle.right_code.specs.Laid.{IsLayout};
ghost use Rattle.right_code.specs.Tasks.{IsChecked, Task, task_jobs};
ghost use Rattle.mode_set.specs.Words.{FitsTurn};

/// Each step of the chosen covers of a cut of a block's jobs has a word that keeps what is still
/// needed, where at most the mode is live behind the cut.
pub fn law_of_block_words()
    ensures { (task : Task) → IsChecked task → (isas : Isas task.netlist) →
        (plans : List PlanModel) → ArePlans task isas plans → (at n k : ℕ) (cut : Cut) →
        slice_get (cuts_of (jobs_at task.flow (task_jobs task) at n)
        (plans_at task.flow plans at n)) k ≡ Some cut →
        (live : Regs) → ((r : ℕ) → live r ≡ true → with_mode task.netlist.special no_regs r ≡ true) →
        AllHaveWords (operation_in (base_at task.netlist (held task.netlist cut.mode)) (isas cut.mode).patterns)
        (fits_over (base_at task.netlist (held task.netlist cut.mode))
        (operation_in (base_at task.netlist (held task.netlist cut.mode)) (isas cut.mode).patterns))
        (singles (jobs_steps (mode_stock task isas cut.mode) cut.jobs cut.choices)) live }
{}

/// And each step of the chosen cover of a test, where no registers are live behind it but the mode
/// and those that the branch's condition reads.
pub fn law_of_test_words()
    ensures { (task : Task) → IsChecked task → (isas : Isas task.netlist) →
        (plans : List PlanModel) → ArePlans task isas plans →
        (number : ℕ) (job : JobModel) (planned : PlanModel) →
        slice_get (task_jobs task) number ≡ Some job → slice_get plans number ≡ Some planned →
        job.destination ≡ tested → (live : Regs) →
        ((r : ℕ) → live r ≡ true → with_mode task.netlist.special
        (wanted (mode_stock task isas 0) tested (tree_used job planned.choice) planned.choice.cover) r ≡ true) →
        AllHaveWords (operation_in (base_at task.netlist 0) (isas 0).patterns)
        (fits_over (base_at task.netlist 0) (operation_in (base_at task.netlist 0) (isas 0).patterns))
        (singles (job_steps (mode_stock task isas 0) job planned.choice)) live }
{}

/// And each jump and branch of the layout of a task's flow, whose branches have the forms and the
/// settings of the chosen covers: one that keeps the mode.
pub fn law_of_jump_words()
    ensures { (task : Task) → IsChecked task → (isas : Isas task.netlist) →
        (plans : List PlanModel) → ArePlans task isas plans →
        (parts : List LayoutPart) →
        IsLayout (isas 0).keeping task.flow parts (greatest_reach (isas 0).keeping) →
        ((at : ℕ) (f : BranchedTest) → slice_get parts at ≡ Some (Test f) →
        (job : JobModel) → slice_get (task_jobs task) f.tree ≡ Some job →
        (planned : PlanModel) → slice_get plans f.tree ≡ Some planned →
        IsBranchOf (mode_stock task isas 0) job planned.choice f) →
        (k : ℕ) (step : Step) →
        slice_get (items_from (isas 0).keeping (jump_form (isas 0).keeping (greatest_reach (isas 0).keeping))
        (starts parts) 0 parts) k ≡ Some (Jump step) →
        (word : ℕ) × FitsTurn (base_at task.netlist 0) task.netlist.special word
        (operation_in (base_at task.netlist 0) (isas 0).patterns step) }
{}

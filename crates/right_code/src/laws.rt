//! Laws of what two files say together: what is one for a task, and that an image made for it is
//! right code.

ghost use Rattle.std.specs.Prelude.{ℕ, ◌≡◌, ◌≤◌, Bool, true, List, length, None, Some, slice_get};
ghost use Rattle.net_model.specs.declared.hardware.Netlist.{Netlist};
ghost use Rattle.net_model.specs.CheckedRules.{code_size};
ghost use Rattle.net_model.specs.ModeRules.{KeepsModes};
ghost use Rattle.net_model.specs.Nets.{memory_size, memory_width};
ghost use Rattle.src_model.specs.Rules.{first_fault, temp_count};
ghost use Rattle.src_model.specs.Written.{ProgramModel};
ghost use Rattle.code_model.specs.Layout.{need_of, variables_of};
ghost use Rattle.code_model.specs.declared.image.Image.{Image};
ghost use Rattle.code_model.specs.Places.{words_of};
ghost use Rattle.code_model.specs.Right.{IsLaidOut};
ghost use Rattle.form_model.specs.Covers.{JobCoverModel, IsChosen, StockModel};
ghost use Rattle.form_model.specs.Forms.{FormModel};
ghost use Rattle.form_set.specs.Listing.{greatest_reach};
ghost use Rattle.mode_set.specs.Costs.{PlanModel};
ghost use Rattle.mode_set.specs.Keeping.{Isas};
ghost use Rattle.src_trees.specs.Lowered.{JobModel};
ghost use Rattle.right_code.specs.Bounded.{HasBound};
ghost use Rattle.right_code.specs.Covered.{AllPlanned, AreCosts, HasBareTree, HasCovers, mode_stock, plan_costs};
ghost use Rattle.right_code.specs.Forms.{AreFormsOf};
ghost use Rattle.right_code.specs.Images.{IsLaidAt, IsMadeFor, IsRightImage};
ghost use Rattle.right_code.specs.Jobs.{IsCovered};
ghost use Rattle.right_code.specs.Tasks.{IsChecked, Task, row_task, task_jobs};

/// The task of a netlist and a program that keep their rules is checked, where the program's words
/// are those of the netlist's data memory, which has the cells that the program needs: the variables
/// stand behind the temporary cells, its flow is the program's, and the program's jobs do what it
/// says. An image that is laid out for it has the variables there, in the order of their
/// declarations.
pub fn law_of_tasks()
    ensures checked { (netlist : Netlist) (width : ℕ) (l : ProgramModel) → KeepsModes netlist → first_fault width l ≡ None →
        memory_width netlist.storages ≡ width → need_of width l ≤ memory_size netlist.storages →
        IsChecked (row_task netlist width l) }
    ensures laid { (netlist : Netlist) (width : ℕ) (l : ProgramModel) (image : Image) →
        IsLaidAt (row_task netlist width l) image →
        IsLaidOut netlist (temp_count width l) (variables_of l.vars) image }
{}

/// A netlist has one list of forms, with one greatest reach of its jumps.
pub fn law_of_lists()
    ensures { (netlist : Netlist) (forms others : List FormModel) (reach other : ℕ) →
        AreFormsOf netlist forms reach → AreFormsOf netlist others other → (forms ≡ others) × (reach ≡ other) }
{}

/// And one instruction set in each mode: one list of all forms, and one of those that keep the mode.
pub fn law_of_isas()
    ensures { (netlist : Netlist) (isas others : Isas netlist) (v : ℕ) →
        ((isas v).all ≡ (others v).all) × ((isas v).keeping ≡ (others v).keeping) }
{}

/// Jobs have one list of costs in their modes, and a task one such list, one bound and one reach.
pub fn law_of_costs()
    ensures jobs { (stock : ℕ → StockModel) (usable : ℕ → Bool) (jobs : List JobModel) (plans others : List PlanModel) →
        AllPlanned stock (λ v. usable v ≡ true) jobs plans → AllPlanned stock (λ v. usable v ≡ true) jobs others →
        plan_costs jobs plans ≡ plan_costs jobs others }
    ensures task { (task : Task) (costs others : List (ℕ × ℕ)) → AreCosts task costs →
        AreCosts task others → costs ≡ others }
    ensures bound { (task : Task) (bound other reach more : ℕ) → HasBound task bound reach → HasBound task other more →
        (bound ≡ other) × (reach ≡ more) }
{}

/// A task has one first tree that no forms cover, and where there is one not all trees are covered.
pub fn law_of_uncovered_tree()
    ensures one { (task : Task) (number other : ℕ) → HasBareTree number task → HasBareTree other task → number ≡ other }
    ensures none { (task : Task) (number : ℕ) → HasCovers task → HasBareTree number task → ⊥ }
{}

/// The chosen cover of a job of a checked task, by the forms of a mode that keep it, has no more
/// cuts than the task has temporary cells.
pub fn law_of_chosen()
    ensures { (task : Task) → IsChecked task → (isas : Isas task.netlist) (v : ℕ) →
        (number : ℕ) (job : JobModel) → slice_get (task_jobs task) number ≡ Some job →
        (choice : JobCoverModel) → IsChosen (mode_stock task isas v) job.destination job.trees choice →
        IsCovered (mode_stock task isas v) job choice }
{}

/// An image that is made for a checked task is right code, which traces the program, where the code
/// has room for its words and jumps reach them all; they do where they reach as far as the bound.
pub fn law_of_programs()
    ensures reach { (task : Task) → IsChecked task →
        (image : Image) (made : IsMadeFor task image) →
        length (words_of image) ≤ code_size task.netlist.codes →
        length (words_of image) ≤ greatest_reach (made.isas 0).keeping → IsRightImage task image }
    ensures bound { (task : Task) → IsChecked task →
        (image : Image) → IsMadeFor task image → (bound reach : ℕ) → HasBound task bound reach →
        bound ≤ reach → length (words_of image) ≤ code_size task.netlist.codes →
        IsRightImage task image }
{}

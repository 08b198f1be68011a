//! Laws of the steps of covers, proved here once for all that make code of them.

ghost use Rattle.std.specs.Prelude.{◌≡◌, ◌≤◌, ℕ, List, Option, bit_and, length, true};
ghost use Rattle.net_model.specs.declared.states.State.{State};
ghost use Rattle.net_model.specs.Fields.{fields};
ghost use Rattle.net_model.specs.Exprs.{ExprModel};
ghost use Rattle.net_model.specs.Patterns.{Pattern};
ghost use Rattle.form_model.specs.Forms.{DestinationModel, tested};
ghost use Rattle.form_model.specs.CoverModels.{CoverModel};
ghost use Rattle.form_model.specs.Covers.{StockModel, JobCoverModel, IsChosen, IsOrderly, job_cost, need};
ghost use Rattle.form_model.specs.Steps.{branch_setting, cut_count, cover_steps};
ghost use Rattle.form_model.specs.WideNodes.{tree_temps};
ghost use Rattle.emit_seq.specs.ReadWords.{AllReadWords};
ghost use Rattle.emit_seq.specs.Formed.{AreFormed};
ghost use Rattle.emit_seq.specs.Leaves.{condition_of, IsOfJob, IsCoverStart, LeaveValue};
ghost use Rattle.emit_seq.specs.Settles.{AreOfForms};
ghost use Rattle.emit_seq.specs.Spares.{AreShared, ReadsCounter, AreSpare};

/// The steps of an orderly cover that needs no more cells of the file than there are, with at most
/// as many cuts as there are temporary cells, done one after the other, leave its tree's value at
/// the aim, and change no other cell from the temporary ones on. For a test, the branch's condition
/// has the tree's value after them.
pub fn law_of_values()
    ensures { (stock : StockModel) (file : Option ℕ) (patterns : List Pattern) (count : ℕ) →
        AreFormed file patterns count stock.file stock.forms →
        (destination : DestinationModel) (tree : ExprModel) (cover : CoverModel) (s : State) → IsOfJob destination →
        IsOrderly stock destination tree true cover → need stock.forms cover ≤ stock.file →
        cut_count cover ≤ stock.temps →
        IsCoverStart stock count destination tree s →
        LeaveValue stock file patterns destination tree cover s }
{}

/// The steps spare what is still needed, read only what an earlier step put into a register, and
/// leave the program counter alone.
pub fn law_of_registers()
    ensures { (stock : StockModel) (file : Option ℕ) (patterns : List Pattern) (count pc : ℕ) →
        AreFormed file patterns count stock.file stock.forms → AreShared stock.forms → ReadsCounter stock.forms pc →
        (destination : DestinationModel) (tree : ExprModel) (cover : CoverModel) → IsOfJob destination →
        IsOrderly stock destination tree true cover →
        AreSpare stock file patterns pc destination tree cover }
{}

/// There are as many steps as the cover costs.
pub fn law_of_costs()
    ensures { (stock : StockModel) (destination : DestinationModel) (tree : ExprModel) (cover : CoverModel) →
        IsOfJob destination → IsOrderly stock destination tree true cover →
        length (cover_steps stock destination tree cover) ≡ job_cost destination cover }
{}

/// Each step is one of a form of the list, with values for the bits of its transfer, and 0 for all
/// others. The setting of a test's branch has no bits but those of its condition.
pub fn law_of_settings()
    ensures steps { (stock : StockModel) (destination : DestinationModel) (tree : ExprModel) (cover : CoverModel) →
        IsOrderly stock destination tree true cover →
        AreOfForms stock.forms (cover_steps stock destination tree cover) }
    ensures branch { (stock : StockModel) (tree : ExprModel) (cover : CoverModel) → IsOrderly stock tested tree true cover →
        bit_and (branch_setting stock tree cover) (fields (condition_of stock cover)) ≡ branch_setting stock tree cover }
{}

/// Where the forms read words of so many bits, a chosen cover has at most as many cuts, inner ones
/// among them, as its tree has nodes of a word's width below its root.
pub fn law_of_cells()
    ensures { (bits : ℕ) (stock : StockModel) → AllReadWords bits stock.forms →
        (destination : DestinationModel) (trees : List ExprModel) (choice : JobCoverModel) →
        (c : IsChosen stock destination trees choice) →
        cut_count choice.cover ≤ tree_temps bits destination c.covers.tree }
{}

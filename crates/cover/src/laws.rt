//! What follows from the order of covers.

ghost use Rattle.std.specs.Prelude.{◌≡◌, List};
ghost use Rattle.net_model.specs.Exprs.{ExprModel};
ghost use Rattle.form_model.specs.Forms.{DestinationModel};
ghost use Rattle.form_model.specs.Covers.{JobCoverModel, HasNoCover, IsChosen, StockModel};

/// A job has one chosen cover at most, and has none only where no tree of it has an orderly cover:
/// what `cover` answers is determined.
pub fn law_of_choices()
    ensures once { (stock : StockModel) (destination : DestinationModel) (trees : List ExprModel) (a b : JobCoverModel) →
        IsChosen stock destination trees a → IsChosen stock destination trees b → a ≡ b }
    ensures never_both { (stock : StockModel) (destination : DestinationModel) (trees : List ExprModel) (a : JobCoverModel) →
        IsChosen stock destination trees a → HasNoCover stock destination trees → ⊥ }
{}

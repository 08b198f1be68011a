//! What follows for the cells that the steps of a cover fill.

ghost use Rattle.std.specs.Prelude.{◌≡◌, ◌<◌, ℕ, Bool, Some, length, slice_get};
ghost use Rattle.net_model.specs.Exprs.{ExprModel};
ghost use Rattle.form_model.specs.Forms.{DestinationModel};
ghost use Rattle.form_model.specs.CoverModels.{CoverModel};
ghost use Rattle.form_model.specs.Covers.{IsOrderly, StockModel};
ghost use Rattle.form_model.specs.Steps.{cut_count};
ghost use Rattle.spill.specs.Filled.{filled_cells};

/// The steps of an orderly cover fill as many cells as it has cuts, all of them below this count,
/// and none of them twice.
pub fn law_of_cells()
    ensures many { (stock : StockModel) (cover : CoverModel) (destination : DestinationModel) (tree : ExprModel) (whole : Bool) →
        IsOrderly stock destination tree whole cover →
        length (filled_cells stock cover 0 destination tree whole) ≡ cut_count cover }
    ensures below { (stock : StockModel) (cover : CoverModel) (destination : DestinationModel) (tree : ExprModel)
        (whole : Bool) (i cell : ℕ) →
        IsOrderly stock destination tree whole cover →
        slice_get (filled_cells stock cover 0 destination tree whole) i ≡ Some cell →
        cell < cut_count cover }
    ensures once { (stock : StockModel) (cover : CoverModel) (destination : DestinationModel) (tree : ExprModel)
        (whole : Bool) (i j cell : ℕ) →
        IsOrderly stock destination tree whole cover →
        slice_get (filled_cells stock cover 0 destination tree whole) i ≡ Some cell →
        slice_get (filled_cells stock cover 0 destination tree whole) j ≡ Some cell → i ≡ j }
{}

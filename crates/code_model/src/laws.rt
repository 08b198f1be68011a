//! Laws of images with views.

ghost use Rattle.std.specs.Prelude.{ℕ, List, ◌↔◌};
ghost use Rattle.net_model.specs.declared.hardware.Netlist.{Netlist};
ghost use Rattle.src_model.specs.Ways.{Passed};
ghost use Rattle.code_model.specs.declared.image.Image.{Image};
ghost use Rattle.code_model.specs.Right.{TracesBy, TracesRight};
ghost use Rattle.code_model.specs.Views.{masked_trace, shown_store, unviewed};

/// An image without views in which nothing is hidden shows a source just where it traces it right.
pub fn law_of_no_views()
    ensures { (netlist : Netlist) (image : Image) (trace : List ℕ → ℕ → List Passed) →
        (TracesBy (shown_store netlist (unviewed image)) netlist image (masked_trace (unviewed image) trace) ↔
        TracesRight netlist image trace) }
{}

//! A law of the packing that is written, proved here once for every crate above.

ghost use Rattle.std.specs.Prelude.{◌≡◌, ℕ, List};
ghost use Rattle.net_model.specs.declared.hardware.Netlist.{Netlist};
ghost use Rattle.form_model.specs.declared.forms.Step.{Step};
ghost use Rattle.form_model.specs.Effects.{Operation};
ghost use Rattle.form_model.specs.Live.{Regs};
ghost use Rattle.word_fit.specs.Fits.{fits_over};
ghost use Rattle.compaction.specs.Chosen.{Packs};

/// There is one packing that is written.
pub fn law_of_choice()
    ensures { (netlist : Netlist) (m : Step → Operation) (after : Regs) (pair : ℕ)
        (groups one other : List (List Step)) →
        Packs m (fits_over netlist m) after pair groups one →
        Packs m (fits_over netlist m) after pair groups other → one ≡ other }
{}

//! Laws of the definitions, proved here once for every crate above.

ghost use Rattle.std.specs.Prelude.{◌≡◌, ℕ, List};
ghost use Rattle.net_model.specs.declared.hardware.Netlist.{Netlist};
ghost use Rattle.net_model.specs.declared.states.State.{State};
ghost use Rattle.net_model.specs.Widths.{IsState, IsTyped, StateFits, WordFits};
ghost use Rattle.net_model.specs.Clock.{word_at};
ghost use Rattle.net_model.specs.Control.{IsControlled, IsSound};
ghost use Rattle.net_model.specs.Meaning.{mean};
ghost use Rattle.net_model.specs.Modes.{ModesAreFixed};
ghost use Rattle.net_model.specs.Symbolic.{sym_of};
ghost use Rattle.net_model.specs.Transfers.{IsClean, Moved};
ghost use Rattle.net_model.specs.Value.{value_of};

/// The value of a net is what its symbolic value means, in every state and under every word.
pub fn law_of_values()
    ensures { (netlist : Netlist) (s : State) (word : ℕ) → IsTyped netlist → IsControlled netlist →
        StateFits netlist s → WordFits netlist word →
        (n : ℕ) → mean (sym_of netlist word n) s word ≡ value_of netlist s word n }
{}

/// Under a word without clash, the next state is what the word's transfers say of each register, of
/// the memory and of the register file.
pub fn law_of_transfers()
    ensures { (netlist : Netlist) (words : List ℕ) (word : ℕ) (s : State) → IsSound netlist → IsState netlist s →
        IsClean netlist word → word_at netlist words s ≡ word → Moved netlist words word s }
{}

/// While the mode of a netlist is v, what the netlist is in mode v has the same values of nets, the
/// same clash and the same clock.
pub fn law_of_modes()
    ensures { ModesAreFixed }
{}

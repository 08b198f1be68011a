//! The laws of views.

ghost use Rattle.std.specs.Prelude.{ℕ, ◌≡◌, ◌<◌, List, length};
ghost use Rattle.net_model.specs.CheckedRules.{IsWellFormed};
ghost use Rattle.net_model.specs.Clock.{step};
ghost use Rattle.net_model.specs.ModeRules.{KeepsInOrder};
ghost use Rattle.net_model.specs.Order.{IsOrder};
ghost use Rattle.net_model.specs.Value.{value_of};
ghost use Rattle.net_model.specs.Widths.{IsState, WordFits};
ghost use Rattle.net_model.specs.declared.hardware.Netlist.{Netlist};
ghost use Rattle.net_model.specs.declared.states.State.{State};
ghost use Rattle.bank_view.specs.Clocks.{IsClash, IsViewed, WritesBoth};
ghost use Rattle.bank_view.specs.Keeping.{HasBanks, KeepsBanks};
ghost use Rattle.bank_view.specs.Views.{join_state, net_number, numbering_of, view_of};

/// In a state of a netlist, whose cells are joined, each net has the value that its net in the view
/// has. A word that writes both memories clashes in the view; every other one clashes there where
/// it does in the netlist, or leads to the state whose cells are joined.
pub fn law_of_views()
    ensures values { (n : Netlist) (order places : List ℕ) → KeepsBanks n order → IsOrder (view_of n) places →
        (s : State) (word : ℕ) → IsState n s → WordFits n word →
        (m : ℕ) → m < length n.nets →
        value_of (view_of n) (join_state n s) word (net_number n (numbering_of n) m) ≡ value_of n s word m }
    ensures both { (n : Netlist) (order places : List ℕ) → KeepsBanks n order → IsOrder (view_of n) places →
        (s : State) (word : ℕ) → IsState n s → WordFits n word →
        WritesBoth n s word → IsClash (step (view_of n) (join_state n s) word) }
    ensures one { (n : Netlist) (order places : List ℕ) → KeepsBanks n order → IsOrder (view_of n) places →
        (s : State) (word : ℕ) → IsState n s → WordFits n word →
        ¬ (WritesBoth n s word) → IsViewed n (step n s word) (step (view_of n) (join_state n s) word) }
{}

/// The view keeps N1 to N4 and N11, and where the netlist keeps all rules, so does the view.
pub fn law_of_rules()
    ensures formed { (n : Netlist) → HasBanks n → IsWellFormed (view_of n) }
    ensures kept { (n : Netlist) (order : List ℕ) → KeepsBanks n order → KeepsInOrder (view_of n) }
{}

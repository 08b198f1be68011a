//! Laws of what is seen of a netlist, proved here once for every crate above.

ghost use Rattle.std.specs.Prelude.{◌≡◌, ◌*◌, ℕ, List, length};
ghost use Rattle.net_model.specs.declared.hardware.Netlist.{Netlist};
ghost use Rattle.net_model.specs.declared.states.State.{State};
ghost use Rattle.net_model.specs.Clock.{clock, run, word_at};
ghost use Rattle.net_model.specs.Order.{IsOrder};
ghost use Rattle.net_model.specs.Value.{value_of};
ghost use Rattle.fault_sim.specs.declared.fault.Fault.{Fault};
ghost use Rattle.fault_sim.specs.Faulty.{IsFault, IsHidden, as_it_is, faulty_clock, seen_clock, seen_of, seen_run};
ghost use Rattle.fault_sim.specs.Reports.{bits_of, faults_of};

/// A netlist each net of which is seen as it is has its own values, clocks and runs.
pub fn law_of_no_fault()
    ensures values { (netlist : Netlist) (s : State) (word : ℕ) →
        seen_of as_it_is netlist s word ≡ value_of netlist s word }
    ensures clocks { (netlist : Netlist) (words : List ℕ) (s : State) →
        seen_clock as_it_is netlist words s ≡ clock netlist words s }
    ensures runs { (netlist : Netlist) (words : List ℕ) (s : State) (n : ℕ) →
        seen_run as_it_is netlist words s n ≡ run netlist words s n }
{}

/// A fault whose bit has the stuck value already changes nothing of a clock.
pub fn law_of_hidden_faults()
    ensures { (netlist : Netlist) (order : List ℕ) → IsOrder netlist order → (fault : Fault) →
        IsFault netlist fault → (words : List ℕ) (s : State) →
        IsHidden netlist fault s (word_at netlist words s) →
        faulty_clock netlist fault words s ≡ clock netlist words s }
{}

/// There are two faults for each bit of each net.
pub fn law_of_fault_count()
    ensures { (netlist : Netlist) →
        length (faults_of netlist) ≡ 2 * bits_of netlist.nets }
{}

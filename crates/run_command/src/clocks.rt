//! Many clocks.

ghost use Rattle.std.specs.Prelude.{◌≡◌, MatchResult};
ghost use Rattle.net_model.specs.Clock.{run, Clashed, Reached};

use cycle_sim::{Clocked, ModeSim};

/// The first clash: its cycle, from 0, and the number of the bus's net.
#[derive(Clone, Copy, Debug, PartialEq, Eq)]
pub struct Clash {
    pub cycle: u64,
    pub bus: u32,
}

/// So many clocks, or fewer where a bus clashes.
pub fn clock_all(sim: &mut ModeSim<'_>, clocks: u32) -> Result<(), Clash>
    ensures netlist { sim.new.netlist ≡ sim.old.netlist }
    ensures ended { MatchResult result
        (λ _. run sim.old.netlist sim.old.words sim.old.state clocks ≡ Reached sim.new.state)
        (λ clash. run sim.old.netlist sim.old.words sim.old.state clocks ≡ Clashed clash.cycle clash.bus) }
{
    for cycle in 0..clocks {
        match sim.clock() {
            Clocked::Stepped => {}
            Clocked::Clash(bus) => {
                return Err(Clash {
                    cycle: u64::from(cycle),
                    bus,
                });
            }
        }
    }
    Ok(())
}

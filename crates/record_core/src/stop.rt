//! Why a command has no text.
ghost use Rattle.std.specs.Prelude.{◌≡◌};

use crate::Status;
use check_command::CheckStop;
use rec_bits::Name;
use run_command::RunFault;

/// What a line tells beside its status.
#[derive(Drop)]
pub enum Told {
    /// Nothing.
    Nothing,
    /// The name that begins at this offset of the netlist's text: that of a bus that clashed.
    Bus(u64),
    /// This name.
    Name(Name),
}

impl From<Option<Name>> for Told {
    ghost from_gives = { λ name told. told ≡ name_told name };

    ghost use Rattle.std.specs.Prelude.{◌≡◌};
    ghost use Rattle.record_core.specs.Stages.{name_told};

    fn from(name: Option<Name>) -> Told {
        match name {
            Some(name) => Told::Name(name),
            None => Told::Nothing,
        }
    }
}

/// Why no text is written, and what its line tells beside the status.
#[derive(Drop)]
pub struct Stop {
    pub status: Status,
    pub told: Told,
}

impl From<Status> for Stop {
    ghost from_gives = { λ status stop. stop ≡ alone status };

    ghost use Rattle.std.specs.Prelude.{◌≡◌};
    ghost use Rattle.record_core.specs.Inner.Statuses.{alone};

    fn from(status: Status) -> Stop {
        Stop {
            status,
            told: Told::Nothing,
        }
    }
}

impl From<RunFault> for Stop {
    ghost from_gives = { λ fault stop. stop ≡ run_stop fault };

    ghost use Rattle.std.specs.Prelude.{◌≡◌};
    ghost use Rattle.record_core.specs.Inner.Statuses.{run_stop};

    fn from(fault: RunFault) -> Stop {
        match fault {
            RunFault::NetText(at) => Stop::from(Status::NetText(at)),
            RunFault::Net(fault) => Stop::from(Status::Net(fault)),
            RunFault::ImageText(at) => Stop::from(Status::ImageText(at)),
            RunFault::MemText(at) => Stop::from(Status::MemText(at)),
            RunFault::Clash { cycle, bus, at } => Stop {
                status: Status::Clash { cycle, bus },
                told: Told::Bus(at),
            },
            RunFault::Memory => Stop::from(Status::Memory),
        }
    }
}

impl From<CheckStop> for Stop {
    ghost from_gives = { λ found stop. stop ≡ check_stop found };

    ghost use Rattle.std.specs.Prelude.{◌≡◌};
    ghost use Rattle.record_core.specs.Inner.Statuses.{check_stop};

    fn from(found: CheckStop) -> Stop {
        let CheckStop { fault, name } = found;
        Stop {
            status: Status::from(fault),
            told: Told::from(name),
        }
    }
}

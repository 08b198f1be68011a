//! Why the routes of a net are given up.

ghost use Rattle.std.specs.Prelude.{◌≡◌};
ghost use Rattle.route_trace.specs.declared.stop.TraceStop.{TraceStop};

use rec_bits::NoMemory;

// Why the routes of a net are given up.
#[derive(Clone, Copy, PartialEq, Eq)]
pub(crate) enum TraceStop {
    // There are more than a net may have values.
    Many,
    // Want of memory.
    Memory,
}

impl From<NoMemory> for TraceStop {
    ghost from_gives = { λ _ stop. stop ≡ TraceStop.Memory };

    fn from(_: NoMemory) -> TraceStop {
        TraceStop::Memory
    }
}

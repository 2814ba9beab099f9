//! Why a log isn't followed to its end.
ghost use Rattle.std.specs.Prelude.{◌≡◌};
ghost use Rattle.cb_log_commands.specs.Stops.{fault_of_log_stop};

use cb_io::{Failed, ReadStop};
use cb_report::Fault;
use cb_request::FileName;
use std::alloc::AllocError;

/// Why a log isn't followed to its end. It names no file, since only one is read meanwhile.
#[derive(Clone, Copy, Debug, PartialEq, Eq)]
pub enum LogStop {
    /// A read of the log failed.
    ReadFault,
    /// The log has too many bytes.
    TooMuch,
    /// A write of the output failed.
    WriteFault,
    /// Memory ran out.
    NoMemory,
}

impl From<ReadStop> for LogStop {
    ghost use Rattle.std.specs.Prelude.{◌≡◌};
    ghost use Rattle.cb_log_commands.specs.Stops.{stop_of_read};

    ghost from_gives = { λ stop result. result ≡ stop_of_read stop };

    fn from(stop: ReadStop) -> LogStop {
        match stop {
            ReadStop::ReadFault => LogStop::ReadFault,
            ReadStop::TooMuch => LogStop::TooMuch,
            ReadStop::NoMemory => LogStop::NoMemory,
        }
    }
}

impl From<Failed> for LogStop {
    ghost use Rattle.std.specs.Prelude.{◌≡◌};
    ghost use Rattle.cb_log_commands.specs.declared.stop.LogStop.TheVariants.{WriteFault};

    ghost from_gives = { λ _ result. result ≡ WriteFault };

    fn from(_failed: Failed) -> LogStop {
        LogStop::WriteFault
    }
}

impl From<AllocError> for LogStop {
    ghost use Rattle.std.specs.Prelude.{◌≡◌};
    ghost use Rattle.cb_log_commands.specs.declared.stop.LogStop.TheVariants.{NoMemory};

    ghost from_gives = { λ _ result. result ≡ NoMemory };

    fn from(_error: AllocError) -> LogStop {
        LogStop::NoMemory
    }
}

impl LogStop {
    /// What is wrong then, with a log of this name.
    pub fn fault(self, log: FileName<'_>) -> Fault<'_>
        ensures { result ≡ fault_of_log_stop log.entry self }
    {
        match self {
            LogStop::ReadFault => Fault::ReadFault { name: log },
            LogStop::TooMuch => Fault::LimitBytes { name: log },
            LogStop::WriteFault => Fault::WriteFault,
            LogStop::NoMemory => Fault::Memory,
        }
    }
}

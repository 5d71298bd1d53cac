//! How the program ends.

ghost use Rattle.std.specs.Prelude.{◌≡◌};
ghost use Rattle.zr_netrun.specs.Status.{number_of};

/// The status with which the program ends.
#[derive(Clone, Copy, Debug, PartialEq, Eq)]
pub enum Status {
    /// The input was read to its end, and no line was refused; or no more links come.
    Done,
    /// A line was refused, or the script is too long.
    Refused,
    /// The program's words are not such as it takes.
    Words,
    /// Memory ran out.
    NoMemory,
    /// A read of the input failed.
    ReadFault,
    /// A write of the output or of the error output failed.
    WriteFault,
    /// The host can't listen or accept, or has no random words. No run of a script ends so.
    HostFault,
}

impl Status {
    /// The number with which the process ends.
    pub fn number(self) -> u8
        ensures { result ≡ number_of self }
    {
        match self {
            Status::Done => 0,
            Status::Refused => 1,
            Status::Words => 2,
            Status::NoMemory => 3,
            Status::ReadFault => 4,
            Status::WriteFault => 5,
            Status::HostFault => 6,
        }
    }
}

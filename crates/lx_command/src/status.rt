//! How a run ends.

ghost use Rattle.std.specs.Prelude.{◌≡◌};
ghost use Rattle.lx_command.specs.Status.{number_of};

/// How a run ended.
#[derive(Clone, Copy, PartialEq, Eq)]
pub enum Status {
    /// The command did what it says.
    Done,
    /// The description has the fault that the line on err names.
    Refused,
    /// The words are no command.
    Usage,
    /// A file couldn't be read.
    ReadFault,
    /// A file couldn't be stored, or text couldn't be said.
    WriteFault,
    NoMemory,
}

impl Status {
    /// The exit status, from 0 to 5.
    pub fn number(self) -> u8
        ensures { result ≡ number_of self }
    {
        match self {
            Status::Done => 0,
            Status::Refused => 1,
            Status::Usage => 2,
            Status::ReadFault => 3,
            Status::WriteFault => 4,
            Status::NoMemory => 5,
        }
    }
}

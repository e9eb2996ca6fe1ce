//! The statuses that the program ends with.

ghost use Rattle.std.specs.Prelude.{◌≡◌, ◌<◌};
ghost use Rattle.cedar_cli.specs.Statuses.{code_of};

/// How a run ends.
#[derive(Clone, Copy, Drop)]
pub(crate) enum Status {
    /// What was asked for is done.
    Done,
    /// A file or the schema is refused, or the schema has nothing of what was asked for.
    Refused,
    /// The words give no command.
    Usage,
    /// Memory ran out.
    Memory,
    /// What was asked for couldn't be written.
    Unwritten,
    /// A file couldn't be read.
    Unread,
    /// The new version of a schema takes something away.
    Lost,
}

impl Status {
    /// The status as a number: from 0 on, in the order of the variants.
    pub(crate) fn code(self) -> u8
        ensures code { result ≡ code_of self }
        ensures small { result < 7 }
    {
        match self {
            Status::Done => 0,
            Status::Refused => 1,
            Status::Usage => 2,
            Status::Memory => 3,
            Status::Unwritten => 4,
            Status::Unread => 5,
            Status::Lost => 6,
        }
    }
}

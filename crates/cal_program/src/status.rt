//! How a run of the program ends.

ghost use Rattle.std.specs.Prelude.{◌≡◌};
ghost use Rattle.cal_program.specs.Outcome.{status_code};

use cal_transport::{CreateCause, Replies, Reply, Transport};

/// How a run of the program ended.
#[derive(Clone, Copy, Debug, PartialEq, Eq)]
pub enum Status {
    /// The replies were written, or what the replies of a made run come to.
    Done,
    /// The source's bytes aren't a script: a line, counted from one, is the first that is bad.
    BadScript { line: usize },
    /// No transport can be made with the script's settings.
    NotCreated { cause: CreateCause },
    /// The source failed.
    ReadFault,
    /// The sink failed.
    WriteFault,
    /// Memory ran out.
    NoMemory,
    /// The words of the command line have no form.
    Usage,
    /// The source has more bytes than a script may have.
    TooLong,
}

impl Status {
    /// The exit status.
    pub fn code(self) -> u8
        ensures value { result ≡ status_code self }
    {
        match self {
            Status::Done => 0,
            Status::BadScript { line: _ } => 1,
            Status::NotCreated { cause: _ } => 2,
            Status::ReadFault => 3,
            Status::WriteFault => 4,
            Status::NoMemory => 5,
            Status::Usage => 6,
            Status::TooLong => 7,
        }
    }
}

/// What a run of the program leaves.
#[derive(Debug, Drop)]
pub struct Outcome {
    /// How it ended.
    pub status: Status,
    /// The replies of the whole run, where that is done or its replies were due to be written; the replies before
    /// memory ran out; else none.
    pub replies: Replies<Reply>,
    /// The transport that gave the replies, where the whole run was answered, or some of it before memory ran out; else
    /// none.
    pub end: Option<Transport>,
}

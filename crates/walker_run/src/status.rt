//! How a run of the program ends.
ghost use Rattle.std.specs.Prelude.{◌≡◌};
ghost use Rattle.walker_run.specs.Lines.{code_of};

/// How a run ended. The program exits with its [`code`](Status::code).
#[derive(Clone, Copy, Debug, PartialEq, Eq)]
pub enum Status {
    /// What the words ask for was done and written.
    Done,
    /// The words are in no form, or name a kind that is not there.
    Usage,
    /// A file could not be read.
    FileFault,
    /// A file is longer than its limit.
    FileTooLong,
    /// The tessellation file holds no tessellation.
    TessRefused,
    /// The rules file holds no rules.
    RulesText,
    /// The rules break a condition.
    NotAccepted,
    /// The tessellation is regular and has finitely many tiles, and no rules are made for it.
    Spherical,
    /// The tessellation is not regular and has finitely many tiles, and no rules are made for it.
    Closed,
    /// The teacher gave up: it made as many cells as it might, and learnt no rules.
    GaveUp,
    /// There was no memory.
    Memory,
    /// Reading the input failed.
    ReadFault,
    /// Writing failed.
    WriteFault,
    /// The rules could not be stored.
    StoreFault,
    /// The input has over 268,435,456 bytes.
    InputTooLong,
    /// The two walks are not related: no log leads from the one to the other.
    Apart,
    /// The log file holds no log, or one that does not lead from the one walk to the other.
    LogRefused,
    /// One of the two walks passes a tile that lies more than 4,000 crossings from the first one.
    TooDeep,
}

impl Status {
    /// The exit status of the program.
    pub fn code(self) -> u8
        ensures { result ≡ code_of self }
    {
        match self {
            Status::Done => 0,
            Status::Usage => 2,
            Status::FileFault => 3,
            Status::FileTooLong => 4,
            Status::TessRefused => 5,
            Status::RulesText => 6,
            Status::NotAccepted => 7,
            Status::Spherical => 8,
            Status::Closed => 9,
            Status::GaveUp => 10,
            Status::Memory => 11,
            Status::ReadFault => 12,
            Status::WriteFault => 13,
            Status::StoreFault => 14,
            Status::InputTooLong => 15,
            Status::Apart => 16,
            Status::LogRefused => 17,
            Status::TooDeep => 18,
        }
    }
}

// How the program ends.
ghost use Rattle.std.specs.Prelude.{◌≡◌, ◌<◌};
ghost use Rattle.iso_cli.specs.Status.{code_of};

/// How a call of the program ended.
#[derive(Clone, Copy, Debug, PartialEq, Eq)]
pub enum Status {
    /// The report was written.
    Done,
    /// The file is refused; the refusal's line is on err.
    Refused,
    /// The words are no command; the usage line is on err.
    Usage,
    /// A read failed.
    ReadFault,
    /// A write on out failed.
    WriteFault,
    /// Want of memory.
    NoMemory,
}

impl Status {
    /// The exit status of the program, 0 to 5 in the order of the variants.
    pub fn code(self) -> u8
        ensures value { result ≡ code_of self }
        ensures below { result < 6 }
    {
        match self {
            Status::Done => 0,
            Status::Refused => 1,
            Status::Usage => 2,
            Status::ReadFault => 3,
            Status::WriteFault => 4,
            Status::NoMemory => 5,
        }
    }
}

ghost use Rattle.std.specs.Prelude.{◌≡◌};
ghost use Rattle.ematch_cli.specs.Status.{code_of, text_of};

/// How a run of the program ended.
#[derive(Clone, Copy, Debug, PartialEq, Eq)]
pub enum Status {
    /// The script was read to its end, and all of it was answered.
    Done,
    /// The script holds an error, whose line is the last on the output.
    ScriptError,
    /// The words of the command line are not of the form. Nothing was read or written.
    WordsRefused,
    /// A read failed. The commands that were whole by then are answered.
    ReadFault,
    /// A write failed. A front of the answer was written.
    WriteFault,
    /// Memory was refused. A front of the answer was written.
    NoMemory,
}

impl Status {
    /// The exit status of the program: 0 to 5, in the order of the variants.
    pub fn code(&self) -> u8
        ensures { result ≡ code_of self.now }
    {
        match self {
            Status::Done => 0,
            Status::ScriptError => 1,
            Status::WordsRefused => 2,
            Status::ReadFault => 3,
            Status::WriteFault => 4,
            Status::NoMemory => 5,
        }
    }
}

/// What is said of it on the error stream: a line, or nothing.
pub(crate) fn text_of(status: Status) -> &'static [u8]
    ensures { result.now ≡ text_of status }
{
    match status {
        Status::Done | Status::ScriptError => b"",
        Status::WordsRefused => b"ematch: words refused\n",
        Status::ReadFault => b"ematch: read failed\n",
        Status::WriteFault => b"ematch: write failed\n",
        Status::NoMemory => b"ematch: no memory\n",
    }
}

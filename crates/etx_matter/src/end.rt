//! How a job ends, and what the program answers.
ghost use Rattle.std.specs.Prelude.{◌≡◌};
ghost use Rattle.etx_matter.specs.Ends.{exit_status_of, fatal_text, limit_text};

/// An error after which TeX can't go on ("TeX: The Program", section 93).
#[derive(Clone, Copy, Debug, PartialEq, Eq)]
pub enum FatalError {
    /// The main file ended without `\end`.
    NoLegalEnd,
    /// A file that the job needs is absent or too long.
    FileError,
}

impl FatalError {
    /// The text that stands in parentheses behind the three asterisks.
    pub fn text(self) -> &'static [u8]
        ensures { result.now ≡ fatal_text self }
    {
        match self {
            FatalError::NoLegalEnd => b"job aborted, no legal \\end found",
            FatalError::FileError => b"job aborted, file error in nonstop mode",
        }
    }
}

/// A quantity with a limit, at which a job ends.
#[derive(Clone, Copy, Debug, PartialEq, Eq)]
pub enum Limit {
    /// Names of control sequences.
    Names,
    /// Open groups.
    Groups,
    /// Input levels: files, and token lists that are read.
    InputLevels,
    /// Scans in progress.
    Scans,
    /// Open conditionals.
    Conditionals,
}

impl Limit {
    /// What stands in the brackets of `TeX capacity exceeded, sorry [..]`: the quantity and its limit.
    pub fn text(self) -> &'static [u8]
        ensures { result.now ≡ limit_text self }
    {
        match self {
            Limit::Names => b"hash size=1048576",
            Limit::Groups => b"groups=10000",
            Limit::InputLevels => b"input stack size=10000",
            Limit::Scans => b"scans=10000",
            Limit::Conditionals => b"conditionals=10000",
        }
    }
}

/// The end of a job.
#[derive(Clone, Copy, Debug, PartialEq, Eq)]
pub enum End {
    /// `\end` was carried out.
    Ended,
    /// An error after which the job can't go on.
    Fatal(FatalError),
    /// A hundred errors were reported since the last paragraph ended ("TeX: The Program", section 82).
    Hundred,
    /// A limit of the engine would have been passed ("TeX: The Program", section 94).
    Capacity(Limit),
    /// The next step would have passed the job's budget.
    Spent,
    /// The source asks for something that this stage of `etx` doesn't have yet.
    Unbuilt,
}

/// The answer of the program; its exit status is its place in this list, from 0.
#[derive(Clone, Copy, Debug, PartialEq, Eq)]
pub enum Status {
    /// The job ended at `\end`, with no error.
    Clean,
    /// The job ended at `\end`, with at least one error.
    Errors,
    /// The job ended otherwise.
    Stopped,
    /// The job's budget of steps was spent.
    Spent,
    /// The words of the command line are of no form that is known.
    Usage,
    /// A file could not be read, though it may be there.
    ReadFault,
    /// A file or the terminal could not be written.
    WriteFault,
    /// There was no memory left.
    OutOfMemory,
}

impl Status {
    /// The exit status of the program.
    pub fn exit_status(self) -> u8
        ensures { result ≡ exit_status_of self }
    {
        match self {
            Status::Clean => 0,
            Status::Errors => 1,
            Status::Stopped => 2,
            Status::Spent => 3,
            Status::Usage => 4,
            Status::ReadFault => 5,
            Status::WriteFault => 6,
            Status::OutOfMemory => 7,
        }
    }
}

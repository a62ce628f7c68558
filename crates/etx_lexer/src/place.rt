// Places in a line.
ghost use Rattle.std.specs.Prelude.{◌≡◌, ◌≤◌, None};

/// What the lexer does with spaces and the end of the line: a new line, the middle of a line, or skipping spaces.
#[derive(Clone, Copy, Debug, PartialEq, Eq)]
pub enum LineState {
    /// At the beginning of a line spaces are skipped, and the end of the line is the name `par`.
    New,
    /// A space counts, and so does the end of the line.
    Middle,
    /// Behind a control word, a control space or a space no space counts.
    Skipping,
}

/// A place in a line, and the state there.
///
/// What is left of the line is `head`, if there is one, and then the line from byte `at` on. A place past the end
/// counts as the end.
#[derive(Clone, Copy, Debug, PartialEq, Eq)]
pub struct LinePlace {
    /// A byte of the line, counted from 0.
    pub at: u32,
    /// A character that was looked at already, with its front replaced. It stands before the byte `at`.
    pub head: Option<u8>,
    pub state: LineState,
}

impl LinePlace {
    /// The beginning of a line.
    pub fn start() -> LinePlace
        ensures { result ≡ record { at = 0; head = None; state = LineState.New } }
    {
        LinePlace {
            at: 0,
            head: None,
            state: LineState::New,
        }
    }
}

/// The place with this head before byte `at`.
pub(crate) fn place_at(head: Option<u8>, at: usize, state: LineState) -> LinePlace
    requires { at ≤ 1073741825 }
    ensures { result ≡ record { at = at; head = head; state = state } }
{
    LinePlace {
        at: at as u32,
        head,
        state,
    }
}

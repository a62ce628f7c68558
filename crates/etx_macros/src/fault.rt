// What a call says after a token.

/// Why no call goes on with a token. The token that decides is the last one that was fed.
#[derive(Clone, Copy, Debug, PartialEq, Eq)]
pub enum MatchFault {
    /// It isn't the next token of the text before the first parameter.
    DoesNotMatch,
    /// It is `\par` in an argument of a macro that isn't long, and doesn't stand outside braces where it begins the
    /// argument's delimiter or goes on with it.
    ParagraphEnded,
    /// It is a right brace that no left brace of the argument opens.
    ExtraBrace,
}

/// What is said of the tokens of a call, after the last one that was fed.
#[derive(Clone, Copy, Debug, PartialEq, Eq)]
pub enum Fed {
    /// They are the beginning of a call: more tokens are wanted.
    More,
    /// They are a call.
    Done,
    /// No call begins with them. The matcher has failed.
    Fault(MatchFault),
}

/// How a token came to be read.
#[derive(Clone, Copy, Debug, PartialEq, Eq)]
pub enum Origin {
    /// It was read from a file, or from a text that was put before it, as a macro's body and the tokens of `\aftergroup`,
    /// and counts as a step.
    Fresh,
    /// It was got and handed back at once.
    Back,
    /// It was put back by `\noexpand`: this time it isn't expanded.
    Unexpanded,
    /// It comes of `\the` or `\unexpanded` in a text that is expanded, and goes into that text as it is. It counts as a step.
    Kept,
}

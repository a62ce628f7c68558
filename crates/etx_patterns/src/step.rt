/// One step of a pattern: a letter, a digit between letters, or an edge of the word.
#[derive(Clone, Copy, Debug)]
pub enum Step {
    /// The code that the letter's `\lccode` gives, from 1.
    Letter(u8),
    /// How strongly the pattern asks for a hyphen here, where odd, or forbids one, where even.
    Digit(u8),
    /// The beginning or the end of a word, `.` in a pattern's text.
    Edge,
}

/// What a branch of a trie stands for.
#[derive(Clone, Copy, PartialEq, Eq, Debug)]
pub enum Mark {
    /// The first mark of each path: the language that the rest belongs to.
    Language(u8),
    /// A letter.
    Character(u8),
    /// An edge of the word.
    Boundary,
}

// The lines of a text.
ghost use Rattle.std.specs.Prelude.{◌≡◌, ◌<◌, ◌≤◌, ◌-◌, MatchOption, None, Some, length, take, drop, ◌==◌, position, IfSome};
ghost use Rattle.etx_lexer.specs.Splitting.{Split, first_line, split_at, without_return};

/// The byte that ends a line.
const NEW_LINE: u8 = 10;

/// The byte that is dropped where it stands directly before the end of a line.
const RETURN: u8 = 13;

/// A line of a text: its bytes are those from `start` to `end`, and the next line begins at `next`.
#[derive(Clone, Copy, Debug, PartialEq, Eq)]
pub struct LineSpan {
    pub start: usize,
    pub end: usize,
    pub next: usize,
}

/// The index of the first byte that ends a line.
fn line_end(text: &[u8]) -> Option<usize>
    ensures value { result ≡ position (λ b. b == 10) text.now }
    ensures within { IfSome result (λ k. k < length text.now) }
{
    text.iter().position(|b| *b == NEW_LINE)
}

/// The length of a line without one byte 13 at its end.
fn kept_length(line: &[u8]) -> usize
    ensures value { take result line.now ≡ without_return line.now }
    ensures small { result ≤ length line.now }
{
    let length = line.len();
    if length > 0 && line[length - 1] == RETURN {
        length - 1
    } else {
        length
    }
}

/// The first line of what is left of a text from a byte on. `None` exactly where nothing is left.
///
/// A line ends at a byte 10, which is no part of it, and neither is one byte 13 directly before that. A last line
/// without a byte 10 counts if it isn't empty.
pub fn next_line(text: &[u8], from: usize) -> Option<LineSpan>
    ensures line { let found = first_line (drop from text.now) in
        MatchOption result (found ≡ None)
        (λ s. found ≡ Some (record { line = take (s.end - s.start) (drop s.start text.now); rest = drop s.next text.now })) }
    ensures place { MatchOption result (length text.now ≤ from)
        (λ s. (s.start ≡ from) × (s.start ≤ s.end) × (s.end ≤ s.next) × (s.start < s.next) × (s.next ≤ length text.now)) }
{
    if from >= text.len() {
        return None;
    }
    let rest = &text[from..];
    match line_end(rest) {
        None => Some(LineSpan {
            start: from,
            end: text.len(),
            next: text.len(),
        }),
        Some(length) => Some(LineSpan {
            start: from,
            end: from + kept_length(&rest[..length]),
            next: from + length + 1,
        }),
    }
}

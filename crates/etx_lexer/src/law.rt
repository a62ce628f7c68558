// What holds of every text.
ghost use Rattle.std.specs.Prelude.{◌≡◌, ◌<◌, ℕ, List, [], length, Some, IfSome, MatchOption};
ghost use Rattle.etx_lexer.specs.Lex.{Lexes, Lex, lexed_of, lex, IsShorter};
ghost use Rattle.etx_lexer.specs.Splitting.{first_line, IsFirstLine};
ghost use Rattle.etx_lexer.specs.declared.place.LineState.{LineState};
ghost use Rattle.etx_lexer.specs.declared.lexed.Lexed.{Lexed};

/// Under all categories each text is lexed, in each state, in exactly one way by the rules, which is what the function
/// `lexed_of` gives. What is left is shorter than the text, unless that was empty.
pub fn each_text_is_lexed_in_one_way()
    ensures one { (cats : ℕ → ℕ) (text : List ℕ) (state : LineState) → let l = lexed_of cats text state in
        Lexes cats text state l.lexed l.rest l.state }
    ensures only { (cats : ℕ → ℕ) (text rest : List ℕ) (state behind : LineState) (lexed : Lexed) →
        Lexes cats text state lexed rest behind → lexed_of cats text state ≡ lex lexed rest behind }
    ensures shorter { (cats : ℕ → ℕ) (text : List ℕ) (state : LineState) →
        IsShorter (lexed_of cats text state).rest text }
{}

/// Each text but the empty one has exactly one first line: the text is that line, its end and the rest, where the end is
/// byte 10, or bytes 13 and 10, or nothing at the text's end. The line has no byte 10, and no byte 13 that could belong to
/// its end. Behind it less is left than the text.
pub fn each_text_has_one_first_line()
    ensures one { (text : List ℕ) → MatchOption (first_line text) (text ≡ []) (λ split. IsFirstLine split.line split.rest text) }
    ensures only { (text line rest : List ℕ) → IsFirstLine line rest text → first_line text ≡ Some (record { line = line; rest = rest }) }
    ensures shorter { (text : List ℕ) → IfSome (first_line text) (λ split. length split.rest < length text) }
{}

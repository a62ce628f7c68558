// What a token is to a macro call.
ghost use Rattle.std.specs.Prelude.{◌≡◌, ◌<◌, ◌≤◌, ◌^◌, ◌↔◌, true, IsTrue, length};
ghost use Rattle.etx_macros.specs.Marks.{has_category, brace_of, IsUnbraced, is_space, is_par, behind, IsBalanced, same_token, ends_with};

use etx_matter::{PAR, Token};

/// Whether a token is a character of this category.
pub fn has_category(token: Token, category: u8) -> bool
    ensures { result ≡ has_category token category }
{
    match token {
        Token::Char { code: _, cat } => cat == category,
        Token::Name(_) | Token::Param(_) => false,
    }
}

/// Whether a token is a brace: a character of category 1 or 2.
#[derive(Clone, Copy, Debug, PartialEq, Eq)]
pub enum Brace {
    Left,
    Right,
    Neither,
}

/// Which brace a token is.
#[tactic(auto, unfolding(crate::specs::Marks::brace_of))]
pub fn brace_of(token: Token) -> Brace
    ensures brace { result ≡ brace_of token }
    ensures left { result ≡ Brace.Left → has_category token 1 ≡ true }
    ensures neither { result ≡ Brace.Neither → IsUnbraced token }
{
    if has_category(token, 1) {
        Brace::Left
    } else if has_category(token, 2) {
        Brace::Right
    } else {
        Brace::Neither
    }
}

/// Whether a token is a space as TeX's lexer makes it: code 32, category 10.
pub fn is_space(token: Token) -> bool
    ensures { result ≡ is_space token }
{
    match token {
        Token::Char { code, cat } => code == 32 && cat == 10,
        Token::Name(_) | Token::Param(_) => false,
    }
}

/// Whether a token is the name `par`.
pub fn is_par(token: Token) -> bool
    ensures { result ≡ is_par token }
{
    match token {
        Token::Name(name) => name.0 == PAR.0,
        Token::Char { .. } | Token::Param(_) => false,
    }
}

/// Whether two tokens are equal.
pub fn is_same(token: Token, other: Token) -> bool
    ensures { result ≡ same_token token other }
{
    token == other
}

/// How many braces are open behind a token, where `depth` were open before it. `None` where it closes none.
#[tactic(auto, unfolding(crate::specs::Marks::behind))]
pub fn behind(token: Token, depth: usize) -> Option<usize>
    requires { depth < 2 ^ 32 }
    ensures { result ≡ behind token depth }
{
    if has_category(token, 1) {
        Some(depth + 1)
    } else if has_category(token, 2) {
        depth.checked_sub(1)
    } else {
        Some(depth)
    }
}

/// Whether each brace of a text has its partner.
pub fn is_balanced(text: &[Token]) -> bool
    requires { length text.now ≤ 1073741824 }
    ensures { IsTrue result ↔ IsBalanced text.now }
{
    let mut depth = 0;
    for token in text {
        match behind(*token, depth) {
            Some(next) => depth = next,
            None => return false,
        }
    }
    depth == 0
}

/// Whether `text` ends with `end`.
pub fn ends_with(text: &[Token], end: &[Token]) -> bool
    ensures { result ≡ ends_with text.now end.now }
{
    text.ends_with(end)
}

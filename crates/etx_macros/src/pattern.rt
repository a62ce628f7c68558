// A macro's parameter text.
ghost use Rattle.std.specs.Prelude.{◌≡◌, ◌≤◌, ◌<◌, ◌++◌, ◌∷◌, [], All, IfOk, MatchResult, Ok, length, drop};
ghost use Rattle.etx_macros.specs.declared.pattern.PatternFault.TheVariants.{OutOfMemory};
ghost use Rattle.etx_macros.specs.Marks.{has_category, IsDelimiter};
ghost use Rattle.etx_macros.specs.ParameterText.{pattern_of, is_brace, is_digit, IsFaultOf, wrong_number, number_of, behind_of, next_of};

use crate::mark::has_category;
use etx_lists::Listed;
use etx_matter::{Token, Tokens};
use std::alloc::{AllocError, Global};
use std::marker::Model;
use std::sync::Arc;

/// The most parameters of a macro.
const MOST_PARAMETERS: usize = 9;

/// The parts of a parameter text.
#[derive(Drop)]
struct PatternText {
    parts: Listed<Tokens>,
    ghost has_text: { 0 < length parts },
    ghost flat: { All IsDelimiter parts },
}

/// A parameter text, taken apart. It is never changed, and its sharing copies nothing.
///
/// Contracts see its parts: the text before the first parameter, then for each parameter the text that delimits it,
/// which may be empty.
#[derive(Drop)]
pub struct Pattern {
    text: Arc<PatternText, Global>,
}

impl Model for Pattern {
    ghost use Rattle.std.specs.Prelude.{List};
    ghost use Rattle.std.specs.Arc.{arc_value};
    ghost use Rattle.etx_matter.specs.declared.token.Token.{Token};

    ghost Value = { List (List Token) };

    ghost view = { λ it. (arc_value it.text).parts };
}

/// What is wrong with a parameter text.
#[derive(Clone, Copy, Debug, PartialEq, Eq)]
pub enum PatternFault {
    /// One of the first nine characters of category 6 isn't followed by the next digit.
    BadNumber,
    /// There is a tenth parameter.
    TooManyParameters,
    OutOfMemory,
}

impl From<AllocError> for PatternFault {
    ghost from_gives = { λ _ fault. fault ≡ OutOfMemory };

    fn from(_error: AllocError) -> PatternFault {
        PatternFault::OutOfMemory
    }
}

/// Whether a token is the digit `n`, of category 12.
fn is_digit(token: Token, n: u8) -> bool
    requires { n ≤ 9 }
    ensures { result ≡ is_digit n token }
{
    match token {
        Token::Char { code, cat } => code == 48 + n && cat == 12,
        Token::Name(_) | Token::Param(_) => false,
    }
}

/// What a parameter text begins with.
enum Next {
    /// Nothing, or a brace: the text is over.
    End,
    /// A token that is to be matched as it is.
    Text(Token),
    /// A character of category 6 and the next number.
    Parameter,
    /// A character of category 6 and a left brace: the brace is to be matched, and the text is over.
    Brace(Token),
}

/// What is wrong where no number follows, and `count` parameters went before.
fn wrong_number(count: usize) -> PatternFault
    ensures { result ≡ wrong_number count }
{
    if count == MOST_PARAMETERS {
        PatternFault::TooManyParameters
    } else {
        PatternFault::BadNumber
    }
}

/// The parameter that this token numbers, where `count` went before.
fn number_at(token: Token, count: usize) -> Result<Next, PatternFault>
    requires { count ≤ 9 }
    ensures { result ≡ number_of count token }
{
    if count == MOST_PARAMETERS {
        Err(PatternFault::TooManyParameters)
    } else if is_digit(token, count as u8 + 1) {
        Ok(Next::Parameter)
    } else {
        Err(PatternFault::BadNumber)
    }
}

/// What stands at `at`, behind a character of category 6.
fn behind_mark(tokens: &[Token], at: usize, count: usize) -> Result<Next, PatternFault>
    requires count { count ≤ 9 }
    requires at { at ≤ length tokens.now }
    ensures { result ≡ behind_of count (drop at tokens.now) }
{
    if at == tokens.len() {
        return Err(wrong_number(count));
    }
    let token = tokens[at];
    if has_category(token, 1) {
        return Ok(Next::Brace(token));
    }
    number_at(token, count)
}

/// Whether a token is a brace of either kind.
fn is_brace(token: Token) -> bool
    ensures { result ≡ is_brace token }
{
    has_category(token, 1) || has_category(token, 2)
}

/// What stands at `at`, where `count` parameters went before.
fn next_in(tokens: &[Token], at: usize, count: usize) -> Result<Next, PatternFault>
    requires count { count ≤ 9 }
    requires at { at ≤ length tokens.now }
    requires small { length tokens.now ≤ 1073741824 }
    ensures { result ≡ next_of count (drop at tokens.now) }
{
    if at == tokens.len() {
        return Ok(Next::End);
    }
    let token = tokens[at];
    if is_brace(token) {
        return Ok(Next::End);
    }
    if has_category(token, 6) {
        return behind_mark(tokens, at + 1, count);
    }
    Ok(Next::Text(token))
}

/// A pattern of these parts, and a last one.
pub(crate) fn whole(
    alloc: Global,
    mut parts: Listed<Tokens>,
    last: Tokens,
) -> Result<Pattern, AllocError>
    requires parts { All IsDelimiter parts }
    requires last { IsDelimiter last }
    ensures { IfOk result (λ pattern. pattern ≡ parts ++ last ∷ []) }
{
    parts.push(last)?;
    Ok(Pattern {
        text: Arc::new(alloc, PatternText { parts })?,
    })
}

impl Pattern {
    /// Takes a parameter text apart. In it a parameter is a character of category 6 and the next digit, of category 12,
    /// from 1 on. All other tokens are matched as they are, up to the first brace (category 1 or 2), which ends the
    /// parameter text: it belongs to the macro's body, as does all that follows ("TeX: The Program", section 474). A
    /// character of category 6 and a left brace end it too; they stand for that brace, which is then the last token to
    /// be matched (section 476).
    ///
    /// The first character of category 6 that has neither behind it decides the fault: `TooManyParameters` where nine
    /// parameters went before, else `BadNumber`.
    pub fn read(alloc: Global, params: &Tokens) -> Result<Pattern, PatternFault>
        ensures { MatchResult result (λ pattern. pattern_of params.now ≡ Ok pattern) (λ fault. IsFaultOf fault params.now) }
    {
        let tokens = params.as_slice();
        let mut parts = Listed::new(alloc);
        let mut part = Tokens::new(alloc);
        let mut at = 0;
        loop {
            let next = match next_in(tokens, at, parts.len()) {
                Ok(next) => next,
                Err(fault) => return Err(fault),
            };
            match next {
                Next::End => return Ok(whole(alloc, parts, part)?),
                Next::Text(token) => {
                    part.push(token)?;
                    at += 1;
                }
                Next::Brace(brace) => {
                    part.push(brace)?;
                    return Ok(whole(alloc, parts, part)?);
                }
                Next::Parameter => {
                    parts.push(part)?;
                    part = Tokens::new(alloc);
                    at += 2;
                }
            }
        }
    }

    /// The same pattern, once more. The only want is of room in the count of those that share it.
    pub fn share(&self) -> Result<Pattern, AllocError>
        ensures { IfOk result (λ it. it ≡ self.now) }
    {
        Ok(Pattern {
            text: Arc::try_clone(&self.text)?,
        })
    }

    /// The text before the first parameter, then for each parameter the text that delimits it. There is one at least. No
    /// token of them is a right brace, and none but the last one of a part a left brace.
    pub fn parts(&self) -> &[Tokens]
        ensures same { result.now ≡ self.now }
        ensures some { 0 < length self.now }
        ensures flat { All IsDelimiter self.now }
    {
        self.text.parts.as_slice()
    }
}

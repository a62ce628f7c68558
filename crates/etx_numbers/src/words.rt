//! Words in numbers: units, `true`, `fil`, `plus` and the like. Their letters are characters of any category but 13, large or small.
ghost use Rattle.std.specs.Prelude.{◌≡◌, ◌++◌, ◌∷◌, [], IfOk, if◌then◌else◌};
ghost use Rattle.etx_numbers.specs.Words.{found_among, found_by, is_front, is_begun, is_plus, is_minus, is_by, word_text, is_unit, begins_word, is_in, letter_of, letters_of, found_in, letter_read};

use etx_answers::{Read, letter};
use etx_lists::Bytes;
use etx_matter::Token;
use etx_state::NumberScan;
use std::alloc::{AllocError, Global};

/// A word.
#[derive(Clone, Copy)]
pub enum Word {
    Em,
    Ex,
    Pt,
    Pc,
    In,
    Cm,
    Mm,
    Bp,
    Dd,
    Cc,
    Sp,
    Mu,
    True,
    Fil,
    Plus,
    Minus,
    By,
}

/// The words that may stand at a place.
#[derive(Clone, Copy)]
pub enum WordSet {
    /// Units, behind `true` or not, in mu or not, infinite or not.
    Units {
        is_true: bool,
        is_mu: bool,
        is_infinite: bool,
    },
    PlusMinus,
    Minus,
    By,
}

static WORDS: [Word; 17] = [
    Word::Em,
    Word::Ex,
    Word::Pt,
    Word::Pc,
    Word::In,
    Word::Cm,
    Word::Mm,
    Word::Bp,
    Word::Dd,
    Word::Cc,
    Word::Sp,
    Word::Mu,
    Word::True,
    Word::Fil,
    Word::Plus,
    Word::Minus,
    Word::By,
];

/// How letters stand to the words of a place.
#[derive(Clone, Copy)]
pub enum Spelled {
    /// They are this word.
    Whole(Word),
    /// A word begins with them.
    Front,
    /// No word does.
    Nothing,
}

impl Word {
    #[tactic(auto, unfolding(crate::specs::Words::word_text))]
    fn text(self) -> &'static [u8]
        ensures { result.now ≡ word_text self }
    {
        match self {
            Word::Em => b"em",
            Word::Ex => b"ex",
            Word::Pt => b"pt",
            Word::Pc => b"pc",
            Word::In => b"in",
            Word::Cm => b"cm",
            Word::Mm => b"mm",
            Word::Bp => b"bp",
            Word::Dd => b"dd",
            Word::Cc => b"cc",
            Word::Sp => b"sp",
            Word::Mu => b"mu",
            Word::True => b"true",
            Word::Fil => b"fil",
            Word::Plus => b"plus",
            Word::Minus => b"minus",
            Word::By => b"by",
        }
    }
}

/// Whether a word may stand as a unit.
fn is_unit(is_true: bool, is_mu: bool, is_infinite: bool, word: Word) -> bool
    ensures { result ≡ is_unit is_true is_mu is_infinite word }
{
    match word {
        Word::Fil => is_infinite && !is_true,
        Word::Mu => is_mu,
        Word::Em => !is_mu && !is_true,
        Word::Ex => !is_mu && !is_true,
        Word::True => !is_mu && !is_true,
        Word::Pt => !is_mu,
        Word::Pc => !is_mu,
        Word::In => !is_mu,
        Word::Cm => !is_mu,
        Word::Mm => !is_mu,
        Word::Bp => !is_mu,
        Word::Dd => !is_mu,
        Word::Cc => !is_mu,
        Word::Sp => !is_mu,
        Word::Plus => false,
        Word::Minus => false,
        Word::By => false,
    }
}

pub(crate) fn is_plus(word: Word) -> bool
    ensures { result ≡ is_plus word }
{
    match word {
        Word::Plus => true,
        _ => false,
    }
}

fn is_minus(word: Word) -> bool
    ensures { result ≡ is_minus word }
{
    match word {
        Word::Minus => true,
        _ => false,
    }
}

fn is_by(word: Word) -> bool
    ensures { result ≡ is_by word }
{
    match word {
        Word::By => true,
        _ => false,
    }
}

impl WordSet {
    #[tactic(auto, unfolding(crate::specs::Words::is_in))]
    fn has(self, word: Word) -> bool
        ensures { result ≡ is_in self word }
    {
        match self {
            WordSet::Units {
                is_true,
                is_mu,
                is_infinite,
            } => is_unit(is_true, is_mu, is_infinite, word),
            WordSet::PlusMinus => is_plus(word) || is_minus(word),
            WordSet::Minus => is_minus(word),
            WordSet::By => is_by(word),
        }
    }
}

/// The small letter that a token is, if it is a character that isn't active.
#[tactic(auto, unfolding(crate::specs::Words::letter_of))]
pub(crate) fn letter_of(token: Token) -> Option<u8>
    ensures { result ≡ letter_of token }
{
    match token {
        Token::Char { code, cat } => {
            if cat == 13 {
                None
            } else if code >= b'A' && code <= b'Z' {
                Some(code + 32)
            } else {
                Some(code)
            }
        }
        Token::Name(_) => None,
        Token::Param(_) => None,
    }
}

/// How letters stand to the words of a place.
#[tactic(auto, unfolding(crate::specs::Words::found_in, crate::specs::Words::all_words))]
fn found_in(set: WordSet, letters: &[u8]) -> Spelled
    ensures { result ≡ found_in set letters.now }
{
    found_among(set, letters, &WORDS)
}

/// How letters stand to those of these words that may stand at a place.
fn found_among(set: WordSet, letters: &[u8], words: &[Word]) -> Spelled
    ensures { result ≡ found_among set letters.now Spelled.Nothing words.now }
{
    let mut spelled = Spelled::Nothing;
    for word in words {
        if set.has(*word) {
            if word.text() == letters {
                return Spelled::Whole(*word);
            }
            spelled = spelled_by(letters, *word, spelled);
        }
    }
    spelled
}

/// The letters begin a word, or stand to the others so.
fn spelled_by(letters: &[u8], word: Word, others: Spelled) -> Spelled
    ensures { result ≡ (if is_front letters.now (word_text word) then Spelled.Front else others) }
{
    if word.text().starts_with(letters) {
        Spelled::Front
    } else {
        others
    }
}

/// The letters that were kept, and one more.
fn spell_word(alloc: Global, letters: &[Token], more: Token) -> Result<Option<Bytes>, AllocError>
    ensures { IfOk result (λ text. text ≡ letters_of (letters.now ++ more ∷ [])) }
{
    let mut text = Bytes::new(alloc);
    for token in letters {
        match letter_of(*token) {
            Some(code) => text.push(code)?,
            None => return Ok(None),
        }
    }
    match letter_of(more) {
        Some(code) => {
            text.push(code)?;
            Ok(Some(text))
        }
        None => Ok(None),
    }
}

/// How the letters that were kept, and one more, stand to the words of a place.
pub fn spell(
    alloc: Global,
    set: WordSet,
    letters: &[Token],
    more: Token,
) -> Result<Spelled, AllocError>
    ensures { IfOk result (λ it. it ≡ found_by set (letters_of (letters.now ++ more ∷ []))) }
{
    match spell_word(alloc, letters, more)? {
        None => Ok(Spelled::Nothing),
        Some(text) => Ok(found_in(set, text.as_slice())),
    }
}

/// Whether a word of a place begins with this token.
#[tactic(auto, unfolding(crate::specs::Words::begins_word))]
pub fn begins_word(set: WordSet, token: Token) -> bool
    ensures { result ≡ begins_word set token }
{
    match letter_of(token) {
        None => false,
        Some(code) => is_begun(found_in(set, &[code])),
    }
}

/// Whether a word begins with the letters, and isn't whole.
fn is_begun(spelled: Spelled) -> bool
    ensures { result ≡ is_begun spelled }
{
    match spelled {
        Spelled::Whole(_) => false,
        Spelled::Front => true,
        Spelled::Nothing => false,
    }
}

/// A word of a place begins with the token, or else this is decided.
pub(crate) fn letter_read(set: WordSet, scan: NumberScan, token: Token, other: Read) -> Read
    ensures { result ≡ letter_read set scan token other }
{
    if begins_word(set, token) {
        letter(scan)
    } else {
        other
    }
}

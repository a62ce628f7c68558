//! How a token is got.
ghost use Rattle.std.specs.Prelude.{◌≡◌, ◌+◌, ◌≤◌, ◌++◌, [], ◌∷◌, codes, MatchOption, OnOk, IfOk};
ghost use Rattle.std.specs.Option.{option_copied};
ghost use Rattle.etx_state.specs.Rests.{rest_of};
ghost use Rattle.etx_state.specs.Mouths.{mouth_of};
ghost use Rattle.etx_expand.specs.Moves.{read_next, charge_of, charged};
ghost use Rattle.etx_answers.specs.Printing.{shown_name};
ghost use Rattle.etx_expand.specs.Getting.{reported, condition_text, skipped, expansion_watch, assign_watch, watch_by, watch_at, watch_of, watched_from, watched, ending_of, forbidden, file_ended, admitted, token_got, name_got, lexed_got, next_got, invalid_did, got_of};

use crate::moves::{count, put_back, read_one};
use etx_answers::{Did, Failure, is_outer, push_escaped, push_name, push_natural, unexpanded};
use etx_input::{Next, Origin};
use etx_lexer::Lexed;
use etx_lists::Bytes;
use etx_matter::{Boxed, End, FatalError, Limit, PAR, Token};
use etx_state::{
    AssignScan, Capacity, Condition, Entries, Entry, ExpansionScan, Frozen, Meaning, Rest, Scan,
    State,
};
use std::alloc::AllocError;

/// The right brace that ends a text.
const RIGHT_BRACE: Token = Token::Char { code: 125, cat: 2 };

/// The space that a forbidden control sequence leaves.
const SPACE: Token = Token::Char { code: 32, cat: 10 };

/// Where control sequences are forbidden that are outer.
#[derive(Clone, Copy, Debug, PartialEq, Eq)]
pub enum Watch {
    /// They aren't.
    Nothing,
    /// In the definition of this control sequence.
    Defining(Token),
    /// In the text that this control sequence reads.
    Absorbing(Token),
    /// In the arguments of this macro.
    Matching(Token),
    /// In a text that isn't taken, from this line on.
    Skipping(u32),
}

/// What is got.
#[derive(Drop)]
pub enum Got {
    /// A token, and what it means.
    Token { token: Token, meaning: Meaning },
    /// No token, and the turn is over.
    Over(Did),
    /// No token: an outer macro or the end of a file cuts the scan off, which is an error with this text.
    Cut(Bytes),
}

/// What a scan says of outer control sequences, if it says something.
#[inline(always)]
fn expansion_watch(scan: &ExpansionScan) -> Option<Watch>
    ensures { MatchOption result ((others : Watch) → expansion_watch scan.now others ≡ others) (λ w. (others : Watch) → expansion_watch scan.now others ≡ w) }
{
    match scan {
        ExpansionScan::ExpandAfter => None,
        ExpansionScan::NoExpand => Some(Watch::Nothing),
        ExpansionScan::StringOf => Some(Watch::Nothing),
        ExpansionScan::CsName(_) => None,
        ExpansionScan::Call(call) => Some(Watch::Matching(call.get().name)),
        ExpansionScan::MeaningOf => Some(Watch::Nothing),
        ExpansionScan::Unless => None,
        ExpansionScan::FirstCharacter { .. } => None,
        ExpansionScan::SecondCharacter { .. } => None,
        ExpansionScan::FirstMeaning(_) => Some(Watch::Nothing),
        ExpansionScan::SecondMeaning { .. } => Some(Watch::Nothing),
        ExpansionScan::Relation { .. } => None,
        ExpansionScan::Defined(_) => Some(Watch::Nothing),
        ExpansionScan::IfCsName { .. } => None,
        ExpansionScan::Skip(skip) => Some(Watch::Skipping(skip.line)),
    }
}

#[inline(always)]
fn assign_watch(scan: &AssignScan) -> Option<Watch>
    ensures { MatchOption result ((others : Watch) → assign_watch scan.now others ≡ others) (λ w. (others : Watch) → assign_watch scan.now others ≡ w) }
{
    match scan {
        AssignScan::Params(definition) => Some(Watch::Defining(definition.get().name)),
        AssignScan::Body(definition) => Some(Watch::Defining(definition.get().name)),
        AssignScan::Prefix(_) => None,
        AssignScan::Name(_) => None,
        AssignScan::LetEquals { .. } => None,
        AssignScan::LetSpace { .. } => None,
        AssignScan::LetToken { .. } => None,
        AssignScan::FutureFirst { .. } => None,
        AssignScan::AfterGroup => None,
        AssignScan::AfterAssignment => None,
        AssignScan::Arithmetic { .. } => None,
        AssignScan::By { .. } => None,
        AssignScan::List { .. } => None,
    }
}

#[tactic(auto, unfolding(crate::specs::Getting::watch_by))]
#[inline(always)]
fn watch_by(scan: &Scan) -> Option<Watch>
    ensures { MatchOption result ((others : Watch) → watch_by scan.now others ≡ others) (λ w. (others : Watch) → watch_by scan.now others ≡ w) }
{
    match scan {
        Scan::Expansion(scan) => expansion_watch(scan),
        Scan::Number { .. } => None,
        Scan::Text { text, .. } => Some(Watch::Absorbing(text.get().reader)),
        Scan::Assign(scan) => assign_watch(scan),
        Scan::Control(_) => None,
    }
}

#[inline(always)]
fn watch_at(entry: &Entry) -> Option<Watch>
    ensures { MatchOption result ((others : Watch) → watch_at entry.now others ≡ others) (λ w. (others : Watch) → watch_at entry.now others ≡ w) }
{
    match entry {
        Entry::Scan { scan, .. } => watch_by(scan),
        Entry::Given { .. } => None,
        Entry::Kept { .. } => None,
        Entry::Due(_) => None,
        Entry::Say(_) => None,
        Entry::Word { scan, .. } => watch_by(scan),
    }
}

/// What the entries say of outer control sequences: the innermost scan that says something decides.
#[tactic(auto, unfolding(crate::specs::Getting::watch_of))]
#[inline(always)]
fn find_watch(entries: &Entries) -> Watch
    ensures { result ≡ watch_of entries.now }
{
    for i in 0..entries.len() {
        let Some(entry) = entries.at(i) else {
            return Watch::Nothing;
        };
        if let Some(watch) = watch_at(entry) {
            return watch;
        }
    }
    Watch::Nothing
}

/// The same, where a scan stands above them.
#[inline(always)]
fn watch_above(scan: Option<&Scan>, entries: &Entries) -> Watch
    ensures { result ≡ watched_from (option_copied scan.entry) (watch_of entries.now) }
{
    match scan {
        None => find_watch(entries),
        Some(scan) => match watch_by(scan) {
            None => find_watch(entries),
            Some(watch) => watch,
        },
    }
}

/// Adds a phrase and the name of a control sequence.
fn push_phrase(rest: &Rest, text: &mut Bytes, phrase: &[u8], name: Token) -> Result<(), AllocError>
    ensures { OnOk result (text.new ≡ text.old ++ (phrase.now ++ shown_name (rest_of rest.now) name)) }
{
    text.extend_from_slice(phrase)?;
    push_name(rest, text, name)
}

/// The name of a conditional.
fn push_condition(
    rest: &Rest,
    text: &mut Bytes,
    condition: Option<Condition>,
) -> Result<(), AllocError>
    ensures { OnOk result (text.new ≡ text.old ++ condition_text condition (rest_of rest.now)) }
{
    match condition {
        None => push_escaped(rest, text, b"fi"),
        Some(condition) => {
            if condition.is_unless {
                push_escaped(rest, text, b"unless")?;
            }
            push_escaped(rest, text, condition.kind.name())
        }
    }
}

/// Adds what is left out, as errors say it.
fn push_skipped(rest: &Rest, text: &mut Bytes, line: u32) -> Result<(), AllocError>
    ensures { OnOk result (text.new ≡ text.old ++ skipped line (rest_of rest.now)) }
{
    push_condition(rest, text, rest.condition())?;
    text.extend_from_slice(b"; all text was ignored after line ")?;
    push_natural(text, line)
}

/// Adds what is read, as errors say it.
fn push_watched(rest: &Rest, text: &mut Bytes, watch: Watch) -> Result<(), AllocError>
    ensures { OnOk result (text.new ≡ text.old ++ watched (rest_of rest.now) watch) }
{
    match watch {
        Watch::Nothing => Ok(()),
        Watch::Defining(name) => push_phrase(rest, text, b"definition of ", name),
        Watch::Absorbing(name) => push_phrase(rest, text, b"text of ", name),
        Watch::Matching(name) => push_phrase(rest, text, b"use of ", name),
        Watch::Skipping(line) => push_skipped(rest, text, line),
    }
}

/// Reads what ends the scan.
#[tactic(auto, unfolding(etx_input::specs::Levels::with_list))]
fn end_scan(s: &mut State, watch: Watch) -> Result<(), AllocError>
    ensures { OnOk result (mouth_of s.new ≡ read_next Origin.Fresh (ending_of watch) (mouth_of s.old)) }
{
    match watch {
        Watch::Nothing => Ok(()),
        Watch::Defining(_) => read_one(s, RIGHT_BRACE, Origin::Fresh),
        Watch::Absorbing(_) => read_one(s, RIGHT_BRACE, Origin::Fresh),
        Watch::Matching(_) => read_one(s, Token::Name(PAR), Origin::Fresh),
        Watch::Skipping(_) => read_one(s, Token::Name(Frozen::Fi.name()), Origin::Fresh),
    }
}

/// How the text of an error begins that names the scan.
fn reported(what: &[u8], watch: Watch) -> &[u8]
    ensures { result.now ≡ reported watch what.now }
{
    match watch {
        Watch::Skipping(_) => b"Incomplete ",
        _ => what,
    }
}

/// The text of an error that names the scan.
fn report(rest: &Rest, what: &[u8], watch: Watch) -> Result<Bytes, AllocError>
    ensures { IfOk result (λ text. text ≡ reported watch what.now ++ watched (rest_of rest.now) watch) }
{
    let mut text = Bytes::from_slice(rest.alloc(), reported(what, watch))?;
    push_watched(rest, &mut text, watch)?;
    Ok(text)
}

/// An outer control sequence in the midst of a scan: the scan gets a space, then what ends it, and then the token is
/// read again.
fn forbid(s: &mut State, watch: Watch, token: Token) -> Result<Got, AllocError>
    ensures now { OnOk result (mouth_of s.new ≡ (forbidden watch token (mouth_of s.old)).now) }
    ensures got { IfOk result (λ g. g ≡ (forbidden watch token (mouth_of s.old)).got) }
{
    let text = report(
        &s.rest,
        b"Forbidden control sequence found while scanning ",
        watch,
    )?;
    put_back(s, token)?;
    end_scan(s, watch)?;
    read_one(s, SPACE, Origin::Back)?;
    Ok(Got::Cut(text))
}

/// A token is got, unless it is outer where that is forbidden.
#[inline(always)]
fn admit(
    s: &mut State,
    above: Option<&Scan>,
    token: Token,
    meaning: Meaning,
) -> Result<Got, AllocError>
    ensures now { OnOk result (mouth_of s.new ≡ (admitted (watched_from (option_copied above.entry) (watch_of (mouth_of s.old).entries)) token meaning (mouth_of s.old)).now) }
    ensures got { IfOk result (λ g. g ≡ (admitted (watched_from (option_copied above.entry) (watch_of (mouth_of s.old).entries)) token meaning (mouth_of s.old)).got) }
{
    if !is_outer(&meaning) {
        return Ok(Got::Token { token, meaning });
    }
    let watch = watch_above(above, &s.entries);
    match watch {
        Watch::Nothing => Ok(Got::Token { token, meaning }),
        Watch::Defining(_) => forbid(s, watch, token),
        Watch::Absorbing(_) => forbid(s, watch, token),
        Watch::Matching(_) => forbid(s, watch, token),
        Watch::Skipping(_) => forbid(s, watch, token),
    }
}

#[tactic(auto, unfolding(crate::specs::Getting::token_got))]
#[inline(always)]
fn take(
    s: &mut State,
    above: Option<&Scan>,
    token: Token,
    origin: Origin,
) -> Result<Got, AllocError>
    ensures now { OnOk result (mouth_of s.new ≡ (token_got (watched_from (option_copied above.entry) (watch_of (mouth_of s.old).entries)) token origin (mouth_of s.old)).now) }
    ensures got { IfOk result (λ g. g ≡ (token_got (watched_from (option_copied above.entry) (watch_of (mouth_of s.old).entries)) token origin (mouth_of s.old)).got) }
{
    let meaning = s.rest.meaning_of(token)?;
    match origin {
        Origin::Fresh => admit(s, above, token, meaning),
        Origin::Back => admit(s, above, token, meaning),
        Origin::Unexpanded => Ok(Got::Token {
            token,
            meaning: unexpanded(meaning),
        }),
        Origin::Kept => Ok(Got::Token {
            token,
            meaning: Meaning::Unexpanded,
        }),
    }
}

/// A name of a file gets its number.
#[tactic(auto, unfolding(crate::specs::Getting::name_got))]
fn take_name(s: &mut State, above: Option<&Scan>, name: &[u8]) -> Result<Got, AllocError>
    ensures now { OnOk result (mouth_of s.new ≡ (name_got (watched_from (option_copied above.entry) (watch_of (mouth_of s.old).entries)) name.now (mouth_of s.old)).now) }
    ensures got { IfOk result (λ g. g ≡ (name_got (watched_from (option_copied above.entry) (watch_of (mouth_of s.old).entries)) name.now (mouth_of s.old)).got) }
{
    match s.rest.name(name) {
        Ok(number) => take(s, above, Token::Name(number), Origin::Fresh),
        Err(Capacity::Full(Limit::Names)) => {
            Ok(Got::Over(Did::End(End::Capacity(Limit::Names))))
        }
        Err(_) => Err(AllocError),
    }
}

fn invalid(rest: &Rest) -> Result<Got, AllocError>
    ensures { IfOk result (λ g. g ≡ Got.Over invalid_did) }
{
    let text = Bytes::from_slice(rest.alloc(), b"Text line contains an invalid character")?;
    let failure = Failure {
        text,
        is_back: false,
        inserted: None,
    };
    Ok(Got::Over(Did::Error(Boxed::new(rest.alloc(), failure)?)))
}

/// A token is a step; a character that is invalid is none.
#[tactic(auto, unfolding(crate::specs::Getting::lexed_got))]
fn take_lexed(s: &mut State, above: Option<&Scan>, lexed: Lexed) -> Result<Got, AllocError>
    ensures now { OnOk result (mouth_of s.new ≡ (lexed_got (watched_from (option_copied above.entry) (watch_of (mouth_of s.old).entries)) lexed (mouth_of s.old)).now) }
    ensures got { IfOk result (λ g. g ≡ (lexed_got (watched_from (option_copied above.entry) (watch_of (mouth_of s.old).entries)) lexed (mouth_of s.old)).got) }
{
    match lexed {
        Lexed::Char { code, cat } => {
            count(s)?;
            take(s, above, Token::Char { code, cat }, Origin::Fresh)
        }
        Lexed::Name(name) => {
            count(s)?;
            take_name(s, above, name.as_slice())
        }
        Lexed::Invalid(_) => invalid(&s.rest),
        Lexed::LineEnd => {
            count(s)?;
            Ok(Got::Over(Did::Nothing))
        }
    }
}

/// A scan gets what ends it, since the file ended.
fn cut_short(s: &mut State, watch: Watch) -> Result<Got, AllocError>
    ensures now { OnOk result (mouth_of s.new ≡ read_next Origin.Fresh (ending_of watch) (mouth_of s.old)) }
    ensures got { IfOk result (λ g. g ≡ Got.Cut (reported watch (codes "File ended while scanning ") ++ watched (mouth_of s.old).rest watch)) }
{
    let text = report(&s.rest, b"File ended while scanning ", watch)?;
    end_scan(s, watch)?;
    Ok(Got::Cut(text))
}

/// A file is over: in the midst of a scan that is an error, and the scan gets what ends it.
fn end_file(s: &mut State, above: Option<&Scan>) -> Result<Got, AllocError>
    ensures now { OnOk result (mouth_of s.new ≡ (file_ended (watched_from (option_copied above.entry) (watch_of (mouth_of s.old).entries)) (mouth_of s.old)).now) }
    ensures got { IfOk result (λ g. g ≡ (file_ended (watched_from (option_copied above.entry) (watch_of (mouth_of s.old).entries)) (mouth_of s.old)).got) }
{
    let watch = watch_above(above, &s.entries);
    match watch {
        Watch::Nothing => Ok(Got::Over(Did::Nothing)),
        Watch::Defining(_) => cut_short(s, watch),
        Watch::Absorbing(_) => cut_short(s, watch),
        Watch::Matching(_) => cut_short(s, watch),
        Watch::Skipping(_) => cut_short(s, watch),
    }
}

/// Charges what a token of a list is.
#[inline(always)]
fn charge(s: &mut State, origin: Origin) -> Result<(), AllocError>
    ensures { OnOk result (mouth_of s.new ≡ charged (charge_of origin) (mouth_of s.old)) }
{
    match origin {
        Origin::Fresh => count(s),
        Origin::Back => Ok(()),
        Origin::Unexpanded => Ok(()),
        Origin::Kept => count(s),
    }
}

#[inline(always)]
fn take_next(s: &mut State, above: Option<&Scan>, next: Next) -> Result<Got, AllocError>
    ensures now { OnOk result (mouth_of s.new ≡ (next_got (watched_from (option_copied above.entry) (watch_of (mouth_of s.old).entries)) next (mouth_of s.old)).now) }
    ensures got { IfOk result (λ g. g ≡ (next_got (watched_from (option_copied above.entry) (watch_of (mouth_of s.old).entries)) next (mouth_of s.old)).got) }
{
    match next {
        Next::Listed { token, origin } => {
            charge(s, origin)?;
            take(s, above, token, origin)
        }
        Next::Lexed(lexed) => take_lexed(s, above, lexed),
        Next::FileEnd => end_file(s, above),
        Next::Over => Ok(Got::Over(Did::End(End::Fatal(FatalError::NoLegalEnd)))),
    }
}

/// Gets what is next: a token with its meaning, or none, and the turn is over. `above`: the scan that gets it, which stands on
/// the stack no more. After an `Err` the state is only dropped.
#[tactic(auto, unfolding(crate::specs::Getting::got_of))]
#[inline(always)]
pub(crate) fn get(s: &mut State, above: Option<&Scan>) -> Result<Got, AllocError>
    ensures now { OnOk result (mouth_of s.new ≡ (got_of (watched_from (option_copied above.entry) (watch_of (mouth_of s.old).entries)) (mouth_of s.old)).now) }
    ensures got { IfOk result (λ g. g ≡ (got_of (watched_from (option_copied above.entry) (watch_of (mouth_of s.old).entries)) (mouth_of s.old)).got) }
{
    let next = s.next()?;
    take_next(s, above, next)
}

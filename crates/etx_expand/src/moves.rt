//! The interpreter of answers. It alone reaches the input, the stack and the count of steps.
ghost use Rattle.std.specs.Prelude.{◌≡◌, ◌+◌, ◌<◌, ◌^◌, ◌∷◌, [], nat_le, OnOk, IfOk};
ghost use Rattle.etx_matter.specs.declared.deed.Audience.TheVariants.{LogAndTerminal};
ghost use Rattle.etx_matter.specs.declared.deed.Deed.TheVariants as deed;
ghost use Rattle.etx_state.specs.Mouths.{mouth_of};
ghost use Rattle.etx_answers.specs.declared.plan.Turned.TheVariants as turned;
ghost use Rattle.etx_answers.specs.Answers.{reading};
ghost use Rattle.etx_expand.specs.Moves.{charged, put_back, read_next, entered, scanning, inserted, back_if, insert_if, failed, beside, beside_value, error_deed, turned_by, made, planned_turn, pushed, begun_turn, more, more_given, followed, finished_turn, letters_back, charged_if, letter_kept, word_turn};

use etx_answers::{Did, Ended, Failure, Insert, Move, Plan, Push, Start, Then, Turned, WordPlan};
use etx_input::Origin;
use etx_lists::Bytes;
use etx_matter::{Audience, Boxed, Deed, SharedTokens, Token, Tokens};
use etx_state::{Entry, Scan, State, Value};
use std::alloc::AllocError;

/// How often a programme may go on for nothing that a token began.
const MOST_STAGES: u8 = 7;

/// Counts a step. A count that has no room in 64 bits is refused as memory is.
#[inline(always)]
pub(crate) fn count(s: &mut State) -> Result<(), AllocError>
    ensures { OnOk result (mouth_of s.new ≡ charged 1 (mouth_of s.old)) }
{
    if s.spent == u64::MAX {
        return Err(AllocError);
    }
    s.spent += 1;
    Ok(())
}

/// Puts a token back. After an `Err` the state is only dropped.
pub fn put_back(s: &mut State, token: Token) -> Result<(), AllocError>
    ensures { OnOk result (mouth_of s.new ≡ put_back token (mouth_of s.old)) }
{
    s.input.push_token(token, Origin::Back)?;
    Ok(())
}

/// Reads one token before all else. After an `Err` the state is only dropped.
pub fn read_one(s: &mut State, token: Token, origin: Origin) -> Result<(), AllocError>
    ensures { OnOk result (mouth_of s.new ≡ read_next origin (token ∷ []) (mouth_of s.old)) }
{
    s.input.push_token(token, origin)?;
    Ok(())
}

/// Reads a list before all else.
fn read_list(s: &mut State, tokens: SharedTokens, origin: Origin) -> Result<(), AllocError>
    ensures { OnOk result (mouth_of s.new ≡ read_next origin tokens (mouth_of s.old)) }
{
    s.input.push_shared(tokens, origin)?;
    Ok(())
}

/// Puts something on the stack. After an `Err` the state is only dropped.
#[inline(always)]
pub fn enter(s: &mut State, entry: Entry) -> Result<(), AllocError>
    ensures { OnOk result (mouth_of s.new ≡ entered entry (mouth_of s.old)) }
{
    s.entries.push(entry)?;
    Ok(())
}

/// Puts a scan on the stack whose programme may go on so often for nothing.
#[inline(always)]
pub(crate) fn enter_scan(s: &mut State, left: u8, scan: Scan) -> Result<(), AllocError>
    ensures { OnOk result (mouth_of s.new ≡ scanning left scan (mouth_of s.old)) }
{
    enter(s, Entry::Scan { left, scan })
}

#[tactic(auto, unfolding(crate::specs::Moves::inserted))]
fn insert(s: &mut State, what: Insert) -> Result<(), AllocError>
    ensures { OnOk result (mouth_of s.new ≡ inserted what (mouth_of s.old)) }
{
    match what {
        Insert::Nothing => Ok(()),
        Insert::Token(token) => read_one(s, token, Origin::Fresh),
        Insert::Text(tokens) => read_list(s, tokens, Origin::Fresh),
        Insert::Kept(tokens) => read_list(s, tokens, Origin::Kept),
    }
}

fn put_back_if(s: &mut State, is_back: bool, token: Token) -> Result<(), AllocError>
    ensures { OnOk result (mouth_of s.new ≡ back_if is_back token (mouth_of s.old)) }
{
    if is_back { put_back(s, token) } else { Ok(()) }
}

/// A token that may be there is read next. After an `Err` the state is only dropped.
pub fn insert_if(s: &mut State, token: Option<Token>) -> Result<(), AllocError>
    ensures { OnOk result (mouth_of s.new ≡ insert_if token (mouth_of s.old)) }
{
    match token {
        None => Ok(()),
        Some(token) => read_one(s, token, Origin::Fresh),
    }
}

/// An error, with the number of the line that was read last. After an `Err` the state is only dropped.
pub fn error_deed(s: &State, text: Bytes) -> Result<Turned, AllocError>
    ensures { IfOk result (λ t. t ≡ error_deed text (mouth_of s.now)) }
{
    let deed = Deed::Error {
        text,
        line: s.input.line(),
        audience: Audience::LogAndTerminal,
    };
    Ok(Turned::Deed(Boxed::new(s.alloc(), deed)?))
}

/// A space is said, unless a line begins there.
fn space_deed(s: &State) -> Result<Turned, AllocError>
    ensures { IfOk result (λ t. t ≡ turned.Deed (deed.Space LogAndTerminal)) }
{
    Ok(Turned::Deed(Boxed::new(s.alloc(), Deed::Space(Audience::LogAndTerminal))?))
}

/// An error is reported about a token, which is read again if it says so.
fn fail(s: &mut State, token: Token, failure: Failure) -> Result<Turned, AllocError>
    ensures now { OnOk result (mouth_of s.new ≡ failed token failure (mouth_of s.old)) }
    ensures turned { IfOk result (λ t. t ≡ error_deed failure.text (mouth_of s.old)) }
{
    let Failure {
        text,
        is_back,
        inserted,
    } = failure;
    let report = error_deed(s, text)?;
    put_back_if(s, is_back, token)?;
    insert_if(s, inserted)?;
    Ok(report)
}

/// An error is reported about no token.
fn fail_value(s: &mut State, failure: Failure) -> Result<Turned, AllocError>
    ensures now { OnOk result (mouth_of s.new ≡ insert_if failure.inserted (mouth_of s.old)) }
    ensures turned { IfOk result (λ t. t ≡ error_deed failure.text (mouth_of s.old)) }
{
    let Failure {
        text,
        is_back: _is_back,
        inserted,
    } = failure;
    let report = error_deed(s, text)?;
    insert_if(s, inserted)?;
    Ok(report)
}

/// What is done beside, about a token.
#[tactic(auto, unfolding(crate::specs::Moves::beside, crate::specs::Moves::turned_by))]
#[inline(always)]
fn do_beside(s: &mut State, token: Token, did: Did) -> Result<Turned, AllocError>
    ensures now { OnOk result (mouth_of s.new ≡ beside token did (mouth_of s.old)) }
    ensures turned { IfOk result (λ t. t ≡ turned_by did (mouth_of s.old)) }
{
    match did {
        Did::Nothing => Ok(Turned::Again),
        Did::Space => space_deed(s),
        Did::Error(failure) => fail(s, token, failure.into_inner()),
        Did::End(end) => Ok(Turned::End(end)),
    }
}

/// What is done beside, about no token.
#[tactic(auto, unfolding(crate::specs::Moves::beside_value, crate::specs::Moves::turned_by))]
fn do_beside_value(s: &mut State, did: Did) -> Result<Turned, AllocError>
    ensures now { OnOk result (mouth_of s.new ≡ beside_value did (mouth_of s.old)) }
    ensures turned { IfOk result (λ t. t ≡ turned_by did (mouth_of s.old)) }
{
    match did {
        Did::Nothing => Ok(Turned::Again),
        Did::Space => space_deed(s),
        Did::Error(failure) => fail_value(s, failure.into_inner()),
        Did::End(end) => Ok(Turned::End(end)),
    }
}

/// What is done where no token was got. After an `Err` the state is only dropped.
#[tactic(auto, unfolding(crate::specs::Moves::turned_by))]
pub fn do_alone(s: &State, did: Did) -> Result<Turned, AllocError>
    ensures { IfOk result (λ t. t ≡ turned_by did (mouth_of s.now)) }
{
    match did {
        Did::Nothing => Ok(Turned::Again),
        Did::Space => space_deed(s),
        Did::Error(failure) => {
            let Failure {
                text,
                is_back: _is_back,
                inserted: _inserted,
            } = failure.into_inner();
            error_deed(s, text)
        }
        Did::End(end) => Ok(Turned::End(end)),
    }
}

fn copy(s: &mut State, left: u8, scan: Scan) -> Result<(), AllocError>
    ensures { OnOk result (mouth_of s.new ≡ charged 1 (scanning left scan (mouth_of s.old))) }
{
    count(s)?;
    enter_scan(s, left, scan)
}

fn copy_last(s: &mut State, what: Insert) -> Result<(), AllocError>
    ensures { OnOk result (mouth_of s.new ≡ charged 1 (inserted what (mouth_of s.old))) }
{
    insert(s, what)?;
    count(s)
}

fn give_back(s: &mut State, token: Token, entry: Entry) -> Result<(), AllocError>
    ensures { OnOk result (mouth_of s.new ≡ entered entry (put_back token (mouth_of s.old))) }
{
    put_back(s, token)?;
    enter(s, entry)
}

/// The first letter of a word is kept.
fn keep_first(s: &mut State, left: u8, token: Token, scan: Scan) -> Result<(), AllocError>
    ensures { OnOk result (mouth_of s.new ≡ entered (Entry.Word left (token ∷ []) scan) (mouth_of s.old)) }
{
    let mut letters = Tokens::new(s.alloc());
    letters.push(token)?;
    let letters = Boxed::new(s.alloc(), letters)?;
    enter(
        s,
        Entry::Word {
            left,
            letters,
            scan,
        },
    )
}

/// What becomes of a scan and its token.
#[tactic(auto, unfolding(crate::specs::Moves::made))]
#[inline(always)]
fn go(s: &mut State, left: u8, token: Token, go: Move) -> Result<(), AllocError>
    ensures { OnOk result (mouth_of s.new ≡ made left token go (mouth_of s.old)) }
{
    match go {
        Move::Used(what) => insert(s, what),
        Move::Begin(scan) => enter_scan(s, MOST_STAGES, scan),
        Move::Stay(scan) => enter_scan(s, left, scan),
        Move::Copied(scan) => copy(s, left, scan),
        Move::CopiedLast(what) => copy_last(s, what),
        Move::Back => put_back(s, token),
        Move::Gives(value) => enter(s, Entry::Given { left, value }),
        Move::GivesBack(value) => give_back(s, token, Entry::Given { left, value }),
        Move::Hold(by) => enter(s, Entry::Kept { token, by }),
        Move::Unexpanded => read_one(s, token, Origin::Unexpanded),
        Move::Letter(scan) => keep_first(s, left, token, scan),
    }
}

/// Carries out what a scan's row decided of a token; the row has changed the rest. After an `Err` the state is only dropped.
#[inline(always)]
pub fn make(s: &mut State, left: u8, token: Token, plan: Plan) -> Result<Turned, AllocError>
    ensures now { OnOk result (mouth_of s.new ≡ (planned_turn left token (reading plan (mouth_of s.old).rest) (mouth_of s.old)).now) }
    ensures turned { IfOk result (λ t. t ≡ (planned_turn left token (reading plan (mouth_of s.old).rest) (mouth_of s.old)).turned) }
{
    go(s, left, token, plan.go)?;
    do_beside(s, token, plan.did)
}

#[tactic(auto, unfolding(crate::specs::Moves::pushed))]
fn push(s: &mut State, what: Push) -> Result<(), AllocError>
    ensures { OnOk result (mouth_of s.new ≡ pushed what (mouth_of s.old)) }
{
    match what {
        Push::Insert(what) => insert(s, what),
        Push::Begin(scan) => enter_scan(s, MOST_STAGES, scan),
    }
}

/// Begins what a token begins; its row has changed the rest. After an `Err` the state is only dropped.
pub fn begin(s: &mut State, token: Token, start: Start) -> Result<Turned, AllocError>
    ensures now { OnOk result (mouth_of s.new ≡ (begun_turn token (record { rest = (mouth_of s.old).rest; start = start }) (mouth_of s.old)).now) }
    ensures turned { IfOk result (λ t. t ≡ (begun_turn token (record { rest = (mouth_of s.old).rest; start = start }) (mouth_of s.old)).turned) }
{
    push(s, start.push)?;
    do_beside(s, token, start.did)
}

/// A programme goes on.
fn go_on(s: &mut State, left: u8, scan: Scan) -> Result<(), AllocError>
    ensures { OnOk result (mouth_of s.new ≡ more left scan (mouth_of s.old)) }
{
    if left == 0 {
        return copy(s, 0, scan);
    }
    enter_scan(s, left - 1, scan)
}

/// A programme goes on with a value.
fn give_on(s: &mut State, left: u8, value: Value) -> Result<(), AllocError>
    ensures { OnOk result (mouth_of s.new ≡ more_given left value (mouth_of s.old)) }
{
    if left == 0 {
        count(s)?;
        return enter(s, Entry::Given { left: 0, value });
    }
    enter(
        s,
        Entry::Given {
            left: left - 1,
            value,
        },
    )
}

fn go_on_behind(s: &mut State, left: u8, first: Scan, scan: Scan) -> Result<(), AllocError>
    ensures { OnOk result (mouth_of s.new ≡ scanning 0 first (more left scan (mouth_of s.old))) }
{
    go_on(s, left, scan)?;
    enter_scan(s, 0, first)
}

#[tactic(auto, unfolding(crate::specs::Moves::followed))]
#[inline(always)]
fn follow_with(s: &mut State, left: u8, then: Then) -> Result<(), AllocError>
    ensures { OnOk result (mouth_of s.new ≡ followed left then (mouth_of s.old)) }
{
    match then {
        Then::Insert(what) => insert(s, what),
        Then::More(scan) => go_on(s, left, scan),
        Then::MoreBehind(first, scan) => go_on_behind(s, left, first, scan),
        Then::Say(text) => enter(s, Entry::Say(text)),
        Then::Gives(value) => give_on(s, left, value),
    }
}

/// Carries out what a finisher decided, whose programme may go on so often for nothing; it has changed the rest. After an `Err`
/// the state is only dropped.
#[inline(always)]
pub fn follow(s: &mut State, left: u8, ended: Ended) -> Result<Turned, AllocError>
    ensures now { OnOk result (mouth_of s.new ≡ (finished_turn left (record { rest = (mouth_of s.old).rest; ended = ended }) (mouth_of s.old)).now) }
    ensures turned { IfOk result (λ t. t ≡ (finished_turn left (record { rest = (mouth_of s.old).rest; ended = ended }) (mouth_of s.old)).turned) }
{
    follow_with(s, left, ended.then)?;
    do_beside_value(s, ended.did)
}

/// The letters of a word are read again, the first before the others. After an `Err` the state is only dropped.
#[tactic(auto, unfolding(crate::specs::Moves::letters_back), using(crate::proofs::Letters::last_back))]
fn put_letters_back(s: &mut State, mut letters: Tokens) -> Result<(), AllocError>
    ensures now { OnOk result (mouth_of s.new ≡ letters_back letters (mouth_of s.old)) }
    ensures rest { OnOk result ((mouth_of s.new).rest ≡ (mouth_of s.old).rest) }
{
    'letters: while let Some(token) = letters.pop() {
        put_back(s, token)?;
    }
    Ok(())
}

/// How many letters of a word are kept for nothing. (No word is so long.)
const MOST_LETTERS: usize = 7;

/// A letter more than so many is a step, where these are enough.
fn count_letter(s: &mut State, kept: usize) -> Result<(), AllocError>
    ensures { OnOk result (mouth_of s.new ≡ charged_if (nat_le 7 kept) (mouth_of s.old)) }
{
    if kept >= MOST_LETTERS {
        count(s)
    } else {
        Ok(())
    }
}

/// A letter more is kept.
fn keep_letter(
    s: &mut State,
    left: u8,
    mut letters: Boxed<Tokens>,
    token: Token,
    scan: Scan,
) -> Result<Turned, AllocError>
    ensures now { OnOk result (mouth_of s.new ≡ letter_kept left letters token scan (mouth_of s.old)) }
    ensures turned { IfOk result (λ t. t ≡ Turned.Again) }
{
    count_letter(s, letters.get().len())?;
    letters.get_mut().push(token)?;
    enter(
        s,
        Entry::Word {
            left,
            letters,
            scan,
        },
    )?;
    Ok(Turned::Again)
}

/// The letters of a word and the token behind them are read again, and then its programme goes on so.
fn lose(
    s: &mut State,
    left: u8,
    letters: Tokens,
    token: Token,
    ended: Ended,
) -> Result<Turned, AllocError>
    ensures now { OnOk result (mouth_of s.new ≡ (finished_turn left (record { rest = (mouth_of s.old).rest; ended = ended }) (letters_back letters (put_back token (mouth_of s.old)))).now) }
    ensures turned { IfOk result (λ t. t ≡ (finished_turn left (record { rest = (mouth_of s.old).rest; ended = ended }) (letters_back letters (put_back token (mouth_of s.old)))).turned) }
{
    put_back(s, token)?;
    put_letters_back(s, letters)?;
    follow(s, left, ended)
}

/// Carries out what becomes of a word that is read. After an `Err` the state is only dropped.
#[tactic(auto, unfolding(crate::specs::Moves::word_turn))]
pub fn make_word(
    s: &mut State,
    left: u8,
    letters: Boxed<Tokens>,
    token: Token,
    plan: WordPlan,
) -> Result<Turned, AllocError>
    ensures now { OnOk result (mouth_of s.new ≡ (word_turn left letters token plan (mouth_of s.old)).now) }
    ensures turned { IfOk result (λ t. t ≡ (word_turn left letters token plan (mouth_of s.old)).turned) }
{
    match plan {
        WordPlan::Letter(scan) => keep_letter(s, left, letters, token, scan),
        WordPlan::Found(plan) => make(s, left, token, plan),
        WordPlan::Lost(ended) => lose(s, left, letters.into_inner(), token, ended),
    }
}

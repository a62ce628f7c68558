//! What rows decide. Each answers it as data, and one interpreter (`moves.rs`) carries it out: so no row touches the input, the
//! stack or the count of steps, and none can go round for nothing.
//!
//! There are three kinds of rows, each with an answer of its own. A scan's row gets a token and answers a [`Plan`]. What main
//! control or expansion begins with a token is a [`Start`], which can't keep the token. A finisher gets a value and answers
//! what comes [`Then`], in an [`Ended`].
use etx_lists::Bytes;
use etx_matter::{Boxed, Deed, End, SharedTokens, Token};
use etx_state::{Keeper, Scan, Value};

/// What is read next.
#[derive(Drop)]
pub enum Insert {
    Nothing,
    /// This token, as a fresh one.
    Token(Token),
    /// These tokens, as fresh ones.
    Text(SharedTokens),
    /// These tokens, which go into a text as they are.
    Kept(SharedTokens),
}

/// An error, and what is read after it. The token that a row was given may be read again, and a fresh one before it.
#[derive(Drop)]
pub struct Failure {
    pub text: Bytes,
    /// Whether the token is read again. (A finisher was given none.)
    pub is_back: bool,
    pub inserted: Option<Token>,
}

/// What is done beside.
#[derive(Drop)]
pub enum Did {
    Nothing,
    /// A space is said, unless a line begins there.
    Space,
    /// An error is reported.
    Error(Boxed<Failure>),
    /// The job ends.
    End(End),
}

/// What becomes of a scan and of the token that it got.
#[derive(Drop)]
pub enum Move {
    /// The token is used up, and the scan is over.
    Used(Insert),
    /// The same, and this scan begins.
    Begin(Scan),
    /// The token is used up, and the scan goes on so.
    Stay(Scan),
    /// The token was copied into a list of the scan, which goes on so. A copy is a step.
    Copied(Scan),
    /// The token was copied into a list of the scan, which is over. A copy is a step.
    CopiedLast(Insert),
    /// The scan is over, and the token is read again.
    Back,
    /// The scan is over with this value, and the token is used up.
    Gives(Value),
    /// The scan is over with this value, and the token is read again.
    GivesBack(Value),
    /// The token is kept while the next one is got.
    Hold(Keeper),
    /// The token is read again, and isn't expanded then.
    Unexpanded,
    /// The token is the first letter of a word that the scan reads, and is kept.
    Letter(Scan),
}

/// What becomes of a scan that reads a word, and of the token that it got.
#[derive(Drop)]
pub enum WordPlan {
    /// The token is a letter more, and is kept.
    Letter(Scan),
    /// The token ends the word; its letters are used up.
    Found(Plan),
    /// The letters aren't that word: they and the token are read again.
    Lost(Ended),
}

/// What a scan's row decides.
#[derive(Drop)]
pub struct Plan {
    pub go: Move,
    pub did: Did,
}

/// What comes with a token that is used up.
#[derive(Drop)]
pub enum Push {
    Insert(Insert),
    Begin(Scan),
}

/// What a command of main control begins, or an expandable token. It can't hold its token, nor copy it.
#[derive(Drop)]
pub struct Start {
    pub push: Push,
    pub did: Did,
}

/// What a finisher does with its value.
#[derive(Drop)]
pub enum Then {
    Insert(Insert),
    /// The programme goes on with this scan.
    More(Scan),
    /// The programme goes on with the second scan, behind the first, which gives nothing.
    MoreBehind(Scan, Scan),
    /// This text is said next.
    Say(Bytes),
    /// The programme goes on with this value.
    Gives(Value),
}

/// What a finisher's row decides.
#[derive(Drop)]
pub struct Ended {
    pub then: Then,
    pub did: Did,
}

/// What a turn comes to.
#[derive(Drop)]
pub enum Turned {
    /// Nothing beside.
    Again,
    /// This is done to the outside.
    Deed(Boxed<Deed>),
    /// The job ends.
    End(End),
}

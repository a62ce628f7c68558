//! One level of the input.
ghost use Rattle.std.specs.Prelude.{◌≡◌, ◌≤◌, ◌∷◌, [], MatchOption, IfOk, drop, length};
ghost use Rattle.etx_input.specs.Lists.{is_empty, fresh_of};
ghost use Rattle.etx_input.specs.Waiting.{tokens_waiting};

use crate::file::FileInput;
use crate::origin::Origin;
use etx_matter::{SharedTokens, Token};
use etx_stack::Share;
use std::alloc::AllocError;
use std::marker::Model;

/// The tokens of a list that were not taken yet.
#[derive(Drop)]
enum Waiting {
    Nothing,
    /// One token, which takes no memory of its own.
    One(Token),
    /// All of a shared list but the first `taken`.
    Shared { tokens: SharedTokens, taken: usize },
}

/// A list of tokens as it is read.
#[derive(Drop)]
pub struct ListInput {
    waiting: Waiting,
    origin: Origin,
}

impl Model for ListInput {
    ghost use Rattle.etx_input.specs.Lists.{ListState};

    ghost Value = { ListState };

    ghost use Rattle.etx_input.specs.Waiting.{tokens_waiting};

    ghost view = { λ it. record { rest = tokens_waiting it.waiting; origin = it.origin } };
}

impl Waiting {
    /// The same tokens. A shared list is shared once more.
    fn share(&self) -> Result<Waiting, AllocError>
        ensures { IfOk result (λ same. tokens_waiting same ≡ tokens_waiting self.now) }
    {
        match self {
            Waiting::Nothing => Ok(Waiting::Nothing),
            Waiting::One(token) => Ok(Waiting::One(*token)),
            Waiting::Shared { tokens, taken } => {
                let tokens = tokens.share()?;
                Ok(Waiting::Shared {
                    tokens,
                    taken: *taken,
                })
            }
        }
    }

    /// The tokens.
    fn tokens(&self) -> &[Token]
        ensures { result.now ≡ tokens_waiting self.now }
    {
        match self {
            Waiting::Nothing => &[],
            Waiting::One(token) => std::slice::from_ref(token),
            Waiting::Shared { tokens, taken } => {
                let tokens = tokens.as_slice();
                &tokens[(*taken).min(tokens.len())..]
            }
        }
    }

    /// Passes over some tokens.
    fn skip(&mut self, count: usize)
        requires { count ≤ length (tokens_waiting self.old) }
        ensures { tokens_waiting self.new ≡ drop count (tokens_waiting self.old) }
    {
        match self {
            Waiting::Nothing => {}
            Waiting::One(_) => {
                if count > 0 {
                    *self = Waiting::Nothing;
                }
            }
            Waiting::Shared { tokens, taken } => {
                if *taken < tokens.as_slice().len() {
                    *taken += count;
                }
            }
        }
    }

    /// Whether no token is left.
    fn is_over(&self) -> bool
        ensures { result ≡ is_empty (tokens_waiting self.now) }
    {
        match self {
            Waiting::Nothing => true,
            Waiting::One(_) => false,
            Waiting::Shared { tokens, taken } => *taken >= tokens.as_slice().len(),
        }
    }

    /// Takes the next token. `None` exactly where there is none.
    fn next(&mut self) -> Option<Token>
        ensures { MatchOption result ((tokens_waiting self.old ≡ []) × (self.new ≡ self.old)) (λ t. tokens_waiting self.old ≡ t ∷ tokens_waiting self.new) }
    {
        match self {
            Waiting::Nothing => None,
            Waiting::One(token) => {
                let token = *token;
                *self = Waiting::Nothing;
                Some(token)
            }
            Waiting::Shared { tokens, taken } => {
                let tokens = tokens.as_slice();
                if *taken < tokens.len() {
                    let token = tokens[*taken];
                    *taken += 1;
                    Some(token)
                } else {
                    None
                }
            }
        }
    }
}

impl Share for ListInput {
    /// The same list, of which as many tokens were taken. No token is copied.
    fn share(&self) -> Result<ListInput, AllocError>
        ensures { IfOk result (λ same. same ≡ self.now) }
    {
        Ok(ListInput {
            waiting: self.waiting.share()?,
            origin: self.origin,
        })
    }
}

impl ListInput {
    /// A list of which no token was taken.
    pub fn new(tokens: SharedTokens, origin: Origin) -> ListInput
        ensures { result ≡ record { rest = tokens; origin = origin } }
    {
        ListInput {
            waiting: Waiting::Shared { tokens, taken: 0 },
            origin,
        }
    }

    /// A list of one token. Takes no memory.
    pub fn one(token: Token, origin: Origin) -> ListInput
        ensures { result ≡ record { rest = token ∷ []; origin = origin } }
    {
        ListInput {
            waiting: Waiting::One(token),
            origin,
        }
    }

    pub fn origin(&self) -> Origin
        ensures { result ≡ self.now.origin }
    {
        self.origin
    }

    /// The tokens to come, where they count as steps.
    pub fn fresh(&self) -> &[Token]
        ensures { result.now ≡ fresh_of self.now.origin self.now.rest }
    {
        match self.origin {
            Origin::Fresh => self.waiting.tokens(),
            Origin::Back => &[],
            Origin::Unexpanded => &[],
            Origin::Kept => &[],
        }
    }

    /// Passes over some tokens.
    pub fn skip(&mut self, count: usize)
        requires { count ≤ length self.old.rest }
        ensures { self.new ≡ record { rest = drop count self.old.rest; origin = self.old.origin } }
    {
        self.waiting.skip(count);
    }

    /// Whether no token is left.
    pub fn is_over(&self) -> bool
        ensures { result ≡ is_empty self.now.rest }
    {
        self.waiting.is_over()
    }

    /// Takes the next token. `None` exactly where there is none.
    pub fn next(&mut self) -> Option<Token>
        ensures { MatchOption result ((self.old.rest ≡ []) × (self.new ≡ self.old)) (λ t. self.old ≡ record { rest = t ∷ self.new.rest; origin = self.new.origin }) }
    {
        self.waiting.next()
    }
}

/// What is read: a file, or a list of tokens.
#[derive(Drop)]
pub enum Level {
    File(FileInput),
    List(ListInput),
}

impl Share for Level {
    /// The same, at the same place. No token and no byte is copied.
    fn share(&self) -> Result<Level, AllocError>
        ensures { IfOk result (λ same. same ≡ self.now) }
    {
        match self {
            Level::File(file) => {
                let file = file.share()?;
                Ok(Level::File(file))
            }
            Level::List(list) => {
                let list = list.share()?;
                Ok(Level::List(list))
            }
        }
    }
}

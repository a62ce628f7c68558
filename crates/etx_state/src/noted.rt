//! The tokens that the end of a group hands out.
ghost use Rattle.std.specs.Prelude.{◌≡◌, ◌∷◌, [], OnOk, OnErr, IfOk};

use etx_matter::{Token, Tokens};
use std::alloc::{AllocError, Global};
use std::marker::Model;

/// Tokens, of which the one that is put in last is the first.
#[derive(Drop)]
pub struct Noted {
    tokens: Vec<Token>,
}

impl Model for Noted {
    ghost use Rattle.std.specs.Prelude.{List, reverse};
    ghost use Rattle.etx_matter.specs.declared.token.Token.{Token};

    ghost Value = { List Token };

    ghost view = { λ t. reverse t.tokens.items };
}

impl Noted {
    /// No tokens. Takes no memory.
    pub fn new(alloc: Global) -> Noted
        ensures { result ≡ [] }
    {
        Noted {
            tokens: Vec::new(alloc),
        }
    }

    /// Puts a token before the others.
    pub fn push(&mut self, token: Token) -> Result<(), AllocError>
        ensures ok { OnOk result (self.new ≡ token ∷ self.old) }
        ensures err { OnErr result (self.new ≡ self.old) }
    {
        self.tokens.push(token)?;
        Ok(())
    }

    /// The same tokens as a list.
    pub fn into_tokens(self) -> Result<Tokens, AllocError>
        ensures { IfOk result (λ tokens. tokens ≡ self) }
    {
        let Noted { mut tokens } = self;
        tokens.reverse();
        Tokens::from_vec(tokens)
    }
}

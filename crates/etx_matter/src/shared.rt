//! A list of tokens that is shared.
ghost use Rattle.std.specs.Prelude.{◌≡◌, IfOk};

use crate::token::{Token, Tokens};
use std::alloc::{AllocError, Global};
use std::marker::Model;
use std::sync::Arc;

/// A list of tokens that is never changed. Its sharing copies no token.
#[derive(Drop)]
pub struct SharedTokens {
    tokens: Arc<Tokens, Global>,
}

impl Model for SharedTokens {
    ghost use Rattle.std.specs.Prelude.{List};
    ghost use Rattle.std.specs.Arc.{arc_value};
    ghost use Rattle.etx_matter.specs.declared.token.Token.{Token};

    ghost Value = { List Token };

    ghost view = { λ it. arc_value it.tokens };
}

impl SharedTokens {
    /// Takes a list.
    pub fn new(alloc: Global, tokens: Tokens) -> Result<SharedTokens, AllocError>
        ensures { IfOk result (λ it. it ≡ tokens) }
    {
        Ok(SharedTokens {
            tokens: Arc::new(alloc, tokens)?,
        })
    }

    /// The same list, once more. The only want is of room in the count of those that share it.
    pub fn share(&self) -> Result<SharedTokens, AllocError>
        ensures { IfOk result (λ it. it ≡ self.now) }
    {
        Ok(SharedTokens {
            tokens: Arc::try_clone(&self.tokens)?,
        })
    }

    pub fn as_slice(&self) -> &[Token]
        ensures { result.now ≡ self.now }
    {
        self.tokens.as_slice()
    }
}

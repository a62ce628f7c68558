//! A parameter text that is being read.
ghost use Rattle.std.specs.Prelude.{◌≡◌, true, IfOk, OnOk};
ghost use Rattle.etx_macros.specs.Marks.{has_category, IsUnbraced};
ghost use Rattle.etx_macros.specs.OpenPatterns.{no_pattern, with_text, with_parameter, with_brace, whole_pattern};

use crate::pattern::{Pattern, whole};
use etx_lists::Listed;
use etx_matter::{Token, Tokens};
use std::alloc::{AllocError, Global};
use std::marker::Model;

/// A parameter text as far as it is read, taken apart as it comes ("TeX: The Program", sections 474 to 476).
///
/// Contracts see the parts that are complete, the one that goes on, and the brace that ended it, if it is ended so.
#[derive(Drop)]
pub struct OpenPattern {
    parts: Listed<Tokens>,
    part: Tokens,
    brace: Option<Token>,
}

impl Model for OpenPattern {
    ghost use Rattle.std.specs.Prelude.{◌≡◌, true, All};
    ghost use Rattle.std.specs.Option.{ForSome};
    ghost use Rattle.etx_macros.specs.Marks.{has_category, IsUnbraced, IsDelimiter};
    ghost use Rattle.etx_macros.specs.OpenPatterns.{OpenState};

    ghost Value = { OpenState };

    ghost view = { λ it. record { parts = it.parts; part = it.part; brace = it.brace } };

    ghost invariant = { λ it. record {
      flat : All IsDelimiter it.parts;
      plain : All IsUnbraced it.part;
      left : ForSome it.brace (λ b. has_category b 1 ≡ true);
    } };
}

impl OpenPattern {
    /// Nothing was read. Takes no memory.
    pub fn new(alloc: Global) -> OpenPattern
        ensures { result ≡ no_pattern }
    {
        OpenPattern {
            parts: Listed::new(alloc),
            part: Tokens::new(alloc),
            brace: None,
        }
    }

    /// One token more that is to be matched. After an `Err` the text is only dropped.
    pub fn push_text(&mut self, token: Token) -> Result<(), AllocError>
        requires { IsUnbraced token }
        ensures { OnOk result (self.new ≡ with_text token self.old) }
    {
        self.part.push(token)?;
        Ok(())
    }

    /// One parameter more. After an `Err` the text is only dropped.
    pub fn push_parameter(&mut self, alloc: Global) -> Result<(), AllocError>
        ensures { OnOk result (self.new ≡ with_parameter self.old) }
    {
        let part = std::mem::replace(&mut self.part, Tokens::new(alloc));
        self.parts.push(part)?;
        Ok(())
    }

    /// The text is ended by this brace.
    pub fn end_by(&mut self, brace: Token)
        requires { has_category brace 1 ≡ true }
        ensures { self.new ≡ with_brace brace self.old }
    {
        self.brace = Some(brace);
    }

    /// The brace that ended the text, if one did.
    pub fn brace(&self) -> Option<Token>
        ensures { result ≡ self.now.brace }
    {
        self.brace
    }

    /// The whole text, taken apart.
    pub fn close(self, alloc: Global) -> Result<Pattern, AllocError>
        ensures { IfOk result (λ pattern. pattern ≡ whole_pattern self) }
    {
        let OpenPattern {
            parts,
            mut part,
            brace,
        } = self;
        match brace {
            None => whole(alloc, parts, part),
            Some(brace) => {
                part.push(brace)?;
                whole(alloc, parts, part)
            }
        }
    }
}

//! The definition of a macro.
ghost use Rattle.std.specs.Prelude.{◌≡◌, IfOk};

use etx_lists::Bytes;
use etx_macros::Pattern;
use etx_matter::SharedTokens;
use std::alloc::{AllocError, Global};
use std::marker::Model;
use std::sync::Arc;

/// What a macro is made of.
#[derive(Drop)]
struct MacroText {
    pattern: Pattern,
    marks: Bytes,
    body: SharedTokens,
    is_long: bool,
    is_outer: bool,
    is_protected: bool,
}

/// A macro, which is never changed. Its sharing copies nothing.
///
/// Contracts see the texts that delimit its parameters, the characters that marked these, its body, and its prefixes.
#[derive(Drop)]
pub struct Macro {
    text: Arc<MacroText, Global>,
}

impl Model for Macro {
    ghost use Rattle.std.specs.Arc.{arc_value};
    ghost use Rattle.etx_state.specs.Macros.{MacroState};

    ghost Value = { MacroState };

    ghost view = { λ it. let text = arc_value it.text in record {
      parts = text.pattern;
      marks = text.marks;
      body = text.body;
      is_long = text.is_long;
      is_outer = text.is_outer;
      is_protected = text.is_protected;
    } };
}

impl Macro {
    /// A macro with this parameter text and this body, in which `Token::Param(n)` stands for the n-th argument. `marks` has
    /// the code of the character that marked each parameter in the parameter text (mostly 35, the number sign): `\meaning`
    /// prints it, and to `\ifx` two macros differ that differ in it ("TeX: The Program", sections 294 and 508).
    pub fn new(
        alloc: Global,
        pattern: Pattern,
        marks: Bytes,
        body: SharedTokens,
        is_long: bool,
        is_outer: bool,
        is_protected: bool,
    ) -> Result<Macro, AllocError>
        ensures { IfOk result (λ it. it ≡ record {
          parts = pattern;
          marks = marks;
          body = body;
          is_long = is_long;
          is_outer = is_outer;
          is_protected = is_protected;
        }) }
    {
        Ok(Macro {
            text: Arc::new(
                alloc,
                MacroText {
                    pattern,
                    marks,
                    body,
                    is_long,
                    is_outer,
                    is_protected,
                },
            )?,
        })
    }

    /// The same macro, once more. The only want is of room in the count of those that share it.
    pub fn share(&self) -> Result<Macro, AllocError>
        ensures { IfOk result (λ it. it ≡ self.now) }
    {
        Ok(Macro {
            text: Arc::try_clone(&self.text)?,
        })
    }

    /// Its parameter text, taken apart.
    pub fn pattern(&self) -> &Pattern
        ensures { result.now ≡ self.now.parts }
    {
        &self.text.pattern
    }

    /// The codes of the characters that marked its parameters.
    pub fn marks(&self) -> &Bytes
        ensures { result.now ≡ self.now.marks }
    {
        &self.text.marks
    }

    /// Its body.
    pub fn body(&self) -> &SharedTokens
        ensures { result.now ≡ self.now.body }
    {
        &self.text.body
    }

    /// Whether an argument may have `\par` in it.
    pub fn is_long(&self) -> bool
        ensures { result ≡ self.now.is_long }
    {
        self.text.is_long
    }

    /// Whether the macro may stand in no argument and no definition.
    pub fn is_outer(&self) -> bool
        ensures { result ≡ self.now.is_outer }
    {
        self.text.is_outer
    }

    /// Whether the macro stays as it is where a list of tokens is expanded.
    pub fn is_protected(&self) -> bool
        ensures { result ≡ self.now.is_protected }
    {
        self.text.is_protected
    }
}

//! The values that are kept under keys.
ghost use Rattle.std.specs.Prelude.{◌≡◌, ◌↔◌, IsTrue, IfOk};
ghost use Rattle.etx_keys.specs.Classes.{range_of};
ghost use Rattle.etx_state.specs.Fits.{Fits, fits, suits_range};

use crate::definition::Macro;
use etx_keys::{Class, Key};
use etx_matter::{Glue, SharedTokens, Token};
use etx_prims::{Primitive, RegisterKind};
use std::alloc::AllocError;

/// What a token means.
#[derive(Drop)]
pub enum Meaning {
    /// Nothing.
    Undefined,
    /// A command of the engine.
    Primitive(Primitive),
    /// A character and a category, as a token has them.
    Char { code: u8, cat: u8 },
    /// A macro.
    Macro(Macro),
    /// A character by its code, as `\chardef` gives it ("TeX: The Program", section 1224).
    CharGiven(u8),
    /// A math character by its code, as `\mathchardef` gives it.
    MathGiven(u16),
    /// A register, as `\countdef` and its kin give it.
    Register { kind: RegisterKind, number: u16 },
    /// What `\noexpand` makes of a token that would be expanded: it does nothing, as `\relax`, and is not the same as `\relax`
    /// to `\ifx` ("TeX: The Program", section 358). `\let` gives it on.
    Unexpanded,
    /// The end of an alignment's template, which the machine alone inserts (section 780).
    EndTemplate,
}

impl Meaning {
    /// The same meaning. A macro is shared, and not copied: the only want is of room in the count of those that share it.
    pub fn share(&self) -> Result<Meaning, AllocError>
        ensures { IfOk result (λ meaning. meaning ≡ self.now) }
    {
        match self {
            Meaning::Undefined => Ok(Meaning::Undefined),
            Meaning::Primitive(primitive) => Ok(Meaning::Primitive(*primitive)),
            Meaning::Char { code, cat } => Ok(Meaning::Char {
                code: *code,
                cat: *cat,
            }),
            Meaning::Macro(definition) => {
                let shared = definition.share()?;
                Ok(Meaning::Macro(shared))
            }
            Meaning::CharGiven(code) => Ok(Meaning::CharGiven(*code)),
            Meaning::MathGiven(code) => Ok(Meaning::MathGiven(*code)),
            Meaning::Register { kind, number } => Ok(Meaning::Register {
                kind: *kind,
                number: *number,
            }),
            Meaning::Unexpanded => Ok(Meaning::Unexpanded),
            Meaning::EndTemplate => Ok(Meaning::EndTemplate),
        }
    }
}

/// A value that is kept under a key. Which ones a key may have, `Fits` in `specs/` says.
#[derive(Drop)]
pub enum Val {
    /// The meaning of a control sequence or of an active character.
    Means(Meaning),
    /// An integer, a code, or a dimension in sp.
    Int(i32),
    /// Glue, or math glue.
    Glue(Glue),
    /// A list of tokens.
    Tokens(SharedTokens),
    /// A token, if one is kept.
    Kept(Option<Token>),
    /// Nothing yet: an empty box, no shape, no font, no tables, a closed stream. What these keys hold is still to come.
    Nothing,
}

/// Whether a number may stand under the key.
fn suits_range(key: Key, number: i32) -> bool
    ensures { result ≡ suits_range (range_of key) number }
{
    match key.range() {
        None => false,
        Some(range) => range.contains(number),
    }
}

impl Val {
    /// Whether the key may have this value: it is of the key's class, and a number is in the key's range.
    pub fn fits(&self, key: Key) -> bool
        ensures value { result ≡ fits key self.now }
        ensures fits { IsTrue result ↔ Fits key self.now }
    {
        match self {
            Val::Means(_) => key.class() == Class::Meaning,
            Val::Int(number) => match key.class() {
                Class::Integer => suits_range(key, *number),
                Class::Dimension => suits_range(key, *number),
                _ => false,
            },
            Val::Glue(_) => key.class() == Class::Glue || key.class() == Class::MuGlue,
            Val::Tokens(_) => key.class() == Class::Tokens,
            Val::Kept(_) => key.class() == Class::Token,
            Val::Nothing => match key.class() {
                Class::Box => true,
                Class::Shape => true,
                Class::Font => true,
                Class::HyphenTables => true,
                Class::Stream => true,
                _ => false,
            },
        }
    }

    /// The same value. A value that owns memory is shared, and not copied.
    pub fn share(&self) -> Result<Val, AllocError>
        ensures { IfOk result (λ value. value ≡ self.now) }
    {
        match self {
            Val::Means(meaning) => {
                let meaning = meaning.share()?;
                Ok(Val::Means(meaning))
            }
            Val::Int(number) => Ok(Val::Int(*number)),
            Val::Glue(glue) => Ok(Val::Glue(*glue)),
            Val::Tokens(tokens) => {
                let tokens = tokens.share()?;
                Ok(Val::Tokens(tokens))
            }
            Val::Kept(token) => Ok(Val::Kept(*token)),
            Val::Nothing => Ok(Val::Nothing),
        }
    }
}

/// The kind of a group, by what began it ("TeX: The Program", section 269): those that can be open. `kind as u8` is its
/// number in `\currentgrouptype`, where 0 says that no group is open.
#[derive(Clone, Copy, Debug, PartialEq, Eq)]
pub enum GroupKind {
    /// A left brace.
    Simple = 1,
    /// `\begingroup`.
    SemiSimple = 14,
}

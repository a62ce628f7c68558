//! Keys: the places of the state that hold a value.
//!
//! A [`Key`] names a parameter, a register, a code of a character, the meaning of a name, a quantity of a font, a mark, a
//! stream, or what there is one of. Its [`Kind`] and a number tell it apart from all others ([`KeyNumber`]), so that a
//! table can have its values in rows by number. [`Key::class`] says of which class the values under it are, and
//! [`Key::range`] which numbers.
#![tactic(auto)]

mod class;
mod family;
mod key;
mod kind;
mod number;
mod parameters;
mod single;
mod table;
#[cfg(test)]
mod tests;

pub use class::{Class, NumberRange};
pub use key::Key;
pub use kind::Kind;
pub use number::KeyNumber;
pub use single::Single;

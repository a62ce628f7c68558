//! Paragraphs for tests: lists of items in the small font, and the parameters of INITEX.
#![tactic(auto)]

mod items;
mod look;
mod setup;

pub use items::{Item, list};
pub use look::{is_char, is_disc, spells};
pub use setup::{POINT, Setup, glue, initex, sealed, small};

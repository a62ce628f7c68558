//! Pages as the bytes of a DVI file ("TeX: The Program", sections 592 to 643).
//!
//! A [`DviState`] is a file in the making: [`ship`] gives the bytes of the next page, [`finish`] those that end the file. The
//! clauses `whole` of the calls say together that the bytes of all calls, one behind the other, are those of `dvi_file`.
//! All sizes and places are in scaled points (sp). No glue is rounded by itself: where an item stands follows from the
//! exact fraction of its box, as the book's sections 619 to 637 have it with exact fractions.
#![tactic(auto)]

mod close;
mod copies;
mod draw;
mod fault;
mod leaders;
mod page;
mod pen;
mod place;
mod state;
mod texts;

pub use close::finish;
pub use fault::ShipFault;
pub use page::ship;
pub use state::{DviFont, DviState, MOST_FONTS};
pub use texts::writes;

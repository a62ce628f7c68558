//! Sealed paragraphs: a list with all that line breaking reads of the state, so that it can be broken at any time and by
//! any thread; what breaking gives; and what passes between the mouth and the side that builds pages.
//!
//! The places of a sealed list at which a line may end are its legal breaks. They are named by the numbers of their items,
//! counted from 1; the start is 0, and the end is the list's length plus 1.
#![tactic(auto)]

mod breaks;
mod finishing;
mod line;
mod look;
mod measure;
mod outcome;
mod params;
mod sealed;
mod shape;
mod stops;
mod yields;

pub use breaks::is_hyphen;
pub use finishing::glue_node;
pub use line::{after_at, before_at, item_at, kept, text_after, text_before};
pub use look::Look;
pub use measure::Measure;
pub use outcome::{Lines, Outcome};
pub use params::{BreakParams, LineSkips, ParParams, ParagraphPenalties, SealedFont};
pub use sealed::{Sealed, SharedSealed};
pub use shape::{LineShape, ParShape};
pub use stops::Stop;
pub use yields::{Answer, Did, Event, Question, Yield};

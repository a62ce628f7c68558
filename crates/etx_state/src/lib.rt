//! The state of the mouth: what is kept under keys, in groups, the names of control sequences, what is read, and the
//! scans in progress.
//!
//! [`Rest`] is all of it that is not scanning, and [`State`] the whole. Both go back to marks.
#![tactic(auto)]

mod cell;
mod condition;
mod definition;
mod entries;
mod frozen;
mod groups;
mod history;
mod initial;
mod key;
mod law;
mod limit;
mod names;
mod noted;
mod parts;
mod rest;
mod saves;
mod scan;
mod scopes;
mod slots;
mod state;
mod taker;

pub use condition::{Branch, Condition};
pub use definition::Macro;
pub use entries::Entries;
pub use etx_keys::{Key, Single};
pub use etx_matter::Limit;
pub use etx_undo::{InputMark, RestMark, StateMark};
pub use frozen::Frozen;
pub use key::{GroupKind, Meaning, Val};
pub use law::what_a_mark_stands_for_stays;
pub use limit::{Capacity, MOST_CONDITIONS, MOST_GROUPS, MOST_NAMES};
pub use rest::{Ended, Rest};
pub use scan::{
    AssignNumber, AssignScan, AssignText, Call, ControlScan, ControlText, Definition, Entry,
    ExpansionNumber, ExpansionScan, ExpansionText, Keeper, Likeness, NameFor, NumberFinish,
    OpenText, Order, ParameterMark, Prefixes, Scan, Skip, Test, TextFinish, TextPlace, Until,
    Value,
};
pub use state::State;
pub use taker::{Decimals, Factor, Length, NumberScan, Outer, Outers, Taker, Want};

//! The data that every layer of `etx` speaks of: tokens, nodes and lists of them, jobs, the ends of a job, and deeds, which
//! are what a job does to the outside.
#![tactic(auto)]

mod boxed;
mod category;
mod copies;
mod deed;
mod end;
mod font;
mod glue;
mod job;
mod math;
mod measures;
mod nests;
mod node;
mod page;
mod shared;
mod shared_font;
mod sizes;
mod token;
mod whats;

pub use boxed::Boxed;
pub use category::Category;
pub use copies::copy_nodes;
pub use deed::{Audience, Deed, Notice};
pub use end::{End, FatalError, Limit, Status};
pub use etx_lists::{Bytes, Listed, MOST};
pub use font::{
    CharInfo, CharTag, Dimensions, Font, FontHeader, FontInfo, LigItem, LigStep, PairAction, Recipe,
};
pub use glue::{Glue, GlueOrder, GlueSet};
pub use job::{GREATEST_BUDGET, Job};
pub use math::{AtomKind, Class8, Delim, LimitPlace, MathChar, Side, Style, StyleSize};
pub use nests::{DEEPEST, nesting};
pub use node::{
    BoxNode, Discretionary, Field, InnerList, Insertion, KernKind, Leader, LeaderKind, LigParts,
    Mark, Noad, Node, Nodes, UnsetBox,
};
pub use page::{ClassBox, ClassMarks, Fired, LastItem, PageAsk, PageTotal, Quantity, Removal};
pub use shared::SharedTokens;
pub use shared_font::{NamedFont, SharedFont};
pub use sizes::{BoxSize, CharSize, Class, Goal, Limits, Report, ReportKind, RuleSize, Size};
pub use token::{FROZEN_INACCESSIBLE, NameId, PAR, Token, Tokens};
pub use whats::What;

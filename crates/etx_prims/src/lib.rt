//! The primitive commands of the engine, and the table of their names.
//!
//! A [`Primitive`] is a command as a value: a family, and in most families a payload that says which of its commands it is.
//! [`lookup`] finds the command of a name, and [`name_of`] gives the name of a command. Names are strings of bytes
//! without the escape character. No two commands have one name.
#![tactic(auto)]

mod assignments;
mod command;
mod expansion;
mod general;
mod material;
mod math;
mod parameters;
mod quantities;
mod table;

pub use assignments::{
    ArithmeticKind, CharDefKind, DefKind, HyphenDataKind, InteractionKind, LetKind, PrefixKind,
    ReadKind,
};
pub use command::{Primitive, name_of};
pub use expansion::{ConvertKind, ExpandKind, FiOrElseKind, IfKind, InputKind, MarkKind, TheKind};
pub use general::{
    AfterKind, CaseShiftKind, ExtensionKind, GroupEdge, InStreamKind, MessageKind, ShowKind,
};
pub use material::{
    DiscretionaryKind, EndCellKind, HMoveKind, InsertKind, LeadersKind, MakeBoxKind, MarkClassKind,
    RemoveItemKind, SkipKind, StartParKind, UnboxKind, VMoveKind,
};
pub use math::{
    EqNoKind, FractionKind, LeftRightKind, LimitSwitchKind, MathComponentKind, MathStyleKind,
};
pub use parameters::{DimenParam, GlueParam, IntParam, MuGlueParam, TokenParam};
pub use quantities::{
    AuxKind, BoxDimenKind, CodeKind, ExpressionKind, FamilyFontKind, FontCharKind, FontIntKind,
    GlueConversionKind, GluePartKind, LastItemKind, PageDimenKind, PageIntKind, ParShapeItemKind,
    ReadOnlyIntKind, RegisterKind,
};
pub use table::lookup;

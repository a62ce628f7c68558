//! Internal quantities: what a token stands for where a number is read.
ghost use Rattle.std.specs.Prelude.{◌≡◌, pos, IfOk};
ghost use Rattle.etx_state.specs.Conditions.{current_if_type, current_if_branch};
ghost use Rattle.etx_state.specs.Values.{kind};
ghost use Rattle.etx_state.specs.Rests.{rest_of};
ghost use Rattle.etx_numbers.specs.Internals.{register_key, register_amount, register_internal, capped, group_type, aux, read_only_int, primitive_internal, internal_of};

use etx_exprs::Value as Quantity;
use etx_keys::{Key, Single};
use etx_prims::{
    AuxKind, CodeKind, ExpressionKind, GlueConversionKind, GluePartKind, Primitive,
    ReadOnlyIntKind, RegisterKind,
};
use etx_state::{Meaning, Rest};

/// What a token stands for where a number is read.
#[derive(Clone, Copy)]
pub(crate) enum Internal {
    /// It is no internal quantity.
    Nothing,
    Amount(Quantity),
    /// The list of tokens under this key.
    List(Key),
    /// A register, whose number comes next.
    Register(RegisterKind),
    /// A code of a character, which comes next.
    Code(CodeKind),
    /// A part of glue, which comes next.
    GluePart(GluePartKind),
    /// Glue as glue of the other kind.
    GlueConversion(GlueConversionKind),
    Expression(ExpressionKind),
    /// A quantity of another mode.
    Improper,
    /// It is still to come.
    Unbuilt,
}

/// The key of a register.
pub(crate) fn register_key(kind: RegisterKind, number: u16) -> Key
    ensures { result ≡ register_key kind number }
{
    Key::Register { kind, number }
}

/// The value of a register; that of a token register is no amount.
#[tactic(auto, unfolding(crate::specs::Internals::register_amount))]
pub(crate) fn register_amount(rest: &Rest, kind: RegisterKind, number: u16) -> Quantity
    ensures { result ≡ register_amount kind number (rest_of rest.now).values }
{
    let key = register_key(kind, number);
    match kind {
        RegisterKind::Count => Quantity::Int(rest.number(key)),
        RegisterKind::Dimen => Quantity::Dim(rest.number(key)),
        RegisterKind::Skip => Quantity::Glue(rest.glue(key)),
        RegisterKind::MuSkip => Quantity::MuGlue(rest.glue(key)),
        RegisterKind::Toks => Quantity::Int(0),
    }
}

/// A register that a control sequence stands for.
#[tactic(auto, unfolding(crate::specs::Internals::register_internal))]
pub(crate) fn register_internal(rest: &Rest, kind: RegisterKind, number: u16) -> Internal
    ensures { result ≡ register_internal kind number (rest_of rest.now).values }
{
    match kind {
        RegisterKind::Toks => Internal::List(register_key(kind, number)),
        _ => Internal::Amount(register_amount(rest, kind, number)),
    }
}

fn integer(number: i32) -> Internal
    ensures { result ≡ Internal.Amount (Quantity.Int number) }
{
    Internal::Amount(Quantity::Int(number))
}

/// A count, which is at most 2^31-1.
fn capped(count: u64) -> i32
    ensures { result ≡ capped count }
{
    if count < 2_147_483_647 {
        count as i32
    } else {
        2_147_483_647
    }
}

/// The kind of the innermost group as a number.
fn group_type(rest: &Rest) -> i32
    ensures { result ≡ group_type (kind (rest_of rest.now).values) }
{
    match rest.kind() {
        None => 0,
        Some(kind) => kind as i32,
    }
}

#[tactic(auto, unfolding(etx_state::specs::Conditions::current_if_type, etx_state::specs::Conditions::top_condition))]
fn if_type(rest: &Rest) -> i32
    ensures { result ≡ current_if_type (rest_of rest.now).conditions }
{
    match rest.condition() {
        None => 0,
        Some(condition) => condition.number(),
    }
}

#[tactic(auto, unfolding(etx_state::specs::Conditions::current_if_branch, etx_state::specs::Conditions::top_condition))]
fn if_branch(rest: &Rest) -> i32
    ensures { result ≡ current_if_branch (rest_of rest.now).conditions }
{
    match rest.condition() {
        None => 0,
        Some(condition) => condition.branch.number(),
    }
}

#[tactic(auto, unfolding(crate::specs::Internals::read_only_int))]
fn read_only_int(rest: &Rest, line: u32, kind: ReadOnlyIntKind) -> Internal
    ensures { result ≡ read_only_int kind line (rest_of rest.now) }
{
    match kind {
        ReadOnlyIntKind::InputLineNo => integer(capped(u64::from(line))),
        ReadOnlyIntKind::Badness => Internal::Unbuilt,
        ReadOnlyIntKind::ETeXVersion => integer(2),
        ReadOnlyIntKind::CurrentGroupLevel => integer(capped(u64::from(rest.level()))),
        ReadOnlyIntKind::CurrentGroupType => integer(group_type(rest)),
        ReadOnlyIntKind::CurrentIfLevel => integer(capped(rest.conditions() as u64)),
        ReadOnlyIntKind::CurrentIfType => integer(if_type(rest)),
        ReadOnlyIntKind::CurrentIfBranch => integer(if_branch(rest)),
    }
}

/// In outer vertical mode there is no space factor; the depth before is the page's, which is still to come.
fn aux(kind: AuxKind) -> Internal
    ensures { result ≡ aux kind }
{
    match kind {
        AuxKind::PrevDepth => Internal::Unbuilt,
        AuxKind::SpaceFactor => Internal::Improper,
    }
}

/// A line for each family of quantities.
#[tactic(auto, unfolding(crate::specs::Internals::primitive_internal))]
fn primitive_internal(rest: &Rest, line: u32, primitive: Primitive) -> Internal
    ensures { result ≡ primitive_internal primitive line (rest_of rest.now) }
{
    match primitive {
        Primitive::IntParam(parameter) => integer(rest.int(parameter)),
        Primitive::DimenParam(parameter) => {
            Internal::Amount(Quantity::Dim(rest.number(Key::Dimen(parameter))))
        }
        Primitive::GlueParam(parameter) => {
            Internal::Amount(Quantity::Glue(rest.glue(Key::Glue(parameter))))
        }
        Primitive::MuGlueParam(parameter) => {
            Internal::Amount(Quantity::MuGlue(rest.glue(Key::MuGlue(parameter))))
        }
        Primitive::TokenParam(parameter) => Internal::List(Key::Tokens(parameter)),
        Primitive::Register(kind) => Internal::Register(kind),
        Primitive::Code(kind) => Internal::Code(kind),
        Primitive::FontDimen => Internal::Unbuilt,
        Primitive::FontInt(_) => Internal::Unbuilt,
        Primitive::FamilyFont(_) => Internal::Unbuilt,
        Primitive::Font => Internal::Unbuilt,
        Primitive::NullFont => Internal::Unbuilt,
        Primitive::ParShape => Internal::Unbuilt,
        Primitive::BoxDimen(_) => Internal::Unbuilt,
        Primitive::Aux(kind) => aux(kind),
        Primitive::PrevGraf => Internal::Unbuilt,
        Primitive::PageInt(_) => Internal::Unbuilt,
        Primitive::PageDimen(_) => Internal::Unbuilt,
        Primitive::InteractionMode => integer(rest.number(Key::Single(Single::Interaction))),
        Primitive::LastItem(_) => Internal::Unbuilt,
        Primitive::ReadOnlyInt(kind) => read_only_int(rest, line, kind),
        Primitive::FontChar(_) => Internal::Unbuilt,
        Primitive::ParShapeItem(_) => Internal::Unbuilt,
        Primitive::GluePart(kind) => Internal::GluePart(kind),
        Primitive::GlueConversion(kind) => Internal::GlueConversion(kind),
        Primitive::Expression(kind) => Internal::Expression(kind),
        _ => Internal::Nothing,
    }
}

/// What a token stands for where a number is read.
#[tactic(auto, unfolding(crate::specs::Internals::internal_of))]
pub(crate) fn internal_of(rest: &Rest, line: u32, meaning: &Meaning) -> Internal
    ensures { result ≡ internal_of meaning.now line (rest_of rest.now) }
{
    match meaning {
        Meaning::Primitive(primitive) => primitive_internal(rest, line, *primitive),
        Meaning::CharGiven(code) => integer(i32::from(*code)),
        Meaning::MathGiven(code) => integer(i32::from(*code)),
        Meaning::Register { kind, number } => register_internal(rest, *kind, *number),
        _ => Internal::Nothing,
    }
}

//! What assignments begin that take `\global` alone: values of parameters and registers, codes, names of characters and registers, and
//! arithmetic.
ghost use Rattle.std.specs.Prelude.{◌≡◌, IfOk};
ghost use Rattle.etx_answers.specs.Answers.{starting};
ghost use Rattle.etx_numbers.specs.Numbers.{integer, glue_want};
ghost use Rattle.etx_assign.specs.Values.{register_scan, number_scan, value_scan, list_scan, register_begun, simple_begun};

use crate::prefix::{let_begun, named};
use etx_answers::{Push, Start, start_ends, starting};
use etx_matter::{Boxed, End, Token};
use etx_numbers::INTEGER;
use etx_prims::{Primitive, RegisterKind};
use etx_state::{
    AssignNumber, AssignScan, Key, Length, NameFor, NumberFinish, NumberScan, Outers, Rest, Scan,
    Taker, Want,
};
use std::alloc::{AllocError, Global};

/// A dimension without a sign.
pub(crate) const DIMENSION: Want = Want::Dimension(Length {
    is_negative: false,
    is_mu: false,
    is_infinite: false,
});

/// Glue, in mu or not, without a sign.
pub(crate) fn glue(is_mu: bool) -> Want
    ensures { result ≡ glue_want is_mu }
{
    Want::Glue {
        is_negative: false,
        is_mu,
    }
}

/// A number that assignments take.
pub(crate) fn number_scan(
    alloc: Global,
    scan: NumberScan,
    finish: AssignNumber,
) -> Result<Scan, AllocError>
    ensures { IfOk result (λ it. it ≡ number_scan scan finish) }
{
    let taker = Taker {
        outers: Outers::new(alloc),
        finish: NumberFinish::Assign(finish),
    };
    Ok(Scan::Number {
        scan,
        taker: Boxed::new(alloc, taker)?,
    })
}

/// The value under a key, behind an `=` that may be there.
pub(crate) fn value_scan(
    alloc: Global,
    want: Want,
    key: Key,
    is_global: bool,
) -> Result<Scan, AllocError>
    ensures { IfOk result (λ it. it ≡ value_scan want key is_global) }
{
    number_scan(
        alloc,
        NumberScan::Equals(want),
        AssignNumber::Value { key, is_global },
    )
}

/// A list of tokens under a key, behind an `=` that may be there.
pub(crate) fn list_scan(key: Key, reader: Token, is_global: bool) -> Scan
    ensures { result ≡ list_scan key reader is_global }
{
    Scan::Assign(AssignScan::List {
        key,
        is_global,
        reader,
        is_behind: false,
    })
}

fn value_begun(alloc: Global, want: Want, key: Key, is_global: bool) -> Result<Start, AllocError>
    ensures { IfOk result (λ start. start ≡ starting (Push.Begin (value_scan want key is_global))) }
{
    Ok(starting(Push::Begin(value_scan(alloc, want, key, is_global)?)))
}

/// A register that is known.
pub(crate) fn register_begun(
    rest: &Rest,
    kind: RegisterKind,
    number: u16,
    token: Token,
    is_global: bool,
) -> Result<Start, AllocError>
    ensures { IfOk result (λ start. start ≡ register_begun kind number token is_global) }
{
    let key = Key::Register { kind, number };
    let scan = register_scan(rest.alloc(), kind, key, token, is_global)?;
    Ok(starting(Push::Begin(scan)))
}

/// The value of a register, behind an `=` that may be there.
#[tactic(auto, unfolding(crate::specs::Values::register_scan))]
pub(crate) fn register_scan(
    alloc: Global,
    kind: RegisterKind,
    key: Key,
    reader: Token,
    is_global: bool,
) -> Result<Scan, AllocError>
    ensures { IfOk result (λ scan. scan ≡ register_scan kind key reader is_global) }
{
    match kind {
        RegisterKind::Toks => Ok(list_scan(key, reader, is_global)),
        RegisterKind::Count => value_scan(alloc, INTEGER, key, is_global),
        RegisterKind::Dimen => value_scan(alloc, DIMENSION, key, is_global),
        RegisterKind::Skip => value_scan(alloc, glue(false), key, is_global),
        RegisterKind::MuSkip => value_scan(alloc, glue(true), key, is_global),
    }
}

/// A number comes first, as that of a register or of a character.
fn number_begun(alloc: Global, finish: AssignNumber) -> Result<Start, AllocError>
    ensures { IfOk result (λ start. start ≡ starting (Push.Begin (number_scan (NumberScan.Start integer) finish))) }
{
    let scan = number_scan(alloc, NumberScan::Start(INTEGER), finish)?;
    Ok(starting(Push::Begin(scan)))
}

/// What an assignment begins that takes `\global` alone.
#[tactic(auto, unfolding(crate::specs::Values::simple_begun))]
pub(crate) fn simple_begun(
    rest: &Rest,
    primitive: Primitive,
    token: Token,
    is_global: bool,
) -> Result<Start, AllocError>
    ensures { IfOk result (λ start. start ≡ simple_begun primitive token is_global) }
{
    let alloc = rest.alloc();
    match primitive {
        Primitive::Let(kind) => Ok(let_begun(kind, is_global)),
        Primitive::IntParam(parameter) => {
            value_begun(alloc, INTEGER, Key::Int(parameter), is_global)
        }
        Primitive::DimenParam(parameter) => {
            value_begun(alloc, DIMENSION, Key::Dimen(parameter), is_global)
        }
        Primitive::GlueParam(parameter) => {
            value_begun(alloc, glue(false), Key::Glue(parameter), is_global)
        }
        Primitive::MuGlueParam(parameter) => {
            value_begun(alloc, glue(true), Key::MuGlue(parameter), is_global)
        }
        Primitive::TokenParam(parameter) => Ok(starting(Push::Begin(list_scan(
            Key::Tokens(parameter),
            token,
            is_global,
        )))),
        Primitive::Register(kind) => number_begun(
            alloc,
            AssignNumber::Register {
                kind,
                is_global,
                reader: token,
            },
        ),
        Primitive::Code(kind) => number_begun(alloc, AssignNumber::CodeOf { kind, is_global }),
        Primitive::CharDef(kind) => Ok(named(NameFor::CharDef { kind, is_global })),
        Primitive::RegisterDef(kind) => Ok(named(NameFor::RegisterDef { kind, is_global })),
        Primitive::Arithmetic(kind) => Ok(starting(Push::Begin(Scan::Assign(AssignScan::Arithmetic {
            kind,
            is_global,
        })))),
        _ => Ok(start_ends(End::Unbuilt)),
    }
}

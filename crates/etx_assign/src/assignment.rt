//! The end of an assignment, and where it assigns.
ghost use Rattle.std.specs.Prelude.{◌≡◌, OnOk, IfOk};
ghost use Rattle.etx_state.specs.Fits.{Fits};
ghost use Rattle.etx_state.specs.Rests.{rest_of, with_values, Keeps};
ghost use Rattle.etx_assign.specs.Assignments.{key_of, assigned, with_fitting, without_kept, over, scan_over, value_over, is_global_in, is_global_def_in};

use etx_answers::{Ended, Insert, Move, Plan, Then, finished, insert_token, quiet};
use etx_groups::{assign, assign_global};
use etx_matter::Token;
use etx_prims::IntParam;
use etx_state::{Key, Rest, Single, Val};
use std::alloc::AllocError;

/// Where a control sequence has its meaning.
pub(crate) fn key_of(token: Token) -> Key
    ensures { result ≡ key_of token }
{
    match token {
        Token::Name(name) => Key::Meaning(name.0),
        Token::Char { code, .. } => Key::Active(code),
        Token::Param(_) => Key::Active(0),
    }
}

/// An assignment, local or global.
pub(crate) fn set(rest: &mut Rest, is_global: bool, key: Key, value: Val) -> Result<(), AllocError>
    requires { Fits key value }
    ensures rest { OnOk result (rest_of rest.new ≡ with_values (assigned is_global key value (rest_of rest.old).values) (rest_of rest.old)) }
    ensures kept { Keeps rest.old rest.new }
{
    if is_global {
        assign_global(rest, key, value)
    } else {
        assign(rest, key, value)
    }
}

/// The same under a key that may have the value; under another one nothing changes. (No assignment begins with such a key.)
#[tactic(auto, unfolding(crate::specs::Assignments::with_fitting))]
pub(crate) fn set_fitting(
    rest: &mut Rest,
    is_global: bool,
    key: Key,
    value: Val,
) -> Result<(), AllocError>
    ensures rest { OnOk result (rest_of rest.new ≡ with_fitting key is_global value (rest_of rest.old)) }
    ensures kept { Keeps rest.old rest.new }
{
    if value.fits(key) {
        set(rest, is_global, key, value)
    } else {
        Ok(())
    }
}

/// Whether an assignment is global, where its prefixes say this, by `\globaldefs`.
#[tactic(auto, unfolding(crate::specs::Assignments::is_global_in))]
pub(crate) fn is_global_in(rest: &Rest, is_global: bool) -> bool
    ensures { result ≡ is_global_in (rest_of rest.now).values is_global }
{
    let globaldefs = rest.int(IntParam::GlobalDefs);
    if globaldefs == 0 {
        is_global
    } else {
        globaldefs > 0
    }
}

/// The same for a definition that is global by its name, where `always` is true.
#[tactic(auto, unfolding(crate::specs::Assignments::is_global_def_in))]
pub(crate) fn is_global_def_in(rest: &Rest, is_global: bool, always: bool) -> bool
    ensures { result ≡ is_global_def_in (rest_of rest.now).values is_global always }
{
    let globaldefs = rest.int(IntParam::GlobalDefs);
    if globaldefs == 0 {
        is_global || always
    } else {
        globaldefs > 0
    }
}

/// `\afterassignment` keeps a token no longer.
#[tactic(auto, unfolding(crate::specs::Assignments::without_kept))]
fn drop_kept(rest: &mut Rest) -> Result<(), AllocError>
    ensures rest { OnOk result (rest_of rest.new ≡ with_values (without_kept (rest_of rest.old).values) (rest_of rest.old)) }
    ensures kept { Keeps rest.old rest.new }
{
    rest.set(Key::Single(Single::AfterAssignment), Val::Kept(None))
}

/// An assignment is over: the token that `\afterassignment` kept is handed out, to be read behind it.
#[tactic(auto, unfolding(crate::specs::Assignments::over))]
pub(crate) fn over(rest: &mut Rest) -> Result<Option<Token>, AllocError>
    ensures rest { OnOk result (rest_of rest.new ≡ (over (rest_of rest.old)).rest) }
    ensures token { IfOk result (λ token. token ≡ (over (rest_of rest.old)).kept) }
    ensures kept { Keeps rest.old rest.new }
{
    match rest.after_assignment() {
        None => Ok(None),
        Some(token) => {
            drop_kept(rest)?;
            Ok(Some(token))
        }
    }
}

/// An assignment of a scan is over, and its last token is used up.
pub(crate) fn scan_over(rest: &mut Rest) -> Result<Plan, AllocError>
    ensures rest { OnOk result (rest_of rest.new ≡ (scan_over (over (rest_of rest.old))).rest) }
    ensures plan { IfOk result (λ plan. plan ≡ (scan_over (over (rest_of rest.old))).plan) }
    ensures kept { Keeps rest.old rest.new }
{
    let kept = over(rest)?;
    Ok(quiet(Move::Used(insert_token(kept))))
}

/// An assignment of a finisher is over.
pub(crate) fn value_over(rest: &mut Rest) -> Result<Ended, AllocError>
    ensures rest { OnOk result (rest_of rest.new ≡ (value_over (over (rest_of rest.old))).rest) }
    ensures ended { IfOk result (λ ended. ended ≡ (value_over (over (rest_of rest.old))).ended) }
    ensures kept { Keeps rest.old rest.new }
{
    let kept = over(rest)?;
    Ok(finished(Then::Insert(insert_token(kept))))
}

/// Nothing is read behind a token that is used up.
pub(crate) fn used() -> Move
    ensures { result ≡ Move.Used Insert.Nothing }
{
    Move::Used(Insert::Nothing)
}

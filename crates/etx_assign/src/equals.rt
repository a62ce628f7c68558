//! `\let` and `\futurelet`.
ghost use Rattle.std.specs.Prelude.{◌≡◌, OnOk, IfOk};
ghost use Rattle.etx_state.specs.Rests.{rest_of, Keeps};
ghost use Rattle.etx_assign.specs.Meanings.{given_meaning, let_over, let_equals_row, let_space_row};

use crate::assignment::{key_of, scan_over, set};
use etx_answers::{Move, Plan, has_category, quiet};
use etx_matter::Token;
use etx_numbers::is_other;
use etx_state::{AssignScan, Meaning, Rest, Scan, Val};
use std::alloc::AllocError;

/// The category of a space.
const SPACE: u8 = 10;

/// Gives a control sequence a meaning.
#[tactic(auto, unfolding(crate::specs::Meanings::given_meaning))]
pub(crate) fn give_meaning(
    rest: &mut Rest,
    is_global: bool,
    name: Token,
    meaning: Meaning,
) -> Result<(), AllocError>
    ensures rest { OnOk result (rest_of rest.new ≡ given_meaning is_global name meaning (rest_of rest.old)) }
    ensures kept { Keeps rest.old rest.new }
{
    set(rest, is_global, key_of(name), Val::Means(meaning))
}

/// The token whose meaning is taken.
#[tactic(auto, unfolding(crate::specs::Meanings::let_over))]
pub(crate) fn let_over(
    rest: &mut Rest,
    is_global: bool,
    name: Token,
    meaning: Meaning,
) -> Result<Plan, AllocError>
    ensures rest { OnOk result (rest_of rest.new ≡ (let_over is_global name meaning (rest_of rest.old)).rest) }
    ensures plan { IfOk result (λ plan. plan ≡ (let_over is_global name meaning (rest_of rest.old)).plan) }
    ensures kept { Keeps rest.old rest.new }
{
    give_meaning(rest, is_global, name, meaning)?;
    scan_over(rest)
}

/// A token before `=`.
#[tactic(auto, unfolding(crate::specs::Meanings::let_equals_row))]
pub(crate) fn let_equals_row(
    rest: &mut Rest,
    is_global: bool,
    name: Token,
    token: Token,
    meaning: Meaning,
) -> Result<Plan, AllocError>
    ensures rest { OnOk result (rest_of rest.new ≡ (let_equals_row is_global name token meaning (rest_of rest.old)).rest) }
    ensures plan { IfOk result (λ plan. plan ≡ (let_equals_row is_global name token meaning (rest_of rest.old)).plan) }
    ensures kept { Keeps rest.old rest.new }
{
    if has_category(SPACE, &meaning) {
        Ok(quiet(Move::Stay(Scan::Assign(AssignScan::LetEquals { is_global, name }))))
    } else if is_other(b'=', token) {
        Ok(quiet(Move::Stay(Scan::Assign(AssignScan::LetSpace { is_global, name }))))
    } else {
        let_over(rest, is_global, name, meaning)
    }
}

/// A token behind `=`.
#[tactic(auto, unfolding(crate::specs::Meanings::let_space_row))]
pub(crate) fn let_space_row(
    rest: &mut Rest,
    is_global: bool,
    name: Token,
    meaning: Meaning,
) -> Result<Plan, AllocError>
    ensures rest { OnOk result (rest_of rest.new ≡ (let_space_row is_global name meaning (rest_of rest.old)).rest) }
    ensures plan { IfOk result (λ plan. plan ≡ (let_space_row is_global name meaning (rest_of rest.old)).plan) }
    ensures kept { Keeps rest.old rest.new }
{
    if has_category(SPACE, &meaning) {
        Ok(quiet(Move::Stay(Scan::Assign(AssignScan::LetToken { is_global, name }))))
    } else {
        let_over(rest, is_global, name, meaning)
    }
}

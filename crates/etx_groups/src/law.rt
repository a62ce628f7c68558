//! Examples: three small functions over the calls, which close with no proof file, as a client's proofs would.
ghost use Rattle.std.specs.Prelude.{◌≡◌, ◌≤◌, Err, OnOk};
ghost use Rattle.etx_state.specs.declared.key.GroupKind.TheVariants.{Simple, SemiSimple};
ghost use Rattle.etx_state.specs.Values.{assign, assign_global, begin, level};
ghost use Rattle.etx_state.specs.Rests.{rest_of, with_values, Keeps};

use crate::groups::{assign, assign_global, begin, end};
use etx_keys::Key;
use etx_matter::Glue;
use etx_prims::GlueParam;
use etx_state::{Capacity, GroupKind, Limit, Rest, Val};
use std::alloc::AllocError;

/// An example: one local assignment.
pub fn one_assignment(rest: &mut Rest, value: Glue) -> Result<(), AllocError>
    ensures ok { OnOk result (rest_of rest.new ≡ with_values (assign (rest_of rest.old).values (Key.Glue GlueParam.ParSkip) (Val.Glue value)) (rest_of rest.old)) }
    ensures kept { Keeps rest.old rest.new }
{
    assign(rest, Key::Glue(GlueParam::ParSkip), Val::Glue(value))
}

/// An example: a global assignment inside two groups.
#[tactic(auto, unfolding(etx_state::specs::Values::begin, etx_state::specs::Values::level))]
pub fn global_inside_two_groups(rest: &mut Rest, value: Glue) -> Result<(), Capacity>
    ensures ok { OnOk result (rest_of rest.new ≡ with_values
        (assign_global (begin (begin (rest_of rest.old).values Simple) SemiSimple) (Key.Glue GlueParam.ParSkip) (Val.Glue value)) (rest_of rest.old)) }
    ensures full { (limit : Limit) → result ≡ Err (Capacity.Full limit) → (limit ≡ Limit.Groups) × (9999 ≤ level (rest_of rest.old).values) }
    ensures kept { Keeps rest.old rest.new }
{
    begin(rest, GroupKind::Simple)?;
    begin(rest, GroupKind::SemiSimple)?;
    assign_global(rest, Key::Glue(GlueParam::ParSkip), Val::Glue(value))?;
    Ok(())
}

/// An example, of two parameters: the end of a group brings back what was assigned locally in it, keeps what was assigned
/// globally, and leaves all else as it was.
#[tactic(auto, unfolding(etx_state::specs::Values::begin, etx_state::specs::Values::level, etx_state::specs::Values::assign, etx_state::specs::Values::assign_global, etx_state::specs::Values::ended))]
pub fn one_restored_and_one_kept(rest: &mut Rest, value: Glue) -> Result<(), Capacity>
    ensures ok { OnOk result (rest_of rest.new ≡ with_values
        (assign_global (rest_of rest.old).values (Key.Glue GlueParam.BaselineSkip) (Val.Glue value)) (rest_of rest.old)) }
    ensures full { (limit : Limit) → result ≡ Err (Capacity.Full limit) → (limit ≡ Limit.Groups) × (10000 ≤ level (rest_of rest.old).values) }
    ensures kept { Keeps rest.old rest.new }
{
    begin(rest, GroupKind::Simple)?;
    assign(rest, Key::Glue(GlueParam::ParSkip), Val::Glue(value))?;
    assign_global(rest, Key::Glue(GlueParam::BaselineSkip), Val::Glue(value))?;
    match end(rest) {
        Ok(_) => Ok(()),
        Err(_) => Err(Capacity::OutOfMemory),
    }
}

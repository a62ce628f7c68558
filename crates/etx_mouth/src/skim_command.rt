//! The turn at rest at which a command begins, where nothing is done beside it.
//!
//! The general turn gets the token, looks its meaning up and asks whether it is expanded, or is forbidden; here all of this is
//! known already, and the row of the command is all that is left. Where the row does something beside (it reports an error,
//! or ends the job), nothing is changed, and the general turn makes it.
ghost use Rattle.std.specs.Prelude.{◌≡◌, ◌≤◌, OnOk};
ghost use Rattle.etx_state.specs.Reading.{token_meaning};
ghost use Rattle.etx_state.specs.Mouths.{mouth_of};
ghost use Rattle.etx_mouth.specs.Mouths.{mouth_at};
ghost use Rattle.etx_mouth.specs.Runs.{Runs};
ghost use Rattle.etx_mouth.specs.Skimming.{IsNext, IsCommand, is_nothing};

use crate::commands::command_row;
use crate::mouth::Source;
use etx_answers::Did;
use etx_expand::begin;
use etx_matter::Token;
use etx_state::{Meaning, State};
use std::alloc::AllocError;

/// Whether nothing is done beside.
fn is_quiet(did: &Did) -> bool
    ensures { result ≡ is_nothing did.now }
{
    match did {
        Did::Nothing => true,
        Did::Space => false,
        Did::Error(_) => false,
        Did::End(_) => false,
    }
}

/// Makes the turn at which this token is a command, if that is within the budget and does nothing beside. After an `Err` the
/// state is only dropped.
pub(crate) fn skim_command(
    s: &mut State,
    token: Token,
    meaning: Meaning,
    budget: u64,
) -> Result<(), AllocError>
    requires next { IsNext token (mouth_of s.old) }
    requires command { IsCommand (token_meaning (mouth_of s.old).rest.values token) meaning }
    requires within { (mouth_of s.old).spent ≤ budget }
    ensures runs { OnOk result (Runs budget (mouth_at Source.Reading (mouth_of s.old)) (mouth_at Source.Reading (mouth_of s.new))) }
    ensures within { OnOk result ((mouth_of s.new).spent ≤ budget) }
    ensures forth { OnOk result ((mouth_of s.old).spent ≤ (mouth_of s.new).spent) }
{
    if s.spent == budget {
        return Ok(());
    }
    let line = s.input.line();
    let start = command_row(&mut s.rest, line, token, meaning)?;
    if !is_quiet(&start.did) {
        return Ok(());
    }
    s.input.skip(1)?;
    s.spent += 1;
    begin(s, token, start)?;
    Ok(())
}

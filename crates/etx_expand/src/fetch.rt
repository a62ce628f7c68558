//! A token for whoever waits: it is expanded, or handed to the row.
ghost use Rattle.std.specs.Prelude.{◌≡◌, Some, None, OnOk, IfOk};
ghost use Rattle.etx_state.specs.Mouths.{mouth_of};
ghost use Rattle.etx_expand.specs.Moves.{scanning, turned_by, error_deed};
ghost use Rattle.etx_expand.specs.Calls.{cut_off};
ghost use Rattle.etx_expand.specs.Turn.{wanted_as, fetched_as, scan_fetched, keeper_fetched, main_fetched, expanded_turn, idle_turn};

use crate::call::cut_off;
use crate::expand::expansion_begun;
use crate::get::{Got, get};
use crate::moves::{begin, do_alone, enter_scan, error_deed};
use etx_answers::{Did, Expandable, Reading, Turned, keeper_reading, reading_of, wanted};
use etx_lists::Bytes;
use etx_matter::Token;
use etx_state::{Keeper, Meaning, Scan, State};
use std::alloc::AllocError;

/// Why no token comes to the row.
#[derive(Drop)]
pub enum Idle {
    /// The token is expanded.
    Expands { token: Token, what: Expandable },
    /// There was none, and this is done.
    Over(Did),
    /// There was none: an outer macro or the end of a file cuts the scan off, which is an error with this text.
    Cut(Bytes),
}

/// What is fetched.
#[derive(Drop)]
pub enum Fetched {
    /// A token that isn't expanded, and what it means.
    Token { token: Token, meaning: Meaning },
    Idle(Idle),
}

#[inline(always)]
fn fetched_by(by: Reading, got: Got) -> Fetched
    ensures { result ≡ fetched_as by got }
{
    match got {
        Got::Token { token, meaning } => match wanted(by, meaning) {
            Ok(what) => Fetched::Idle(Idle::Expands { token, what }),
            Err(meaning) => Fetched::Token { token, meaning },
        },
        Got::Over(did) => Fetched::Idle(Idle::Over(did)),
        Got::Cut(text) => Fetched::Idle(Idle::Cut(text)),
    }
}

/// Fetches a token for a scan, which stands on the stack no more. After an `Err` the state is only dropped.
#[tactic(auto, unfolding(crate::specs::Turn::scan_fetched))]
#[inline(always)]
pub fn fetch_for(s: &mut State, scan: &Scan) -> Result<Fetched, AllocError>
    ensures now { OnOk result (mouth_of s.new ≡ (scan_fetched scan.now (mouth_of s.old)).now) }
    ensures fetched { IfOk result (λ f. f ≡ (scan_fetched scan.now (mouth_of s.old)).fetched) }
{
    let by = reading_of(scan);
    let got = get(s, Some(scan))?;
    Ok(fetched_by(by, got))
}

/// Fetches a token behind one that is kept, which stands on the stack no more. After an `Err` the state is only dropped.
#[tactic(auto, unfolding(crate::specs::Turn::keeper_fetched))]
pub fn fetch_behind(s: &mut State, by: Keeper) -> Result<Fetched, AllocError>
    ensures now { OnOk result (mouth_of s.new ≡ (keeper_fetched by (mouth_of s.old)).now) }
    ensures fetched { IfOk result (λ f. f ≡ (keeper_fetched by (mouth_of s.old)).fetched) }
{
    let got = get(s, None)?;
    Ok(fetched_by(keeper_reading(by), got))
}

/// Fetches a token for main control, where nothing stands on the stack. After an `Err` the state is only dropped.
#[tactic(auto, unfolding(crate::specs::Turn::main_fetched))]
pub fn fetch_command(s: &mut State) -> Result<Fetched, AllocError>
    ensures now { OnOk result (mouth_of s.new ≡ (main_fetched (mouth_of s.old)).now) }
    ensures fetched { IfOk result (λ f. f ≡ (main_fetched (mouth_of s.old)).fetched) }
{
    let got = get(s, None)?;
    Ok(fetched_by(Reading::Expanded, got))
}

/// Expands a token. After an `Err` the state is only dropped.
pub fn expand_token(s: &mut State, what: Expandable, token: Token) -> Result<Turned, AllocError>
    ensures now { OnOk result (mouth_of s.new ≡ (expanded_turn what token (mouth_of s.old)).now) }
    ensures turned { IfOk result (λ t. t ≡ (expanded_turn what token (mouth_of s.old)).turned) }
{
    let line = s.input.line();
    let start = expansion_begun(&mut s.rest, line, what, token)?;
    begin(s, token, start)
}

fn expand_above(
    s: &mut State,
    left: u8,
    scan: Scan,
    what: Expandable,
    token: Token,
) -> Result<Turned, AllocError>
    ensures now { OnOk result (mouth_of s.new ≡ (expanded_turn what token (scanning left scan (mouth_of s.old))).now) }
    ensures turned { IfOk result (λ t. t ≡ (expanded_turn what token (scanning left scan (mouth_of s.old))).turned) }
{
    enter_scan(s, left, scan)?;
    expand_token(s, what, token)
}

fn wait_on(s: &mut State, left: u8, scan: Scan, did: Did) -> Result<Turned, AllocError>
    ensures now { OnOk result (mouth_of s.new ≡ scanning left scan (mouth_of s.old)) }
    ensures turned { IfOk result (λ t. t ≡ turned_by did (mouth_of s.old)) }
{
    let turned = do_alone(s, did)?;
    enter_scan(s, left, scan)?;
    Ok(turned)
}

fn cut(s: &mut State, left: u8, scan: Scan, text: Bytes) -> Result<Turned, AllocError>
    ensures now { OnOk result (mouth_of s.new ≡ scanning left (cut_off scan) (mouth_of s.old)) }
    ensures turned { IfOk result (λ t. t ≡ error_deed text (mouth_of s.old)) }
{
    let turned = error_deed(s, text)?;
    enter_scan(s, left, cut_off(scan))?;
    Ok(turned)
}

/// Where no token comes to a scan, it stands on the stack again. After an `Err` the state is only dropped.
#[tactic(auto, unfolding(crate::specs::Turn::idle_turn))]
pub fn go_idle(s: &mut State, left: u8, scan: Scan, idle: Idle) -> Result<Turned, AllocError>
    ensures now { OnOk result (mouth_of s.new ≡ (idle_turn left scan idle (mouth_of s.old)).now) }
    ensures turned { IfOk result (λ t. t ≡ (idle_turn left scan idle (mouth_of s.old)).turned) }
{
    match idle {
        Idle::Expands { token, what } => expand_above(s, left, scan, what, token),
        Idle::Over(did) => wait_on(s, left, scan, did),
        Idle::Cut(text) => cut(s, left, scan, text),
    }
}

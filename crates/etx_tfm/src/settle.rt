//! Ligatures that come round.
ghost use Rattle.std.specs.Prelude.{◌≡◌, ◌≤◌, ◌+◌, length, is_none, IfOk};
ghost use Rattle.etx_matter.specs.Soundness.{has_bad_steps};
ghost use Rattle.etx_matter.specs.Ligatures.{last, any_below, some_item, ligature_count, deepest, comes_round};
ghost use Rattle.etx_tfm.specs.Pairs.{IsTable};
ghost use Rattle.etx_tfm.specs.Leading.{leads_on, some_lead};

use crate::checks::has_bad_among;
use crate::machine::kept;
use crate::pairs::{End, PAIRS, is_open_between, nothing_known};
use etx_matter::{FontInfo, LigItem, LigStep, PairAction};
use std::alloc::{AllocError, Global};

/// The most pairs with a ligature for which one step is: 257 items on the left, and two on the right.
const PAIRS_OF_A_STEP: usize = 514;

/// How many codes there are.
const CODES: u16 = 256;

/// Whether what some pair with `current` comes to isn't found with at most so many pairs one within the other.
fn is_open_beside(
    alloc: Global,
    font: &FontInfo,
    depth: u32,
    known: &mut [Option<End>],
    current: LigItem,
) -> Result<bool, AllocError>
    requires table { IsTable font.now known.old }
    requires depth { depth ≤ 66_049 }
    ensures table { IsTable font.now known.new }
    ensures value { IfOk result (λ is_so. is_so ≡ some_item (λ next. is_none (last font.now depth current next))) }
{
    let beside_edge = is_open_between(alloc, font, depth, known, current, LigItem::Boundary)?;
    if beside_edge {
        return Ok(true);
    }
    for code in 0..CODES {
        let is_so = is_open_between(
            alloc,
            font,
            depth,
            known,
            current,
            LigItem::Glyph(code as u8),
        )?;
        if is_so {
            return Ok(true);
        }
    }
    Ok(false)
}

/// Whether what some pair comes to isn't found so.
fn is_open(
    alloc: Global,
    font: &FontInfo,
    depth: u32,
    known: &mut [Option<End>],
) -> Result<bool, AllocError>
    requires table { IsTable font.now known.old }
    requires depth { depth ≤ 66_049 }
    ensures { IfOk result (λ is_so. is_so ≡ some_item (λ current. some_item (λ next. is_none (last font.now depth current next)))) }
{
    let beside_edge = is_open_beside(alloc, font, depth, known, LigItem::Boundary)?;
    if beside_edge {
        return Ok(true);
    }
    for code in 0..CODES {
        let is_so = is_open_beside(alloc, font, depth, known, LigItem::Glyph(code as u8))?;
        if is_so {
            return Ok(true);
        }
    }
    Ok(false)
}

#[tactic(auto, unfolding(etx_matter::specs::Ligatures::ligature_count))]
fn ligature_count(steps: &[LigStep]) -> usize
    ensures value { result ≡ ligature_count steps.now }
    ensures small { result ≤ length steps.now }
{
    let mut count = 0usize;
    for step in steps {
        match *step {
            LigStep::Elsewhere(_) => {}
            LigStep::Pair { action, .. } => match action {
                PairAction::Kern(_) => {}
                PairAction::Ligature { .. } => count += 1,
            },
        }
    }
    count
}

/// How many pairs may stand one within the other before one of them comes again.
#[tactic(auto, unfolding(etx_matter::specs::Ligatures::deepest))]
fn deepest(font: &FontInfo) -> u32
    ensures value { result ≡ deepest font.now }
    ensures small { result ≤ 66_049 }
{
    let count = ligature_count(font.steps.as_slice());
    (PAIRS_OF_A_STEP * count + 1).min(PAIRS) as u32
}

/// Whether what an action makes has to be looked at again with a neighbour.
fn leads_on(action: PairAction) -> bool
    ensures { result ≡ leads_on action }
{
    match action {
        PairAction::Kern(_) => false,
        PairAction::Ligature {
            keeps_current,
            keeps_next,
            passes,
            ..
        } => passes < kept(keeps_current, keeps_next),
    }
}

/// Whether some step leads on.
#[tactic(auto, unfolding(crate::specs::Leading::some_lead))]
fn some_lead(steps: &[LigStep]) -> bool
    ensures { result ≡ some_lead steps.now }
{
    for step in steps {
        match *step {
            LigStep::Elsewhere(_) => {}
            LigStep::Pair { action, .. } => {
                if leads_on(action) {
                    return true;
                }
            }
        }
    }
    false
}

/// Whether ligatures come round. Those of most fonts don't lead on, and then no pair has to be looked at.
#[tactic(auto, unfolding(etx_matter::specs::Ligatures::comes_round))]
fn comes_round(alloc: Global, font: &FontInfo) -> Result<bool, AllocError>
    ensures { IfOk result (λ round. round ≡ comes_round font.now) }
{
    if !some_lead(font.steps.as_slice()) {
        return Ok(false);
    }
    let mut known = nothing_known(alloc, PAIRS)?;
    is_open(alloc, font, deepest(font), known.as_mut_slice())
}

/// Damage of the kind [`LigKern`](crate::Damage::LigKern).
#[tactic(auto, unfolding(etx_matter::specs::Soundness::has_bad_steps))]
pub fn has_bad_steps(alloc: Global, font: &FontInfo) -> Result<bool, AllocError>
    ensures { IfOk result (λ bad. bad ≡ has_bad_steps font.now) }
{
    if has_bad_among(font, font.steps.as_slice()) {
        return Ok(true);
    }
    comes_round(alloc, font)
}

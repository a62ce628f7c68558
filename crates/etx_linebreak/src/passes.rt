//! The passes over a paragraph.
ghost use Rattle.std.specs.Prelude.{◌≡◌, IfOk};
ghost use Rattle.std.specs.Option.{option_map};
ghost use Rattle.etx_linebreak.specs.Choices.{threshold, first_breaks, second_breaks, third_breaks, later_breaks, AreFound};

use crate::pass::Pass;
use etx_sealed::SharedSealed;
use std::alloc::{AllocError, Global};

/// The badness of a line that can't be set: no threshold is above it.
const INFINITELY_BAD: i32 = 10_000;

fn threshold(tolerance: i32) -> i32
    ensures { result ≡ threshold tolerance }
{
    tolerance.min(INFINITELY_BAD)
}

/// The breaks of a paragraph by a pass without hyphenation: their places, ascending, of which the last one is the end.
/// `None` where `\pretolerance` is negative, and where the pass finds no breaks. The only error is want of memory.
#[tactic(auto, unfolding(crate::specs::Choices::first_breaks))]
pub fn first_breaks(alloc: Global, sealed: &SharedSealed) -> Result<Option<Vec<u32>>, AllocError>
    ensures { IfOk result (λ it. option_map (λ breaks. breaks.items) it ≡ first_breaks sealed.now) }
{
    let params = sealed.get().params().breaks;
    if params.pretolerance < 0 {
        return Ok(None);
    }
    Pass::new(alloc, sealed, threshold(params.pretolerance), 0, false)?.found(alloc)
}

#[tactic(auto, unfolding(crate::specs::Choices::second_breaks))]
fn second_breaks(alloc: Global, sealed: &SharedSealed) -> Result<Option<Vec<u32>>, AllocError>
    ensures { IfOk result (λ it. option_map (λ breaks. breaks.items) it ≡ second_breaks sealed.now) }
{
    let params = sealed.get().params().breaks;
    let is_final = params.emergency_stretch <= 0;
    Pass::new(alloc, sealed, threshold(params.tolerance), 0, is_final)?.found(alloc)
}

#[tactic(auto, unfolding(crate::specs::Choices::third_breaks))]
fn third_breaks(alloc: Global, sealed: &SharedSealed) -> Result<Option<Vec<u32>>, AllocError>
    ensures { IfOk result (λ it. option_map (λ breaks. breaks.items) it ≡ third_breaks sealed.now) }
{
    let params = sealed.get().params().breaks;
    let stretch = params.emergency_stretch;
    Pass::new(alloc, sealed, threshold(params.tolerance), stretch, true)?.found(alloc)
}

/// The breaks of the second pass, or else those of the third one, which always finds some.
#[tactic(auto, unfolding(crate::specs::Choices::later_breaks))]
fn either_breaks(alloc: Global, sealed: &SharedSealed) -> Result<Vec<u32>, AllocError>
    ensures { IfOk result (λ it. it.items ≡ later_breaks sealed.now) }
{
    match second_breaks(alloc, sealed)? {
        Some(breaks) => Ok(breaks),
        None => match third_breaks(alloc, sealed)? {
            Some(breaks) => Ok(breaks),
            None => Ok(Vec::new(alloc)),
        },
    }
}

/// The breaks of a paragraph that has its hyphens: their places, ascending, of which the last one is the end. There is a
/// second pass, and a third one where that finds none and `\emergencystretch` is positive. The only error is want of memory.
pub fn later_breaks(alloc: Global, sealed: &SharedSealed) -> Result<Vec<u32>, AllocError>
    ensures value { IfOk result (λ it. it.items ≡ later_breaks sealed.now) }
    ensures found { IfOk result (λ it. AreFound sealed.now it.items) }
{
    let breaks = either_breaks(alloc, sealed)?;
    Ok(breaks)
}

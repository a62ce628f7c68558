//! The breaking of a paragraph.
ghost use Rattle.std.specs.Prelude.{◌≡◌, IfOk};
ghost use Rattle.etx_linebreak.specs.Outcomes.{IsBroken, broken_into};

use crate::passes::{first_breaks, later_breaks};
use crate::told::{errors, reports};
use etx_hyphen::hyphenated;
use etx_sealed::{Outcome, SharedSealed};
use etx_setlines::set_lines;
use std::alloc::{AllocError, Global};

/// The outcome where the lines of `set`, which is the paragraph or the same with hyphens, end at these breaks.
fn broken_into(
    alloc: Global,
    sealed: &SharedSealed,
    set: &SharedSealed,
    breaks: &[u32],
    second_pass: bool,
) -> Result<Outcome, AllocError>
    ensures { IfOk result (λ it. it ≡ broken_into sealed.now set.now breaks.now second_pass) }
{
    let lines = set_lines(alloc, set.get(), breaks)?;
    let errors = errors(alloc, sealed.get())?;
    let reports = reports(alloc, sealed.get().params(), lines.reports.as_slice())?;
    Ok(Outcome {
        sealed: sealed.share()?,
        lines,
        errors,
        reports,
        second_pass,
    })
}

/// Breaks a paragraph into lines ("TeX: The Program", section 815).
///
/// The first pass goes without hyphens. Where it finds no breaks, words are hyphenated, and a second pass is made, and a
/// third one where that finds none and `\emergencystretch` is positive. The last pass always finds some.
///
/// The outcome has the paragraph that was handed in, without the hyphens of the second pass, the lines, the errors and then
/// the reports, and tells whether there was a second pass. The only error is want of memory.
pub fn break_paragraph(alloc: Global, sealed: &SharedSealed) -> Result<Outcome, AllocError>
    ensures { IfOk result (λ it. IsBroken sealed.now it) }
{
    match first_breaks(alloc, sealed)? {
        Some(breaks) => broken_into(alloc, sealed, sealed, breaks.as_slice(), false),
        None => {
            let list = hyphenated(alloc, sealed.get().list(), sealed.get().params())?;
            let set = SharedSealed::new(alloc, sealed.get().with_list(list)?)?;
            let breaks = later_breaks(alloc, &set)?;
            broken_into(alloc, sealed, &set, breaks.as_slice(), true)
        }
    }
}

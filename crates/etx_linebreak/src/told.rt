//! What is told of a paragraph that was broken.
ghost use Rattle.std.specs.Prelude.{◌≡◌, ◌++◌, ◌∷◌, [], unsigned_abs, codes, IfOk, OnOk};
ghost use Rattle.std.specs.Fmt.{decimal};
ghost use Rattle.etx_scaled.specs.Decimal.{decimal_text};
ghost use Rattle.etx_linebreak.specs.Told.{audience_in, errors, box_text, excess_text, kind_text, measure_text, place_text, report_text, told_of, reports};

use etx_lists::{Bytes, Listed};
use etx_matter::{Audience, Deed, Report, ReportKind};
use etx_prims::InteractionKind;
use etx_scaled::print_scaled;
use etx_sealed::{ParParams, Sealed};
use std::alloc::{AllocError, Global};

fn audience_in(mode: InteractionKind) -> Audience
    ensures { result ≡ audience_in mode }
{
    match mode {
        InteractionKind::Batch => Audience::Log,
        InteractionKind::NonStop => Audience::LogAndTerminal,
        InteractionKind::Scroll => Audience::LogAndTerminal,
        InteractionKind::ErrorStop => Audience::LogAndTerminal,
    }
}

/// The errors of a paragraph.
#[tactic(auto, unfolding(crate::specs::Told::errors))]
pub(crate) fn errors(alloc: Global, sealed: &Sealed) -> Result<Listed<Deed>, AllocError>
    ensures { IfOk result (λ it. it ≡ errors sealed.now) }
{
    let mut found = Listed::new(alloc);
    if sealed.was_infinite() {
        found.push(Deed::Error {
            text: Bytes::from_slice(alloc, b"Infinite glue shrinkage found in a paragraph")?,
            line: sealed.params().last_line,
            audience: audience_in(sealed.params().mode),
        })?;
    }
    Ok(found)
}

fn box_text(vertical: bool) -> &'static [u8]
    ensures { result.now ≡ box_text vertical }
{
    if vertical { b" \\vbox (" } else { b" \\hbox (" }
}

fn excess_text(vertical: bool) -> &'static [u8]
    ensures { result.now ≡ excess_text vertical }
{
    if vertical {
        b"pt too high)"
    } else {
        b"pt too wide)"
    }
}

fn kind_text(kind: ReportKind) -> &'static [u8]
    ensures { result.now ≡ kind_text kind }
{
    match kind {
        ReportKind::Overfull => b"Overfull",
        ReportKind::Underfull => b"Underfull",
        ReportKind::Loose => b"Loose",
        ReportKind::Tight => b"Tight",
    }
}

/// How much an overfull box has too much.
fn excess(alloc: Global, it: Report) -> Result<Bytes, AllocError>
    ensures { IfOk result (λ text. text ≡ decimal_text it.number ++ excess_text it.vertical) }
{
    let mut text = Vec::new(alloc);
    print_scaled(alloc, it.number, &mut text)?;
    let mut text = Bytes::from_vec(text)?;
    text.extend_from_slice(excess_text(it.vertical))?;
    Ok(text)
}

/// How bad a box is.
fn badness(alloc: Global, it: Report) -> Result<Bytes, AllocError>
    ensures { IfOk result (λ text. text ≡ codes "badness " ++ decimal (unsigned_abs it.number) ++ codes ")") }
{
    let number = it.number.unsigned_abs().to_string(alloc)?;
    let mut text = Bytes::from_slice(alloc, b"badness ")?;
    text.extend_from_slice(number.as_bytes())?;
    text.extend_from_slice(b")")?;
    Ok(text)
}

fn measure_text(alloc: Global, it: Report) -> Result<Bytes, AllocError>
    ensures { IfOk result (λ text. text ≡ measure_text it it.kind) }
{
    match it.kind {
        ReportKind::Overfull => excess(alloc, it),
        ReportKind::Underfull => badness(alloc, it),
        ReportKind::Loose => badness(alloc, it),
        ReportKind::Tight => badness(alloc, it),
    }
}

fn lines_text(alloc: Global, first: u32, last: u32) -> Result<Bytes, AllocError>
    ensures { IfOk result (λ text. text ≡ codes " in paragraph at lines " ++ decimal first ++ codes "--" ++ decimal last ++ codes "\n") }
{
    let first = first.to_string(alloc)?;
    let last = last.to_string(alloc)?;
    let mut text = Bytes::from_slice(alloc, b" in paragraph at lines ")?;
    text.extend_from_slice(first.as_bytes())?;
    text.extend_from_slice(b"--")?;
    text.extend_from_slice(last.as_bytes())?;
    text.extend_from_slice(b"\n")?;
    Ok(text)
}

/// Where a line of the paragraph stands.
#[tactic(auto, unfolding(crate::specs::Told::place_text))]
fn place_text(alloc: Global, params: &ParParams) -> Result<Bytes, AllocError>
    ensures { IfOk result (λ text. text ≡ place_text params.now) }
{
    if params.active {
        Bytes::from_slice(alloc, b" has occurred while \\output is active\n")
    } else {
        lines_text(alloc, params.first_line, params.last_line)
    }
}

#[tactic(auto, unfolding(crate::specs::Told::report_text))]
fn report_text(alloc: Global, params: &ParParams, it: Report) -> Result<Bytes, AllocError>
    ensures { IfOk result (λ text. text ≡ report_text params.now it) }
{
    let measure = measure_text(alloc, it)?;
    let place = place_text(alloc, params)?;
    let mut text = Bytes::from_slice(alloc, kind_text(it.kind))?;
    text.extend_from_slice(box_text(it.vertical))?;
    text.append(measure)?;
    text.append(place)?;
    Ok(text)
}

/// Adds what is told of a line.
fn tell(
    alloc: Global,
    params: &ParParams,
    it: Report,
    told: &mut Listed<Deed>,
) -> Result<(), AllocError>
    ensures { OnOk result (told.new ≡ told.old ++ told_of params.now it) }
{
    let bytes = report_text(alloc, params, it)?;
    let audience = audience_in(params.mode);
    told.push(Deed::Fresh(audience))?;
    told.push(Deed::Text { bytes, audience })?;
    Ok(())
}

/// What is told of the lines.
#[tactic(auto, unfolding(crate::specs::Told::reports))]
pub(crate) fn reports(
    alloc: Global,
    params: &ParParams,
    its: &[Report],
) -> Result<Listed<Deed>, AllocError>
    ensures { IfOk result (λ told. told ≡ reports params.now its.now) }
{
    let mut told = Listed::new(alloc);
    for it in its {
        tell(alloc, params, *it, &mut told)?;
    }
    Ok(told)
}

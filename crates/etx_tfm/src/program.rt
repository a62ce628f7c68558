//! The programs of a font: what is to be done between two neighbours.
ghost use Rattle.std.specs.Prelude.{◌≡◌};
ghost use Rattle.std.specs.Prelude.{drop};
ghost use Rattle.etx_matter.specs.Ligatures.{sent_on, tag_program, character_program, program_of, names, found_in, action_between};

use etx_matter::{CharTag, FontInfo, LigItem, LigStep, PairAction};

#[inline(always)]
fn sent_on(place: u16, step: Option<LigStep>) -> u16
    ensures { result ≡ sent_on place step }
{
    match step {
        Some(LigStep::Elsewhere(other)) => other,
        Some(LigStep::Pair { .. }) | None => place,
    }
}

#[inline(always)]
fn tag_program(font: &FontInfo, tag: CharTag) -> Option<u16>
    ensures { result ≡ tag_program font.now tag }
{
    match tag {
        CharTag::Program(place) => {
            let step = font.steps.at(usize::from(place)).copied();
            Some(sent_on(u16::from(place), step))
        }
        CharTag::Plain | CharTag::Successor(_) | CharTag::Extensible(_) => None,
    }
}

/// The step at which the program begins of what stands on the left.
#[inline(always)]
fn program_of(font: &FontInfo, left: LigItem) -> Option<u16>
    ensures { result ≡ program_of font.now left }
{
    match left {
        LigItem::Boundary => font.left_program,
        LigItem::Glyph(code) => match font.character(code) {
            Some(info) => {
                if info.width > 0 {
                    tag_program(font, info.tag)
                } else {
                    None
                }
            }
            None => None,
        },
    }
}

/// Whether a step for `next` is one for what stands on the right.
#[inline(always)]
fn names(font: &FontInfo, next: u8, right: LigItem) -> bool
    ensures { result ≡ names font.now next right }
{
    match right {
        LigItem::Boundary => match font.boundary {
            Some(boundary) => boundary == next,
            None => false,
        },
        LigItem::Glyph(code) => code == next && font.has_character(code),
    }
}

#[tactic(auto, unfolding(etx_matter::specs::Ligatures::found_in))]
#[inline(always)]
fn found_in(font: &FontInfo, right: LigItem, steps: &[LigStep]) -> Option<PairAction>
    ensures { result ≡ found_in font.now right 0 steps.now }
{
    let mut skipped = 0u8;
    for step in steps {
        if skipped > 0 {
            skipped -= 1;
            continue;
        }
        match *step {
            LigStep::Elsewhere(_) => return None,
            LigStep::Pair { next, action, skip } => {
                if names(font, next, right) {
                    return Some(action);
                }
                match skip {
                    Some(count) => skipped = count,
                    None => return None,
                }
            }
        }
    }
    None
}

/// What is to be done between two neighbours, if anything.
#[tactic(auto, unfolding(etx_matter::specs::Ligatures::action_between))]
pub fn action_between(font: &FontInfo, left: LigItem, right: LigItem) -> Option<PairAction>
    ensures { result ≡ action_between font.now left right }
{
    let place = usize::from(program_of(font, left)?);
    let steps = font.steps.as_slice();
    let (_, behind) = steps.split_at(place.min(steps.len()));
    found_in(font, right, behind)
}

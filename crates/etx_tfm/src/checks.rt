//! Whether the places and codes in a font's tables lead to something.
ghost use Rattle.std.specs.Prelude.{◌≡◌, ◌+◌, ◌-◌, ◌≤◌, ◌<◌, ◌||◌, length};
ghost use Rattle.std.specs.List.{list_any};
ghost use Rattle.etx_matter.specs.Fonts.{comes_to, has_round_list, has_bad_tag, has_bad_dimension, has_bad_place, has_bad_characters, is_boundary, has_bad_action, has_bad_skip, has_bad_step, has_bad_among, has_bad_part, has_bad_recipe, has_bad_recipes, successor, tag_next, listed_next};

use etx_matter::{CharInfo, CharTag, Dimensions, FontInfo, LigStep, PairAction, Recipe};

/// How many codes there are.
const CODES: u16 = 256;

fn listed_next(tag: CharTag) -> Option<u8>
    ensures { result ≡ listed_next tag }
{
    match tag {
        CharTag::Successor(code) => Some(code),
        CharTag::Plain | CharTag::Program(_) | CharTag::Extensible(_) => None,
    }
}

/// The character that follows in a list of greater and greater ones.
fn successor(font: &FontInfo, code: u8) -> Option<u8>
    ensures { result ≡ successor font.now code }
{
    match font.character(code) {
        Some(info) => listed_next(info.tag),
        None => None,
    }
}

/// Whether the list that begins at `code` comes back to it.
fn comes_round(font: &FontInfo, code: u8) -> bool
    ensures { result ≡ comes_to font.now code 256 code }
{
    let mut at = code;
    for _ in 0..CODES {
        match successor(font, at) {
            None => return false,
            Some(next) => {
                if next == code {
                    return true;
                }
                at = next;
            }
        }
    }
    false
}

fn has_bad_tag(font: &FontInfo, tag: CharTag) -> bool
    ensures { result ≡ has_bad_tag font.now tag }
{
    match tag {
        CharTag::Plain => false,
        CharTag::Program(step) => usize::from(step) >= font.steps.len(),
        CharTag::Successor(code) => font.character(code).is_none(),
        CharTag::Extensible(recipe) => usize::from(recipe) >= font.recipes.len(),
    }
}

fn has_bad_dimension(dimensions: &Dimensions, info: CharInfo) -> bool
    ensures { result ≡ has_bad_dimension dimensions.now info }
{
    usize::from(info.width) >= dimensions.widths.len()
        || usize::from(info.height) >= dimensions.heights.len()
        || usize::from(info.depth) >= dimensions.depths.len()
        || usize::from(info.italic) >= dimensions.italics.len()
}

fn has_bad_place(font: &FontInfo, info: CharInfo) -> bool
    ensures { result ≡ has_bad_place font.now info }
{
    has_bad_dimension(&font.dimensions, info) || has_bad_tag(font, info.tag)
}

fn has_bad_places(font: &FontInfo, characters: &[CharInfo]) -> bool
    ensures { result ≡ list_any (has_bad_place font.now) characters.now }
{
    for info in characters {
        if has_bad_place(font, *info) {
            return true;
        }
    }
    false
}

/// Whether some list of greater and greater characters comes round.
#[tactic(auto, unfolding(etx_matter::specs::Fonts::has_round_list))]
fn has_round_list(font: &FontInfo, characters: &[CharInfo]) -> bool
    requires { font.now.first + length characters.now ≤ 256 }
    ensures { result ≡ has_round_list font.now font.now.first characters.now }
{
    let first = usize::from(font.first);
    for (place, _) in characters.iter().enumerate() {
        if comes_round(font, (first + place) as u8) {
            return true;
        }
    }
    false
}

/// Damage of the kind [`Char`](crate::Damage::Char).
#[tactic(auto, unfolding(etx_matter::specs::Fonts::has_bad_characters))]
pub fn has_bad_characters(font: &FontInfo) -> bool
    requires { font.now.first + length font.now.characters ≤ 256 }
    ensures { result ≡ has_bad_characters font.now }
{
    let characters = font.characters.as_slice();
    has_bad_places(font, characters) || has_round_list(font, characters)
}

fn is_boundary(font: &FontInfo, code: u8) -> bool
    ensures { result ≡ is_boundary font.now code }
{
    match font.boundary {
        Some(boundary) => boundary == code,
        None => false,
    }
}

fn has_bad_action(font: &FontInfo, action: PairAction) -> bool
    ensures { result ≡ has_bad_action font.now action }
{
    match action {
        PairAction::Kern(kern) => usize::from(kern) >= font.kerns.len(),
        PairAction::Ligature { code, .. } => !font.has_character(code),
    }
}

fn has_bad_skip(behind: usize, skip: Option<u8>) -> bool
    ensures { result ≡ has_bad_skip behind skip }
{
    match skip {
        Some(skip) => usize::from(skip) >= behind,
        None => false,
    }
}

/// Whether a step, behind which so many stand, leads to nothing.
fn has_bad_step(font: &FontInfo, behind: usize, step: LigStep) -> bool
    ensures { result ≡ has_bad_step font.now behind step }
{
    match step {
        LigStep::Pair { next, action, skip } => {
            !(font.has_character(next) || is_boundary(font, next))
                || has_bad_action(font, action)
                || has_bad_skip(behind, skip)
        }
        LigStep::Elsewhere(place) => usize::from(place) >= font.steps.len(),
    }
}

#[tactic(auto, unfolding(etx_matter::specs::Fonts::has_bad_among))]
pub fn has_bad_among(font: &FontInfo, steps: &[LigStep]) -> bool
    ensures { result ≡ has_bad_among font.now steps.now }
{
    for (place, step) in steps.iter().enumerate() {
        let behind = steps.len() - (place + 1);
        if has_bad_step(font, behind, *step) {
            return true;
        }
    }
    false
}

fn has_bad_part(font: &FontInfo, part: Option<u8>) -> bool
    ensures { result ≡ has_bad_part font.now part }
{
    match part {
        Some(code) => !font.has_character(code),
        None => false,
    }
}

fn has_bad_recipe(font: &FontInfo, recipe: Recipe) -> bool
    ensures { result ≡ has_bad_recipe font.now recipe }
{
    has_bad_part(font, recipe.top)
        || has_bad_part(font, recipe.middle)
        || has_bad_part(font, recipe.bottom)
        || !font.has_character(recipe.repeated)
}

/// Damage of the kind [`Exten`](crate::Damage::Exten).
#[tactic(auto, unfolding(etx_matter::specs::Fonts::has_bad_recipes))]
pub fn has_bad_recipes(font: &FontInfo) -> bool
    ensures { result ≡ has_bad_recipes font.now }
{
    for recipe in font.recipes.as_slice() {
        if has_bad_recipe(font, *recipe) {
            return true;
        }
    }
    false
}

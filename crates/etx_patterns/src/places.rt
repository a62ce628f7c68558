ghost use Rattle.std.specs.Prelude.{◌≡◌, ◌+◌, ◌<◌, ◌≤◌, ◌==◌, slice_index, length, IfOk};
ghost use Rattle.std.specs.List.{list_any};
ghost use Rattle.etx_patterns.specs.Shapes.{is_odd};
ghost use Rattle.etx_patterns.specs.Tables.{places_that};

use std::alloc::{AllocError, Global};

/// The places between two letters of a word of `letters` letters at which the score is odd. One edge stands before
/// the letters.
pub fn odd_places(alloc: Global, letters: usize, scores: &[u8]) -> Result<Vec<u8>, AllocError>
    requires few { letters ≤ 63 }
    requires scored { letters < length scores.now }
    ensures { IfOk result (λ it. it.items ≡ places_that (λ place. is_odd (slice_index scores.now (place + 1))) letters) }
{
    let mut places = Vec::new(alloc);
    for place in 1..letters {
        if scores[place + 1] % 2 == 1 {
            places.push(place as u8)?;
        }
    }
    Ok(places)
}

/// The places between two letters of a word of `letters` letters that are listed.
pub fn listed_places(alloc: Global, letters: usize, listed: &[u8]) -> Result<Vec<u8>, AllocError>
    requires { letters ≤ 63 }
    ensures { IfOk result (λ it. it.items ≡ places_that (λ place. list_any (λ k. k == place) listed.now) letters) }
{
    let mut places = Vec::new(alloc);
    for place in 1..letters {
        let place = place as u8;
        if listed.contains(&place) {
            places.push(place)?;
        }
    }
    Ok(places)
}

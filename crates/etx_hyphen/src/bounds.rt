//! Where the run of letters that a hyphen changes begins and ends.
ghost use Rattle.std.specs.Prelude.{◌≡◌};
ghost use Rattle.etx_hyphen.specs.Bounds.{nodes_before, left_nodes, right_nodes, bound_or, start_from, end_from};

use etx_tfm::CleanPlace;

/// An end of a run, as counts of what stands before it.
#[derive(Clone, Copy, Debug, PartialEq, Eq)]
pub struct Bound {
    /// The letters of the word.
    pub letters: usize,
    /// The nodes of the unbroken word.
    pub unbroken: usize,
    /// The nodes of the part in which the run stands.
    pub part: usize,
}

#[tactic(auto, unfolding(crate::specs::Bounds::nodes_before))]
fn nodes_before(places: &[CleanPlace], letters: usize) -> Option<usize>
    ensures { result ≡ nodes_before places.now letters }
{
    for clean in places {
        if clean.letters == letters {
            return Some(clean.nodes);
        }
    }
    None
}

#[tactic(auto, unfolding(crate::specs::Bounds::left_nodes))]
fn left_nodes(left: &[CleanPlace], place: usize, clean: CleanPlace) -> Option<usize>
    ensures { result ≡ left_nodes left.now place clean }
{
    if place < clean.letters {
        None
    } else {
        nodes_before(left, clean.letters)
    }
}

#[tactic(auto, unfolding(crate::specs::Bounds::right_nodes))]
fn right_nodes(right: &[CleanPlace], place: usize, clean: CleanPlace) -> Option<usize>
    ensures { result ≡ right_nodes right.now place clean }
{
    if clean.letters < place {
        None
    } else {
        nodes_before(right, clean.letters - place)
    }
}

/// The end at a clean place where the part has so many nodes before it, or else another one.
fn bound_or(bound: Bound, clean: CleanPlace, nodes: Option<usize>) -> Bound
    ensures { result ≡ bound_or bound clean nodes }
{
    match nodes {
        None => bound,
        Some(part) => Bound {
            letters: clean.letters,
            unbroken: clean.nodes,
            part,
        },
    }
}

/// Where the run of a place begins, by the clean places of the unbroken word and of its left part.
#[tactic(auto, unfolding(crate::specs::Bounds::start_from))]
pub fn start_from(left: &[CleanPlace], place: usize, first: Bound, places: &[CleanPlace]) -> Bound
    ensures { result ≡ start_from left.now place first places.now }
{
    let mut start = first;
    for clean in places {
        start = bound_or(start, *clean, left_nodes(left, place, *clean));
    }
    start
}

/// Where the run of a place ends, by the clean places of the unbroken word and of its right part.
#[tactic(auto, unfolding(crate::specs::Bounds::end_from))]
pub fn end_from(right: &[CleanPlace], place: usize, last: Bound, places: &[CleanPlace]) -> Bound
    ensures { result ≡ end_from right.now place last places.now }
{
    for clean in places {
        match right_nodes(right, place, *clean) {
            Some(part) => return bound_or(last, *clean, Some(part)),
            None => continue,
        }
    }
    last
}

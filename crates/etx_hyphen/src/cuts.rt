//! What a hyphen at a place of a word does.
ghost use Rattle.std.specs.Prelude.{◌≡◌, length, take, drop, IfOk};
ghost use Rattle.etx_hyphen.specs.Cuts.{first_bound, last_bound, cut_between, cut_of};

use crate::bounds::{Bound, end_from, start_from};
use etx_lists::Listed;
use etx_matter::Nodes;
use etx_tfm::{CleanPlace, Neighbour, Reading};
use std::alloc::AllocError;

/// What stands before and behind a word, as its font's programs see it.
#[derive(Clone, Copy, Debug, PartialEq, Eq)]
pub struct WordEnds {
    pub left: Neighbour,
    pub right: Neighbour,
}

/// A word as it stands: how many letters and nodes it has, and where it can be cut.
#[derive(Drop)]
pub struct Unbroken {
    pub letters: usize,
    pub nodes: usize,
    pub places: Listed<CleanPlace>,
}

/// The run of letters that a hyphen changes, and the texts that take its place where the line is broken there: `pre`
/// ends the line, `post` begins the next one.
#[derive(Drop)]
pub struct Cut {
    pub start: Bound,
    pub end: Bound,
    pub pre: Nodes,
    pub post: Nodes,
}

fn first_bound() -> Bound
    ensures { result ≡ first_bound }
{
    Bound {
        letters: 0,
        unbroken: 0,
        part: 0,
    }
}

fn last_bound(word: &Unbroken, nodes: usize) -> Bound
    ensures { result ≡ last_bound word.now nodes }
{
    Bound {
        letters: word.letters,
        unbroken: word.nodes,
        part: nodes,
    }
}

/// The nodes behind so many.
fn tail_of(nodes: Nodes, count: usize) -> Result<Nodes, AllocError>
    ensures { IfOk result (λ tail. tail ≡ drop count nodes) }
{
    let mut nodes = nodes;
    let count = count.min(nodes.len());
    nodes.cut(count)
}

/// So many of the first nodes.
fn front_of(nodes: Nodes, count: usize) -> Result<Nodes, AllocError>
    ensures { IfOk result (λ front. front ≡ take count nodes) }
{
    let mut nodes = nodes;
    let count = count.min(nodes.len());
    let _behind = nodes.cut(count)?;
    Ok(nodes)
}

#[tactic(auto, unfolding(crate::specs::Cuts::cut_between))]
fn cut_between(start: Bound, end: Bound, left: Nodes, right: Nodes) -> Result<Cut, AllocError>
    ensures { IfOk result (λ cut. cut ≡ cut_between start end left right) }
{
    let pre = tail_of(left, start.part)?;
    let post = front_of(right, end.part)?;
    Ok(Cut {
        start,
        end,
        pre,
        post,
    })
}

/// The run of a hyphen behind so many letters, by the readings of the two parts of the word.
#[tactic(auto, unfolding(crate::specs::Cuts::cut_of))]
pub fn cut_of(
    word: &Unbroken,
    place: usize,
    left: Reading,
    right: Reading,
) -> Result<Cut, AllocError>
    ensures { IfOk result (λ cut. cut ≡ cut_of word.now place left right) }
{
    let last = last_bound(word, right.nodes.len());
    let places = word.places.as_slice();
    let start = start_from(left.places.as_slice(), place, first_bound(), places);
    let end = end_from(right.places.as_slice(), place, last, places);
    cut_between(start, end, left.nodes, right.nodes)
}

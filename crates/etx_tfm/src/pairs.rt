//! What pairs of neighbours come to, each worked out once.
//!
//! A pair is a place in a table of 257 rows of 257: the row is that of the left one, and each row has the characters and
//! then the boundary.
ghost use Rattle.std.specs.Prelude.{◌≡◌, ◌≤◌, ◌<◌, ◌/◌, ◌%◌, length, slice_get, slice_set, is_none, Some, IfOk};
ghost use Rattle.etx_matter.specs.Ligatures.{action_between, last};
ghost use Rattle.etx_tfm.specs.Pairs.{nothing_known, item_at, left_of, right_of, task_by, task_of, task_between, IsTable, IsLook};

use crate::program::action_between;
use etx_matter::{FontInfo, LigItem, PairAction};
use std::alloc::{AllocError, Global};
use std::collections::VecDeque;

/// How many pairs there are of a character or a boundary with another.
pub const PAIRS: usize = 66_049;

/// How many characters and boundaries there are.
const ITEMS: usize = 257;

/// What two neighbours come to, and the least number of pairs one within the other with which that is found.
#[derive(Clone, Copy, Debug)]
pub struct End {
    pub item: LigItem,
    pub depth: u32,
}

/// How it is found what two neighbours come to.
#[derive(Clone, Copy, Debug)]
pub enum Task {
    /// It is this item.
    Here(LigItem),
    /// It is what these two come to.
    Pair(LigItem, LigItem),
    /// The left one comes to something with this item, and that comes to it with the right one.
    Twice(LigItem),
}

/// What is seen of a pair in the table.
#[derive(Clone, Copy, Debug)]
pub enum Look {
    /// What it comes to.
    Ends(End),
    /// The place of a pair that has to be known first.
    Waits(usize),
}

#[tactic(auto, unfolding(crate::specs::Pairs::item_at))]
fn item_at(code: usize) -> LigItem
    requires { code ≤ 256 }
    ensures { result ≡ item_at code }
{
    if code == 256 {
        LigItem::Boundary
    } else {
        LigItem::Glyph(code as u8)
    }
}

#[tactic(auto, unfolding(crate::specs::Pairs::item_at))]
fn code_of(item: LigItem) -> usize
    ensures item { item_at result ≡ item }
    ensures small { result ≤ 256 }
{
    match item {
        LigItem::Boundary => 256,
        LigItem::Glyph(code) => usize::from(code),
    }
}

/// The left one of the pair at a place.
#[tactic(auto, unfolding(crate::specs::Pairs::left_of))]
fn left_of(place: usize) -> LigItem
    requires { place < 66_049 }
    ensures { result ≡ left_of place }
{
    item_at(place / ITEMS)
}

/// The right one of the pair at a place.
#[tactic(auto, unfolding(crate::specs::Pairs::right_of))]
fn right_of(place: usize) -> LigItem
    ensures { result ≡ right_of place }
{
    item_at(place % ITEMS)
}

/// The place of a pair.
pub fn place_of(left: LigItem, right: LigItem) -> usize
    ensures left { left_of result ≡ left }
    ensures right { right_of result ≡ right }
    ensures small { result < 66_049 }
{
    code_of(left) * ITEMS + code_of(right)
}

fn task_by(
    current: LigItem,
    next: LigItem,
    made: LigItem,
    keeps_current: bool,
    keeps_next: bool,
    passes: u8,
) -> Task
    ensures { result ≡ task_by current next made keeps_current keeps_next passes }
{
    if !keeps_current && !keeps_next {
        return Task::Here(made);
    }
    if !keeps_next {
        return if passes == 0 {
            Task::Pair(current, made)
        } else {
            Task::Here(made)
        };
    }
    if !keeps_current {
        return if passes == 0 {
            Task::Pair(made, next)
        } else {
            Task::Here(next)
        };
    }
    if passes == 0 {
        Task::Twice(made)
    } else if passes == 1 {
        Task::Pair(made, next)
    } else {
        Task::Here(next)
    }
}

#[tactic(auto, unfolding(crate::specs::Pairs::task_between))]
fn task_between(font: &FontInfo, current: LigItem, next: LigItem) -> Task
    ensures { result ≡ task_between font.now current next }
{
    match action_between(font, current, next) {
        None | Some(PairAction::Kern(_)) => Task::Here(next),
        Some(
            PairAction::Ligature {
                code,
                keeps_current,
                keeps_next,
                passes,
            },
        ) => task_by(
            current,
            next,
            LigItem::Glyph(code),
            keeps_current,
            keeps_next,
            passes,
        ),
    }
}

/// A table of so many pairs in which nothing is known yet.
#[tactic(auto, unfolding(crate::specs::Pairs::nothing_known))]
pub fn nothing_known(alloc: Global, count: usize) -> Result<Vec<Option<End>>, AllocError>
    ensures { IfOk result (λ it. it.items ≡ nothing_known count) }
{
    let mut known = Vec::new(alloc);
    for _ in 0..count {
        known.push(None)?;
    }
    Ok(known)
}

fn known_at(known: &[Option<End>], place: usize) -> Option<End>
    requires { place < length known.now }
    ensures { slice_get known.now place ≡ Some result }
{
    known[place]
}

/// Writes down what the pair at a place comes to.
fn note(known: &mut [Option<End>], place: usize, end: End)
    requires { place < length known.old }
    ensures { known.new ≡ slice_set known.old place (Some end) }
{
    known[place] = Some(end);
}

/// What is seen of the pair at a place.
fn look_at(font: &FontInfo, known: &[Option<End>], place: usize) -> Look
    requires table { IsTable font.now known.now }
    requires place { place < 66_049 }
    ensures { IsLook font.now known.now place result }
{
    let current = left_of(place);
    let next = right_of(place);
    match task_between(font, current, next) {
        Task::Here(item) => Look::Ends(End { item, depth: 1 }),
        Task::Pair(left, right) => {
            let inner = place_of(left, right);
            match known_at(known, inner) {
                Some(end) => Look::Ends(End {
                    item: end.item,
                    depth: end.depth + 1,
                }),
                None => Look::Waits(inner),
            }
        }
        Task::Twice(made) => {
            let inner = place_of(current, made);
            match known_at(known, inner) {
                Some(first) => {
                    let second = place_of(first.item, next);
                    match known_at(known, second) {
                        Some(end) => Look::Ends(End {
                            item: end.item,
                            depth: first.depth.max(end.depth) + 1,
                        }),
                        None => Look::Waits(second),
                    }
                }
                None => Look::Waits(inner),
            }
        }
    }
}

/// Whether what the pair at a place, which isn't known, comes to isn't found with at most so many pairs one within the
/// other. What is found on the way is noted in the table.
fn walk(
    alloc: Global,
    font: &FontInfo,
    depth: u32,
    known: &mut [Option<End>],
    start: usize,
) -> Result<bool, AllocError>
    requires table { IsTable font.now known.old }
    requires place { start < 66_049 }
    requires unknown { slice_get known.old start ≡ Some None }
    requires depth { depth ≤ 66_049 }
    ensures table { IsTable font.now known.new }
    ensures value { IfOk result (λ is_so. is_so ≡ is_none (last font.now depth (left_of start) (right_of start))) }
{
    let mut top = start;
    let mut waiting = VecDeque::new(alloc);
    loop {
        match look_at(font, known, top) {
            Look::Waits(inner) => {
                if waiting.len() >= depth as usize {
                    return Ok(true);
                }
                waiting.push_front(top)?;
                top = inner;
            }
            Look::Ends(end) => {
                if depth < end.depth {
                    return Ok(true);
                }
                note(known, top, end);
                match waiting.pop_front() {
                    Some(outer) => top = outer,
                    None => return Ok(false),
                }
            }
        }
    }
}

fn is_open_at(
    alloc: Global,
    font: &FontInfo,
    depth: u32,
    known: &mut [Option<End>],
    place: usize,
) -> Result<bool, AllocError>
    requires table { IsTable font.now known.old }
    requires place { place < 66_049 }
    requires depth { depth ≤ 66_049 }
    ensures table { IsTable font.now known.new }
    ensures value { IfOk result (λ is_so. is_so ≡ is_none (last font.now depth (left_of place) (right_of place))) }
{
    match known_at(known, place) {
        Some(end) => Ok(depth < end.depth),
        None => walk(alloc, font, depth, known, place),
    }
}

/// Whether what two neighbours come to isn't found so.
pub fn is_open_between(
    alloc: Global,
    font: &FontInfo,
    depth: u32,
    known: &mut [Option<End>],
    current: LigItem,
    next: LigItem,
) -> Result<bool, AllocError>
    requires table { IsTable font.now known.old }
    requires depth { depth ≤ 66_049 }
    ensures table { IsTable font.now known.new }
    ensures value { IfOk result (λ is_so. is_so ≡ is_none (last font.now depth current next)) }
{
    is_open_at(alloc, font, depth, known, place_of(current, next))
}

//! What a line measures from one place of a paragraph to another.
ghost use Rattle.std.specs.Prelude.{◌≡◌, ◌≤◌, ◌<◌, ◌+◌, ◌-◌, ◌^◌, length, take, drop, IfSome};
ghost use Rattle.std.specs.List.{prefix_len};
ghost use Rattle.std.specs.Option.{option_copied};
ghost use Rattle.etx_matter.specs.Nests.{IsNested, AreNested};
ghost use Rattle.etx_sealed.specs.Breaks.{item_at};
ghost use Rattle.etx_sealed.specs.Lines.{text_before, text_after, is_dropped, drops_at, dropped, left_out, sides, kept, before_in, after_in, replaced_in, line_measure};
ghost use Rattle.etx_sealed.specs.Sums.{IsSmall};

use crate::breaks::replaces;
use crate::measure::{Measure, glue_measure, measure_all};
use crate::sealed::Sealed;
use etx_matter::{KernKind, Node};

/// Whether a line leaves it out where it comes first behind a break: glue, a penalty, the edge of a formula and an explicit
/// kern, but no kern of a font or an accent ("TeX: The Program", sections 837 and 879).
#[tactic(auto, unfolding(crate::specs::Lines::is_dropped))]
pub(crate) fn is_dropped(node: &Node) -> bool
    ensures { result ≡ is_dropped node.now }
{
    match node {
        Node::Kern { kind, .. } => match kind {
            KernKind::Explicit => true,
            KernKind::Normal | KernKind::Accent => false,
        },
        Node::Glue(_) | Node::Leaders { .. } | Node::Penalty(_) | Node::Math { .. } => true,
        _ => false,
    }
}

/// The first items, so many or as many as there are.
fn front_of(nodes: &[Node], count: usize) -> &[Node]
    ensures value { result.now ≡ take count nodes.now }
    ensures small { length result.now ≤ length nodes.now }
    ensures nested { AreNested nodes.now → AreNested result.now }
{
    let (front, _) = nodes.split_at(count.min(nodes.len()));
    front
}

/// The items behind so many.
pub(crate) fn behind(nodes: &[Node], count: usize) -> &[Node]
    ensures value { result.now ≡ drop count nodes.now }
    ensures small { length result.now ≤ length nodes.now }
    ensures nested { AreNested nodes.now → AreNested result.now }
{
    let (_, behind) = nodes.split_at(count.min(nodes.len()));
    behind
}

/// So many items behind so many others, or as many as there are.
pub(crate) fn section(nodes: &[Node], from: usize, count: usize) -> &[Node]
    ensures value { result.now ≡ take count (drop from nodes.now) }
    ensures small { length result.now ≤ length nodes.now }
    ensures nested { AreNested nodes.now → AreNested result.now }
{
    front_of(behind(nodes, from), count)
}

/// The item of a number, from 1 on. `None` at the start, which is 0, and at the end.
#[tactic(auto, unfolding(crate::specs::Breaks::item_at))]
pub fn item_at(nodes: &[Node], place: usize) -> Option<&Node>
    ensures value { option_copied result ≡ item_at nodes.now place }
    ensures nested { AreNested nodes.now → IfSome result (λ it. IsNested it.now) }
{
    if place == 0 {
        None
    } else {
        nodes.get(place - 1)
    }
}

/// What a line shows at an item where it ends: the pre-break text of a discretionary.
#[tactic(auto, unfolding(crate::specs::Lines::text_before, etx_matter::specs::Nests::IsNested, etx_matter::specs::Nests::node_depth, etx_matter::specs::Nests::AreNested, etx_matter::specs::Nests::list_depth))]
pub fn text_before(node: &Node) -> &[Node]
    ensures value { result.now ≡ text_before node.now }
    ensures small { length result.now ≤ 1073741824 }
    ensures nested { IsNested node.now → AreNested result.now }
{
    match node {
        Node::Disc(it) => it.get().pre.nodes.as_slice(),
        _ => &[],
    }
}

/// What a line shows first that begins behind an item: the post-break text of a discretionary.
#[tactic(auto, unfolding(crate::specs::Lines::text_after, etx_matter::specs::Nests::IsNested, etx_matter::specs::Nests::node_depth, etx_matter::specs::Nests::AreNested, etx_matter::specs::Nests::list_depth))]
pub fn text_after(node: &Node) -> &[Node]
    ensures value { result.now ≡ text_after node.now }
    ensures small { length result.now ≤ 1073741824 }
    ensures nested { IsNested node.now → AreNested result.now }
{
    match node {
        Node::Disc(it) => it.get().post.nodes.as_slice(),
        _ => &[],
    }
}

/// What a line shows at the place where it ends.
pub fn before_at(nodes: &[Node], place: usize) -> &[Node]
    ensures value { result.now ≡ before_in (item_at nodes.now place) }
    ensures small { length result.now ≤ 1073741824 }
    ensures nested { AreNested nodes.now → AreNested result.now }
{
    match item_at(nodes, place) {
        None => &[],
        Some(node) => text_before(node),
    }
}

/// What a line shows first that begins at a place.
pub fn after_at(nodes: &[Node], place: usize) -> &[Node]
    ensures value { result.now ≡ after_in (item_at nodes.now place) }
    ensures small { length result.now ≤ 1073741824 }
    ensures nested { AreNested nodes.now → AreNested result.now }
{
    match item_at(nodes, place) {
        None => &[],
        Some(node) => text_after(node),
    }
}

/// How many items the item of a number replaces.
pub(crate) fn replaced_at(nodes: &[Node], place: usize) -> usize
    ensures value { result ≡ replaced_in (item_at nodes.now place) }
    ensures small { result ≤ 65535 }
{
    match item_at(nodes, place) {
        None => 0,
        Some(node) => replaces(node),
    }
}

/// Whether a line that begins at a place drops what comes first.
#[tactic(auto, unfolding(crate::specs::Lines::drops_at))]
pub(crate) fn drops_at(nodes: &[Node], place: usize) -> bool
    ensures { result ≡ drops_at nodes.now place }
{
    match item_at(nodes, place) {
        None => false,
        Some(node) => text_after(node).is_empty(),
    }
}

/// How many of these items come first that are dropped.
pub(crate) fn dropped_first(nodes: &[Node]) -> usize
    ensures value { result ≡ prefix_len is_dropped nodes.now }
    ensures small { result ≤ length nodes.now }
{
    for (index, node) in nodes.iter().enumerate() {
        if !is_dropped(node) {
            return index;
        }
    }
    nodes.len()
}

/// How many items stand before those that a line keeps which begins at a place.
#[tactic(auto, unfolding(crate::specs::Lines::left_out))]
fn left_out(nodes: &[Node], place: usize) -> usize
    requires place { place < 2 ^ 32 }
    requires few { length nodes.now ≤ 1073741824 }
    ensures { result ≡ left_out nodes.now place }
{
    let before = place + replaced_at(nodes, place);
    if drops_at(nodes, place) {
        before + dropped_first(behind(nodes, before))
    } else {
        before
    }
}

/// The items between two places that a line keeps: neither what a discretionary at the first one replaces nor what is dropped
/// there.
#[tactic(auto, unfolding(crate::specs::Lines::kept))]
pub fn kept(nodes: &[Node], from: usize, to: usize) -> &[Node]
    requires from { from < 2 ^ 32 }
    requires few { length nodes.now ≤ 1073741824 }
    ensures value { result.now ≡ kept nodes.now from to }
    ensures small { length result.now ≤ length nodes.now }
    ensures nested { AreNested nodes.now → AreNested result.now }
{
    let start = left_out(nodes, from);
    section(nodes, start, to.saturating_sub(1).saturating_sub(start))
}

impl Sealed {
    /// The glue on both sides of each line.
    pub(crate) fn sides(&self) -> Measure
        ensures value { result ≡ sides self.now }
        ensures small { IsSmall 2 result }
    {
        let skips = self.params().skips;
        glue_measure(skips.left).plus(glue_measure(skips.right))
    }

    /// What the line from one place to another measures, with `\leftskip` and `\rightskip`, and without
    /// `\emergencystretch`. The places are legal breaks, the start, which is 0, or the end.
    ///
    /// It goes along the line; [`crate::Stop`]s measure a line in a time that doesn't depend on its length.
    pub fn measure(&self, from: u32, to: u32) -> Measure
        ensures value { result ≡ line_measure self.now from to }
        ensures small { IsSmall 3221225474 result }
    {
        let nodes = self.list().as_slice();
        let after = measure_all(after_at(nodes, from as usize));
        let kept = measure_all(kept(nodes, from as usize, to as usize));
        let before = measure_all(before_at(nodes, to as usize));
        self.sides().plus(after).plus(kept.plus(before))
    }
}

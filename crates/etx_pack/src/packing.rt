//! Packing of horizontal and of vertical lists.
ghost use Rattle.std.specs.Prelude.{◌≡◌, ◌≤◌, ◌+◌, ◌^◌, ◌-ℤ◌, unsigned_abs, [], ◌∷◌, ◌++◌, IfOk};
ghost use Rattle.etx_matter.specs.Nests.{IsNested, AreNested, IsNestedBox};
ghost use Rattle.etx_pack.specs.Sums.{AreSmall};
ghost use Rattle.etx_pack.specs.Packs.{goal_size, is_empty, rule_of, marked, fit_to, horizontal_box_sizes, horizontal_fit, hpacked, vertical_depth, vertical_height, vertical_box_sizes, vertical_fit, vpacked};

use crate::boxes::{BoxSizes, Packed, box_around, packed_so};
use crate::fitting::{Fit, Packing, within_32_bits};
use crate::totals::Totals;
use crate::walks::{HorizontalSizes, VerticalSizes, measure_horizontal, measure_vertical};
use etx_matter::{Goal, Limits, Node, Nodes, RuleSize};
use std::alloc::AllocError;

/// The size that a list of this natural size is packed to.
#[tactic(auto, unfolding(crate::specs::Packs::goal_size))]
fn goal_size(goal: Goal, natural: i64) -> i64
    requires { unsigned_abs natural ≤ 2 ^ 62 + 2 ^ 31 }
    ensures { result ≡ goal_size goal natural }
{
    match goal {
        Goal::Natural => natural,
        Goal::Exactly(size) => i64::from(size),
        Goal::Spread(more) => natural + i64::from(more),
    }
}

#[tactic(auto, unfolding(crate::specs::Packs::is_empty))]
fn is_empty(list: &Nodes) -> bool
    ensures { result ≡ is_empty list.now }
{
    list.is_empty()
}

/// A rule of this width, as high and as deep as the box around it.
#[tactic(auto, unfolding(crate::specs::Packs::rule_of, etx_matter::specs::Nests::IsNested, etx_matter::specs::Nests::node_depth))]
fn rule_of(width: i32) -> Node
    ensures value { result ≡ rule_of width }
    ensures nested { IsNested result }
{
    Node::Rule(RuleSize {
        width: Some(width),
        height: None,
        depth: None,
    })
}

/// Puts a rule of this width behind the list.
fn with_rule(mut list: Nodes, width: i32) -> Result<Nodes, AllocError>
    requires { AreNested list }
    ensures list { IfOk result (λ it. it ≡ list ++ rule_of width ∷ []) }
    ensures nested { IfOk result (λ it. AreNested it) }
{
    let rule = rule_of(width);
    list.push(rule)?;
    Ok(list)
}

/// Puts the rule that marks an overfull line behind the list, if it is marked.
#[tactic(auto, unfolding(crate::specs::Packs::marked))]
fn marked(list: Nodes, rule: Option<i32>) -> Result<Nodes, AllocError>
    requires { AreNested list }
    ensures list { IfOk result (λ it. it ≡ marked list rule) }
    ensures nested { IfOk result (λ it. AreNested it) }
{
    match rule {
        Some(width) => with_rule(list, width),
        None => Ok(list),
    }
}

/// By how much a list of this natural size has to grow.
#[tactic(auto, unfolding(crate::specs::Packs::goal_size))]
fn excess(goal: Goal, natural: i64) -> i64
    requires { unsigned_abs natural ≤ 2 ^ 62 + 2 ^ 31 }
    ensures value { result ≡ goal_size goal natural -ℤ natural }
    ensures small { unsigned_abs result ≤ 2 ^ 62 + 2 ^ 32 }
{
    match goal {
        Goal::Natural => 0,
        Goal::Exactly(size) => i64::from(size) - natural,
        Goal::Spread(more) => i64::from(more),
    }
}

/// How a list with these sums and this natural size is set.
#[tactic(auto, unfolding(crate::specs::Packs::fit_to))]
fn fit_to(packing: Packing, goal: Goal, sums: Totals, natural: i64) -> Fit
    requires sums { AreSmall 1073741824 sums }
    requires natural { unsigned_abs natural ≤ 2 ^ 62 + 2 ^ 31 }
    ensures { result ≡ fit_to packing goal sums natural }
{
    packing.fit(excess(goal, natural), sums.stretch, sums.shrink)
}

#[tactic(auto, unfolding(crate::specs::Packs::horizontal_box_sizes))]
fn horizontal_box_sizes(goal: Goal, natural: HorizontalSizes) -> BoxSizes
    requires { AreSmall 1073741824 natural.along }
    ensures { result ≡ horizontal_box_sizes goal natural }
{
    BoxSizes {
        width: within_32_bits(i128::from(goal_size(goal, natural.along.size))),
        height: within_32_bits(i128::from(natural.height)),
        depth: within_32_bits(i128::from(natural.depth)),
    }
}

#[tactic(auto, unfolding(crate::specs::Packs::horizontal_fit))]
fn horizontal_fit(empty: bool, goal: Goal, limits: Limits, natural: HorizontalSizes) -> Fit
    requires { AreSmall 1073741824 natural.along }
    ensures { result ≡ horizontal_fit empty goal limits natural }
{
    let packing = Packing {
        vertical: false,
        is_empty: empty,
        limits,
    };
    fit_to(packing, goal, natural.along, natural.along.size)
}

/// Packs a horizontal list to a width ("TeX: The Program", section 649).
///
/// Want of memory can come only where an overfull line is marked by a rule.
#[tactic(auto, unfolding(crate::specs::Packs::hpacked))]
pub fn hpack(list: Nodes, goal: Goal, limits: Limits) -> Result<Packed, AllocError>
    requires { AreNested list }
    ensures packed { IfOk result (λ it. it ≡ hpacked list goal limits) }
    ensures nested { IfOk result (λ it. IsNestedBox it.node) }
{
    let natural = measure_horizontal(&list);
    let fit = horizontal_fit(is_empty(&list), goal, limits, natural);
    let sizes = horizontal_box_sizes(goal, natural);
    let list = marked(list, fit.rule)?;
    Ok(packed_so(fit, box_around(false, sizes, fit.set, list)))
}

/// The depth of the box of a vertical list.
#[tactic(auto, unfolding(crate::specs::Packs::vertical_depth))]
fn vertical_depth(max_depth: i32, natural: VerticalSizes) -> i32
    ensures { result ≡ vertical_depth max_depth natural }
{
    natural.depth.min(max_depth)
}

/// The natural height of a vertical list.
#[tactic(auto, unfolding(crate::specs::Packs::vertical_height))]
fn vertical_height(max_depth: i32, natural: VerticalSizes) -> i64
    requires { AreSmall 1073741824 natural.along }
    ensures value { result ≡ vertical_height max_depth natural }
    ensures small { unsigned_abs result ≤ 2 ^ 62 + 2 ^ 31 }
{
    natural.along.size - i64::from(vertical_depth(max_depth, natural))
}

#[tactic(auto, unfolding(crate::specs::Packs::vertical_box_sizes))]
fn vertical_box_sizes(goal: Goal, max_depth: i32, natural: VerticalSizes) -> BoxSizes
    requires { AreSmall 1073741824 natural.along }
    ensures { result ≡ vertical_box_sizes goal max_depth natural }
{
    BoxSizes {
        width: within_32_bits(i128::from(natural.width)),
        height: within_32_bits(i128::from(goal_size(goal, vertical_height(max_depth, natural)))),
        depth: vertical_depth(max_depth, natural),
    }
}

#[tactic(auto, unfolding(crate::specs::Packs::vertical_fit))]
fn vertical_fit(
    empty: bool,
    goal: Goal,
    max_depth: i32,
    limits: Limits,
    natural: VerticalSizes,
) -> Fit
    requires { AreSmall 1073741824 natural.along }
    ensures { result ≡ vertical_fit empty goal max_depth limits natural }
{
    let packing = Packing {
        vertical: true,
        is_empty: empty,
        limits,
    };
    let height = vertical_height(max_depth, natural);
    fit_to(packing, goal, natural.along, height)
}

/// Packs a vertical list to a height ("TeX: The Program", section 668). The box is no deeper than `max_depth` sp: what
/// hangs below that belongs to its height. Takes no memory.
#[tactic(auto, unfolding(crate::specs::Packs::vpacked))]
pub fn vpack(list: Nodes, goal: Goal, max_depth: i32, limits: Limits) -> Packed
    requires { AreNested list }
    ensures packed { result ≡ vpacked list goal max_depth limits }
    ensures nested { IsNestedBox result.node }
{
    let natural = measure_vertical(&list);
    let fit = vertical_fit(is_empty(&list), goal, max_depth, limits, natural);
    let sizes = vertical_box_sizes(goal, max_depth, natural);
    packed_so(fit, box_around(true, sizes, fit.set, list))
}

//! What stands between two lines.
ghost use Rattle.std.specs.Prelude.{◌≡◌, ◌≤◌, ◌+◌, ◌^◌, ◌+ℤ◌, ◌-ℤ◌, unsigned_abs, ◌++◌, ◌∷◌, [], OnOk};
ghost use Rattle.etx_matter.specs.Nests.{IsNested, AreNested};
ghost use Rattle.etx_setlines.specs.Penalties.{penalty_node, with_width, glue_by, glue_under, interline_glue, interline, if_so, widow_of, penalty_sum, penalty_nodes};

use etx_matter::{Glue, Node, Nodes};
use etx_pack::within_32_bits;
use etx_sealed::{LineSkips, ParParams, glue_node};
use std::alloc::AllocError;

/// The depth, in sp, at and below which no glue goes before the next box: -1000pt.
const IGNORED_DEPTH: i32 = -65_536_000;

fn difference(a: i64, b: i32) -> i64
    requires { unsigned_abs a ≤ 2 ^ 32 }
    ensures value { result ≡ a -ℤ b }
    ensures small { unsigned_abs result ≤ unsigned_abs a + 2 ^ 31 }
{
    a - i64::from(b)
}

fn sum(a: i64, b: i64) -> i64
    requires a { unsigned_abs a ≤ 2 ^ 40 }
    requires b { unsigned_abs b ≤ 2 ^ 31 }
    ensures value { result ≡ a +ℤ b }
    ensures small { unsigned_abs result ≤ unsigned_abs a + 2 ^ 31 }
{
    a + b
}

/// Glue of another width.
fn with_width(glue: Glue, width: i64) -> Glue
    ensures { result ≡ with_width glue width }
{
    Glue {
        width: within_32_bits(i128::from(width)),
        ..glue
    }
}

#[tactic(auto, unfolding(crate::specs::Penalties::glue_by))]
fn glue_by(skips: LineSkips, width: i64) -> Glue
    ensures { result ≡ glue_by skips width }
{
    if width < i64::from(skips.limit) {
        skips.line
    } else {
        with_width(skips.baseline, width)
    }
}

/// What a depth and a height leave of the distance between two lines.
fn width_under(baseline: i32, depth: i32, height: i32) -> i64
    ensures { result ≡ baseline -ℤ depth -ℤ height }
{
    difference(difference(i64::from(baseline), depth), height)
}

fn glue_under(skips: LineSkips, depth: i32, height: i32) -> Glue
    ensures { result ≡ glue_under skips depth height }
{
    glue_by(skips, width_under(skips.baseline.width, depth, height))
}

/// The glue before a box of this height in a vertical list, under a box of this depth (`\prevdepth`), in sp: `\baselineskip`
/// less the depth and the height, or `\lineskip` where that is below `\lineskiplimit` ("TeX: The Program", section 679).
/// `None` exactly where the depth is -1000pt or less.
#[tactic(auto, unfolding(crate::specs::Penalties::interline_glue))]
pub fn interline_glue(skips: LineSkips, depth: i32, height: i32) -> Option<Glue>
    ensures { result ≡ interline_glue skips depth height }
{
    if depth > IGNORED_DEPTH {
        Some(glue_under(skips, depth, height))
    } else {
        None
    }
}

#[tactic(auto, unfolding(etx_matter::specs::Nests::IsNested, etx_matter::specs::Nests::node_depth))]
fn penalty_node(penalty: i64) -> Node
    ensures value { result ≡ penalty_node penalty }
    ensures nested { IsNested result }
{
    Node::Penalty(within_32_bits(i128::from(penalty)))
}

/// Puts a node behind the list.
pub fn push(list: &mut Nodes, node: Node) -> Result<(), AllocError>
    requires { IsNested node }
    ensures value { OnOk result (list.new ≡ list.old ++ node ∷ []) }
    ensures nested { OnOk result (AreNested list.old → AreNested list.new) }
{
    list.push(node)?;
    Ok(())
}

/// Puts the glue before a line of this height, if there was a line before it.
pub fn push_interline(
    list: &mut Nodes,
    skips: LineSkips,
    depth: Option<i32>,
    height: i32,
) -> Result<(), AllocError>
    ensures value { OnOk result (list.new ≡ list.old ++ interline skips depth height) }
    ensures nested { OnOk result (AreNested list.old → AreNested list.new) }
{
    match depth {
        None => Ok(()),
        Some(depth) => match interline_glue(skips, depth, height) {
            None => Ok(()),
            Some(glue) => push(list, glue_node(glue)),
        },
    }
}

fn if_so(is: bool, penalty: i32) -> i64
    ensures value { result ≡ if_so is penalty }
    ensures small { unsigned_abs result ≤ 2 ^ 31 }
{
    if is { i64::from(penalty) } else { 0 }
}

fn widow_of(params: &ParParams) -> i32
    ensures { result ≡ widow_of params.now }
{
    if params.display {
        params.penalties.display_widow
    } else {
        params.penalties.widow
    }
}

/// The penalty behind a line that is the first or not, which so many follow, and which ends in a discretionary or not.
#[tactic(auto, unfolding(crate::specs::Penalties::penalty_sum))]
fn penalty_sum(params: &ParParams, first: bool, follow: usize, hyphenated: bool) -> i64
    ensures { result ≡ penalty_sum params.now first follow hyphenated }
{
    let penalty = sum(
        if_so(true, params.penalties.inter_line),
        if_so(first, params.penalties.club),
    );
    let penalty = sum(penalty, if_so(follow == 1, widow_of(params)));
    sum(penalty, if_so(hyphenated, params.penalties.broken))
}

/// Puts the penalty behind a line, if there is one.
#[tactic(auto, unfolding(crate::specs::Penalties::penalty_nodes))]
pub fn push_penalty(
    list: &mut Nodes,
    params: &ParParams,
    first: bool,
    follow: usize,
    hyphenated: bool,
) -> Result<(), AllocError>
    ensures value { OnOk result (list.new ≡ list.old ++ penalty_nodes params.now first follow hyphenated) }
    ensures nested { OnOk result (AreNested list.old → AreNested list.new) }
{
    if follow == 0 {
        return Ok(());
    }
    let penalty = penalty_sum(params, first, follow, hyphenated);
    if penalty == 0 {
        return Ok(());
    }
    push(list, penalty_node(penalty))
}

//! A break that is tried, and what it costs.
ghost use Rattle.std.specs.Prelude.{◌≡◌, ◌<ℤ◌, pos, if◌then◌else◌};
ghost use Rattle.etx_vsplit.specs.Columns.{IsSmall};
ghost use Rattle.etx_vsplit.specs.Breaks.{penalty_at, is_forced, cost_of, trial_of, trial_with, trial_at};

use crate::column::Column;
use etx_matter::Node;

/// A break.
#[derive(Clone, Copy, Debug, PartialEq, Eq)]
pub(crate) struct Trial {
    /// Its place, counted from 0; the end where that is `None`.
    pub at: Option<u32>,
    /// The natural height with the depth of what stands before it, in sp.
    pub height: i64,
    /// What it costs: a penalty and a badness.
    pub cost: i32,
    /// Whether no break behind it is looked at.
    pub is_last: bool,
}

/// From this penalty on no break is allowed.
const FORBIDDEN: i32 = 10_000;

/// Up to this penalty a break is forced.
pub(crate) const FORCED: i32 = -10_000;

/// The badness from which on glue is set as badly as it can be.
const INFINITELY_BAD: i32 = 10_000;

/// The cost of a break at which the glue is set infinitely badly.
const DEPLORABLE: i32 = 100_000;

/// The cost of a break before which the column is too high.
const AWFUL: i32 = 1_073_741_823;

fn is_forced(penalty: i32) -> bool
    ensures { result ≡ is_forced penalty }
{
    penalty <= FORCED
}

/// The penalty of a break at a node, if one is legal there.
#[tactic(auto, unfolding(crate::specs::Breaks::penalty_at))]
fn penalty_at(behind_staying: bool, before_glue: bool, node: &Node) -> Option<i32>
    ensures { result ≡ penalty_at behind_staying before_glue node.now }
{
    match node {
        Node::Glue(_) | Node::Leaders { .. } => zero_if(behind_staying),
        Node::Kern { .. } => zero_if(before_glue),
        Node::Penalty(penalty) => Some(*penalty),
        _ => None,
    }
}

fn zero_if(is_legal: bool) -> Option<i32>
    ensures { result ≡ (if is_legal then Some (pos 0) else None) }
{
    if is_legal { Some(0) } else { None }
}

/// What a break with this penalty costs behind this column.
#[tactic(auto, unfolding(crate::specs::Breaks::cost_of))]
fn cost_of(goal: i32, column: &Column, penalty: i32) -> i32
    requires small { IsSmall 1073741824 column.now }
    requires allowed { penalty <ℤ pos 10000 }
    ensures { result ≡ cost_of goal column.now penalty }
{
    if column.is_too_high(goal) {
        return AWFUL;
    }
    if is_forced(penalty) {
        return penalty;
    }
    let badness = column.badness(goal);
    if badness < INFINITELY_BAD {
        badness + penalty
    } else {
        DEPLORABLE
    }
}

impl Trial {
    /// A break with this penalty behind this column.
    #[tactic(auto, unfolding(crate::specs::Breaks::trial_of))]
    pub fn new(goal: i32, at: Option<u32>, column: &Column, penalty: i32) -> Trial
        requires small { IsSmall 1073741824 column.now }
        requires allowed { penalty <ℤ pos 10000 }
        ensures { result ≡ trial_of goal at column.now penalty }
    {
        Trial {
            at,
            height: column.length,
            cost: cost_of(goal, column, penalty),
            is_last: column.is_too_high(goal) || is_forced(penalty),
        }
    }
}

fn trial_with(goal: i32, place: u32, column: &Column, penalty: Option<i32>) -> Option<Trial>
    requires { IsSmall 1073741824 column.now }
    ensures { result ≡ trial_with goal place column.now penalty }
{
    match penalty {
        Some(penalty) => {
            if penalty < FORBIDDEN {
                Some(Trial::new(goal, Some(place), column, penalty))
            } else {
                None
            }
        }
        None => None,
    }
}

/// The break at a node of this place, if one is allowed there.
#[tactic(auto, unfolding(crate::specs::Breaks::trial_at))]
pub(crate) fn trial_at(
    goal: i32,
    place: u32,
    column: &Column,
    before_glue: bool,
    node: &Node,
) -> Option<Trial>
    requires { IsSmall 1073741824 column.now }
    ensures { result ≡ trial_at goal place column.now before_glue node.now }
{
    let penalty = penalty_at(column.ends_staying, before_glue, node);
    trial_with(goal, place, column, penalty)
}

//! A vertical list is split.
ghost use Rattle.std.specs.Prelude.{◌≡◌, ℕ, ◌+◌, IfOk};
ghost use Rattle.std.specs.Option.{option_copied};
ghost use Rattle.etx_vsplit.specs.Columns.{column_with, IsSmall};
ghost use Rattle.etx_vsplit.specs.Breaks.{is_glue_there, forcing, trial_of, trial_at};
ghost use Rattle.etx_vsplit.specs.Splits.{split_at, split_of};

use crate::best::{cheaper_of, ends_search};
use crate::column::Column;
use crate::places::note;
use crate::trial::{FORCED, Trial, trial_at};
use etx_lists::Listed;
use etx_matter::{Node, Nodes};
use etx_pack::within_32_bits;
use std::alloc::{AllocError, Global};

/// The best break of a vertical list.
#[derive(Drop)]
pub struct Split {
    /// The place of the node at which the list is broken, counted from 0. `None` exactly where the best break is the end of
    /// the list.
    pub at: Option<u32>,
    /// The natural height together with the depth of what stands before the break, in sp.
    pub height: i32,
    /// The places of the glue that TeX reports, since its shrink is infinite, up to the last break that is looked at, in
    /// rising order. It counts as finite.
    pub shrinks: Listed<u32>,
}

fn is_glue(node: Option<&Node>) -> bool
    ensures { result ≡ is_glue_there (option_copied node.entry) }
{
    match node {
        Some(node) => node.glue().is_some(),
        None => false,
    }
}

fn split_at(trial: Option<Trial>, shrinks: Listed<u32>) -> Split
    ensures { result ≡ split_at trial shrinks }
{
    match trial {
        Some(trial) => Split {
            at: trial.at,
            height: within_32_bits(i128::from(trial.height)),
            shrinks,
        },
        None => Split {
            at: None,
            height: 0,
            shrinks,
        },
    }
}

/// The column that is wanted before a break, in sp.
#[derive(Clone, Copy, Debug, PartialEq, Eq)]
struct Wanted {
    /// Its height.
    goal: i32,
    /// How much of it may hang below its last baseline.
    max_depth: i32,
}

impl Wanted {
    /// The break at a node of this place, if one is allowed there.
    fn trial_at(self, place: u32, column: &Column, before_glue: bool, node: &Node) -> Option<Trial>
        requires { IsSmall 1073741824 column.now }
        ensures { result ≡ trial_at self.goal place column.now before_glue node.now }
    {
        trial_at(self.goal, place, column, before_glue, node)
    }

    /// The break at the end of the list.
    fn trial_at_end(self, column: &Column) -> Trial
        requires { IsSmall 1073741824 column.now }
        ensures { result ≡ trial_of self.goal None column.now forcing }
    {
        Trial::new(self.goal, None, column, FORCED)
    }

    /// Puts a node under a column.
    fn add(self, column: &mut Column, node: &Node)
        requires { IsSmall 1073741823 column.old }
        ensures value { column.new ≡ column_with self.max_depth column.old node.now }
        ensures small { (count : ℕ) → IsSmall count column.old → IsSmall (count + 1) column.new }
    {
        column.add(node, self.max_depth);
    }
}

/// Looks at all breaks, up to the last one that has to be looked at.
fn best_break(alloc: Global, list: &Nodes, wanted: Wanted) -> Result<Split, AllocError>
    ensures { IfOk result (λ split. split ≡ split_of wanted.goal wanted.max_depth list.now) }
{
    let mut column = Column::empty();
    let mut best = None;
    let mut shrinks = Listed::new(alloc);
    for (place, node) in list.as_slice().iter().enumerate() {
        let before_glue = is_glue(list.at(place + 1));
        let trial = wanted.trial_at(place as u32, &column, before_glue, node);
        best = cheaper_of(best, trial);
        if ends_search(trial) {
            return Ok(split_at(best, shrinks));
        }
        note(&mut shrinks, place as u32, node)?;
        wanted.add(&mut column, node);
    }
    let end = wanted.trial_at_end(&column);
    Ok(split_at(cheaper_of(best, Some(end)), shrinks))
}

/// The best break of a vertical list, of which `goal` sp are wanted before it, in a column that may be `max_depth` sp deep
/// ("TeX: The Program", section 970). Of breaks that cost the same it is the last one.
///
/// The list isn't changed: where glue is reported, TeX would make its shrink finite. Nothing is refused but for want of
/// memory, which only the list of reported glue takes.
pub fn vert_break(
    alloc: Global,
    list: &Nodes,
    goal: i32,
    max_depth: i32,
) -> Result<Split, AllocError>
    ensures { IfOk result (λ split. split ≡ split_of goal max_depth list.now) }
{
    best_break(alloc, list, Wanted { goal, max_depth })
}

//! What a turn of the mouth yields, and why a run of turns halts.
use etx_lists::Bytes;
use etx_matter::{Deed, End};

/// What a turn yields.
#[derive(Drop)]
pub enum Yield {
    /// Nothing.
    Quiet,
    /// Something is done to the outside.
    Act(Deed),
    /// A file is asked for. The mouth takes the answer by `resume` before its next turn.
    Load(Bytes),
    /// The job ends.
    Done(End),
}

/// Why a run of quiet turns halts.
#[derive(Drop)]
pub enum Halt {
    /// The next turn would pass the budget.
    Spent,
    /// Something is done to the outside.
    Act(Deed),
    /// A file is asked for. The mouth takes the answer by `resume` before it goes on.
    Load(Bytes),
    /// The job ends.
    Done(End),
}

//! The state of the mouth.
ghost use Rattle.std.specs.Prelude.{◌≡◌, ◌↔◌, [], IsTrue, OnOk, IfOk};
ghost use Rattle.etx_undo.specs.declared.state_mark.StateMark.{StateMark};
ghost use Rattle.etx_state.specs.declared.state.State.{State};
ghost use Rattle.etx_state.specs.Fits.{Fits};
ghost use Rattle.etx_state.specs.Values.{get};
ghost use Rattle.etx_state.specs.Mouths.{mouth_of, mouth_at, with_input, first_mouth, given, IsKept, IsBefore, Keeps};

use crate::entries::Entries;
use crate::key::Val;
use crate::rest::Rest;
use etx_input::{Levels, Mark, Next};
use etx_keys::Key;
use etx_prims::IntParam;
use etx_undo::{InputMark, StateMark};
use std::alloc::{AllocError, Global};

/// The state of the mouth. Contracts see it as a mouth (`mouth_of`). It goes back to marks.
#[derive(Drop)]
pub struct State {
    /// All that is not scanning.
    pub rest: Rest,
    /// What is read.
    pub input: Levels,
    /// What the mouth is in the middle of.
    pub entries: Entries,
    /// How many steps were taken.
    pub spent: u64,
}

impl State {
    /// The state of INITEX at the start of a job: no group is open, `par` alone has a number, which is `PAR`, and nothing
    /// is read yet. `job` is the name of the job, all that a state knows of it.
    pub fn open(alloc: Global, job: &[u8]) -> Result<State, AllocError>
        ensures { IfOk result (λ s. mouth_of s ≡ first_mouth job.now) }
    {
        Ok(State {
            rest: Rest::open(alloc, job)?,
            input: Levels::new(alloc),
            entries: Entries::new(alloc),
            spent: 0,
        })
    }

    /// The allocator that the state takes memory from.
    pub fn alloc(&self) -> Global
        ensures { result ≡ self.now.rest.alloc }
    {
        self.rest.alloc()
    }

    /// What is read next, under the categories and the `\endlinechar` that hold now. After an `Err` only the input may have
    /// changed, and is only dropped, or taken back to a mark.
    #[tactic(auto, using(crate::proofs::Mouths::keeps_input))]
    pub fn next(&mut self) -> Result<Next, AllocError>
        ensures next { IfOk result (λ next. next ≡ (given (mouth_of self.old)).next) }
        ensures ok { OnOk result (mouth_of self.new ≡ with_input (given (mouth_of self.old)).input (mouth_of self.old)) }
        ensures kept { Keeps self.old self.new }
    {
        // Most tokens come from lists, and for these neither the categories nor `\endlinechar` are looked up.
        if let Some(next) = self.input.next_listed() {
            return Ok(next);
        }
        let endline = self.rest.int(IntParam::EndLineChar);
        self.input.next(self.rest.alloc(), endline, &self.rest)
    }

    /// Says whether nothing is in progress.
    pub fn at_rest(&self) -> bool
        ensures { IsTrue result ↔ ((mouth_of self.now).entries ≡ []) }
    {
        self.entries.is_empty()
    }

    /// A mark of this time, where nothing is in progress. Takes no memory.
    pub fn mark(&mut self) -> StateMark
        requires { (mouth_of self.old).entries ≡ [] }
        ensures same { mouth_of self.new ≡ mouth_of self.old }
        ensures live { IsKept result self.new self.new }
        ensures mouth { mouth_at self.new result ≡ mouth_of self.new }
        ensures kept { Keeps self.old self.new }
        ensures before { (m : StateMark) (first : State) → IsKept m first self.old → IsBefore m result }
    {
        let rest = self.rest.mark();
        let input = self.input.mark();
        StateMark {
            rest,
            input: InputMark {
                levels: input.levels,
                left: input.left,
            },
            spent: self.spent,
        }
    }

    /// Makes the state what it was at the mark: each value, each open group, each name, what is read, and the count of
    /// steps. What is in progress is dropped, and a name that was made after the mark is gone. Marks that were taken before
    /// it keep what they stand for. Takes no memory.
    pub fn back_to(&mut self, mark: StateMark)
        requires { IsKept mark self.old self.old }
        ensures mouth { mouth_of self.new ≡ mouth_at self.old mark }
        ensures first { (first : State) → IsKept mark first self.old → mouth_of self.new ≡ mouth_at first mark }
        ensures kept { (m : StateMark) (first : State) → IsBefore m mark → IsKept m first self.old → IsKept m first self.new }
    {
        self.rest.back_to(mark.rest);
        self.input.back_to(Mark {
            levels: mark.input.levels,
            left: mark.input.left,
        });
        self.entries.clear();
        self.spent = mark.spent;
    }

    /// The value under the key at the mark. Takes time by the number of changes since the mark, and no memory.
    pub fn value_at(&self, mark: StateMark, key: Key) -> &Val
        requires { IsKept mark self.now self.now }
        ensures value { result.now ≡ get (mouth_at self.now mark).rest.values key }
        ensures fits { Fits key result.now }
    {
        self.rest.value_at(mark.rest, key)
    }

    /// The state stays, and what it was before is forgotten: earlier marks no longer stand for anything. Takes no memory.
    pub fn forget(&mut self)
        ensures { mouth_of self.new ≡ mouth_of self.old }
    {
        self.rest.forget();
        self.input.forget();
    }
}

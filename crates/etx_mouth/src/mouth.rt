//! The mouth of a job: it asks for the main file, and then its machine reads it, a token a turn, as many quiet turns in one call
//! as it likes.
ghost use Rattle.std.specs.Prelude.{◌≡◌, ◌≤◌, Option, Some, None, IfOk, OnOk};
ghost use Rattle.etx_input.specs.Files.{unread};
ghost use Rattle.etx_input.specs.Levels.{with_file};
ghost use Rattle.etx_state.specs.Mouths.{mouth_of, with_input};
ghost use Rattle.etx_mouth.specs.Machine.{machine_turn};
ghost use Rattle.etx_mouth.specs.Mouths.{mouth_at, state_of};
ghost use Rattle.etx_mouth.specs.Turn.{turned, turn_of, first_mouth, line_number_of, yield_of, machine_turned, source_turn, cant_find, answered, resumed};
ghost use Rattle.etx_mouth.specs.Measure.{Falls, Goes, IsAnswered};
ghost use Rattle.etx_mouth.specs.Runs.{Runs, Advances, RunGoes};
ghost use Rattle.etx_mouth.specs.declared.yields.Halt.{Halt as Why};

use crate::machine;
use crate::skim_body::skim;
use crate::yields::{Halt, Yield};
use etx_answers::Turned;
use etx_input::FileInput;
use etx_lists::Bytes;
use etx_matter::{Audience, Deed, End, FatalError, Job};
use etx_outside::Loaded;
use etx_outside::names::job_name;
use etx_state::State;
use std::alloc::{AllocError, Global};
use std::marker::Model;

/// What the mouth reads from.
#[derive(Drop)]
pub enum Source {
    /// The main file of this name is still to be asked for.
    Unasked(Bytes),
    /// There is no file of this name.
    Absent(Bytes),
    /// The main file can't be read.
    Refused,
    /// The input of the machine, at whose bottom the main file was.
    Reading,
}

/// The mouth of a job, between two turns. Contracts see what it reads from and the mouth that its state stands for.
#[derive(Drop)]
pub struct Mouth {
    source: Source,
    state: State,
}

impl Model for Mouth {
    ghost use Rattle.etx_mouth.specs.Mouths.{Held, hold};

    ghost Value = { Held };

    ghost view = { λ it. hold it.source it.state };
}

/// The text of the error that there is no file of this name.
fn cant_find_text(alloc: Global, name: &[u8]) -> Result<Bytes, AllocError>
    ensures { IfOk result (λ text. text ≡ cant_find name.now) }
{
    let mut text = Bytes::from_slice(alloc, b"I can't find file `")?;
    text.extend_from_slice(name)?;
    text.extend_from_slice(b"'")?;
    Ok(text)
}

fn yield_of(turned: Turned) -> Yield
    ensures { result ≡ yield_of turned }
{
    match turned {
        Turned::Again => Yield::Quiet,
        Turned::Deed(deed) => Yield::Act(deed.into_inner()),
        Turned::End(end) => Yield::Done(end),
    }
}

/// There is no file of this name.
fn miss(alloc: Global, name: &[u8]) -> Result<Yield, AllocError>
    ensures { IfOk result (λ did. did ≡ Yield.Act (Deed.Error (cant_find name.now) 0 Audience.LogAndTerminal)) }
{
    let text = cant_find_text(alloc, name)?;
    Ok(Yield::Act(Deed::Error {
        text,
        line: 0,
        audience: Audience::LogAndTerminal,
    }))
}

/// The machine makes a turn.
fn read(state: &mut State) -> Result<Yield, AllocError>
    ensures now { OnOk result (mouth_of state.new ≡ (machine_turn (mouth_of state.old)).now) }
    ensures did { IfOk result (λ did. did ≡ yield_of (machine_turn (mouth_of state.old)).turned) }
{
    let turned = machine::turn(state)?;
    Ok(yield_of(turned))
}

/// A turn, by what is read from. After an `Err` both are only dropped.
fn turn_by(source: &mut Source, state: &mut State) -> Result<Yield, AllocError>
    ensures now { OnOk result (mouth_at source.new (mouth_of state.new) ≡ (source_turn source.old (mouth_of state.old)).now) }
    ensures did { IfOk result (λ did. did ≡ (source_turn source.old (mouth_of state.old)).did) }
{
    match std::mem::replace(source, Source::Refused) {
        Source::Unasked(name) => {
            *source = Source::Reading;
            Ok(Yield::Load(name))
        }
        Source::Absent(name) => miss(state.alloc(), name.as_slice()),
        Source::Refused => Ok(Yield::Done(End::Fatal(FatalError::FileError))),
        Source::Reading => {
            *source = Source::Reading;
            read(state)
        }
    }
}

/// The text of the main file is read from its beginning. After an `Err` the state is only dropped.
fn push_text(state: &mut State, text: Bytes) -> Result<(), AllocError>
    ensures { OnOk result (mouth_of state.new ≡ with_input (with_file (unread text) (mouth_of state.old).input) (mouth_of state.old)) }
{
    let file = FileInput::new(state.alloc(), text)?;
    state.input.push_file(file)?;
    Ok(())
}

/// The answer of the load of this name, and what is read from then. After an `Err` the state is only dropped.
fn answer(state: &mut State, name: &[u8], loaded: Loaded) -> Result<Source, AllocError>
    ensures { IfOk result (λ source. mouth_at source (mouth_of state.new) ≡ answered name.now loaded (mouth_of state.old)) }
{
    match loaded {
        Loaded::Absent => Ok(Source::Absent(Bytes::from_slice(state.alloc(), name)?)),
        Loaded::TooLong => Ok(Source::Refused),
        Loaded::Bytes(text) => {
            push_text(state, text)?;
            Ok(Source::Reading)
        }
    }
}

impl Mouth {
    /// The mouth that is to read the file of this name.
    #[tactic(auto, unfolding(crate::specs::Mouths::state_of))]
    fn before_file(name: Bytes, state: State) -> Mouth
        ensures { state_of result ≡ mouth_at (Source.Unasked name) (mouth_of state) }
    {
        Mouth {
            source: Source::Unasked(name),
            state,
        }
    }

    /// The mouth of INITEX, which is to read the main file of this job.
    #[tactic(auto, unfolding(crate::specs::Turn::first_mouth))]
    pub fn new(alloc: Global, job: Job) -> Result<Mouth, AllocError>
        ensures { IfOk result (λ mouth. state_of mouth ≡ first_mouth job.name) }
    {
        let state = State::open(alloc, job_name(job.name()))?;
        Ok(Mouth::before_file(job.into_name(), state))
    }

    /// The number of the line that was read last, or 0.
    #[tactic(auto, unfolding(crate::specs::Turn::line_number_of, crate::specs::Mouths::state_of))]
    pub fn line(&self) -> u32
        ensures { result ≡ line_number_of (state_of self.now) }
    {
        self.state.input.line()
    }

    /// How many steps were taken.
    #[tactic(auto, unfolding(crate::specs::Mouths::state_of))]
    pub fn spent(&self) -> u64
        ensures { result ≡ (state_of self.now).machine.spent }
    {
        self.state.spent
    }

    #[tactic(auto, unfolding(crate::specs::Turn::turn_of, crate::specs::Mouths::state_of))]
    fn make_turn(&mut self) -> Result<Yield, AllocError>
        ensures now { OnOk result (state_of self.new ≡ (turn_of (state_of self.old)).now) }
        ensures did { IfOk result (λ did. did ≡ (turn_of (state_of self.old)).did) }
    {
        turn_by(&mut self.source, &mut self.state)
    }

    /// Makes one turn. It ends the job, reports an error, takes a step, or makes the weight of what waits smaller.
    fn turn(&mut self) -> Result<Yield, AllocError>
        ensures now { OnOk result (state_of self.new ≡ (turn_of (state_of self.old)).now) }
        ensures did { IfOk result (λ did. did ≡ (turn_of (state_of self.old)).did) }
        ensures goes { IfOk result (λ did. Goes (state_of self.old) (turned (state_of self.new) did)) }
    {
        let did = self.make_turn()?;
        Ok(did)
    }

    /// Makes the quiet turns of the kinds that are made many at once.
    #[tactic(auto, unfolding(crate::specs::Mouths::state_of))]
    fn skim(&mut self, budget: u64) -> Result<(), AllocError>
        requires { (state_of self.old).machine.spent ≤ budget }
        ensures runs { OnOk result (Runs budget (state_of self.old) (state_of self.new)) }
        ensures within { OnOk result ((state_of self.new).machine.spent ≤ budget) }
    {
        match self.source {
            Source::Unasked(_) => Ok(()),
            Source::Absent(_) => Ok(()),
            Source::Refused => Ok(()),
            Source::Reading => skim(&mut self.state, budget),
        }
    }

    /// Makes some quiet turns, or ends with one that halts.
    fn go_on(&mut self, budget: u64) -> Result<Option<Halt>, AllocError>
        requires { (state_of self.old).machine.spent ≤ budget }
        ensures runs { IfOk result (λ halt. halt ≡ None → Runs budget (state_of self.old) (state_of self.new)) }
        ensures falls { IfOk result (λ halt. halt ≡ None → ((state_of self.new).machine.spent ≤ budget) × Falls 1 (state_of self.old) (state_of self.new)) }
        ensures halts { IfOk result (λ halt. (why : Why) → halt ≡ Some why → Advances budget (state_of self.old) (state_of self.new) why) }
        ensures goes { IfOk result (λ halt. (why : Why) → halt ≡ Some why → RunGoes (state_of self.old) (state_of self.new) why) }
    {
        self.skim(budget)?;
        let did = self.turn()?;
        if self.spent() > budget {
            return Ok(Some(Halt::Spent));
        }
        match did {
            Yield::Quiet => Ok(None),
            Yield::Act(deed) => Ok(Some(Halt::Act(deed))),
            Yield::Load(name) => Ok(Some(Halt::Load(name))),
            Yield::Done(end) => Ok(Some(Halt::Done(end))),
        }
    }

    /// Makes quiet turns, as many as come and each within the budget, and then the one that isn't quiet or passes the budget.
    /// `Spent` comes exactly where that turn passes it. After an `Err` the mouth is only dropped.
    pub fn advance(&mut self, budget: u64) -> Result<Halt, AllocError>
        requires { (state_of self.old).machine.spent ≤ budget }
        ensures advances { IfOk result (λ why. Advances budget (state_of self.old) (state_of self.new) why) }
        ensures goes { IfOk result (λ why. RunGoes (state_of self.old) (state_of self.new) why) }
    {
        'steps: loop {
            let before = self.spent();
            'free: loop {
                if let Some(halt) = self.go_on(budget)? {
                    return Ok(halt);
                }
                if self.spent() > before {
                    break;
                }
            }
        }
    }

    /// Takes the answer of the load of this name. After an `Err` the mouth is only dropped.
    pub fn resume(&mut self, name: &[u8], loaded: Loaded) -> Result<(), AllocError>
        ensures now { OnOk result (state_of self.new ≡ resumed name.now (state_of self.old) loaded) }
        ensures answered { OnOk result (IsAnswered (state_of self.old) (state_of self.new)) }
    {
        self.take(name, loaded)?;
        Ok(())
    }

    #[tactic(auto, unfolding(crate::specs::Turn::resumed, crate::specs::Mouths::state_of))]
    fn take(&mut self, name: &[u8], loaded: Loaded) -> Result<(), AllocError>
        ensures { OnOk result (state_of self.new ≡ resumed name.now (state_of self.old) loaded) }
    {
        self.source = answer(&mut self.state, name, loaded)?;
        Ok(())
    }
}

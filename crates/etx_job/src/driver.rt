//! The driver: it lets a job's mouth make turns up to one that yields something, puts the deeds into a journal, and flushes it
//! after each deed, before anything is asked for, and at the end.
ghost use Rattle.std.specs.Prelude.{◌≡◌, ◌<◌, ◌≤◌, ◌++◌, [], ◌∷◌, List, ℕ, true, false, Option, Some, None, IfOk, OnOk, OnErr, IsErrOf};
ghost use Rattle.etx_outside.specs.Faults.{Rose};
ghost use Rattle.etx_outside.specs.Entries.{Asked};
ghost use Rattle.etx_outside.specs.Loading.{load_of};
ghost use Rattle.etx_outside.specs.Outside.{Outside, outside_of, after, Front, Faults, faults_of, NoneFell, WriteRose};
ghost use Rattle.etx_settle.specs.Deeds.{JournalState, AllOpen, first_pen};
ghost use Rattle.etx_mouth.specs.Errors.{is_error};
ghost use Rattle.etx_mouth.specs.Mouths.{MouthState, state_of};
ghost use Rattle.etx_mouth.specs.Measure.{GoesOn, CountsOn, IsAnswered};
ghost use Rattle.etx_job.specs.Words.{log_name};
ghost use Rattle.etx_job.specs.Chain.{Start, printed, last_line, closing_by, reason_of, closing_fatally, full_text, closing_full, closing};
ghost use Rattle.etx_job.specs.Meaning.{AtAsk};
ghost use Rattle.etx_job.specs.Going.{more_waiting, IsFor, Going, Over, AfterTurn, Asks, Acts, Cut, Settled};

use crate::fault::Fault;
use crate::words::name_log;
use etx_lists::Bytes;
use etx_matter::{Audience, Deed, End, FatalError, Job, Limit};
use etx_mouth::{Halt, Mouth};
use etx_outside::{Loaded, Terminal, Tree, TreeFault};
use etx_settle::{FlushFault, Journal};
use std::alloc::{AllocError, Global};

const BOTH: Audience = Audience::LogAndTerminal;

/// The errors since the last paragraph ended at which a job gives up ("TeX: The Program", section 82).
const MOST_ERRORS: u32 = 100;

fn print(alloc: Global, text: &[u8], journal: &mut Journal) -> Result<(), AllocError>
    ensures { OnOk result (journal.new ≡ more_waiting journal.old (printed text.now ∷ [])) }
{
    let bytes = Bytes::from_slice(alloc, text)?;
    journal.push(Deed::Text {
        bytes,
        audience: BOTH,
    })
}

/// The last line of the transcript.
fn print_last_line(alloc: Global, journal: &mut Journal) -> Result<(), AllocError>
    ensures { OnOk result (journal.new ≡ more_waiting journal.old last_line) }
{
    journal.push(Deed::Fresh(BOTH))?;
    print(alloc, b"No pages of output.\n", journal)?;
    Ok(())
}

/// A line of its own, and the last line.
fn close_by(alloc: Global, text: &[u8], journal: &mut Journal) -> Result<(), AllocError>
    ensures { OnOk result (journal.new ≡ more_waiting journal.old (closing_by text.now)) }
{
    journal.push(Deed::Fresh(BOTH))?;
    print(alloc, text, journal)?;
    print_last_line(alloc, journal)?;
    Ok(())
}

/// The reason why a job can't go on, in parentheses behind three asterisks.
fn find_reason(alloc: Global, why: FatalError) -> Result<Bytes, AllocError>
    ensures { IfOk result (λ text. text ≡ reason_of why) }
{
    let mut text = Bytes::from_slice(alloc, b"*** (")?;
    text.extend_from_slice(why.text())?;
    text.extend_from_slice(b")\n")?;
    Ok(text)
}

/// The error that ends a job, its reason, and the last line.
fn close_fatally(
    alloc: Global,
    why: FatalError,
    line: u32,
    journal: &mut Journal,
) -> Result<(), AllocError>
    ensures { OnOk result (journal.new ≡ more_waiting journal.old (closing_fatally why line)) }
{
    let text = Bytes::from_slice(alloc, b"Emergency stop")?;
    let reason = find_reason(alloc, why)?;
    journal.push(Deed::Error {
        text,
        line,
        audience: BOTH,
    })?;
    print(alloc, reason.as_slice(), journal)?;
    print_last_line(alloc, journal)?;
    Ok(())
}

/// The text of the error that a limit would have been passed.
fn find_full(alloc: Global, limit: Limit) -> Result<Bytes, AllocError>
    ensures { IfOk result (λ text. text ≡ full_text limit) }
{
    let mut text = Bytes::from_slice(alloc, b"TeX capacity exceeded, sorry [")?;
    text.extend_from_slice(limit.text())?;
    text.extend_from_slice(b"]")?;
    Ok(text)
}

/// That error, and the last line.
fn close_full(
    alloc: Global,
    limit: Limit,
    line: u32,
    journal: &mut Journal,
) -> Result<(), AllocError>
    ensures { OnOk result (journal.new ≡ more_waiting journal.old (closing_full limit line)) }
{
    let text = find_full(alloc, limit)?;
    journal.push(Deed::Error {
        text,
        line,
        audience: BOTH,
    })?;
    print_last_line(alloc, journal)?;
    Ok(())
}

/// Lets what an end adds wait, where the line that was read last has this number.
fn close(alloc: Global, end: End, line: u32, journal: &mut Journal) -> Result<(), AllocError>
    ensures { OnOk result (journal.new ≡ more_waiting journal.old (closing end line)) }
{
    match end {
        End::Ended => print_last_line(alloc, journal),
        End::Fatal(why) => close_fatally(alloc, why, line, journal),
        End::Hundred => close_by(
            alloc,
            b"(That makes 100 errors; please try again.)\n",
            journal,
        ),
        End::Capacity(limit) => close_full(alloc, limit, line, journal),
        End::Spent => close_by(alloc, b"*** (step budget spent)\n", journal),
        End::Unbuilt => close_by(alloc, b"*** (not built yet)\n", journal),
    }
}

/// Whether a deed reports an error.
fn is_error(deed: &Deed) -> bool
    ensures { result ≡ is_error deed.now }
{
    match deed {
        Deed::Error { .. } => true,
        Deed::Fresh(_) | Deed::Space(_) | Deed::Text { .. } | Deed::Create(_) => false,
    }
}

/// Writes a deed, and counts it if it is an error: the last that a job may have ends it.
fn act<F: Tree, T: Terminal>(
    alloc: Global,
    deed: Deed,
    errors: &mut u32,
    journal: &mut Journal,
    tree: &mut F,
    terminal: &mut T,
) -> Result<Option<End>, FlushFault>
    requires open { AllOpen (F.is_open tree.old) journal.old.pen.created }
    requires few { errors.old < 100 }
    ensures going { IfOk result (λ end. F.tells → T.tells → (start : Start) (first : Outside) (mouth : MouthState) →
        Acts start first mouth errors.old journal.old deed (outside_of F.files F.asked T.text tree.old terminal.old)
        → AfterTurn end start first mouth errors.new journal.new (outside_of F.files F.asked T.text tree.new terminal.new)) }
    ensures cut { F.tells → T.tells → (start : Start) (first : Outside) (mouth : MouthState) →
        Acts start first mouth errors.old journal.old deed (outside_of F.files F.asked T.text tree.old terminal.old)
        → Cut start first (outside_of F.files F.asked T.text tree.new terminal.new) }
    ensures opened { OnOk result (AllOpen (F.is_open tree.new) journal.new.pen.created) }
    ensures few { IfOk result (λ end. end ≡ None → errors.new < 100) }
    ensures counted { OnOk result (is_error deed ≡ true → errors.old < errors.new) }
    ensures same { OnOk result (is_error deed ≡ false → errors.new ≡ errors.old) }
    ensures later { NoneFell (faults_of F.faults T.faults tree.old terminal.old) (faults_of F.faults T.faults tree.new terminal.new) }
    ensures steady { OnOk result (F.counts_only_faults → T.counts_only_faults → faults_of F.faults T.faults tree.new terminal.new ≡ faults_of F.faults T.faults tree.old terminal.old) }
    ensures cause { IsErrOf result FlushFault.WriteFault → WriteRose (faults_of F.faults T.faults tree.old terminal.old) (faults_of F.faults T.faults tree.new terminal.new) }
{
    let is_error = is_error(&deed);
    journal.push(deed)?;
    journal.flush(tree, terminal)?;
    if !is_error {
        return Ok(None);
    }
    *errors += 1;
    if *errors < MOST_ERRORS {
        return Ok(None);
    }
    close(alloc, End::Hundred, 0, journal)?;
    Ok(Some(End::Hundred))
}

/// Asks for a name. The terminal stays as it is.
fn load<F: Tree, T: Terminal>(
    alloc: Global,
    name: &[u8],
    tree: &mut F,
    terminal: &T,
) -> Result<Loaded, TreeFault>
    ensures answer { IfOk result (λ loaded. F.tells → loaded ≡ load_of ((outside_of F.files F.asked T.text tree.old terminal.now).files name.now)) }
    ensures ok { OnOk result (F.tells → outside_of F.files F.asked T.text tree.new terminal.now ≡ after (Asked name.now ∷ []) (outside_of F.files F.asked T.text tree.old terminal.now)) }
    ensures failed { IsErrOf result TreeFault.Failed → F.tells → outside_of F.files F.asked T.text tree.new terminal.now ≡ after (Asked name.now ∷ []) (outside_of F.files F.asked T.text tree.old terminal.now) }
    ensures front { F.tells → Front (Asked name.now ∷ []) (outside_of F.files F.asked T.text tree.old terminal.now) (outside_of F.files F.asked T.text tree.new terminal.now) }
    ensures open { (q : List ℕ) → F.is_open tree.old q → F.is_open tree.new q }
    ensures later { NoneFell (faults_of F.faults T.faults tree.old terminal.now) (faults_of F.faults T.faults tree.new terminal.now) }
    ensures steady { OnOk result (F.counts_only_faults → T.counts_only_faults → faults_of F.faults T.faults tree.new terminal.now ≡ faults_of F.faults T.faults tree.old terminal.now) }
    ensures cause { IsErrOf result TreeFault.Failed → Rose (faults_of F.faults T.faults tree.old terminal.now).reads (faults_of F.faults T.faults tree.new terminal.now).reads }
{
    match tree.load(alloc, name) {
        Ok(loaded) => Ok(loaded),
        Err(TreeFault::Failed) => Err(TreeFault::Failed),
        Err(TreeFault::OutOfMemory) => Err(TreeFault::OutOfMemory),
    }
}

/// Writes what waits, and asks for a name.
fn ask<F: Tree, T: Terminal>(
    alloc: Global,
    name: &[u8],
    mouth: &mut Mouth,
    journal: &mut Journal,
    tree: &mut F,
    terminal: &mut T,
) -> Result<(), Fault>
    requires { AllOpen (F.is_open tree.old) journal.old.pen.created }
    ensures going { OnOk result (F.tells → T.tells → (start : Start) (first : Outside) (errors : ℕ) → IsFor start first →
        Asks start first (state_of mouth.old) errors journal.old name.now (outside_of F.files F.asked T.text tree.old terminal.old)
        → Going start first (state_of mouth.new) errors journal.new (outside_of F.files F.asked T.text tree.new terminal.new)) }
    ensures cut { F.tells → T.tells → (start : Start) (first : Outside) (errors : ℕ) → IsFor start first →
        Asks start first (state_of mouth.old) errors journal.old name.now (outside_of F.files F.asked T.text tree.old terminal.old)
        → Cut start first (outside_of F.files F.asked T.text tree.new terminal.new) }
    ensures read_at { IsErrOf result Fault.ReadFault → F.tells → T.tells → (start : Start) (first : Outside) (errors : ℕ) →
        Asks start first (state_of mouth.old) errors journal.old name.now (outside_of F.files F.asked T.text tree.old terminal.old)
        → AtAsk start first (outside_of F.files F.asked T.text tree.new terminal.new) }
    ensures opened { OnOk result (AllOpen (F.is_open tree.new) journal.new.pen.created) }
    ensures answered { OnOk result (IsAnswered (state_of mouth.old) (state_of mouth.new)) }
    ensures later { NoneFell (faults_of F.faults T.faults tree.old terminal.old) (faults_of F.faults T.faults tree.new terminal.new) }
    ensures steady { OnOk result (F.counts_only_faults → T.counts_only_faults → faults_of F.faults T.faults tree.new terminal.new ≡ faults_of F.faults T.faults tree.old terminal.old) }
    ensures read_cause { IsErrOf result Fault.ReadFault → Rose (faults_of F.faults T.faults tree.old terminal.old).reads (faults_of F.faults T.faults tree.new terminal.new).reads }
    ensures write_cause { IsErrOf result Fault.WriteFault → WriteRose (faults_of F.faults T.faults tree.old terminal.old) (faults_of F.faults T.faults tree.new terminal.new) }
{
    journal.flush(tree, terminal)?;
    let loaded = match load(alloc, name, tree, terminal) {
        Ok(loaded) => loaded,
        Err(TreeFault::Failed) => return Err(Fault::ReadFault),
        Err(TreeFault::OutOfMemory) => return Err(Fault::OutOfMemory),
    };
    mouth.resume(name, loaded)?;
    Ok(())
}

/// Makes steps of the chain: quiet turns of the mouth, and the turn at which they halt, with what it yields. After an `Err`
/// nothing goes on.
fn go_on<F: Tree, T: Terminal>(
    alloc: Global,
    budget: u64,
    mouth: &mut Mouth,
    errors: &mut u32,
    journal: &mut Journal,
    tree: &mut F,
    terminal: &mut T,
) -> Result<Option<End>, Fault>
    requires open { AllOpen (F.is_open tree.old) journal.old.pen.created }
    requires within { (state_of mouth.old).machine.spent ≤ budget }
    requires few { errors.old < 100 }
    ensures going { IfOk result (λ end. F.tells → T.tells → (start : Start) (first : Outside) → IsFor start first → start.job.budget ≡ budget →
        Going start first (state_of mouth.old) errors.old journal.old (outside_of F.files F.asked T.text tree.old terminal.old)
        → AfterTurn end start first (state_of mouth.new) errors.new journal.new (outside_of F.files F.asked T.text tree.new terminal.new)) }
    ensures cut { F.tells → T.tells → (start : Start) (first : Outside) → IsFor start first → start.job.budget ≡ budget →
        Going start first (state_of mouth.old) errors.old journal.old (outside_of F.files F.asked T.text tree.old terminal.old)
        → Cut start first (outside_of F.files F.asked T.text tree.new terminal.new) }
    ensures read_at { IsErrOf result Fault.ReadFault → F.tells → T.tells → (start : Start) (first : Outside) → start.job.budget ≡ budget →
        Going start first (state_of mouth.old) errors.old journal.old (outside_of F.files F.asked T.text tree.old terminal.old)
        → AtAsk start first (outside_of F.files F.asked T.text tree.new terminal.new) }
    ensures opened { OnOk result (AllOpen (F.is_open tree.new) journal.new.pen.created) }
    ensures within { IfOk result (λ end. end ≡ None → (state_of mouth.new).machine.spent ≤ budget) }
    ensures few { IfOk result (λ end. end ≡ None → errors.new < 100) }
    ensures goes { IfOk result (λ end. end ≡ None → GoesOn (state_of mouth.old) errors.old (state_of mouth.new) errors.new) }
    ensures later { NoneFell (faults_of F.faults T.faults tree.old terminal.old) (faults_of F.faults T.faults tree.new terminal.new) }
    ensures steady { OnOk result (F.counts_only_faults → T.counts_only_faults → faults_of F.faults T.faults tree.new terminal.new ≡ faults_of F.faults T.faults tree.old terminal.old) }
    ensures read_cause { IsErrOf result Fault.ReadFault → Rose (faults_of F.faults T.faults tree.old terminal.old).reads (faults_of F.faults T.faults tree.new terminal.new).reads }
    ensures write_cause { IsErrOf result Fault.WriteFault → WriteRose (faults_of F.faults T.faults tree.old terminal.old) (faults_of F.faults T.faults tree.new terminal.new) }
{
    let halt = mouth.advance(budget)?;
    match halt {
        Halt::Spent => {
            close(alloc, End::Spent, 0, journal)?;
            Ok(Some(End::Spent))
        }
        Halt::Act(deed) => {
            let end = act(alloc, deed, errors, journal, tree, terminal)?;
            Ok(end)
        }
        Halt::Load(name) => {
            ask(alloc, name.as_slice(), mouth, journal, tree, terminal)?;
            Ok(None)
        }
        Halt::Done(end) => {
            close(alloc, end, mouth.line(), journal)?;
            Ok(Some(end))
        }
    }
}

/// Makes steps of the chain until one was taken or an error was counted, or to the job's end: in between the mouth's weight
/// becomes less. After an `Err` nothing goes on.
fn go_far<F: Tree, T: Terminal>(
    alloc: Global,
    budget: u64,
    mouth: &mut Mouth,
    errors: &mut u32,
    journal: &mut Journal,
    tree: &mut F,
    terminal: &mut T,
) -> Result<Option<End>, Fault>
    requires open { AllOpen (F.is_open tree.old) journal.old.pen.created }
    requires within { (state_of mouth.old).machine.spent ≤ budget }
    requires few { errors.old < 100 }
    ensures going { IfOk result (λ end. F.tells → T.tells → (start : Start) (first : Outside) → IsFor start first → start.job.budget ≡ budget →
        Going start first (state_of mouth.old) errors.old journal.old (outside_of F.files F.asked T.text tree.old terminal.old)
        → AfterTurn end start first (state_of mouth.new) errors.new journal.new (outside_of F.files F.asked T.text tree.new terminal.new)) }
    ensures cut { F.tells → T.tells → (start : Start) (first : Outside) → IsFor start first → start.job.budget ≡ budget →
        Going start first (state_of mouth.old) errors.old journal.old (outside_of F.files F.asked T.text tree.old terminal.old)
        → Cut start first (outside_of F.files F.asked T.text tree.new terminal.new) }
    ensures read_at { IsErrOf result Fault.ReadFault → F.tells → T.tells → (start : Start) (first : Outside) → IsFor start first → start.job.budget ≡ budget →
        Going start first (state_of mouth.old) errors.old journal.old (outside_of F.files F.asked T.text tree.old terminal.old)
        → AtAsk start first (outside_of F.files F.asked T.text tree.new terminal.new) }
    ensures opened { OnOk result (AllOpen (F.is_open tree.new) journal.new.pen.created) }
    ensures within { IfOk result (λ end. end ≡ None → (state_of mouth.new).machine.spent ≤ budget) }
    ensures few { IfOk result (λ end. end ≡ None → errors.new < 100) }
    ensures counts { IfOk result (λ end. end ≡ None → CountsOn (state_of mouth.old) errors.old (state_of mouth.new) errors.new) }
    ensures later { NoneFell (faults_of F.faults T.faults tree.old terminal.old) (faults_of F.faults T.faults tree.new terminal.new) }
    ensures steady { OnOk result (F.counts_only_faults → T.counts_only_faults → faults_of F.faults T.faults tree.new terminal.new ≡ faults_of F.faults T.faults tree.old terminal.old) }
    ensures read_cause { IsErrOf result Fault.ReadFault → Rose (faults_of F.faults T.faults tree.old terminal.old).reads (faults_of F.faults T.faults tree.new terminal.new).reads }
    ensures write_cause { IsErrOf result Fault.WriteFault → WriteRose (faults_of F.faults T.faults tree.old terminal.old) (faults_of F.faults T.faults tree.new terminal.new) }
{
    let before = mouth.spent();
    let counted = *errors;
    'free: loop {
        match go_on(alloc, budget, mouth, errors, journal, tree, terminal) {
            Err(fault) => return Err(fault),
            Ok(Some(end)) => return Ok(Some(end)),
            Ok(None) => {}
        }
        if mouth.spent() > before || *errors > counted {
            return Ok(None);
        }
    }
}

/// Makes steps of the chain to the job's end. After an `Err` nothing goes on.
fn go_to_end<F: Tree, T: Terminal>(
    alloc: Global,
    budget: u64,
    mouth: &mut Mouth,
    errors: &mut u32,
    journal: &mut Journal,
    tree: &mut F,
    terminal: &mut T,
) -> Result<End, Fault>
    requires open { AllOpen (F.is_open tree.old) journal.old.pen.created }
    requires within { (state_of mouth.old).machine.spent ≤ budget }
    requires few { errors.old < 100 }
    ensures going { IfOk result (λ end. F.tells → T.tells → (start : Start) (first : Outside) → IsFor start first → start.job.budget ≡ budget →
        Going start first (state_of mouth.old) errors.old journal.old (outside_of F.files F.asked T.text tree.old terminal.old)
        → Over start first journal.new end (outside_of F.files F.asked T.text tree.new terminal.new)) }
    ensures cut { F.tells → T.tells → (start : Start) (first : Outside) → IsFor start first → start.job.budget ≡ budget →
        Going start first (state_of mouth.old) errors.old journal.old (outside_of F.files F.asked T.text tree.old terminal.old)
        → Cut start first (outside_of F.files F.asked T.text tree.new terminal.new) }
    ensures read_at { IsErrOf result Fault.ReadFault → F.tells → T.tells → (start : Start) (first : Outside) → IsFor start first → start.job.budget ≡ budget →
        Going start first (state_of mouth.old) errors.old journal.old (outside_of F.files F.asked T.text tree.old terminal.old)
        → AtAsk start first (outside_of F.files F.asked T.text tree.new terminal.new) }
    ensures opened { OnOk result (AllOpen (F.is_open tree.new) journal.new.pen.created) }
    ensures later { NoneFell (faults_of F.faults T.faults tree.old terminal.old) (faults_of F.faults T.faults tree.new terminal.new) }
    ensures steady { OnOk result (F.counts_only_faults → T.counts_only_faults → faults_of F.faults T.faults tree.new terminal.new ≡ faults_of F.faults T.faults tree.old terminal.old) }
    ensures read_cause { IsErrOf result Fault.ReadFault → Rose (faults_of F.faults T.faults tree.old terminal.old).reads (faults_of F.faults T.faults tree.new terminal.new).reads }
    ensures write_cause { IsErrOf result Fault.WriteFault → WriteRose (faults_of F.faults T.faults tree.old terminal.old) (faults_of F.faults T.faults tree.new terminal.new) }
{
    'counts: loop {
        match go_far(alloc, budget, mouth, errors, journal, tree, terminal) {
            Err(fault) => return Err(fault),
            Ok(Some(end)) => return Ok(end),
            Ok(None) => {}
        }
    }
}

/// How a job came to its end.
#[derive(Clone, Copy)]
pub struct Ending {
    pub end: End,
    /// Whether an error was reported.
    pub has_erred: bool,
}

/// Writes what waits where a job has come to its end.
fn finish<F: Tree, T: Terminal>(
    end: End,
    journal: &mut Journal,
    tree: &mut F,
    terminal: &mut T,
) -> Result<Ending, Fault>
    requires { AllOpen (F.is_open tree.old) journal.old.pen.created }
    ensures whole { IfOk result (λ ending. F.tells → T.tells → (start : Start) (first : Outside) →
        Over start first journal.old end (outside_of F.files F.asked T.text tree.old terminal.old)
        → Settled start ending.end ending.has_erred first (outside_of F.files F.asked T.text tree.new terminal.new)) }
    ensures cut { F.tells → T.tells → (start : Start) (first : Outside) →
        Over start first journal.old end (outside_of F.files F.asked T.text tree.old terminal.old)
        → Cut start first (outside_of F.files F.asked T.text tree.new terminal.new) }
    ensures read { IsErrOf result Fault.ReadFault → ⊥ }
    ensures later { NoneFell (faults_of F.faults T.faults tree.old terminal.old) (faults_of F.faults T.faults tree.new terminal.new) }
    ensures steady { OnOk result (F.counts_only_faults → T.counts_only_faults → faults_of F.faults T.faults tree.new terminal.new ≡ faults_of F.faults T.faults tree.old terminal.old) }
    ensures write_cause { IsErrOf result Fault.WriteFault → WriteRose (faults_of F.faults T.faults tree.old terminal.old) (faults_of F.faults T.faults tree.new terminal.new) }
{
    match journal.flush(tree, terminal) {
        Err(FlushFault::WriteFault) => Err(Fault::WriteFault),
        Err(FlushFault::OutOfMemory) => Err(Fault::OutOfMemory),
        Ok(()) => Ok(Ending {
            end,
            has_erred: journal.has_erred(),
        }),
    }
}

/// Runs a job to its end: from the creation of its log to the last byte of its transcript.
pub fn run<F: Tree, T: Terminal>(
    alloc: Global,
    job: Job,
    tree: &mut F,
    terminal: &mut T,
) -> Result<Ending, Fault>
    ensures whole { IfOk result (λ ending. F.tells → T.tells → (start : Start) → IsFor start (outside_of F.files F.asked T.text tree.old terminal.old) → start.job ≡ job →
        Settled start ending.end ending.has_erred (outside_of F.files F.asked T.text tree.old terminal.old) (outside_of F.files F.asked T.text tree.new terminal.new)) }
    ensures cut { F.tells → T.tells → (start : Start) → IsFor start (outside_of F.files F.asked T.text tree.old terminal.old) → start.job ≡ job →
        Cut start (outside_of F.files F.asked T.text tree.old terminal.old) (outside_of F.files F.asked T.text tree.new terminal.new) }
    ensures read_at { IsErrOf result Fault.ReadFault → F.tells → T.tells → (start : Start) → IsFor start (outside_of F.files F.asked T.text tree.old terminal.old) → start.job ≡ job →
        AtAsk start (outside_of F.files F.asked T.text tree.old terminal.old) (outside_of F.files F.asked T.text tree.new terminal.new) }
    ensures later { NoneFell (faults_of F.faults T.faults tree.old terminal.old) (faults_of F.faults T.faults tree.new terminal.new) }
    ensures steady { OnOk result (F.counts_only_faults → T.counts_only_faults → faults_of F.faults T.faults tree.new terminal.new ≡ faults_of F.faults T.faults tree.old terminal.old) }
    ensures read_cause { IsErrOf result Fault.ReadFault → Rose (faults_of F.faults T.faults tree.old terminal.old).reads (faults_of F.faults T.faults tree.new terminal.new).reads }
    ensures write_cause { IsErrOf result Fault.WriteFault → WriteRose (faults_of F.faults T.faults tree.old terminal.old) (faults_of F.faults T.faults tree.new terminal.new) }
{
    let budget = job.budget();
    let mut journal = Journal::new(alloc);
    journal.push(Deed::Create(name_log(alloc, job.name())?))?;
    let mut mouth = Mouth::new(alloc, job)?;
    let mut errors = 0;
    let end = match go_to_end(
        alloc,
        budget,
        &mut mouth,
        &mut errors,
        &mut journal,
        tree,
        terminal,
    ) {
        Ok(end) => end,
        Err(fault) => return Err(fault),
    };
    let ending = finish(end, &mut journal, tree, terminal)?;
    Ok(ending)
}

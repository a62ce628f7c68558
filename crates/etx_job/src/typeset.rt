//! The top call.
ghost use Rattle.std.specs.Prelude.{◌≡◌, ◌≤◌, ◌++◌, ◌⊎◌, ℕ, List, IsNone, MatchOption, map, take, string_bytes};
ghost use Rattle.etx_outside.specs.Faults.{Rose};
ghost use Rattle.etx_outside.specs.Entries.{History, files_after, asked_in, said};
ghost use Rattle.etx_outside.specs.Outside.{outside_of, faults_of, NoneFell};
ghost use Rattle.etx_job.specs.Meaning.{Meaning, IsMeaning, IsMeaningOfJob, IsEnding, IsRefusal, NoneRose, AtAsk, status_of, start_of, usage_line};
ghost use Rattle.etx_job.specs.Words.{job_asked};

use crate::driver::{Ending, run};
use crate::fault::Fault;
use crate::words::find_job;
use etx_matter::{End, Job, Status};
use etx_outside::{TermFault, Terminal, Tree};
use std::alloc::Global;

/// Says how the program is called.
fn say_usage<T: Terminal>(alloc: Global, terminal: &mut T) -> Status
    ensures said { result ≡ Status.Usage → T.tells → T.text terminal.new ≡ T.text terminal.old ++ usage_line }
    ensures front { T.tells → (n : ℕ) × (T.text terminal.new ≡ T.text terminal.old ++ take n usage_line) }
    ensures refusal { IsRefusal result }
    ensures write_cause { result ≡ Status.WriteFault → Rose (T.faults terminal.old) (T.faults terminal.new) }
    ensures later { T.faults terminal.old ≤ T.faults terminal.new }
    ensures steady { result ≡ Status.Usage → T.counts_only_faults → T.faults terminal.new ≡ T.faults terminal.old }
{
    let line = b"usage: etx run|alone [--workers N] [--steps N] FILE, etx gen N\n";
    match terminal.say(alloc, line) {
        Ok(()) => Status::Usage,
        Err(TermFault::Failed) => Status::WriteFault,
        Err(TermFault::OutOfMemory) => Status::OutOfMemory,
    }
}

/// The answer for an end.
fn find_status(ending: Ending) -> Status
    ensures status { result ≡ status_of ending.end ending.has_erred }
    ensures ends { IsEnding result }
    ensures no_usage { result ≡ Status.Usage → ⊥ }
{
    match ending.end {
        End::Ended => {
            if ending.has_erred {
                Status::Errors
            } else {
                Status::Clean
            }
        }
        End::Spent => Status::Spent,
        End::Fatal(_) | End::Hundred | End::Capacity(_) | End::Unbuilt => Status::Stopped,
    }
}

/// Typesets a job.
fn typeset_job<F: Tree, T: Terminal>(
    alloc: Global,
    job: Job,
    tree: &mut F,
    terminal: &mut T,
) -> Status
    ensures whole { IsEnding result → F.tells → T.tells → (m : Meaning) × IsMeaningOfJob (start_of job (F.files tree.old)) m
        × (result ≡ m.status)
        × (F.files tree.new ≡ files_after m.history (F.files tree.old))
        × (F.asked tree.new ≡ F.asked tree.old ++ asked_in m.history)
        × (T.text terminal.new ≡ T.text terminal.old ++ said m.history) }
    ensures front { F.tells → T.tells → (m : Meaning) × IsMeaningOfJob (start_of job (F.files tree.old)) m
        × ((h : History) × (rest : History) × (h ++ rest ≡ m.history)
        × (F.files tree.new ≡ files_after h (F.files tree.old))
        × (F.asked tree.new ≡ F.asked tree.old ++ asked_in h)
        × (T.text terminal.new ≡ T.text terminal.old ++ said h)) }
    ensures read_at { result ≡ Status.ReadFault → F.tells → T.tells → AtAsk (start_of job (F.files tree.old))
        (outside_of F.files F.asked T.text tree.old terminal.old) (outside_of F.files F.asked T.text tree.new terminal.new) }
    ensures no_usage { result ≡ Status.Usage → ⊥ }
    ensures read_cause { result ≡ Status.ReadFault → Rose (F.faults tree.old).reads (F.faults tree.new).reads }
    ensures write_cause { result ≡ Status.WriteFault →
        Rose (F.faults tree.old).writes (F.faults tree.new).writes ⊎ Rose (T.faults terminal.old) (T.faults terminal.new) }
    ensures complete { NoneRose (faults_of F.faults T.faults tree.old terminal.old) (faults_of F.faults T.faults tree.new terminal.new) →
        IsEnding result ⊎ (result ≡ Status.OutOfMemory) }
    ensures later { NoneFell (faults_of F.faults T.faults tree.old terminal.old) (faults_of F.faults T.faults tree.new terminal.new) }
    ensures steady { IsEnding result → F.counts_only_faults → T.counts_only_faults → faults_of F.faults T.faults tree.new terminal.new ≡ faults_of F.faults T.faults tree.old terminal.old }
{
    match run(alloc, job, tree, terminal) {
        Ok(ending) => find_status(ending),
        Err(Fault::ReadFault) => Status::ReadFault,
        Err(Fault::WriteFault) => Status::WriteFault,
        Err(Fault::OutOfMemory) => Status::OutOfMemory,
    }
}

/// Typesets a job on one thread: `words` are those of the command line behind the program's name.
///
/// **The equivalence theorem.** Where the tree and the terminal tell what they hold, as those in memory do, and whatever
/// they answer, a call that answers neither a fault nor want of memory has read what the job reads, and what it wrote,
/// what it said and what it answers are those of the plain meaning of its words. After any other answer, some first
/// entries of that meaning's history were written, and nothing else: all files and the terminal are cut at the same
/// entry. The call returns, whatever the words and the files are.
///
/// `Usage` comes exactly where the words are of no known form, and then no call of the tree is made. `ReadFault` and
/// `WriteFault` come only where the count of such faults rose in this call. Only want of memory has no cause here. So
/// where no count rose, the answer is the meaning's status with its whole history, or `OutOfMemory`.
///
/// The words are `alone`, the name of a file, and at most once `--steps N` or `--steps=N`, before or behind the name: the steps
/// that the job may take, of one to thirteen decimal digits, from 1 to 2^40; 100000000 where they aren't given. `.tex` is added to
/// a name without a full stop. The log has the file's name up to its last full stop, and `.log`. It is created before the file is read, so a file whose own name ends in
/// `.log` is emptied first.
pub fn typeset_alone<F: Tree, T: Terminal>(
    alloc: Global,
    words: &[String],
    tree: &mut F,
    terminal: &mut T,
) -> Status
    // Neither a fault nor want of memory: the status, the files, the names asked and the text are those of the meaning.
    ensures whole { IsEnding result → F.tells → T.tells → (m : Meaning) × IsMeaning (map string_bytes words.now) (F.files tree.old) m
        × (result ≡ m.status)
        × (F.files tree.new ≡ files_after m.history (F.files tree.old))
        × (F.asked tree.new ≡ F.asked tree.old ++ asked_in m.history)
        × (T.text terminal.new ≡ T.text terminal.old ++ said m.history) }

    // Any answer: some first entries of the meaning's history, and no other.
    ensures front { F.tells → T.tells → (m : Meaning) × IsMeaning (map string_bytes words.now) (F.files tree.old) m
        × ((h : History) × (rest : History) × (h ++ rest ≡ m.history)
        × (F.files tree.new ≡ files_after h (F.files tree.old))
        × (F.asked tree.new ≡ F.asked tree.old ++ asked_in h)
        × (T.text terminal.new ≡ T.text terminal.old ++ said h)) }

    // A fault at a read: all that a world of the chain has done, and then the name asked for that its next step asks for.
    ensures read_at { result ≡ Status.ReadFault → F.tells → T.tells → MatchOption (job_asked (map string_bytes words.now)) ⊥
        (λ job. AtAsk (start_of job (F.files tree.old)) (outside_of F.files F.asked T.text tree.old terminal.old) (outside_of F.files F.asked T.text tree.new terminal.new)) }

    // Words of no known form: no call of the tree, and no answer but these.
    ensures usage { result ≡ Status.Usage → IsNone (job_asked (map string_bytes words.now)) }
    ensures untouched { IsNone (job_asked (map string_bytes words.now)) → tree.new ≡ tree.old }
    ensures refused { IsNone (job_asked (map string_bytes words.now)) → IsRefusal result }
    ensures read_cause { result ≡ Status.ReadFault → Rose (F.faults tree.old).reads (F.faults tree.new).reads }
    ensures write_cause { result ≡ Status.WriteFault →
        Rose (F.faults tree.old).writes (F.faults tree.new).writes ⊎ Rose (T.faults terminal.old) (T.faults terminal.new) }
    ensures complete { NoneRose (faults_of F.faults T.faults tree.old terminal.old) (faults_of F.faults T.faults tree.new terminal.new) →
        IsEnding result ⊎ (result ≡ Status.OutOfMemory) }
    ensures later { NoneFell (faults_of F.faults T.faults tree.old terminal.old) (faults_of F.faults T.faults tree.new terminal.new) }
    ensures steady { IsEnding result → F.counts_only_faults → T.counts_only_faults → faults_of F.faults T.faults tree.new terminal.new ≡ faults_of F.faults T.faults tree.old terminal.old }
{
    match find_job(alloc, words) {
        Ok(None) => say_usage(alloc, terminal),
        Ok(Some(job)) => typeset_job(alloc, job, tree, terminal),
        Err(_) => Status::OutOfMemory,
    }
}

//! `etx`: e-TeX, version 2, run as INITEX, whose output is proved.
//!
//! `main` hands the words of the system, the real folder and the real terminal to [`answer`], whose contract says what comes
//! out over any folder and any terminal.
#![tactic(auto)]

ghost use Rattle.std.specs.Prelude.{◌≡◌, ◌<◌, ◌++◌, ◌⊎◌, List, IfOk, IsNone, drop};
ghost use Rattle.std.specs.Process.{exit_status};
ghost use Rattle.std.specs.Vec.Iter.{into_iter_items};
ghost use Rattle.etx_matter.specs.Ends.{exit_status_of};
ghost use Rattle.etx_outside.specs.Faults.{Rose};
ghost use Rattle.etx_outside.specs.Entries.{History, files_after, asked_in, said};
ghost use Rattle.etx_outside.specs.Outside.{faults_of, NoneFell};
ghost use Rattle.etx_job.specs.Meaning.{Meaning, IsMeaning, NoneRose};
ghost use Rattle.etx_job.specs.Words.{job_asked};
ghost use Rattle.etx.specs.Words.{behind_name, words_of};

use etx_job::typeset_alone;
use etx_matter::Status;
use etx_outside::{RealTerminal, RealTree, Terminal, Tree};
use std::alloc::{AllocError, Global};
use std::env::Args;
use std::process::ExitCode;
use std::{env, io};

/// The words behind the program's name, which comes first.
fn collect_behind(alloc: Global, mut args: Args) -> Result<Vec<String>, AllocError>
    ensures { IfOk result (λ words. words.items ≡ drop 1 (into_iter_items args)) }
{
    let mut words = Vec::new(alloc);
    let _ = args.next();
    'each: while let Some(word) = args.next() {
        words.push(word)?;
    }
    Ok(words)
}

/// The words behind the program's name. There are none, and so they are of no known form, where one can't be read as text.
fn words_behind(alloc: Global, args: io::Result<Args>) -> Result<Vec<String>, AllocError>
    ensures { IfOk result (λ words. words.items ≡ behind_name args) }
{
    match args {
        Ok(args) => collect_behind(alloc, args),
        Err(error) => match error.kind() {
            io::ErrorKind::OutOfMemory => Err(AllocError),
            _ => Ok(Vec::new(alloc)),
        },
    }
}

fn exit_code(status: Status) -> ExitCode
    ensures { exit_status result ≡ exit_status_of status }
{
    ExitCode::from(status.exit_status())
}

/// Typesets what the words behind the program's name ask for, and answers the exit status: 0 to 4 say how the job ended, 5 is
/// a fault at a read, 6 a fault at a write, 7 want of memory.
fn answer<F: Tree, T: Terminal>(
    alloc: Global,
    args: io::Result<Args>,
    tree: &mut F,
    terminal: &mut T,
) -> ExitCode
    // Neither a fault nor want of memory: the exit status is that of the meaning's status, and all that the meaning writes was written.
    ensures whole { exit_status result < 5 → F.tells → T.tells → (m : Meaning) × IsMeaning (words_of args) (F.files tree.old) m
        × (exit_status result ≡ exit_status_of m.status)
        × (F.files tree.new ≡ files_after m.history (F.files tree.old))
        × (F.asked tree.new ≡ F.asked tree.old ++ asked_in m.history)
        × (T.text terminal.new ≡ T.text terminal.old ++ said m.history) }

    // Any answer: some first entries of the meaning's history, and no other.
    ensures front { F.tells → T.tells → (m : Meaning) × IsMeaning (words_of args) (F.files tree.old) m
        × ((h : History) × (rest : History) × (h ++ rest ≡ m.history)
        × (F.files tree.new ≡ files_after h (F.files tree.old))
        × (F.asked tree.new ≡ F.asked tree.old ++ asked_in h)
        × (T.text terminal.new ≡ T.text terminal.old ++ said h)) }
    ensures usage { exit_status result ≡ 4 → IsNone (job_asked (words_of args)) }
    ensures untouched { IsNone (job_asked (words_of args)) → tree.new ≡ tree.old }
    ensures read_cause { exit_status result ≡ 5 → Rose (F.faults tree.old).reads (F.faults tree.new).reads }
    ensures write_cause { exit_status result ≡ 6 →
        Rose (F.faults tree.old).writes (F.faults tree.new).writes ⊎ Rose (T.faults terminal.old) (T.faults terminal.new) }
    ensures complete { NoneRose (faults_of F.faults T.faults tree.old terminal.old) (faults_of F.faults T.faults tree.new terminal.new) →
        (exit_status result < 5) ⊎ (exit_status result ≡ 7) }
    ensures later { NoneFell (faults_of F.faults T.faults tree.old terminal.old) (faults_of F.faults T.faults tree.new terminal.new) }
    ensures steady { exit_status result < 5 → F.counts_only_faults → T.counts_only_faults → faults_of F.faults T.faults tree.new terminal.new ≡ faults_of F.faults T.faults tree.old terminal.old }
{
    match words_behind(alloc, args) {
        Ok(words) => exit_code(typeset_alone(alloc, &words, tree, terminal)),
        Err(_) => exit_code(Status::OutOfMemory),
    }
}

fn main(rt: HostRuntime) -> ExitCode {
    answer(
        rt.alloc(),
        env::args(&rt),
        &mut RealTree::new(&rt),
        &mut RealTerminal::new(&rt),
    )
}

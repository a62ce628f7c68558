//! Jobs over a tree and a terminal in memory: the worked rows, and what calls that fail leave behind. All other jobs are run
//! by the program that is built: tests/jobs, at the top of the repository.
use etx_job::typeset_alone;
use etx_matter::Status;
use etx_outside::{MemTerminal, MemTree};
use std::alloc::{AllocError, Global};
use std::test::Fail;

/// What a call left behind.
#[derive(Drop)]
struct Left {
    status: Status,
    tree: MemTree,
    terminal: MemTerminal,
}

fn words_of(alloc: Global, words: &[&str]) -> Result<Vec<String>, AllocError> {
    let mut all = Vec::new(alloc);
    for word in words {
        all.push(String::from_str(alloc, *word)?)?;
    }
    Ok(all)
}

/// Calls over a folder that holds `job.tex` alone, with these calls of the tree and of the terminal failing.
fn call_failing(
    alloc: Global,
    words: &[&str],
    source: &[u8],
    of_tree: &[u64],
    of_terminal: &[u64],
) -> Result<Left, AllocError> {
    let words = words_of(alloc, words)?;
    let files = vec![in alloc; (b"job.tex".to_vec(alloc)?, source.to_vec(alloc)?)]?;
    let mut tree = MemTree::new(alloc, files, of_tree.to_vec(alloc)?)?;
    let mut terminal = MemTerminal::new(alloc, of_terminal.to_vec(alloc)?)?;
    let status = typeset_alone(alloc, &words, &mut tree, &mut terminal);
    Ok(Left {
        status,
        tree,
        terminal,
    })
}

/// Calls over a folder that holds `job.tex` alone.
fn call(alloc: Global, words: &[&str], source: &[u8]) -> Result<Left, AllocError> {
    call_failing(alloc, words, source, &[], &[])
}

impl Left {
    fn has_file(&self, name: &[u8], content: &[u8]) -> bool {
        match self.tree.file(name) {
            Some(bytes) => bytes == content,
            None => false,
        }
    }

    /// Whether the answer, the log and the terminal are these.
    fn is(&self, status: Status, log: &[u8], transcript: &[u8]) -> bool {
        self.status == status
            && self.has_file(log, transcript)
            && self.terminal.text() == transcript
    }
}

const NO_PAGES: &[u8] = b"No pages of output.\n";

/// The source of a job, how it ends, and what it says.
type Row = (&'static [u8], Status, &'static [u8]);

const JOBS: &[Row] = &[
    (br"\end", Status::Clean, NO_PAGES),
    (
        b"\\catcode`\\{=1 \\catcode`\\}=2\n\\edef\\a{\\noexpand\\b}\\def\\b{y}\\message{\\a}\\message{z}\\end",
        Status::Clean,
        b"y z\nNo pages of output.\n",
    ),
    (
        b"\\catcode`\\{=1 \\catcode`\\}=2\n\\endgroup\\message{x}\\end",
        Status::Errors,
        b"! Extra \\endgroup.\nl.2\nx\nNo pages of output.\n",
    ),
    (
        b"\\relax\r\n% the last line",
        Status::Stopped,
        b"! Emergency stop.\nl.2\n*** (job aborted, no legal \\end found)\nNo pages of output.\n",
    ),
];

/// Whether the job of a row ends so, says this, asks for its main file alone, and writes no pages.
fn is_right(alloc: Global, row: &Row) -> Result<bool, AllocError> {
    let (source, status, transcript) = *row;
    let left = call(alloc, &["alone", "job"], source)?;
    let is_asked = match left.tree.names_asked() {
        [name] => name.as_slice() == b"job.tex".as_slice(),
        _ => false,
    };
    Ok(is_asked && left.is(status, b"job.log", transcript) && left.tree.file(b"job.dvi").is_none())
}

#[test]
fn a_job_ends_so_and_says_this(rt: HostRuntime) -> Result<(), Fail> {
    let alloc = rt.alloc();
    for (number, row) in JOBS.iter().enumerate() {
        assert!(rt; is_right(alloc, row)?, "row {number}");
    }
    Ok(())
}

const TOO_LONG: &[u8] =
    b"! Emergency stop.\nl.0\n*** (job aborted, file error in nonstop mode)\nNo pages of output.\n";

#[test]
fn a_source_may_be_too_long(rt: HostRuntime) -> Result<(), Fail> {
    let alloc = rt.alloc();
    let long = vec![in alloc; b'%'; 16_777_217]?;
    let refused = call(alloc, &["alone", "job"], &long)?;
    assert!(rt; refused.is(Status::Stopped, b"job.log", TOO_LONG));
    Ok(())
}

const USAGE: &[u8] = b"usage: etx run|alone [--workers N] [--steps N] FILE, etx gen N\n";

#[test]
fn other_words_get_the_usage(rt: HostRuntime) -> Result<(), Fail> {
    let alloc = rt.alloc();
    let refused = call(alloc, &["alone"], b"\\end")?;
    assert!(rt; refused.status == Status::Usage);
    assert!(rt; refused.terminal.text() == USAGE);
    assert!(rt; refused.tree.calls() == 0);
    let unsaid = call_failing(alloc, &["alone"], b"\\end", &[], &[1])?;
    assert!(rt; unsaid.status == Status::WriteFault);
    assert!(rt; unsaid.tree.calls() == 0);
    Ok(())
}

const NO_STEPS_LEFT: &[u8] = b"*** (step budget spent)\nNo pages of output.\n";

#[test]
fn a_budget_is_spent_where_the_next_step_would_pass_it(rt: HostRuntime) -> Result<(), Fail> {
    let alloc = rt.alloc();
    let three = br"\relax\par \end".as_slice();
    let enough = call(alloc, &["alone", "job", "--steps=3"], three)?;
    assert!(rt; enough.is(Status::Clean, b"job.log", NO_PAGES));
    let spent = call(alloc, &["alone", "--steps", "2", "job"], three)?;
    assert!(rt; spent.is(Status::Spent, b"job.log", NO_STEPS_LEFT));
    Ok(())
}

#[test]
fn a_failing_call_cuts_the_history(rt: HostRuntime) -> Result<(), Fail> {
    let alloc = rt.alloc();
    let words = ["alone", "job"].as_slice();
    let uncreated = call_failing(alloc, words, b"\\end", &[1], &[])?;
    assert!(rt; uncreated.status == Status::WriteFault);
    assert!(rt; uncreated.tree.file(b"job.log").is_none());
    assert!(rt; uncreated.terminal.text().is_empty());
    let unread = call_failing(alloc, words, b"\\end", &[2], &[])?;
    assert!(rt; unread.is(Status::ReadFault, b"job.log", b""));
    let half = call_failing(alloc, words, b"\\end", &[3], &[])?;
    assert!(rt; half.status == Status::WriteFault);
    assert!(rt; half.has_file(b"job.log", b"No pages o"));
    assert!(rt; half.terminal.text().is_empty());
    let untold = call_failing(alloc, words, b"\\end", &[], &[1])?;
    assert!(rt; untold.status == Status::WriteFault);
    assert!(rt; untold.has_file(b"job.log", NO_PAGES));
    assert!(rt; untold.terminal.text() == b"No pages o".as_slice());
    for unreached in [2, 3] {
        let whole = call_failing(alloc, words, b"\\end", &[], &[unreached])?;
        assert!(rt; whole.is(Status::Clean, b"job.log", NO_PAGES));
    }
    Ok(())
}

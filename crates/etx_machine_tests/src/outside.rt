use etx_outside::names::{is_good, job_name, with_extension};
use etx_outside::{
    LONGEST_FILE, Loaded, MemTerminal, MemTree, RealTerminal, RealTree, TermFault, Terminal, Tree,
    TreeFault,
};
use std::alloc::{AllocError, Global};
use std::fs;
use std::process::Abort;
use std::test::Fail;

fn file(alloc: Global, name: &[u8], content: &[u8]) -> Result<(Vec<u8>, Vec<u8>), AllocError> {
    Ok((name.to_vec(alloc)?, content.to_vec(alloc)?))
}

fn loads(loaded: &Result<Loaded, TreeFault>, content: &[u8]) -> bool {
    match loaded {
        Ok(Loaded::Bytes(bytes)) => bytes.as_slice() == content,
        _ => false,
    }
}

fn is_absent(loaded: &Result<Loaded, TreeFault>) -> bool {
    matches!(loaded, Ok(Loaded::Absent))
}

fn is_failed(loaded: &Result<Loaded, TreeFault>) -> bool {
    matches!(loaded, Err(TreeFault::Failed))
}

fn holds(tree: &MemTree, name: &[u8], content: &[u8]) -> bool {
    match tree.file(name) {
        None => false,
        Some(bytes) => bytes == content,
    }
}

/// Adds to a file that is there.
fn append(
    alloc: Global,
    tree: &mut MemTree,
    name: &[u8],
    bytes: &[u8],
) -> Option<Result<(), TreeFault>> {
    match tree.file(name) {
        None => None,
        Some(_) => Some(tree.append(alloc, name, bytes)),
    }
}

fn assert_counts(rt: &impl Abort, tree: &MemTree, calls: u64, reads: u64, writes: u64) {
    assert!(rt; tree.calls() == calls);
    assert!(rt; tree.read_faults() == reads);
    assert!(rt; tree.write_faults() == writes);
}

#[test]
fn of_two_files_with_one_name_the_last_counts(rt: HostRuntime) -> Result<(), Fail> {
    let alloc = rt.alloc();
    let files = vec![in alloc;
        file(alloc, b"a", b"x")?,
        file(alloc, b"b", b"y")?,
        file(alloc, b"a", b"z")?,
    ]?;
    let mut tree = MemTree::new(alloc, files, Vec::new(alloc))?;
    assert!(rt; holds(&tree, b"a", b"z"));
    assert!(rt; loads(&tree.load(alloc, b"a"), b"z"));
    assert!(rt; loads(&tree.load(alloc, b"b"), b"y"));
    assert!(rt; is_absent(&tree.load(alloc, b"c")));
    assert!(rt; tree.file(b"c").is_none());
    assert_counts(&rt, &tree, 3, 0, 0);
    Ok(())
}

#[test]
fn a_failed_load_asks_for_its_name(rt: HostRuntime) -> Result<(), Fail> {
    let alloc = rt.alloc();
    let mut tree = MemTree::new(alloc, Vec::new(alloc), vec![in alloc; 1]?)?;
    assert!(rt; is_failed(&tree.load(alloc, b"log")));
    assert!(rt; tree.names_asked().len() == 1);
    assert!(rt; tree.names_asked()[0].as_slice() == b"log".as_slice());
    assert_counts(&rt, &tree, 1, 1, 0);
    Ok(())
}

#[test]
fn calls_whose_numbers_are_listed_fail(rt: HostRuntime) -> Result<(), Fail> {
    let alloc = rt.alloc();
    let files = vec![in alloc; file(alloc, b"log", b"old")?]?;
    let mut tree = MemTree::new(alloc, files, vec![in alloc; 1, 2]?)?;
    assert!(rt; tree.create(alloc, b"log") == Err(TreeFault::Failed));
    assert!(rt; append(alloc, &mut tree, b"log", b"abcde") == Some(Err(TreeFault::Failed)));
    assert!(rt; holds(&tree, b"log", b"oldab"));
    assert!(rt; append(alloc, &mut tree, b"log", b"fg") == Some(Ok(())));
    assert!(rt; holds(&tree, b"log", b"oldabfg"));
    assert!(rt; tree.create(alloc, b"log") == Ok(()));
    assert!(rt; holds(&tree, b"log", b""));
    assert_counts(&rt, &tree, 4, 0, 2);
    Ok(())
}

#[test]
fn a_failing_say_keeps_half(rt: HostRuntime) -> Result<(), Fail> {
    let alloc = rt.alloc();
    let mut terminal = MemTerminal::new(alloc, vec![in alloc; 2]?)?;
    assert!(rt; terminal.say(alloc, b"abc") == Ok(()));
    assert!(rt; terminal.say(alloc, b"defgh") == Err(TermFault::Failed));
    assert!(rt; terminal.say(alloc, b"i") == Ok(()));
    assert!(rt; terminal.text() == b"abcdei".as_slice());
    assert!(rt; terminal.calls() == 3);
    assert!(rt; terminal.faults() == 1);
    Ok(())
}

#[test]
fn the_longest_file_is_loaded(rt: HostRuntime) -> Result<(), Fail> {
    let alloc = rt.alloc();
    let longest = vec![in alloc; b'x'; LONGEST_FILE]?;
    let longer = vec![in alloc; b'x'; LONGEST_FILE + 1]?;
    let files = vec![in alloc;
        (b"a".to_vec(alloc)?, longest),
        (b"b".to_vec(alloc)?, longer),
    ]?;
    let mut tree = MemTree::new(alloc, files, Vec::new(alloc))?;
    match tree.load(alloc, b"a") {
        Ok(Loaded::Bytes(bytes)) => assert!(rt; bytes.len() == 16_777_216),
        _ => panic!(rt; "no bytes"),
    }
    assert!(rt; matches!(tree.load(alloc, b"b"), Ok(Loaded::TooLong)));
    Ok(())
}

#[test]
fn names_are_good_or_not(rt: HostRuntime) -> Result<(), Fail> {
    let long = vec![in rt.alloc(); b'~'; 201]?;
    for name in [b"job".as_slice(), b"...", b"!", b"a.b~", &long[..200]] {
        assert!(rt; is_good(name));
    }
    for name in [b"".as_slice(), b".", b"..", b"a/b", b"a b", b"\x7f", &long] {
        assert!(rt; !is_good(name));
    }
    Ok(())
}

#[test]
fn names_have_extensions_and_jobs(rt: HostRuntime) -> Result<(), Fail> {
    let alloc = rt.alloc();
    for (name, whole, job) in [
        (
            b"story".as_slice(),
            b"story.tex".as_slice(),
            b"story".as_slice(),
        ),
        (b"a.b.tex", b"a.b.tex", b"a.b"),
        (b".tex", b".tex", b""),
        (b"a.", b"a.", b"a"),
        (b"", b".tex", b""),
    ] {
        assert!(rt; with_extension(alloc, name, b".tex")?.as_slice() == whole);
        assert!(rt; job_name(name) == job);
    }
    Ok(())
}

#[test]
fn the_current_folder_is_a_tree(rt: HostRuntime) -> Result<(), Fail> {
    let alloc = rt.alloc();
    let name = b"etx_outside_test.tmp".as_slice();
    let mut tree = RealTree::new(&rt);
    assert!(rt; tree.append(alloc, b"etx_outside_none.tmp", b"a") == Err(TreeFault::Failed));
    assert!(rt; is_absent(&tree.load(alloc, b"etx_outside_none.tmp")));
    assert!(rt; is_failed(&tree.load(alloc, b".")));
    assert!(rt; tree.create(alloc, name) == Ok(()));
    assert!(rt; tree.append(alloc, name, b"one ") == Ok(()));
    assert!(rt; tree.append(alloc, name, b"two") == Ok(()));
    let loaded = tree.load(alloc, name);
    assert!(rt; tree.create(alloc, name) == Ok(()));
    let emptied = tree.load(alloc, name);
    fs::remove_file(&rt, "etx_outside_test.tmp")?;
    assert!(rt; loads(&loaded, b"one two"));
    assert!(rt; loads(&emptied, b""));
    assert!(rt; tree.read_faults() == 1);
    assert!(rt; tree.write_faults() == 1);
    Ok(())
}

#[test]
fn standard_output_is_a_terminal(rt: HostRuntime) {
    let mut terminal = RealTerminal::new(&rt);
    assert!(rt; terminal.say(rt.alloc(), b"said\n") == Ok(()));
    assert!(rt; terminal.faults() == 0);
}

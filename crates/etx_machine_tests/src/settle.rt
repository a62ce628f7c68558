ghost use Rattle.std.specs.Prelude.{◌≡◌, IfOk};
ghost use Rattle.etx_settle.specs.Deeds.{first_pen};

use etx_lists::Bytes;
use etx_matter::{Audience, Deed};
use etx_outside::{MemTerminal, MemTree};
use etx_settle::{FlushFault, Journal};
use std::alloc::{AllocError, Global};
use std::test::Fail;

/// The creation of `j.log`, a text for both, one for the log alone, and an error.
fn journal_of_four(alloc: Global) -> Result<Journal, AllocError>
    ensures { IfOk result (λ journal. journal.pen ≡ first_pen) }
{
    let mut journal = Journal::new(alloc);
    journal.push(Deed::Create(Bytes::from_slice(alloc, b"j.log")?))?;
    journal.push(Deed::Text {
        bytes: Bytes::from_slice(alloc, b"a")?,
        audience: Audience::LogAndTerminal,
    })?;
    journal.push(Deed::Text {
        bytes: Bytes::from_slice(alloc, b"b")?,
        audience: Audience::Log,
    })?;
    journal.push(Deed::Space(Audience::LogAndTerminal))?;
    journal.push(Deed::Error {
        text: Bytes::from_slice(alloc, b"Oops")?,
        line: 12,
        audience: Audience::LogAndTerminal,
    })?;
    journal.push(Deed::Fresh(Audience::LogAndTerminal))?;
    Ok(journal)
}

fn holds(tree: &MemTree, content: &[u8]) -> bool {
    match tree.file(b"j.log") {
        Some(bytes) => bytes == content,
        None => false,
    }
}

#[test]
fn deeds_are_written_in_order(rt: HostRuntime) -> Result<(), Fail> {
    let alloc = rt.alloc();
    let mut tree = MemTree::new(alloc, Vec::new(alloc), Vec::new(alloc))?;
    let mut terminal = MemTerminal::new(alloc, Vec::new(alloc))?;
    let mut journal = journal_of_four(alloc)?;
    assert!(rt; journal.flush(&mut tree, &mut terminal) == Ok(()));
    assert!(rt; holds(&tree, b"ab \n! Oops.\nl.12\n"));
    assert!(rt; terminal.text() == b"a \n! Oops.\nl.12\n".as_slice());
    assert!(rt; journal.has_erred());
    Ok(())
}

#[test]
fn a_fault_leaves_what_came_before(rt: HostRuntime) -> Result<(), Fail> {
    let alloc = rt.alloc();
    let mut tree = MemTree::new(alloc, Vec::new(alloc), Vec::new(alloc))?;
    let mut terminal = MemTerminal::new(alloc, vec![in alloc; 3]?)?;
    let mut journal = journal_of_four(alloc)?;
    assert!(rt; journal.flush(&mut tree, &mut terminal) == Err(FlushFault::WriteFault));
    assert!(rt; holds(&tree, b"ab \n! Oops.\nl.12\n"));
    assert!(rt; terminal.text() == b"a \n! Oops".as_slice());
    Ok(())
}

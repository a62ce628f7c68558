//! Words with hyphens, with ample memory.
use etx_hyphen::{hyphenated, rebuild};
use etx_matter::Nodes;
use etx_patterns::{PatternRefused, Patterns, Step};
use etx_texts::{Item, Setup, glue, initex, is_char, is_disc, sealed, small};
use etx_tfm::FontFault;
use std::alloc::Global;
use std::test::Fail;

/// The pattern `f1i`.
fn f1i(alloc: Global) -> Result<Patterns, PatternRefused> {
    let mut tables = Patterns::new(alloc)?;
    tables.add(0, &[Step::Letter(b'f'), Step::Digit(1), Step::Letter(b'i')])?;
    Ok(tables)
}

/// The paragraph `\hskip0pt afib` with its hyphens: the glue, the word, a penalty and a glue.
fn afib(alloc: Global, tables: Patterns, hyphen_char: i32) -> Result<Nodes, FontFault> {
    let items = [Item::Glue(glue(0)), Item::Run(b"afib")];
    let setup = Setup {
        hyphen_char,
        ..initex(0)
    };
    let sealed = sealed(alloc, &items, setup, tables)?;
    let nodes = hyphenated(alloc, sealed.get().list(), sealed.get().params())?;
    Ok(nodes)
}

#[test]
fn a_hyphen_in_a_ligature(rt: HostRuntime) -> Result<(), Fail> {
    let nodes = rebuild(rt.alloc(), b"afib", &[2], &small(rt.alloc())?, b'-')?;
    assert!(rt; nodes.len() == 4 && is_char(nodes.at(0), b'a'));
    assert!(rt; is_disc(nodes.at(1), b"f-", b"i", 1));
    assert!(rt; is_char(nodes.at(2), b'*') && is_char(nodes.at(3), b'b'));
    Ok(())
}

#[test]
fn a_hyphen_that_the_font_lacks(rt: HostRuntime) -> Result<(), Fail> {
    let nodes = rebuild(rt.alloc(), b"afib", &[1, 2], &small(rt.alloc())?, b'!')?;
    assert!(rt; nodes.len() == 5 && is_disc(nodes.at(1), b"", b"", 0));
    assert!(rt; is_disc(nodes.at(2), b"f", b"i", 1));
    Ok(())
}

#[test]
fn a_pattern_gives_a_hyphen(rt: HostRuntime) -> Result<(), Fail> {
    let nodes = afib(rt.alloc(), f1i(rt.alloc())?, i32::from(b'-'))?;
    assert!(rt; nodes.len() == 7 && is_disc(nodes.at(2), b"f-", b"i", 1));
    Ok(())
}

#[test]
fn an_exception_wins(rt: HostRuntime) -> Result<(), Fail> {
    let mut tables = f1i(rt.alloc())?;
    tables.except(0, b"afib", &[1])?;
    let nodes = afib(rt.alloc(), tables, i32::from(b'-'))?;
    assert!(rt; nodes.len() == 7 && is_disc(nodes.at(2), b"-", b"", 0));
    assert!(rt; is_char(nodes.at(3), b'*'));
    Ok(())
}

#[test]
fn no_hyphen_char(rt: HostRuntime) -> Result<(), Fail> {
    let nodes = afib(rt.alloc(), f1i(rt.alloc())?, -1)?;
    assert!(rt; nodes.len() == 6);
    Ok(())
}

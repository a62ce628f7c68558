//! Sealed paragraphs, with ample memory.
use etx_lists::Listed;
use etx_matter::{Deed, Glue, GlueOrder, Node};
use etx_patterns::Patterns;
use etx_sealed::{Answer, Lines, ParParams, Sealed, SharedSealed};
use etx_texts::{Item, POINT, initex, sealed};
use etx_tfm::FontFault;
use etx_undo::StateMark;
use std::alloc::Global;
use std::test::Fail;

/// Whether values of a type may be handed to threads: only the bounds matter.
fn is_for_threads<T: Send + Sync>() -> bool {
    true
}

fn a_sealed_paragraph_may() -> bool {
    is_for_threads::<Sealed>()
}

fn a_shared_paragraph_may() -> bool {
    is_for_threads::<SharedSealed>()
}

fn parameters_may() -> bool {
    is_for_threads::<ParParams>()
}

fn an_answer_may() -> bool {
    is_for_threads::<Answer>()
}

fn a_node_may() -> bool {
    is_for_threads::<Node>()
}

fn lines_may() -> bool {
    is_for_threads::<Lines>()
}

fn deeds_may() -> bool {
    is_for_threads::<Listed<Deed>>()
}

fn a_mark_may() -> bool {
    is_for_threads::<StateMark>()
}

fn what_paragraphs_are_made_of_may() -> bool {
    a_sealed_paragraph_may() && a_shared_paragraph_may() && parameters_may()
}

fn what_is_handed_over_may() -> bool {
    an_answer_may() && a_node_may() && lines_may() && deeds_may() && a_mark_may()
}

#[test]
fn what_passes_between_threads_may(rt: HostRuntime) -> Result<(), Fail> {
    assert!(rt; what_paragraphs_are_made_of_may());
    assert!(rt; what_is_handed_over_may());
    Ok(())
}

/// The space of the small font.
const SPACE: Glue = Glue {
    width: 163_840,
    stretch: 81_920,
    shrink: 40_960,
    stretch_order: GlueOrder::Normal,
    shrink_order: GlueOrder::Normal,
};

/// Three words of two letters, each 5pt wide.
fn three_words(alloc: Global) -> Result<SharedSealed, FontFault> {
    let items = [
        Item::Run(b"ab"),
        Item::Glue(SPACE),
        Item::Run(b"ab"),
        Item::Glue(SPACE),
        Item::Run(b"ab"),
    ];
    sealed(alloc, &items, initex(23 * POINT), Patterns::new(alloc)?)
}

/// The list has two items more than the words and spaces. A paragraph that is shared is the same one.
#[test]
fn legal_breaks(rt: HostRuntime) -> Result<(), Fail> {
    let shared = three_words(rt.alloc())?.share()?;
    let breaks = shared.get().legal_breaks(rt.alloc())?;
    assert!(rt; breaks.as_slice() == [3, 6, 11].as_slice());
    Ok(())
}

/// Two words with the space between them, measured along the line and from stop to stop.
#[test]
fn measures(rt: HostRuntime) -> Result<(), Fail> {
    let shared = three_words(rt.alloc())?;
    let paragraph = shared.get();
    let stops = paragraph.stops(rt.alloc())?;
    assert!(rt; stops.len() == 4);
    assert!(rt; paragraph.measure(0, 6).natural == 1_474_560);
    assert!(rt; paragraph.measure(3, 11).natural == 1_474_560);
    assert!(rt; stops.get(2).is_some_and(|stop| stop.place() == 6));
    Ok(())
}

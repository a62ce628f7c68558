//! A word with its hyphens.
ghost use Rattle.std.specs.Prelude.{IfOk};
ghost use Rattle.etx_matter.specs.Nests.{AreNested};
ghost use Rattle.etx_hyphen.specs.Rebuilds.{IsRebuilt, no_ends};

use crate::cuts::{Unbroken, WordEnds};
use crate::parts::cut_at;
use crate::progress::Progress;
use etx_matter::{Font, Nodes};
use etx_tfm::{Neighbour, Reading, read_run};
use std::alloc::{AllocError, Global};

/// The nodes of a word between its neighbours, with a discretionary at each place that isn't dropped.
///
/// A place is a number of letters before a hyphen. Places rise, and stand between two letters of the word. Its
/// discretionary takes the place of the run of letters around it that the unbroken word or one of its two parts ties
/// together; the run ends where all of them can be cut. A place whose run overlaps the run of an earlier place that was
/// kept is dropped. The hyphen is the character of that code, and is left out where the font doesn't have it.
///
/// `ends` says what stands before and behind the word; no node is made of it. `Err` comes only where memory is wanting.
pub fn rebuild_between(
    alloc: Global,
    ends: WordEnds,
    word: &[u8],
    places: &[u8],
    font: &Font,
    hyphen: u8,
) -> Result<Nodes, AllocError>
    ensures rebuilt { IfOk result (λ nodes. IsRebuilt font.now hyphen ends word.now places.now nodes) }
    ensures nested { IfOk result (λ nodes. AreNested nodes) }
{
    let reading = read_run(alloc, font, word, ends.left, ends.right)?;
    let unbroken = Unbroken {
        letters: word.len(),
        nodes: reading.nodes.len(),
        places: reading.places,
    };
    let mut progress = Progress::new(alloc, reading.nodes);
    for place in places {
        let cut = cut_at(alloc, font, hyphen, ends, word, &unbroken, *place)?;
        progress.cut(alloc, cut)?;
    }
    let nodes = progress.finish(alloc)?;
    Ok(nodes)
}

/// The nodes of a word, as [`rebuild_between`] gives them: it is read alone, with neither a boundary nor a character beside
/// it. `Err` comes only where memory is wanting.
pub fn rebuild(
    alloc: Global,
    word: &[u8],
    places: &[u8],
    font: &Font,
    hyphen: u8,
) -> Result<Nodes, AllocError>
    ensures rebuilt { IfOk result (λ nodes. IsRebuilt font.now hyphen no_ends word.now places.now nodes) }
    ensures nested { IfOk result (λ nodes. AreNested nodes) }
{
    let ends = WordEnds {
        left: Neighbour::Nothing,
        right: Neighbour::Nothing,
    };
    rebuild_between(alloc, ends, word, places, font, hyphen)
}

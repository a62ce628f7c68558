//! The words of a paragraph's list.
ghost use Rattle.std.specs.Prelude.{IfOk};
ghost use Rattle.etx_matter.specs.Nests.{AreNested};
ghost use Rattle.etx_hyphen.specs.Hyphenations.{walk_start, behind_word, Hyphenates};
ghost use Rattle.std.specs.Prelude.{◌≡◌};

use crate::walk::{Before, Walk, walk_behind};
use crate::words::{behind, word_at};
use etx_matter::Nodes;
use etx_sealed::ParParams;
use std::alloc::{AllocError, Global};

fn walk_start(params: &ParParams) -> Walk
    ensures { result ≡ walk_start params.now }
{
    Walk {
        looking: false,
        formula: false,
        before: Before::Nothing,
        language: params.language,
        left: params.left,
        right: params.right,
    }
}

fn behind_word(walk: Walk) -> Walk
    ensures { result ≡ behind_word walk }
{
    Walk {
        looking: false,
        ..walk
    }
}

/// A paragraph's list with hyphens in its words. The list itself stays; the items that stay are copied.
///
/// A word follows glue that stands in no formula. A letter is a character whose `\lccode` is above 0; a word begins with one
/// that is its own `\lccode`, or, where `\uchyph` is positive, with any. Before it there may be characters that are no letters,
/// kerns of a font and whatsits; anything else, also a letter that begins no word, ends the search up to the next glue. A word
/// has at most 63 letters, all of one font that is among `params.fonts`; what isn't a character, a ligature or a kern of a font
/// ends it. It isn't touched where the first thing behind it that is none of these is a box, a rule, a discretionary or the
/// edge of a formula, or where its font's `\hyphenchar` is no code from 0 to 255.
///
/// Its places for hyphens are those of its exception, if it has one, or else of the patterns of its language. At least
/// `\lefthyphenmin` letters stand before each and `\righthyphenmin` behind it, both taken as 1 to 63. How it is rebuilt then,
/// [`crate::rebuild_between`] says; it is read between the characters of its font that stand beside it, or the boundary.
///
/// `Err` comes only where memory is wanting.
pub fn hyphenated(alloc: Global, list: &Nodes, params: &ParParams) -> Result<Nodes, AllocError>
    requires { AreNested list.now }
    ensures hyphenated { IfOk result (λ it. Hyphenates params.now (walk_start params.now) list.now it) }
    ensures nested { IfOk result (λ it. AreNested it) }
{
    let mut out = Nodes::with_room(alloc, list.len())?;
    let mut walk = walk_start(params);
    let mut rest = list.as_slice();
    while let Some((node, tail)) = rest.split_first() {
        match word_at(alloc, params, walk, rest)? {
            Some(word) => {
                out.append(word.nodes)?;
                walk = behind_word(walk);
                rest = behind(rest, word.count);
            }
            None => {
                out.push(node.copy(alloc)?)?;
                walk = walk_behind(params, walk, node);
                rest = tail;
            }
        }
    }
    Ok(out)
}

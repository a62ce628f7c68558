//! Where words are looked for.
ghost use Rattle.std.specs.Prelude.{◌≡◌};
ghost use Rattle.etx_hyphen.specs.Words.{passes_by, looks_behind, behind_kern, behind_what, behind_glue, searched_behind, before_of, walk_behind};

use crate::letters::{Opening, is_letter, opening_of};
use etx_matter::{KernKind, Node, What};
use etx_sealed::ParParams;

/// What stands directly before an item.
#[derive(Clone, Copy, Debug, PartialEq, Eq)]
pub enum Before {
    /// The beginning of the list, or an item that is neither a character nor a ligature.
    Nothing,
    /// A character or a ligature, as it is set.
    Character { font: u8, code: u8 },
}

/// What is known on the way along a paragraph's list.
#[derive(Clone, Copy, Debug, PartialEq, Eq)]
pub struct Walk {
    /// Whether a word may begin at the next item.
    pub looking: bool,
    /// Whether the next item stands in a formula.
    pub formula: bool,
    /// What stands before the next item.
    pub before: Before,
    pub language: u8,
    /// The least letters before a hyphen.
    pub left: u8,
    /// The least letters behind a hyphen.
    pub right: u8,
}

/// Whether an item that opens so is no letter.
fn passes_by(params: &ParParams, opening: Option<Opening>) -> bool
    ensures { result ≡ passes_by params.now opening }
{
    match opening {
        None => true,
        Some(opening) => !is_letter(params, opening.letter),
    }
}

impl Walk {
    fn looks_behind(self, passes: bool) -> Walk
        ensures { result ≡ looks_behind self passes }
    {
        Walk {
            looking: self.looking && passes,
            ..self
        }
    }

    fn behind_kern(self, kind: KernKind) -> Walk
        ensures { result ≡ behind_kern self kind }
    {
        match kind {
            KernKind::Normal => self,
            KernKind::Explicit | KernKind::Accent => Walk {
                looking: false,
                ..self
            },
        }
    }

    fn behind_what(self, what: &What) -> Walk
        ensures { result ≡ behind_what self what.now }
    {
        match what {
            What::Language {
                language,
                left,
                right,
            } => Walk {
                language: *language,
                left: *left,
                right: *right,
                ..self
            },
            _ => self,
        }
    }

    fn behind_glue(self) -> Walk
        ensures { result ≡ behind_glue self }
    {
        Walk {
            looking: !self.formula,
            ..self
        }
    }
}

/// What an item is to a word that begins behind it.
#[tactic(auto, unfolding(crate::specs::Words::before_of))]
fn before_of(node: &Node) -> Before
    ensures { result ≡ before_of node.now }
{
    match node {
        Node::Char { font, code, .. } | Node::Lig { font, code, .. } => Before::Character {
            font: *font,
            code: *code,
        },
        _ => Before::Nothing,
    }
}

/// The same as [`walk_behind`], but with what stood before the item.
#[tactic(auto, unfolding(crate::specs::Words::searched_behind, crate::specs::Words::opening_of))]
fn searched_behind(params: &ParParams, walk: Walk, node: &Node) -> Walk
    ensures { result ≡ searched_behind params.now walk node.now }
{
    match node {
        Node::Char { .. } | Node::Lig { .. } => {
            walk.looks_behind(passes_by(params, opening_of(node)))
        }
        Node::Kern { kind, .. } => walk.behind_kern(*kind),
        Node::Glue(_) | Node::Leaders { .. } => walk.behind_glue(),
        Node::What(what) => walk.behind_what(what.get()),
        Node::Math { on, .. } => Walk {
            looking: false,
            formula: *on,
            ..walk
        },
        _ => Walk {
            looking: false,
            ..walk
        },
    }
}

/// What is known behind an item that begins no word.
pub fn walk_behind(params: &ParParams, walk: Walk, node: &Node) -> Walk
    ensures { result ≡ walk_behind params.now walk node.now }
{
    Walk {
        before: before_of(node),
        ..searched_behind(params, walk, node)
    }
}

//! The letters of words.
ghost use Rattle.std.specs.Prelude.{◌≡◌, ◌≤◌, ◌<◌, ◌^◌, length, IfOk, OnOk};
ghost use Rattle.std.specs.List.{list_all};
ghost use Rattle.etx_hyphen.specs.Words.{lower_of, is_letter, begins_word, opening_by, opening_of, first_opening, edge_by, edge_font, nothing_gathered, with_letters, fits_word, taken_letters, taken_kern, taken, IsTaken, Grows, beside_by, beside, gathered, kern_ends, ends_word, may_follow};

use etx_lists::Bytes;
use etx_matter::{KernKind, LigParts, Node};
use etx_sealed::ParParams;
use etx_tfm::{Neighbour, boundary_if};
use std::alloc::{AllocError, Global};

/// The most letters that a word has.
const MOST_LETTERS: usize = 63;

/// The first letter for which an item stands, the number of its font, and whether the left boundary was part of it.
#[derive(Clone, Copy, Debug, PartialEq, Eq)]
pub struct Opening {
    pub font: u8,
    pub letter: u8,
    pub left: bool,
}

/// A word while it is gathered.
#[derive(Drop)]
pub struct Gathered {
    pub letters: Bytes,
    /// How many items it has.
    pub count: usize,
    /// What stands behind it.
    pub right: Neighbour,
}

/// `\lccode` of a character: 0 makes it no letter.
#[tactic(auto, unfolding(crate::specs::Words::lower_of))]
pub fn lower_of(params: &ParParams, code: u8) -> u8
    ensures { result ≡ lower_of params.now code }
{
    params.lccode.at(usize::from(code)).copied().unwrap_or(0)
}

pub fn is_letter(params: &ParParams, code: u8) -> bool
    ensures { result ≡ is_letter params.now code }
{
    lower_of(params, code) > 0
}

/// Whether a word may begin with this character.
#[tactic(auto, unfolding(crate::specs::Words::begins_word))]
pub fn begins_word(params: &ParParams, code: u8) -> bool
    ensures { result ≡ begins_word params.now code }
{
    is_letter(params, code) && (lower_of(params, code) == code || params.uchyph > 0)
}

/// The first letter of a ligature.
fn opening_by(font: u8, parts: &LigParts) -> Option<Opening>
    ensures { result ≡ opening_by font parts.now.left parts.now.letters }
{
    match parts.letters.as_slice() {
        [] => None,
        [letter, ..] => Some(Opening {
            font,
            letter: *letter,
            left: parts.left,
        }),
    }
}

/// The first letter for which an item stands.
#[tactic(auto, unfolding(crate::specs::Words::opening_of))]
pub fn opening_of(node: &Node) -> Option<Opening>
    ensures { result ≡ opening_of node.now }
{
    match node {
        Node::Char { font, code, .. } => Some(Opening {
            font: *font,
            letter: *code,
            left: false,
        }),
        Node::Lig { font, parts, .. } => opening_by(*font, parts.get()),
        _ => None,
    }
}

/// The first letter for which the first of these items stands.
pub fn first_opening(nodes: &[Node]) -> Option<Opening>
    ensures { result ≡ first_opening nodes.now }
{
    match nodes.split_first() {
        None => None,
        Some((node, _)) => opening_of(node),
    }
}

fn edge_by(font: u8, parts: &LigParts) -> Option<u8>
    ensures { result ≡ edge_by font parts.now.left parts.now.letters }
{
    match parts.letters.as_slice() {
        [] => { if parts.left { Some(font) } else { None } }
        [_, ..] => None,
    }
}

/// The font of a ligature that the boundary before a word made without a letter.
#[tactic(auto, unfolding(crate::specs::Words::edge_font))]
pub fn edge_font(node: &Node) -> Option<u8>
    ensures { result ≡ edge_font node.now }
{
    match node {
        Node::Lig { font, parts, .. } => edge_by(*font, parts.get()),
        _ => None,
    }
}

fn all_letters(params: &ParParams, letters: &[u8]) -> bool
    ensures { result ≡ list_all (is_letter params.now) letters.now }
{
    for letter in letters {
        if !is_letter(params, *letter) {
            return false;
        }
    }
    true
}

impl Gathered {
    fn none(alloc: Global) -> Gathered
        ensures { result ≡ nothing_gathered }
    {
        Gathered {
            letters: Bytes::new(alloc),
            count: 0,
            right: Neighbour::Nothing,
        }
    }
}

impl Gathered {
    /// Adds the next item, which has these letters, of which the right boundary was part or not.
    fn add(&mut self, letters: &[u8], right: bool) -> Result<(), AllocError>
        requires { self.old.count < 2 ^ 63 }
        ensures { OnOk result (self.new ≡ with_letters self.old letters.now right) }
    {
        self.letters.extend_from_slice(letters)?;
        self.count += 1;
        self.right = boundary_if(right);
        Ok(())
    }

    /// Whether these letters of a font can be added to a word in the font `wanted`.
    fn fits(&self, params: &ParParams, wanted: u8, font: u8, letters: &[u8]) -> bool
        ensures { result ≡ fits_word params.now wanted self.now font letters.now }
    {
        font == wanted
            && all_letters(params, letters)
            && self.letters.len() + letters.len() <= MOST_LETTERS
    }

    /// Adds a character or ligature, if its letters can be added.
    fn take_letters(
        &mut self,
        params: &ParParams,
        wanted: u8,
        font: u8,
        letters: &[u8],
        right: bool,
    ) -> Result<bool, AllocError>
        requires { self.old.count < 2 ^ 63 }
        ensures taken { IfOk result (λ is. IsTaken (taken_letters params.now wanted self.old font letters.now right) self.old self.new is) }
        ensures grows { OnOk result (Grows self.old self.new) }
    {
        if !self.fits(params, wanted, font, letters) {
            return Ok(false);
        }
        self.add(letters, right)?;
        Ok(true)
    }

    fn take_parts(
        &mut self,
        params: &ParParams,
        wanted: u8,
        font: u8,
        parts: &LigParts,
    ) -> Result<bool, AllocError>
        requires { self.old.count < 2 ^ 63 }
        ensures taken { IfOk result (λ is. IsTaken (taken_letters params.now wanted self.old font parts.now.letters parts.now.right) self.old self.new is) }
        ensures grows { OnOk result (Grows self.old self.new) }
    {
        self.take_letters(params, wanted, font, parts.letters.as_slice(), parts.right)
    }

    fn take_kern(&mut self, kind: KernKind) -> Result<bool, AllocError>
        requires { self.old.count < 2 ^ 63 }
        ensures taken { IfOk result (λ is. IsTaken (taken_kern self.old kind) self.old self.new is) }
        ensures grows { OnOk result (Grows self.old self.new) }
    {
        match kind {
            KernKind::Normal => {
                self.add(&[], true)?;
                Ok(true)
            }
            KernKind::Explicit | KernKind::Accent => Ok(false),
        }
    }

    /// Adds an item to the word. The answer is no where the word ends before it.
    #[tactic(auto, unfolding(crate::specs::Words::taken))]
    fn take(&mut self, params: &ParParams, wanted: u8, node: &Node) -> Result<bool, AllocError>
        requires { self.old.count < 2 ^ 63 }
        ensures taken { IfOk result (λ is. IsTaken (taken params.now wanted self.old node.now) self.old self.new is) }
        ensures grows { OnOk result (Grows self.old self.new) }
    {
        match node {
            Node::Char { font, code, .. } => {
                self.take_letters(params, wanted, *font, &[*code], false)
            }
            Node::Lig { font, parts, .. } => self.take_parts(params, wanted, *font, parts.get()),
            Node::Kern { kind, .. } => self.take_kern(*kind),
            _ => Ok(false),
        }
    }
}

fn beside_by(wanted: u8, right: Neighbour, font: u8, letters: &[u8]) -> Neighbour
    ensures { result ≡ beside_by wanted right font letters.now }
{
    match letters {
        [] => right,
        [letter, ..] => {
            if font == wanted {
                Neighbour::Character(*letter)
            } else {
                right
            }
        }
    }
}

/// What a word ends at, where this item isn't part of it.
#[tactic(auto, unfolding(crate::specs::Words::beside))]
fn beside(wanted: u8, right: Neighbour, node: &Node) -> Neighbour
    ensures { result ≡ beside wanted right node.now }
{
    match node {
        Node::Char { font, code, .. } => beside_by(wanted, right, *font, &[*code]),
        Node::Lig { font, parts, .. } => {
            beside_by(wanted, right, *font, parts.get().letters.as_slice())
        }
        _ => right,
    }
}

/// The word in a font that begins with the first of these items.
#[tactic(auto, unfolding(crate::specs::Words::gathered))]
pub fn gather_word(
    alloc: Global,
    params: &ParParams,
    wanted: u8,
    nodes: &[Node],
) -> Result<Gathered, AllocError>
    ensures value { IfOk result (λ it. it ≡ gathered params.now wanted nothing_gathered nodes.now) }
    ensures few { IfOk result (λ it. length it.letters ≤ 63) }
    ensures some { IfOk result (λ it. 0 < length it.letters → 0 < it.count) }
{
    let mut word = Gathered::none(alloc);
    for node in nodes {
        if !word.take(params, wanted, node)? {
            word.right = beside(wanted, word.right, node);
            return Ok(word);
        }
    }
    Ok(word)
}

fn kern_ends(kind: KernKind) -> Option<bool>
    ensures { result ≡ kern_ends kind }
{
    match kind {
        KernKind::Normal => None,
        KernKind::Explicit | KernKind::Accent => Some(true),
    }
}

/// Whether an item may end the characters behind a word. `None` where it is one of them.
#[tactic(auto, unfolding(crate::specs::Words::ends_word))]
fn ends_word(node: &Node) -> Option<bool>
    ensures { result ≡ ends_word node.now }
{
    match node {
        Node::Char { .. } | Node::Lig { .. } => None,
        Node::Kern { kind, .. } => kern_ends(*kind),
        Node::Glue(_)
        | Node::Leaders { .. }
        | Node::Penalty(_)
        | Node::What(_)
        | Node::Ins(_)
        | Node::Adjust(_)
        | Node::Mark(_) => Some(true),
        _ => Some(false),
    }
}

/// Whether a word may be hyphenated before these items.
#[tactic(auto, unfolding(crate::specs::Words::may_follow))]
pub fn may_follow(nodes: &[Node]) -> bool
    ensures { result ≡ may_follow nodes.now }
{
    for node in nodes {
        match ends_word(node) {
            Some(may) => return may,
            None => continue,
        }
    }
    true
}

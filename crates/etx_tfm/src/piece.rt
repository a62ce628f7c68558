//! The items of the list that ligatures rewrite.
ghost use Rattle.std.specs.Prelude.{◌≡◌, ◌++◌, ◌∷◌, [], false, OnOk, IfOk};
ghost use Rattle.etx_matter.specs.Ligatures.{action_between};
ghost use Rattle.etx_tfm.specs.Machine.{boundary_if, item_of, letters_of, is_left_edge, is_right_edge, letters_unless, edges_with, made_of};
ghost use Rattle.etx_tfm.specs.Cleans.{holds_end};

use etx_lists::Bytes;
use etx_matter::LigItem;
use std::alloc::{AllocError, Global};

/// What stands at one side of a word, as programs see it.
#[derive(Clone, Copy, Debug, PartialEq, Eq)]
pub enum Neighbour {
    /// Nothing of which a font makes something.
    Nothing,
    /// The boundary: the word begins or ends there.
    Boundary,
    /// A character of the same font that is no part of the word.
    Character(u8),
}

/// The boundary, where there is one.
pub fn boundary_if(is: bool) -> Neighbour
    ensures { result ≡ boundary_if is }
{
    if is {
        Neighbour::Boundary
    } else {
        Neighbour::Nothing
    }
}

/// An item of a word while its ligatures are made.
#[derive(Debug, Drop)]
pub enum Piece {
    /// What stands before the first character.
    LeftEdge,
    /// What stands behind the last character.
    RightEdge,
    /// A character before the first one of the word, or behind the last one.
    Beside(u8),
    /// A character of the word.
    Letter(u8),
    /// A ligature: its code, and the letters for which it stands.
    Made { code: u8, letters: Bytes },
}

impl Piece {
    /// How programs see it.
    #[inline(always)]
    pub fn item(&self) -> LigItem
        ensures { result ≡ item_of self.now }
    {
        match self {
            Piece::LeftEdge | Piece::RightEdge => LigItem::Boundary,
            Piece::Beside(code) => LigItem::Glyph(*code),
            Piece::Letter(code) => LigItem::Glyph(*code),
            Piece::Made { code, .. } => LigItem::Glyph(*code),
        }
    }

    #[inline(always)]
    fn is_left_edge(&self) -> bool
        ensures { result ≡ is_left_edge self.now }
    {
        match self {
            Piece::LeftEdge => true,
            Piece::RightEdge | Piece::Beside(_) | Piece::Letter(_) | Piece::Made { .. } => false,
        }
    }

    /// Whether it is what stands behind the last character.
    #[inline(always)]
    pub fn is_right_edge(&self) -> bool
        ensures { result ≡ is_right_edge self.now }
    {
        match self {
            Piece::RightEdge => true,
            Piece::LeftEdge | Piece::Beside(_) | Piece::Letter(_) | Piece::Made { .. } => false,
        }
    }

    /// Whether a letter of the word ends here, or what stands before the word.
    pub fn holds_end(&self) -> bool
        ensures { result ≡ holds_end self.now }
    {
        match self {
            Piece::LeftEdge | Piece::Beside(_) | Piece::Letter(_) => true,
            Piece::RightEdge => false,
            Piece::Made { letters, .. } => !letters.is_empty(),
        }
    }

    /// The letters for which it stands, in the memory in which it has them.
    fn into_letters(self, alloc: Global) -> Result<Bytes, AllocError>
        ensures { IfOk result (λ letters. letters ≡ letters_of self) }
    {
        match self {
            Piece::LeftEdge | Piece::RightEdge | Piece::Beside(_) => Ok(Bytes::new(alloc)),
            Piece::Letter(code) => one_letter(alloc, code),
            Piece::Made { letters, .. } => Ok(letters),
        }
    }

    /// Adds the letters for which it stands.
    fn add_letters(&self, letters: &mut Bytes) -> Result<(), AllocError>
        ensures { OnOk result (letters.new ≡ letters.old ++ letters_of self.now) }
    {
        match self {
            Piece::LeftEdge | Piece::RightEdge | Piece::Beside(_) => Ok(()),
            Piece::Letter(code) => letters.push(*code),
            Piece::Made { letters: more, .. } => letters.extend_from_slice(more.as_slice()),
        }
    }

    /// Adds its letters, unless it stays.
    fn add_letters_unless(&self, stays: bool, letters: &mut Bytes) -> Result<(), AllocError>
        ensures { OnOk result (letters.new ≡ letters.old ++ letters_unless stays self.now) }
    {
        if stays {
            return Ok(());
        }
        self.add_letters(letters)
    }
}

/// Which edges of the word took part in a ligature of which no node has told yet: `lft_hit` and `rt_hit` of TeX.
#[derive(Clone, Copy, Debug, PartialEq, Eq)]
pub struct Edges {
    pub left: bool,
    pub right: bool,
}

impl Edges {
    /// With those that take part in a ligature between these items.
    pub fn with_those_of(self, current: &Piece, next: &Piece) -> Edges
        ensures { result ≡ edges_with self current.now next.now }
    {
        let at_left = current.is_left_edge();
        Edges {
            left: self.left || at_left,
            right: self.right || !at_left && next.is_right_edge(),
        }
    }
}

// A letter, with room for those of a common ligature.
fn one_letter(alloc: Global, code: u8) -> Result<Bytes, AllocError>
    ensures { IfOk result (λ letters. letters ≡ code ∷ []) }
{
    let mut letters = Bytes::with_room(alloc, 4)?;
    letters.push(code)?;
    Ok(letters)
}

/// The ligature `code` in the place of two items.
pub fn merged(alloc: Global, current: Piece, next: &Piece, code: u8) -> Result<Piece, AllocError>
    ensures { IfOk result (λ it. it ≡ made_of current next.now code false false) }
{
    let mut letters = current.into_letters(alloc)?;
    next.add_letters(&mut letters)?;
    Ok(Piece::Made { code, letters })
}

/// The ligature `code` between two items, each of which stays or not.
pub fn made_of(
    alloc: Global,
    current: &Piece,
    next: &Piece,
    code: u8,
    keeps_current: bool,
    keeps_next: bool,
) -> Result<Piece, AllocError>
    ensures { IfOk result (λ it. it ≡ made_of current.now next.now code keeps_current keeps_next) }
{
    let mut letters = Bytes::new(alloc);
    current.add_letters_unless(keeps_current, &mut letters)?;
    next.add_letters_unless(keeps_next, &mut letters)?;
    Ok(Piece::Made { code, letters })
}

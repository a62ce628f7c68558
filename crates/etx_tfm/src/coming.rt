//! The items of a word that no ligature has touched.
ghost use Rattle.std.specs.Prelude.{◌≡◌, ◌∷◌, [], Some, MatchOption};
ghost use Rattle.etx_matter.specs.declared.font.LigItem.TheVariants.{Glyph};
ghost use Rattle.etx_tfm.specs.declared.piece.Piece.TheVariants.{Letter};
ghost use Rattle.etx_tfm.specs.Machine.{between, is_end, next_item};
ghost use Rattle.etx_tfm.specs.Cleans.{letters_in};

use crate::piece::{Neighbour, Piece};
use etx_matter::LigItem;
use std::marker::Model;

/// The items of a word as they came: what stands before it, its letters, and what stands behind it.
///
/// Contracts see the list of the items.
#[derive(Drop)]
pub struct Coming<'a> {
    left: Neighbour,
    letters: &'a [u8],
    right: Neighbour,
}

impl<'a> Model for Coming<'a> {
    ghost use Rattle.std.specs.Prelude.{List};
    ghost use Rattle.etx_tfm.specs.declared.piece.Piece.{Piece};

    ghost Value = { List Piece };

    ghost use Rattle.etx_tfm.specs.Machine.{between};

    ghost view = { λ it. between it.letters.now it.left it.right };
}

impl<'a> Coming<'a> {
    pub fn new(letters: &'a [u8], left: Neighbour, right: Neighbour) -> Coming<'a>
        ensures { result ≡ between letters.now left right }
    {
        Coming {
            left,
            letters,
            right,
        }
    }

    /// Takes the first item.
    #[inline(always)]
    pub fn pop(&mut self) -> Option<Piece>
        ensures { MatchOption result
            ((self.old ≡ []) × (self.new ≡ self.old))
            (λ item. self.old ≡ item ∷ self.new) }
    {
        match self.left {
            Neighbour::Boundary => {
                self.left = Neighbour::Nothing;
                return Some(Piece::LeftEdge);
            }
            Neighbour::Character(code) => {
                self.left = Neighbour::Nothing;
                return Some(Piece::Beside(code));
            }
            Neighbour::Nothing => {}
        }
        if let [code, behind @ ..] = self.letters {
            self.letters = behind;
            return Some(Piece::Letter(*code));
        }
        match self.right {
            Neighbour::Boundary => {
                self.right = Neighbour::Nothing;
                Some(Piece::RightEdge)
            }
            Neighbour::Character(code) => {
                self.right = Neighbour::Nothing;
                Some(Piece::Beside(code))
            }
            Neighbour::Nothing => None,
        }
    }

    /// Takes the first item where it is a letter and another one follows: the codes of the two.
    #[inline(always)]
    pub fn pop_letter(&mut self) -> Option<(u8, u8)>
        ensures { MatchOption result
            (self.new ≡ self.old)
            (λ codes. (self.old ≡ Letter codes.0 ∷ self.new) × (next_item self.new ≡ Some (Glyph codes.1))) }
    {
        match self.left {
            Neighbour::Boundary | Neighbour::Character(_) => return None,
            Neighbour::Nothing => {}
        }
        let [code, behind @ ..] = self.letters else {
            return None;
        };
        let [next, ..] = behind else {
            return None;
        };
        self.letters = behind;
        Some((*code, *next))
    }

    /// How a program sees the first item.
    #[inline(always)]
    pub fn next_item(&self) -> Option<LigItem>
        ensures { result ≡ next_item self.now }
    {
        match self.left {
            Neighbour::Boundary => return Some(LigItem::Boundary),
            Neighbour::Character(code) => return Some(LigItem::Glyph(code)),
            Neighbour::Nothing => {}
        }
        if let [code, ..] = self.letters {
            return Some(LigItem::Glyph(*code));
        }
        match self.right {
            Neighbour::Boundary => Some(LigItem::Boundary),
            Neighbour::Character(code) => Some(LigItem::Glyph(code)),
            Neighbour::Nothing => None,
        }
    }

    /// Whether nothing is left but the right edge.
    #[inline(always)]
    pub fn is_end(&self) -> bool
        ensures { result ≡ is_end self.now }
    {
        match self.left {
            Neighbour::Boundary | Neighbour::Character(_) => return false,
            Neighbour::Nothing => {}
        }
        if let [_code, _behind @ ..] = self.letters {
            return false;
        }
        match self.right {
            Neighbour::Boundary | Neighbour::Nothing => true,
            Neighbour::Character(_) => false,
        }
    }

    /// How many letters the items stand for.
    pub fn letter_count(&self) -> usize
        ensures { result ≡ letters_in self.now }
    {
        self.letters.len()
    }
}

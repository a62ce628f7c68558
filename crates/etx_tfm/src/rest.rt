//! The items of a word from the cursor on.
ghost use Rattle.std.specs.Prelude.{◌≡◌, ◌+◌, ◌-◌, ◌∷◌, ◌==◌, [], Some, MatchOption, OnOk, OnErr};
ghost use Rattle.etx_matter.specs.declared.font.LigItem.TheVariants.{Glyph};
ghost use Rattle.etx_tfm.specs.declared.piece.Piece.TheVariants.{Letter};
ghost use Rattle.etx_tfm.specs.Machine.{between, is_end, next_item};
ghost use Rattle.etx_tfm.specs.Cleans.{letters_in};

use crate::coming::Coming;
use crate::piece::{Neighbour, Piece};
use etx_matter::LigItem;
use std::alloc::{AllocError, Global};
use std::marker::Model;

/// The items of a word from the cursor on. Those that a ligature has touched stand in front: it made them, or looked at
/// them and kept them. The others are as they came.
///
/// Contracts see the list of the items, and how many of them are touched.
#[derive(Drop)]
pub struct Rest<'a> {
    /// The touched ones, the first one last.
    touched: Vec<Piece>,
    coming: Coming<'a>,
}

impl<'a> Model for Rest<'a> {
    ghost use Rattle.std.specs.Prelude.{length};
    ghost use Rattle.etx_tfm.specs.Cleans.{RestState};

    ghost Value = { RestState };

    ghost use Rattle.etx_tfm.specs.Cleans.{turned_behind};

    ghost view = { λ it. record { items = turned_behind it.touched.items it.coming; touched = length it.touched.items } };
}

impl<'a> Rest<'a> {
    /// A word between its neighbours. Takes no memory.
    pub fn new(alloc: Global, letters: &'a [u8], left: Neighbour, right: Neighbour) -> Rest<'a>
        ensures { result ≡ record { items = between letters.now left right; touched = 0 } }
    {
        Rest {
            touched: Vec::new(alloc),
            coming: Coming::new(letters, left, right),
        }
    }

    /// Takes the item at the cursor.
    #[inline(always)]
    pub fn pop(&mut self) -> Option<Piece>
        ensures { MatchOption result
            ((self.old.items ≡ []) × (self.old.touched ≡ 0) × (self.new ≡ self.old))
            (λ item. (self.old.items ≡ item ∷ self.new.items) × (self.new.touched ≡ self.old.touched - 1)) }
    {
        if let Some(piece) = self.touched.pop() {
            return Some(piece);
        }
        self.coming.pop()
    }

    /// Takes the item at the cursor where it is a letter, another one follows, and none of the two is touched: their codes.
    #[inline(always)]
    pub fn pop_letter(&mut self) -> Option<(u8, u8)>
        ensures { MatchOption result
            (self.new ≡ self.old)
            (λ codes. (self.old.items ≡ Letter codes.0 ∷ self.new.items) × (next_item self.new.items ≡ Some (Glyph codes.1)) × (self.new.touched ≡ self.old.touched - 1)) }
    {
        if self.touched.is_empty() {
            return self.coming.pop_letter();
        }
        None
    }

    /// Puts an item at the cursor, which is touched.
    pub fn push(&mut self, piece: Piece) -> Result<(), AllocError>
        ensures ok { OnOk result (self.new ≡ record { items = piece ∷ self.old.items; touched = self.old.touched + 1 }) }
        ensures err { OnErr result (self.new ≡ self.old) }
    {
        self.touched.push(piece)?;
        Ok(())
    }

    /// How a program sees the item at the cursor.
    #[inline(always)]
    pub fn next_item(&self) -> Option<LigItem>
        ensures { result ≡ next_item self.now.items }
    {
        let count = self.touched.len();
        if count > 0 {
            return Some(self.touched[count - 1].item());
        }
        self.coming.next_item()
    }

    /// Whether nothing stands from the cursor on but the right edge.
    #[inline(always)]
    pub fn is_end(&self) -> bool
        ensures { result ≡ is_end self.now.items }
    {
        let count = self.touched.len();
        if count > 0 {
            return self.touched[count - 1].is_right_edge();
        }
        self.coming.is_end()
    }

    /// Whether no item is touched.
    pub fn is_untouched(&self) -> bool
        ensures { result ≡ (self.now.touched == 0) }
    {
        self.touched.is_empty()
    }

    /// How many letters the items stand for, none of which is touched.
    pub fn letter_count(&self) -> usize
        requires { self.now.touched ≡ 0 }
        ensures { result ≡ letters_in self.now.items }
    {
        self.coming.letter_count()
    }
}

//! What writes the bytes of a page.
ghost use Rattle.std.specs.Prelude.{◌≡◌, ◌≤ℤ◌, ◌-ℤ◌, ℤ, pos, negsuc, false, true, ◌++◌, [], length, replicate, slice_index_or, slice_set, slice_get, IfOk, OnOk, Some};
ghost use Rattle.std.specs.Option.{option_copied};
ghost use Rattle.std.specs.Int.{w32};
ghost use Rattle.etx_ship.specs.Hands.{wrote_command, gone_right, gone_down, reached, with_font, first_hand, with_letter, with_letter_of, put_at, with_bar, with_block, with_note, opened, closed};
ghost use Rattle.etx_ship.specs.Pages.{fresh};
ghost use Rattle.etx_ship.specs.Pens.{is_chosen, is_used, definition_of, right_of};
ghost use Rattle.etx_dvi.specs.Commands.{bytes_of};
ghost use Rattle.etx_dvi.specs.declared.command.Dvi.TheVariants.{SetChar};

use crate::place::{Extent, Point, minus};
use crate::state::DviFont;
use etx_dvi::{Dvi, FontName, put};
use etx_lists::Bytes;
use etx_matter::CharSize;
use etx_pack::within_32_bits;
use std::alloc::{AllocError, Global};
use std::marker::Model;

/// The bytes of a page as far as they are written, and what a reader of them knows.
///
/// After want of memory nothing is said of it: the page is given up then.
#[derive(Drop)]
pub(crate) struct Pen<'a> {
    alloc: Global,
    fonts: &'a [DviFont],
    out: Vec<u8>,
    /// The boxes that have begun since the last command. Each has its push before the next one.
    waiting: u64,
    at: Point,
    font: Option<u8>,
    used: Vec<bool>,
    /// The places that the open boxes bring back, the innermost last.
    saved: Vec<Point>,
    most: u64,
}

impl<'a> Model for Pen<'a> {
    ghost use Rattle.std.specs.Prelude.{reverse};
    ghost use Rattle.etx_ship.specs.Hands.{Hand};

    ghost Value = { Hand };

    ghost view = { λ it. record { fonts = it.fonts.now; ink = record { out = it.out.items; waiting = it.waiting }; pen = record { at = it.at; font = it.font; used = it.used.items; saved = reverse it.saved.items; most = it.most } } };
}

pub(crate) fn definition(alloc: Global, number: u8, font: &DviFont) -> Result<Dvi, AllocError>
    ensures { IfOk result (λ command. command ≡ definition_of number font.now) }
{
    let name = Bytes::from_slice(alloc, font.name.as_slice())?;
    let Some(name) = FontName::new(name) else {
        return Err(AllocError);
    };
    Ok(Dvi::FontDefinition {
        number,
        checksum: font.checksum,
        size: font.size,
        design_size: font.design_size,
        name,
    })
}

// The bytes of a character, at once.
#[inline(always)]
fn add_character(alloc: Global, code: u8, out: &mut Vec<u8>) -> Result<(), AllocError>
    ensures { OnOk result (out.new.items ≡ out.old.items ++ bytes_of (SetChar code)) }
{
    if code < 128 {
        out.push(code)?;
        return Ok(());
    }
    put(alloc, &Dvi::SetChar(code), out)
}

fn add_pushes(out: &mut Vec<u8>, count: u64) -> Result<(), AllocError>
    ensures { OnOk result (out.new.items ≡ out.old.items ++ replicate count 141) }
{
    let mut left = count;
    while left > 0 {
        out.push(141)?;
        left -= 1;
    }
    Ok(())
}

impl<'a> Pen<'a> {
    /// The pen before a page of a file that has these fonts, of which these are used.
    pub(crate) fn new(
        alloc: Global,
        fonts: &'a [DviFont],
        used: &[bool],
    ) -> Result<Pen<'a>, AllocError>
        ensures { IfOk result (λ pen. pen ≡ first_hand fonts.now (fresh used.now)) }
    {
        Ok(Pen {
            alloc,
            fonts,
            out: Vec::new(alloc),
            waiting: 0,
            at: Point { h: 0, v: 0 },
            font: None,
            used: Vec::from_slice(alloc, used)?,
            saved: Vec::new(alloc),
            most: 0,
        })
    }

    /// The bytes, which fonts are used, and the most boxes that were open.
    pub(crate) fn into_parts(self) -> (Vec<u8>, Vec<bool>, u64)
        ensures out { result.0.items ≡ self.entry.ink.out }
        ensures used { result.1.items ≡ self.entry.pen.used }
        ensures most { result.2 ≡ self.entry.pen.most }
    {
        let Pen {
            out,
            used,
            most,
            ..
        } = self;
        (out, used, most)
    }

    // The pushes that wait are written.
    fn flush(&mut self) -> Result<(), AllocError>
        ensures { OnOk result (self.new ≡ record self.old { ink = record { out = self.old.ink.out ++ replicate self.old.ink.waiting 141; waiting = 0 } }) }
    {
        add_pushes(&mut self.out, self.waiting)?;
        self.waiting = 0;
        Ok(())
    }

    /// Writes a command that is neither a push nor a pop.
    #[tactic(auto, unfolding(crate::specs::Hands::wrote_command, crate::specs::Hands::wrote))]
    pub(crate) fn write(&mut self, command: &Dvi) -> Result<(), AllocError>
        ensures { OnOk result (self.new ≡ wrote_command command.now self.old) }
    {
        self.flush()?;
        put(self.alloc, command, &mut self.out)
    }

    /// Goes to a place across.
    #[tactic(auto, unfolding(crate::specs::Hands::gone_right, crate::specs::Hands::wrote_command, crate::specs::Hands::inked))]
    pub(crate) fn go_right(&mut self, h: i64) -> Result<(), AllocError>
        ensures { OnOk result (self.new ≡ gone_right h self.old) }
    {
        let by = minus(h, self.at.h)?;
        if by != 0 {
            self.write(&Dvi::Right(within_32_bits(by as i128)))?;
        }
        self.at.h = h;
        Ok(())
    }

    /// Goes to a place down.
    #[tactic(auto, unfolding(crate::specs::Hands::gone_down, crate::specs::Hands::wrote_command, crate::specs::Hands::inked))]
    pub(crate) fn go_down(&mut self, v: i64) -> Result<(), AllocError>
        ensures { OnOk result (self.new ≡ gone_down v self.old) }
    {
        let by = minus(v, self.at.v)?;
        if by != 0 {
            self.write(&Dvi::Down(within_32_bits(by as i128)))?;
        }
        self.at.v = v;
        Ok(())
    }

    #[tactic(auto, unfolding(crate::specs::Hands::reached))]
    fn reach(&mut self, at: Point) -> Result<(), AllocError>
        ensures { OnOk result (self.new ≡ reached at self.old) }
    {
        self.go_right(at.h)?;
        self.go_down(at.v)
    }

    fn is_chosen(&self, number: u8) -> bool
        ensures { result ≡ is_chosen self.now.pen.font number }
    {
        match self.font {
            Some(chosen) => chosen == number,
            None => false,
        }
    }

    fn is_used(&self, number: u8) -> bool
        ensures { result ≡ is_used self.now.pen.used number }
    {
        match self.used.get(usize::from(number)) {
            Some(used) => *used,
            None => false,
        }
    }

    fn set_used(&mut self, number: u8)
        ensures { self.new ≡ record self.old { pen = record self.old.pen { used = slice_set self.old.pen.used number true } } }
    {
        let number = usize::from(number);
        if number < self.used.len() {
            self.used[number] = true;
        }
    }

    // The font is chosen, where it isn't, and defined before that, where it is used for the first time.
    #[tactic(auto, unfolding(crate::specs::Hands::with_font, crate::specs::Hands::wrote_command, crate::specs::Hands::inked))]
    fn choose(&mut self, number: u8, font: &DviFont) -> Result<(), AllocError>
        ensures { OnOk result (self.new ≡ with_font number font.now self.old) }
    {
        if !self.is_chosen(number) {
            if !self.is_used(number) {
                self.write(&definition(self.alloc, number, font)?)?;
            }
            self.write(&Dvi::FontNumber(number))?;
            self.set_used(number);
            self.font = Some(number);
        }
        Ok(())
    }

    // Whether a character of this font at this place needs nothing before it.
    #[inline(always)]
    fn is_ready(&self, number: u8, at: Point) -> bool
        ensures at { result ≡ true → self.now.pen.at ≡ at }
        ensures font { result ≡ true → self.now.pen.font ≡ Some number }
        ensures waiting { result ≡ true → self.now.ink.waiting ≡ 0 }
    {
        if self.at.h != at.h {
            return false;
        }
        if self.at.v != at.v {
            return false;
        }
        if self.waiting != 0 {
            return false;
        }
        match self.font {
            Some(chosen) => chosen == number,
            None => false,
        }
    }

    // Sets a character of this size, before which nothing is needed.
    #[inline(always)]
    fn set_letter(&mut self, code: u8, size: &CharSize) -> Result<(), AllocError>
        requires { self.old.ink.waiting ≡ 0 }
        ensures { OnOk result (self.new ≡ put_at (right_of self.old.pen.at size.now.width) (record self.old { ink = record { out = self.old.ink.out ++ bytes_of (SetChar code); waiting = 0 } })) }
    {
        let next = self.at.right_of(size.width as i64)?;
        add_character(self.alloc, code, &mut self.out)?;
        self.at = next;
        Ok(())
    }

    /// Sets a character of this size. One whose font isn't loaded writes nothing.
    #[inline(always)]
    #[tactic(auto, unfolding(crate::specs::Hands::with_letter))]
    pub(crate) fn letter(
        &mut self,
        number: u8,
        code: u8,
        size: &CharSize,
        at: Point,
    ) -> Result<(), AllocError>
        ensures { OnOk result (self.new ≡ with_letter number code size.now.width at self.old) }
    {
        match self.fonts.get(usize::from(number)) {
            Some(font) => self.letter_of(font, number, code, size, at),
            None => Ok(()),
        }
    }

    #[inline(always)]
    fn letter_of(
        &mut self,
        font: &DviFont,
        number: u8,
        code: u8,
        size: &CharSize,
        at: Point,
    ) -> Result<(), AllocError>
        ensures { OnOk result (self.new ≡ with_letter_of (Some font.now) number code size.now.width at self.old) }
    {
        if self.is_ready(number, at) {
            return self.set_letter(code, size);
        }
        self.letter_behind(font, number, code, size, at)
    }

    // Sets a character behind all that it needs before it.
    fn letter_behind(
        &mut self,
        font: &DviFont,
        number: u8,
        code: u8,
        size: &CharSize,
        at: Point,
    ) -> Result<(), AllocError>
        ensures { OnOk result (self.new ≡ with_letter_of (Some font.now) number code size.now.width at self.old) }
    {
        let next = at.right_of(size.width as i64)?;
        self.reach(at)?;
        self.choose(number, font)?;
        self.write(&Dvi::SetChar(code))?;
        self.at = next;
        Ok(())
    }

    /// Sets a rule of a horizontal list, which leads right by its width.
    #[tactic(auto, unfolding(crate::specs::Hands::with_bar))]
    pub(crate) fn bar(&mut self, size: Extent, at: Point) -> Result<(), AllocError>
        ensures { OnOk result (self.new ≡ with_bar size.height size.width at self.old) }
    {
        let next = at.right_of(size.width)?;
        self.reach(at)?;
        let rule = Dvi::SetRule {
            height: within_32_bits(size.height as i128),
            width: within_32_bits(size.width as i128),
        };
        self.write(&rule)?;
        self.at = next;
        Ok(())
    }

    /// Sets a rule of a vertical list, which leads nowhere.
    #[tactic(auto, unfolding(crate::specs::Hands::with_block))]
    pub(crate) fn block(&mut self, size: Extent, at: Point) -> Result<(), AllocError>
        ensures { OnOk result (self.new ≡ with_block size.height size.width at self.old) }
    {
        self.reach(at)?;
        let rule = Dvi::PutRule {
            height: within_32_bits(size.height as i128),
            width: within_32_bits(size.width as i128),
        };
        self.write(&rule)
    }

    /// Writes a special.
    #[tactic(auto, unfolding(crate::specs::Hands::with_note))]
    pub(crate) fn note(&mut self, text: &Bytes, at: Point) -> Result<(), AllocError>
        ensures { OnOk result (self.new ≡ with_note text.now at self.old) }
    {
        self.reach(at)?;
        self.write(&Dvi::Special(text.copy()?))
    }

    /// Begins a box.
    #[tactic(auto, unfolding(crate::specs::Hands::opened, crate::specs::Hands::pushed))]
    pub(crate) fn open(&mut self) -> Result<(), AllocError>
        ensures { OnOk result (self.new ≡ opened self.old) }
    {
        let Some(waiting) = self.waiting.checked_add(1) else {
            return Err(AllocError);
        };
        self.waiting = waiting;
        self.saved.push(self.at)?;
        self.most = self.most.max(self.saved.len() as u64);
        Ok(())
    }

    /// Ends a box. Its push goes where nothing was written behind it.
    #[tactic(auto, unfolding(crate::specs::Hands::closed, crate::specs::Hands::popped))]
    pub(crate) fn close(&mut self) -> Result<(), AllocError>
        ensures { OnOk result (self.new ≡ closed self.old) }
    {
        if self.waiting > 0 {
            self.waiting -= 1;
        } else {
            self.out.push(142)?;
        }
        if let Some(at) = self.saved.pop() {
            self.at = at;
        }
        Ok(())
    }
}

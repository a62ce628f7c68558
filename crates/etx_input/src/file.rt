//! A file as it is read, line by line.
ghost use Rattle.std.specs.Prelude.{◌≡◌, ◌≤◌, ◌+◌, ◌++◌, true, false, [], ◌∷◌, None, IfOk, OnOk, OnErr, MatchOption};
ghost use Rattle.etx_lexer.specs.Lex.{lexed_of};
ghost use Rattle.etx_input.specs.Files.{unread, opened, opened_as, ReadsLine, behind, got_of};

use crate::text::SharedText;
use etx_lexer::{CatOf, Lexed, Line, LinePlace, end_character, next_line, trimmed_length};
use etx_lists::Bytes;
use etx_stack::Share;
use std::alloc::{AllocError, Global};
use std::marker::Model;

/// A text that is read line by line: the line at hand, and the text behind it.
#[derive(Drop)]
pub struct FileInput {
    text: SharedText,
    /// The line at hand is the text from this byte on.
    start: usize,
    /// Before this byte the line at hand ends, but for its last character.
    stop: usize,
    /// The last character of the line at hand, if `\endlinechar` gave one.
    end: Option<u8>,
    place: LinePlace,
    /// Where the text behind the line at hand begins.
    next: usize,
    /// How many lines were read.
    number: u32,
}

impl Model for FileInput {
    ghost use Rattle.std.specs.Prelude.{drop, length, ◌≤◌, ◌+◌};
    ghost use Rattle.etx_lexer.specs.Places.{rest_of};
    ghost use Rattle.etx_input.specs.Files.{FileState, lines_of, line_within};

    ghost Value = { FileState };

    ghost view = { λ i. record { line = rest_of (line_within i.text i.start i.stop i.end) i.place; state = i.place.state; number = i.number; lines = lines_of (drop i.next i.text) } };

    ghost invariant = { λ i. record { counted : i.number ≤ i.next + 1; within : i.next ≤ length i.text; forward : i.start ≤ i.stop; inside : i.stop ≤ length i.text } };
}

impl Share for FileInput {
    /// The same file, at the same place. Its text is shared.
    fn share(&self) -> Result<FileInput, AllocError>
        ensures { IfOk result (λ same. same ≡ self.now) }
    {
        Ok(FileInput {
            text: self.text.share()?,
            start: self.start,
            stop: self.stop,
            end: self.end,
            place: self.place,
            next: self.next,
            number: self.number,
        })
    }
}

impl FileInput {
    /// A text of which no line was read.
    #[tactic(auto, unfolding(crate::specs::Files::unread))]
    pub fn new(alloc: Global, text: Bytes) -> Result<FileInput, AllocError>
        ensures { IfOk result (λ file. file ≡ unread text) }
    {
        Ok(FileInput {
            text: SharedText::new(alloc, text)?,
            start: 0,
            stop: 0,
            end: None,
            place: LinePlace::start(),
            next: 0,
            number: 0,
        })
    }

    /// A text whose first line is read at once, with the character `endline` behind it, if that is 0 to 255. A text without
    /// a line counts as one empty line.
    pub fn open(alloc: Global, text: Bytes, endline: i32) -> Result<FileInput, AllocError>
        ensures { IfOk result (λ file. file ≡ opened endline text) }
    {
        let mut file = FileInput::new(alloc, text)?;
        if !file.read_line(endline) {
            file.read_nothing(endline);
        }
        Ok(file)
    }

    /// How many lines were read.
    pub fn number(&self) -> u32
        ensures { result ≡ self.now.number }
    {
        self.number
    }

    /// Reads the next line. Says whether there was one.
    fn read_line(&mut self, endline: i32) -> bool
        ensures { ReadsLine endline result self.old self.new }
    {
        let text = self.text.as_slice();
        match next_line(text, self.next) {
            None => false,
            Some(span) => {
                let kept = trimmed_length(&text[span.start..span.end]);
                self.start = span.start;
                self.stop = span.start + kept;
                self.end = end_character(endline);
                self.place = LinePlace::start();
                self.next = span.next;
                self.number += 1;
                true
            }
        }
    }

    /// Reads an empty line where the text has none, and none was read.
    fn read_nothing(&mut self, endline: i32)
        requires first { self.old.number ≡ 0 }
        requires none { self.old.lines ≡ [] }
        ensures { self.new ≡ opened_as endline [] }
    {
        self.start = 0;
        self.stop = 0;
        self.end = end_character(endline);
        self.place = LinePlace::start();
        self.number = 1;
    }

    /// What is lexed of the line at hand.
    fn lex<C: CatOf>(&mut self, alloc: Global, cats: &C) -> Result<Lexed, AllocError>
        ensures lexed { IfOk result (λ lexed. lexed ≡ (lexed_of (C.category cats.now) self.old.line self.old.state).lexed) }
        ensures file { OnOk result (self.new ≡ behind (lexed_of (C.category cats.now) self.old.line self.old.state) self.old.number self.old.lines) }
    {
        let text = self.text.as_slice();
        let line = Line::new(&text[self.start..self.stop], self.end);
        let (lexed, place) = line.next(alloc, self.place, cats)?;
        self.place = place;
        Ok(lexed)
    }

    /// What is lexed next, on a later line where this one has no more. `None` exactly where the text is over.
    /// A line that is read gets the character `endline`, if that is 0 to 255. After an `Err` the file is only dropped.
    pub fn next<C: CatOf>(
        &mut self,
        alloc: Global,
        endline: i32,
        cats: &C,
    ) -> Result<Option<Lexed>, AllocError>
        ensures lexed { IfOk result (λ lexed. lexed ≡ (got_of (C.category cats.now) endline self.old).lexed) }
        ensures file { OnOk result (self.new ≡ (got_of (C.category cats.now) endline self.old).file) }
    {
        'lines: loop {
            match self.lex(alloc, cats)? {
                Lexed::LineEnd => {
                    if !self.read_line(endline) {
                        return Ok(None);
                    }
                }
                lexed => return Ok(Some(lexed)),
            }
        }
    }
}

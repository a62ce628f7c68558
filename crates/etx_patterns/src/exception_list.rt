//! The exceptions of all languages.
ghost use Rattle.std.specs.Prelude.{◌≡◌, ◌<◌, [], None, Some, length, true, MatchOption, IfOk, OnOk, OnErr};
ghost use Rattle.etx_patterns.specs.Tables.{exception_of, exception_path, new_exception, put, has_room_for, IsException};
ghost use Rattle.etx_patterns.specs.Shapes.{path_in, word_marks};

use crate::step::Mark;
use crate::tables::{Exception, copy_exceptions};
use crate::trie::Trie;
use etx_lists::Bytes;
use std::alloc::{AllocError, Global};
use std::marker::Model;

/// The most exceptions.
const MOST_EXCEPTIONS: usize = 10_000;

/// The exceptions of all languages, at most one for each word of a language, and a trie that leads to them.
#[derive(Drop)]
pub struct ExceptionList {
    exceptions: Vec<Exception>,
    trie: Trie,
}

impl Model for ExceptionList {
    ghost use Rattle.std.specs.Prelude.{List};
    ghost use Rattle.etx_patterns.specs.declared.tables.Exception.{Exception};

    ghost Value = { List Exception };

    ghost use Rattle.etx_patterns.specs.Kept.{ExceptionsKept};

    ghost view = { λ it. it.exceptions.items };

    ghost invariant = { λ it. ExceptionsKept it.trie it.exceptions.items };
}

impl Clone for ExceptionList {
    ghost is_clone = { λ it copy. copy ≡ it };

    fn clone(&self) -> Result<ExceptionList, AllocError> {
        let exceptions = copy_exceptions(*self.exceptions.allocator(), self.exceptions.as_slice())?;
        let trie = self.trie.copy()?;
        Ok(ExceptionList { exceptions, trie })
    }
}

impl ExceptionList {
    /// No exception.
    pub fn new(alloc: Global) -> Result<ExceptionList, AllocError>
        ensures { IfOk result (λ it. it ≡ []) }
    {
        let trie = Trie::new(alloc)?;
        Ok(ExceptionList {
            exceptions: Vec::new(alloc),
            trie,
        })
    }

    /// The number of the exception with this path.
    fn entry(&self, path: &[Mark]) -> Option<usize>
        ensures { MatchOption result
            (exception_of self.now path.now ≡ None)
            (λ entry. IsException self.now path.now entry) }
    {
        let at = self.trie.find(path)?;
        self.trie.entry(at)
    }

    /// The places of the exception with this path.
    pub fn places(&self, path: &[Mark]) -> Option<&[u8]>
        ensures { MatchOption result
            (exception_of self.now path.now ≡ None)
            (λ places. exception_of self.now path.now ≡ Some places.now) }
    {
        let entry = self.entry(path)?;
        Some(self.exceptions[entry].places.as_slice())
    }

    /// Whether a word with this path has places, or fewer than 10000 words have.
    pub fn has_room_for(&self, path: &[Mark]) -> bool
        ensures { result ≡ has_room_for self.now path.now }
    {
        match self.entry(path) {
            Some(_) => true,
            None => self.exceptions.len() < MOST_EXCEPTIONS,
        }
    }

    /// Gives a word of a language its places.
    pub fn put(
        &mut self,
        language: u8,
        word: &[u8],
        places: &[u8],
        path: &[Mark],
    ) -> Result<(), AllocError>
        requires path { path.now ≡ path_in language (word_marks word.now) }
        requires room { has_room_for self.old path.now ≡ true }
        ensures ok { OnOk result (self.new ≡ put self.old (new_exception language word.now places.now)) }
        ensures err { OnErr result (self.new ≡ self.old) }
    {
        let alloc = *self.exceptions.allocator();
        let listed = Bytes::from_slice(alloc, places)?;
        match self.entry(path) {
            Some(entry) => {
                self.exceptions[entry].places = listed;
                Ok(())
            }
            None => {
                let letters = Bytes::from_slice(alloc, word)?;
                self.push(
                    Exception {
                        language,
                        word: letters,
                        places: listed,
                    },
                    path,
                )
            }
        }
    }

    fn push(&mut self, exception: Exception, path: &[Mark]) -> Result<(), AllocError>
        requires path { path.now ≡ exception_path exception }
        requires unknown { exception_of self.old path.now ≡ None }
        requires room { length self.old < 10000 }
        ensures ok { OnOk result (self.new ≡ put self.old exception) }
        ensures err { OnErr result (self.new ≡ self.old) }
    {
        let at = self.trie.reach(path)?;
        let entry = self.exceptions.len();
        self.exceptions.push(exception)?;
        self.trie.set_entry(at, entry);
        Ok(())
    }
}

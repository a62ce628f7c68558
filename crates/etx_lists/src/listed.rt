ghost use Rattle.std.specs.Prelude.{◌≡◌, [], ◌∷◌, ◌++◌, ◌≤◌, length, take, drop, slice_get, ◌↔◌, IsTrue, IfOk, MatchOption, OnOk, OnErr};
ghost use Rattle.std.specs.Option.{option_copied};

use std::alloc::{AllocError, Global};
use std::marker::Model;
use std::vec::IntoIter;

/// The most items that a list has.
pub const MOST: usize = 1_073_741_824;

/// A `Vec` of at most [`MOST`] items that contracts see as the list of them.
///
/// A growth past [`MOST`] answers want of memory. After an `Err` a list is what it was.
#[derive(Debug, Drop)]
pub struct Listed<T> {
    items: Vec<T>,
}

/// A string of bytes, which needn't be text.
pub type Bytes = Listed<u8>;

impl<T> Model for Listed<T> {
    ghost use Rattle.std.specs.Prelude.{List, length, ◌≤◌};
    ghost use Rattle.std.specs.Coded.{coded_list};

    ghost Value = { List T };

    ghost coded = { coded_list T.code };

    ghost view = { λ it. it.items.items };

    ghost invariant = { λ it. length it.items.items ≤ 1073741824 };
}

impl<T> Listed<T> {
    /// The empty list. Takes no memory.
    pub fn new(alloc: Global) -> Listed<T>
        ensures { result ≡ [] }
    {
        Listed {
            items: Vec::new(alloc),
        }
    }

    /// The empty list, with room for this many items.
    pub fn with_room(alloc: Global, count: usize) -> Result<Listed<T>, AllocError>
        ensures { IfOk result (λ it. it ≡ []) }
    {
        let items = Vec::with_capacity(alloc, count)?;
        Ok(Listed { items })
    }

    /// Makes room for this many items more, so that pushing them takes no memory. The items stay, at want of memory too.
    pub fn reserve(&mut self, more: usize) -> Result<(), AllocError>
        ensures { self.new ≡ self.old }
    {
        self.items.reserve(more)?;
        Ok(())
    }

    pub fn as_slice(&self) -> &[T]
        ensures same { result.now ≡ self.now }
        ensures small { length self.now ≤ 1073741824 }
    {
        self.items.as_slice()
    }

    pub fn len(&self) -> usize
        ensures len { result ≡ length self.now }
        ensures small { result ≤ 1073741824 }
    {
        self.items.len()
    }

    pub fn is_empty(&self) -> bool
        ensures { IsTrue result ↔ (self.now ≡ []) }
    {
        self.items.is_empty()
    }

    /// The item at `i`, counted from 0. `None` exactly past the end.
    pub fn at(&self, i: usize) -> Option<&T>
        ensures { option_copied result ≡ slice_get self.now i }
    {
        self.items.get(i)
    }

    /// Takes the last item off. `None` exactly where the list is empty.
    pub fn pop(&mut self) -> Option<T>
        ensures { MatchOption result ((self.old ≡ []) × (self.new ≡ [])) (λ last. self.old ≡ self.new ++ last ∷ []) }
    {
        self.items.pop()
    }

    /// Gives the `Vec` back. Takes no memory.
    pub fn into_vec(self) -> Vec<T>
        ensures { result.items ≡ self }
    {
        let Listed { items } = self;
        items
    }
}

impl<T> Listed<T> {
    pub(crate) fn into_items(self) -> Vec<T>
        ensures value { result.items ≡ self }
        ensures small { length result.items ≤ 1073741824 }
    {
        let Listed { items } = self;
        items
    }

    pub(crate) fn of_items(items: Vec<T>) -> Listed<T>
        requires { length items.items ≤ 1073741824 }
        ensures { result ≡ items.items }
    {
        Listed { items }
    }
}

impl<T: Drop> IntoIterator for Listed<T> {
    ghost use Rattle.std.specs.Prelude.{◌≡◌, ◌<◌, ◌^◌, length};
    ghost use Rattle.std.specs.Vec.Iter.{into_iter_items, into_iter_len, into_iter_steps};
    ghost use Rattle.std.specs.Iterator.Runs.{EveryRun, ItemsAre};
    ghost use Rattle.std.specs.declared.alloc.Global.{Global};

    type Item = T;

    type IntoIter = IntoIter<T, Global>;

    ghost into_iter_gives = { λ it r. (into_iter_items r ≡ it) × (into_iter_len r ≡ length it) × (into_iter_len r < 2 ^ 64) × EveryRun (into_iter_steps {X = T} {Z = Global}) (λ p. ItemsAre p (into_iter_items p.from)) };

    /// The items, by value, in their order.
    fn into_iter(self) -> IntoIter<T, Global> {
        self.into_items().into_iter()
    }
}

impl<T: Drop> Listed<T> {
    /// Takes the items of a `Vec`, without taking memory.
    pub fn from_vec(items: Vec<T>) -> Result<Listed<T>, AllocError>
        ensures ok { IfOk result (λ it. it ≡ items.items) }
    {
        if items.len() > MOST {
            return Err(AllocError);
        }
        Ok(Listed { items })
    }

    pub fn push(&mut self, item: T) -> Result<(), AllocError>
        ensures ok { OnOk result (self.new ≡ self.old ++ item ∷ []) }
        ensures err { OnErr result (self.new ≡ self.old) }
    {
        if self.items.len() >= MOST {
            return Err(AllocError);
        }
        self.items.push(item)?;
        Ok(())
    }

    /// Moves the items of `tail` to the end. An empty list takes the memory of `tail` over, and no item is moved.
    pub fn append(&mut self, tail: Listed<T>) -> Result<(), AllocError>
        ensures ok { OnOk result (self.new ≡ self.old ++ tail) }
        ensures err { OnErr result (self.new ≡ self.old) }
    {
        let Listed { mut items } = tail;
        if self.items.is_empty() {
            self.items = items;
            return Ok(());
        }
        if items.len() > MOST - self.items.len() {
            return Err(AllocError);
        }
        self.items.append(&mut items)?;
        Ok(())
    }

    /// Keeps the items before `at`, and gives the others.
    pub fn cut(&mut self, at: usize) -> Result<Listed<T>, AllocError>
        requires { at ≤ length self.old }
        ensures ok { IfOk result (λ rest. (self.new ≡ take at self.old) × (rest ≡ drop at self.old)) }
        ensures err { OnErr result (self.new ≡ self.old) }
    {
        let items = self.items.split_off(at)?;
        Ok(Listed { items })
    }
}

impl<T: Copy> Listed<T> {
    pub fn from_slice(alloc: Global, items: &[T]) -> Result<Listed<T>, AllocError>
        ensures { IfOk result (λ it. it ≡ items.now) }
    {
        if items.len() > MOST {
            return Err(AllocError);
        }
        let items = Vec::from_slice(alloc, items)?;
        Ok(Listed { items })
    }

    /// Adds copies of these items at the end.
    pub fn extend_from_slice(&mut self, more: &[T]) -> Result<(), AllocError>
        ensures ok { OnOk result (self.new ≡ self.old ++ more.now) }
        ensures err { OnErr result (self.new ≡ self.old) }
    {
        if more.len() > MOST - self.items.len() {
            return Err(AllocError);
        }
        self.items.extend_from_slice(more)?;
        Ok(())
    }

    /// An equal list.
    pub fn copy(&self) -> Result<Listed<T>, AllocError>
        ensures { IfOk result (λ it. it ≡ self.now) }
    {
        let items = Vec::from_slice(*self.items.allocator(), self.items.as_slice())?;
        Ok(Listed { items })
    }
}

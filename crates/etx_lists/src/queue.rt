//! Lists that are taken from at the front.
ghost use Rattle.std.specs.Prelude.{◌≡◌, [], ◌∷◌, ◌++◌, ◌≤◌, length, take, drop, ◌↔◌, IsTrue, IfOk, MatchOption, OnOk, OnErr};

use crate::listed::Listed;
use std::alloc::{AllocError, Global};
use std::collections::VecDeque;
use std::marker::Model;

/// A list of which the items are taken one after another, or several at once, from the front. What is taken costs by its
/// own length, and not by what stands behind it.
#[derive(Debug, Drop)]
pub struct Queue<T> {
    items: VecDeque<T>,
}

impl<T> Model for Queue<T> {
    ghost use Rattle.std.specs.Prelude.{List, length, ◌≤◌};
    ghost use Rattle.std.specs.Coded.{coded_list};

    ghost Value = { List T };

    ghost coded = { coded_list T.code };

    ghost view = { λ it. it.items.items };

    ghost invariant = { λ it. length it.items.items ≤ 1073741824 };
}

impl<T: Drop> Queue<T> {
    /// The items of a list. Takes no memory, and moves no item.
    pub fn new(list: Listed<T>) -> Queue<T>
        ensures { result ≡ list }
    {
        let items = VecDeque::from_vec(list.into_items());
        Queue { items }
    }

    pub fn len(&self) -> usize
        ensures { result ≡ length self.now }
    {
        self.items.len()
    }

    pub fn is_empty(&self) -> bool
        ensures { IsTrue result ↔ (self.now ≡ []) }
    {
        self.items.is_empty()
    }

    /// Takes the first item off. `None` exactly where there is none.
    pub fn pop(&mut self) -> Option<T>
        ensures { MatchOption result ((self.old ≡ []) × (self.new ≡ [])) (λ first. self.old ≡ first ∷ self.new) }
    {
        self.items.pop_front()
    }

    /// Takes the first `count` items off and gives them, in the time of so many moves.
    pub fn take(&mut self, alloc: Global, count: usize) -> Result<Listed<T>, AllocError>
        requires { count ≤ length self.old }
        ensures ok { IfOk result (λ front. (front ≡ take count self.old) × (self.new ≡ drop count self.old)) }
        ensures err { OnErr result (self.new ≡ self.old) }
    {
        let mut front = Vec::with_capacity(alloc, count)?;
        for _ in 0..count {
            if let Some(item) = self.items.pop_front() {
                front.push(item)?;
            }
        }
        Ok(Listed::of_items(front))
    }
}

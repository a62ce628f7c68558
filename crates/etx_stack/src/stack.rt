ghost use Rattle.std.specs.Prelude.{true, ◌≡◌, ℕ, ◌+◌, ◌-◌, ◌<◌, ◌≤◌, ◌↔◌, ◌++◌, [], ◌∷◌, length, take, drop, IsTrue, IsSome, OnOk, OnErr, IfOk};
ghost use Rattle.std.specs.Option.{option_copied, option_to_list};
ghost use Rattle.std.specs.List.{slice_get};
ghost use Rattle.etx_stack.specs.Undoing.{at, IsGuarded, IsLive, IsBefore, IsSince, Keeps, SameUpTo, is_free, with_last};
ghost use Rattle.std.specs.Borrow.{sem};

use std::alloc::{AllocError, Global};
use std::marker::Model;

/// A value that can be had twice. A value that owns memory is mostly shared, and not copied.
pub trait Share: Sized {
    /// The same value.
    fn share(&self) -> Result<Self, AllocError>
        ensures { IfOk result (λ same. same ≡ self.now) };
}

/// A time in the history of a stack.
///
/// It stands for the list at that time until the stack goes back to an earlier mark, or forgets.
#[derive(Clone, Copy, Debug, PartialEq, Eq)]
pub struct Mark {
    /// How many items were kept for marks then.
    pub taken: usize,
    /// How many items the list had then.
    pub len: usize,
}

/// An item that a mark needs, and its place.
#[derive(Drop)]
struct Taken<T> {
    at: usize,
    item: T,
}

/// A list, and the items that are needed to go back to marks, the oldest first.
///
/// The items below the guard stand as they stood at the last mark. Contracts see the list as `items`, the last one last.
#[derive(Drop)]
pub struct Stack<T> {
    items: Vec<T>,
    taken: Vec<Taken<T>>,
    guard: usize,
}

impl<T> Model for Stack<T> {
    ghost use Rattle.std.specs.Prelude.{ℕ, List, map, length, ◌≤◌};
    ghost use Rattle.etx_stack.specs.Undoing.{Stacked, stacked_code, IsGuarded, AreBelow};

    ghost Value = { Stacked T };

    ghost coded = { stacked_code T.code };

    ghost view = { λ s. record { items = s.items.items; taken = map (λ e. (e.at, e.item)) s.taken.items; guard = s.guard } };

    ghost invariant = { λ s. (s.guard ≤ length s.items.items)
        × IsGuarded s.guard (map (λ e. (e.at, e.item)) s.taken.items)
        × AreBelow s.items.cap (map (λ e. (e.at, e.item)) s.taken.items) };
}

impl<T> Stack<T> {
    ghost use Rattle.etx_stack.specs.Lends.{lends_last};

    /// The empty stack. Takes no memory.
    pub fn new(alloc: Global) -> Stack<T>
        ensures { result.items ≡ [] }
    {
        Stack {
            items: Vec::new(alloc),
            taken: Vec::new(alloc),
            guard: 0,
        }
    }

    /// How many items there are.
    pub fn len(&self) -> usize
        ensures { result ≡ length self.now.items }
    {
        self.items.len()
    }

    /// Whether there are none.
    pub fn is_empty(&self) -> bool
        ensures { IsTrue result ↔ (self.now.items ≡ []) }
    {
        self.items.is_empty()
    }

    /// The last item. `None` exactly where there is none.
    pub fn last(&self) -> Option<&T>
        ensures { option_copied result ≡ slice_get self.now.items (length self.now.items - 1) }
    {
        self.items.last()
    }

    /// The item at a place, counted from 0 at the beginning.
    pub fn get(&self, at: usize) -> &T
        requires { at < length self.now.items }
        ensures { slice_get self.now.items at ≡ Some result.now }
    {
        &self.items[at]
    }

    /// Whether there is a last item, and no mark needs it. Then its change leaves all marks what they are.
    pub fn is_free(&self) -> bool
        ensures value { result ≡ is_free self.now }
        ensures changes { is_free self.now ≡ true → (item : T) → Keeps self.now (with_last self.now item) }
    {
        self.items.len() > self.guard
    }

    /// The last item, to be changed in its place.
    pub fn last_mut(&mut self) -> &mut T
        requires { is_free self.old ≡ true }
        ensures* writes_back { sem 𝓛 (lends_last T.row self.entry result) }
        ensures value { slice_get self.old.items (length self.old.items - 1) ≡ Some result.now }
    {
        let at = self.items.len() - 1;
        &mut self.items[at]
    }

    /// How many items are kept for marks.
    fn needed(&self) -> usize
        ensures { result ≡ length self.now.taken }
    {
        self.taken.len()
    }

    /// A mark of this time: from now on the list can be made again what it is now. Takes no memory.
    pub fn mark(&mut self) -> Mark
        ensures same { self.new.items ≡ self.old.items }
        ensures live { IsLive result self.new }
        ensures now { at self.new result ≡ self.new.items }
        ensures kept { Keeps self.old self.new }
        ensures last { (m : Mark) → IsLive m self.old → IsBefore m result }
    {
        self.guard = self.items.len();
        Mark {
            taken: self.taken.len(),
            len: self.items.len(),
        }
    }
}

impl<T: Drop> Stack<T> {
    /// One more item, the last. Nothing is kept for marks.
    ///
    /// After want of memory the stack is as before.
    pub fn push(&mut self, item: T) -> Result<(), AllocError>
        ensures ok { OnOk result (self.new.items ≡ self.old.items ++ item ∷ []) }
        ensures free { OnOk result (is_free self.new ≡ true) }
        ensures err { OnErr result (self.new ≡ self.old) }
        ensures kept { Keeps self.old self.new }
    {
        self.items.push(item)?;
        Ok(())
    }

    /// Puts the last item that a mark needed back.
    fn take_back(&mut self)
        requires { 0 < length self.old.taken }
        ensures fewer { length self.new.taken + 1 ≡ length self.old.taken }
        ensures same { SameUpTo (length self.new.taken) self.old self.new }
    {
        if let Some(last) = self.taken.pop() {
            let Taken { at, item } = last;
            self.items.truncate(at);
            self.items.push_reserved(item);
            self.guard = at + 1;
        }
    }

    /// Drops the items from a place on that is at most the guard, which comes to stand there.
    fn cut(&mut self, len: usize)
        requires low { len ≤ self.old.guard }
        requires high { IsGuarded len self.old.taken }
        ensures items { self.new.items ≡ take len self.old.items }
        ensures taken { self.new.taken ≡ self.old.taken }
        ensures guard { self.new.guard ≡ len }
    {
        self.items.truncate(len);
        self.guard = len;
    }

    /// Makes the list what it was at the mark. Marks that were taken before it keep their lists. Takes no memory.
    pub fn back_to(&mut self, mark: Mark)
        requires { IsLive mark self.old }
        ensures now { self.new.items ≡ at self.old mark }
        ensures kept { (m : Mark) → IsBefore m mark → IsLive m self.old → IsSince m self.old self.new }
    {
        while self.needed() > mark.taken {
            self.take_back();
        }
        self.cut(mark.len);
    }

    /// The list stays, and no mark stands for anything any more. Takes no memory.
    pub fn forget(&mut self)
        ensures { self.new.items ≡ self.old.items }
    {
        self.taken.clear();
        self.guard = 0;
    }
}

impl<T: Share + Drop> Stack<T> {
    /// Makes the last item one that no mark needs: where one needs it, a share of it is kept. Says whether there is one.
    ///
    /// The list stays what it is, after want of memory too.
    pub fn free_last(&mut self) -> Result<bool, AllocError>
        ensures same { self.new.items ≡ self.old.items }
        ensures free { IfOk result (λ some. (some ≡ is_free self.new) × (IsTrue some ↔ (0 < length self.old.items))) }
        ensures changes { IfOk result (λ some. some ≡ true → (item : T) → Keeps self.new (with_last self.new item)) }
        ensures kept { Keeps self.old self.new }
    {
        if self.is_free() {
            return Ok(true);
        }
        self.share_needed()?;
        Ok(self.is_free())
    }

    /// The same where a mark needs the last item, or there is none.
    fn share_needed(&mut self) -> Result<(), AllocError>
        requires { length self.old.items ≤ self.old.guard }
        ensures same { self.new.items ≡ self.old.items }
        ensures free { OnOk result (0 < length self.old.items → is_free self.new ≡ true) }
        ensures kept { Keeps self.old self.new }
    {
        self.taken.reserve(1)?;
        let Some(item) = self.items.pop() else {
            return Ok(());
        };
        let at = self.items.len();
        let shared = item.share();
        self.items.push_reserved(item);
        match shared {
            Ok(same) => {
                self.taken.push_reserved(Taken { at, item: same });
                self.guard = at;
                Ok(())
            }
            Err(error) => Err(error),
        }
    }

    /// Takes the last item off and hands it out. Only where a mark needs the item, it is shared, which may want memory.
    ///
    /// After want of memory the list is as before.
    pub fn pop(&mut self) -> Result<Option<T>, AllocError>
        ensures ok { IfOk result (λ o. self.old.items ≡ self.new.items ++ option_to_list o) }
        ensures none { IfOk result (λ o. IsSome o ↔ (0 < length self.old.items)) }
        ensures err { OnErr result (self.new.items ≡ self.old.items) }
        ensures kept { Keeps self.old self.new }
    {
        let len = self.items.len();
        if len > self.guard {
            return Ok(self.items.pop());
        }
        self.pop_needed()
    }

    /// The same where a mark needs the last item, or there is none.
    fn pop_needed(&mut self) -> Result<Option<T>, AllocError>
        requires { length self.old.items ≤ self.old.guard }
        ensures ok { IfOk result (λ o. self.old.items ≡ self.new.items ++ option_to_list o) }
        ensures none { IfOk result (λ o. IsSome o ↔ (0 < length self.old.items)) }
        ensures err { OnErr result (self.new.items ≡ self.old.items) }
        ensures kept { Keeps self.old self.new }
    {
        self.taken.reserve(1)?;
        let Some(item) = self.items.pop() else {
            return Ok(None);
        };
        let at = self.items.len();
        match item.share() {
            Ok(same) => {
                self.taken.push_reserved(Taken { at, item: same });
                self.guard = at;
                Ok(Some(item))
            }
            Err(error) => {
                self.items.push_reserved(item);
                Err(error)
            }
        }
    }
}

impl<T: Drop> Stack<T> {
    /// Drops the last item, which no mark needs. Takes no memory.
    pub fn drop_free(&mut self)
        requires { is_free self.old ≡ true }
        ensures items { self.new.items ≡ take (length self.old.items - 1) self.old.items }
        ensures kept { Keeps self.old self.new }
    {
        let _ = self.items.pop();
    }

    /// Takes the last item off, and keeps it where a mark needs it. Only then memory is taken.
    ///
    /// After want of memory the list is as before.
    pub fn drop_last(&mut self) -> Result<(), AllocError>
        ensures ok { OnOk result (self.new.items ≡ take (length self.old.items - 1) self.old.items) }
        ensures err { OnErr result (self.new.items ≡ self.old.items) }
        ensures kept { Keeps self.old self.new }
    {
        let len = self.items.len();
        if len > self.guard {
            let _ = self.items.pop();
            return Ok(());
        }
        self.drop_needed()
    }

    /// The same where a mark needs the last item, or there is none.
    fn drop_needed(&mut self) -> Result<(), AllocError>
        requires { length self.old.items ≤ self.old.guard }
        ensures ok { OnOk result (self.new.items ≡ take (length self.old.items - 1) self.old.items) }
        ensures err { OnErr result (self.new.items ≡ self.old.items) }
        ensures kept { Keeps self.old self.new }
    {
        self.taken.reserve(1)?;
        if let Some(before) = self.items.pop() {
            let at = self.items.len();
            self.taken.push_reserved(Taken { at, item: before });
            self.guard = at;
        }
        Ok(())
    }

    /// Puts another item in the place of the last. Only where a mark needs the item, memory is taken.
    ///
    /// After want of memory the list is as before.
    pub fn replace_last(&mut self, item: T) -> Result<(), AllocError>
        requires { 0 < length self.old.items }
        ensures ok { OnOk result (self.new.items ≡ take (length self.old.items - 1) self.old.items ++ item ∷ []) }
        ensures err { OnErr result (self.new.items ≡ self.old.items) }
        ensures kept { Keeps self.old self.new }
    {
        let at = self.items.len() - 1;
        if at < self.guard {
            return self.replace_needed(item);
        }
        self.items[at] = item;
        Ok(())
    }

    /// The same where a mark needs the last item.
    fn replace_needed(&mut self, item: T) -> Result<(), AllocError>
        requires some { 0 < length self.old.items }
        requires needed { length self.old.items ≤ self.old.guard }
        ensures ok { OnOk result (self.new.items ≡ take (length self.old.items - 1) self.old.items ++ item ∷ []) }
        ensures err { OnErr result (self.new.items ≡ self.old.items) }
        ensures kept { Keeps self.old self.new }
    {
        self.taken.reserve(1)?;
        if let Some(before) = self.items.pop() {
            let at = self.items.len();
            self.items.push_reserved(item);
            self.taken.push_reserved(Taken { at, item: before });
            self.guard = at;
        }
        Ok(())
    }
}

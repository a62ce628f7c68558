//! The stack of what is read.
ghost use Rattle.std.specs.Prelude.{◌≡◌, ◌≤◌, true, ◌∷◌, [], ℕ, ℤ, length, IfOk, OnOk, OnErr, MatchOption};
ghost use Rattle.etx_stack.specs.Undoing.{is_free};
ghost use Rattle.etx_input.specs.Gifts.{gift_in, behind_gift, number_left, left_next, innermost_left, IsListed};
ghost use Rattle.etx_input.specs.Levels.{no_input, reading, with_list, with_file, given_of, line_number};
ghost use Rattle.etx_input.specs.Marks.{input_of, input_at, IsKept, Keeps, IsBefore};
ghost use Rattle.etx_input.specs.Runs.{fresh_in, skipped};

use crate::file::FileInput;
use crate::gift::Gift;
use crate::level::{Level, ListInput};
use crate::mark::Mark;
use crate::origin::Origin;
use etx_lexer::{CatOf, Lexed};
use etx_matter::{SharedTokens, Token, Tokens};
use etx_stack::Stack;
use std::alloc::{AllocError, Global};

/// What the input gives.
#[derive(Drop)]
pub enum Next {
    /// A token of a list.
    Listed { token: Token, origin: Origin },
    /// What is lexed of a file: a character, a name, or an invalid character.
    Lexed(Lexed),
    /// A file was over, and is left.
    FileEnd,
    /// Nothing is left to be read.
    Over,
}

/// The stack of what is read, the innermost first, and its history.
///
/// Contracts see it by `input_of`. It has no limit of its own; the machine ends the job where there are more than 10000
/// levels. The place in a level is changed where it stands; only where a mark needs the level, a share of it is kept
/// first. All calls keep all marks.
#[derive(Drop)]
pub struct Levels {
    levels: Stack<Level>,
    /// The number of lines of the outermost file, once it is left.
    left: u32,
}

/// The number of lines of the outermost file, once this level is left.
fn number_left(level: &Level, left: u32) -> u32
    ensures { result ≡ number_left level.now left }
{
    match level {
        Level::File(file) => file.number(),
        Level::List(_) => left,
    }
}

impl Levels {
    /// Nothing is to be read. Takes no memory.
    #[tactic(auto, unfolding(crate::specs::Levels::no_input, crate::specs::Marks::input_of))]
    pub fn new(alloc: Global) -> Levels
        ensures { input_of result ≡ no_input }
    {
        Levels {
            levels: Stack::new(alloc),
            left: 0,
        }
    }

    /// How many levels there are.
    #[tactic(auto, unfolding(crate::specs::Marks::input_of))]
    pub fn depth(&self) -> usize
        ensures { result ≡ length (input_of self.now).levels }
    {
        self.levels.len()
    }

    /// The number of the line that was read last: of the innermost file, or of the outermost one once it is left, or 0.
    pub fn line(&self) -> u32
        ensures { result ≡ line_number (input_of self.now) }
    {
        let mut at = self.levels.len();
        while at > 0 {
            at -= 1;
            match self.levels.get(at) {
                Level::File(file) => return file.number(),
                Level::List(_) => {}
            }
        }
        self.left
    }

    /// Reads a level before all else. Takes memory only where the stack grows.
    #[tactic(auto, unfolding(crate::specs::Marks::input_of), using(crate::proofs::Marks::keeps_by))]
    fn push(&mut self, level: Level) -> Result<(), AllocError>
        ensures ok { OnOk result (input_of self.new ≡ reading (level ∷ (input_of self.old).levels) (input_of self.old).left) }
        ensures err { OnErr result (input_of self.new ≡ input_of self.old) }
        ensures kept { Keeps self.old self.new }
    {
        self.levels.push(level)?;
        Ok(())
    }

    /// Reads a list before all else; an empty one is not read at all. After an `Err` the input is what it was.
    #[tactic(auto, unfolding(crate::specs::Levels::with_list))]
    pub fn push_shared(&mut self, tokens: SharedTokens, origin: Origin) -> Result<(), AllocError>
        ensures ok { OnOk result (input_of self.new ≡ with_list origin tokens (input_of self.old)) }
        ensures err { OnErr result (input_of self.new ≡ input_of self.old) }
        ensures kept { Keeps self.old self.new }
    {
        if tokens.as_slice().is_empty() {
            return Ok(());
        }
        self.push(Level::List(ListInput::new(tokens, origin)))
    }

    /// The same with a list that isn't shared yet.
    pub fn push_tokens(
        &mut self,
        alloc: Global,
        tokens: Tokens,
        origin: Origin,
    ) -> Result<(), AllocError>
        ensures ok { OnOk result (input_of self.new ≡ with_list origin tokens (input_of self.old)) }
        ensures err { OnErr result (input_of self.new ≡ input_of self.old) }
        ensures kept { Keeps self.old self.new }
    {
        let tokens = SharedTokens::new(alloc, tokens)?;
        self.push_shared(tokens, origin)
    }

    /// Reads one token before all else. It takes memory only where the stack grows. After an `Err` the input is what
    /// it was.
    #[tactic(auto, unfolding(crate::specs::Levels::with_list))]
    pub fn push_token(&mut self, token: Token, origin: Origin) -> Result<(), AllocError>
        ensures ok { OnOk result (input_of self.new ≡ with_list origin (token ∷ []) (input_of self.old)) }
        ensures err { OnErr result (input_of self.new ≡ input_of self.old) }
        ensures kept { Keeps self.old self.new }
    {
        self.push(Level::List(ListInput::one(token, origin)))
    }

    /// Reads a file before all else. After an `Err` the input is what it was.
    #[tactic(auto, unfolding(crate::specs::Levels::with_file))]
    pub fn push_file(&mut self, file: FileInput) -> Result<(), AllocError>
        ensures ok { OnOk result (input_of self.new ≡ with_file file (input_of self.old)) }
        ensures err { OnErr result (input_of self.new ≡ input_of self.old) }
        ensures kept { Keeps self.old self.new }
    {
        self.push(Level::File(file))
    }

    /// What a list gives that is the innermost level, which no mark needs.
    fn give_listed(&mut self) -> Gift
        requires { is_free self.old.levels ≡ true }
        ensures listed { IsListed result (input_of self.old) (input_of self.new) }
        ensures free { is_free self.new.levels ≡ true }
        ensures kept { Keeps self.old self.new }
    {
        // Says what a change keeps.
        let _free = self.levels.is_free();
        self.levels.last_mut().give_listed()
    }

    /// The next token, where the innermost level is a list that has one: it is what [`Levels::next`] gives, whatever the
    /// categories and `endline` are, which cost nothing so. `None` where they count, and where a mark needs the level; then
    /// nothing is changed. Takes no memory.
    pub fn next_listed(&mut self) -> Option<Next>
        ensures next { MatchOption result (input_of self.new ≡ input_of self.old) (λ next. (cats : ℕ → ℕ) → (endline : ℤ) → given_of cats endline (input_of self.old) ≡ record { next = next; input = input_of self.new }) }
        ensures kept { Keeps self.old self.new }
    {
        if !self.levels.is_free() {
            return None;
        }
        match self.give_listed() {
            Gift::Stay(next) => Some(next),
            Gift::Leave(next) => {
                self.leave_free();
                Some(next)
            }
            Gift::Empty => None,
        }
    }

    /// What the innermost level gives. After an `Err` the input is only dropped, or taken back to a mark.
    fn give<C: CatOf>(&mut self, alloc: Global, endline: i32, cats: &C) -> Result<Gift, AllocError>
        ensures gift { IfOk result (λ gift. gift ≡ gift_in (C.category cats.now) endline (input_of self.old).levels) }
        ensures input { OnOk result (input_of self.new ≡ reading (behind_gift (C.category cats.now) endline (input_of self.old).levels) (input_of self.old).left) }
        ensures kept { Keeps self.old self.new }
    {
        if !self.levels.free_last()? {
            return Ok(Gift::Stay(Next::Over));
        }
        let gift = self.levels.last_mut().give(alloc, endline, cats)?;
        Ok(gift)
    }

    /// The number of lines of the outermost file, once the innermost level is left.
    #[tactic(auto, unfolding(crate::specs::Marks::input_of))]
    fn left_next(&self) -> u32
        ensures { result ≡ left_next (input_of self.now).levels (input_of self.now).left }
    {
        match self.levels.last() {
            None => self.left,
            Some(level) => number_left(level, self.left),
        }
    }

    /// Leaves the innermost level, which no mark needs. Takes no memory.
    fn leave_free(&mut self)
        requires { is_free self.old.levels ≡ true }
        ensures left { input_of self.new ≡ innermost_left (input_of self.old).levels (input_of self.old).left }
        ensures kept { Keeps self.old self.new }
    {
        let left = self.left_next();
        self.levels.drop_free();
        self.left = left;
    }

    /// Leaves the innermost level. After an `Err` the input is only dropped, or taken back to a mark.
    fn leave(&mut self) -> Result<(), AllocError>
        ensures left { OnOk result (input_of self.new ≡ innermost_left (input_of self.old).levels (input_of self.old).left) }
        ensures kept { Keeps self.old self.new }
    {
        let left = self.left_next();
        self.levels.drop_last()?;
        self.left = left;
        Ok(())
    }

    /// What the input gives next. A file is lexed under these categories, and a line that is read gets the character
    /// `endline`, if that is 0 to 255. After an `Err` the input is only dropped, or taken back to a mark.
    pub fn next<C: CatOf>(
        &mut self,
        alloc: Global,
        endline: i32,
        cats: &C,
    ) -> Result<Next, AllocError>
        ensures next { IfOk result (λ next. next ≡ (given_of (C.category cats.now) endline (input_of self.old)).next) }
        ensures input { OnOk result (input_of self.new ≡ (given_of (C.category cats.now) endline (input_of self.old)).input) }
        ensures kept { Keeps self.old self.new }
    {
        'levels: loop {
            match self.give(alloc, endline, cats)? {
                Gift::Stay(next) => return Ok(next),
                Gift::Leave(next) => {
                    self.leave()?;
                    return Ok(next);
                }
                Gift::Empty => self.leave()?,
            }
        }
    }

    /// The tokens to come of the innermost level, where that is a list of tokens that count as steps. They are what
    /// [`Levels::next`] gives one after another, whatever the categories and `endline` are (`fresh_tokens_are_given`).
    #[tactic(auto, unfolding(crate::specs::Marks::input_of))]
    pub fn fresh(&self) -> &[Token]
        ensures { result.now ≡ fresh_in (input_of self.now).levels }
    {
        match self.levels.last() {
            None => &[],
            Some(level) => level.fresh(),
        }
    }

    /// Takes some of these tokens at once; the level is left with its last. Takes memory only where a mark needs the level.
    /// After an `Err` the input is what it was.
    #[tactic(auto, unfolding(crate::specs::Marks::input_of, crate::specs::Runs::skipped))]
    pub fn skip(&mut self, count: usize) -> Result<(), AllocError>
        requires { count ≤ length (fresh_in (input_of self.old).levels) }
        ensures ok { OnOk result (input_of self.new ≡ skipped count (input_of self.old)) }
        ensures err { OnErr result (input_of self.new ≡ input_of self.old) }
        ensures kept { Keeps self.old self.new }
    {
        if !self.levels.free_last()? {
            return Ok(());
        }
        if self.levels.last_mut().skip(count) {
            self.levels.drop_free();
        }
        Ok(())
    }

    /// A mark of this time: from now on the input can be made again what it is now. Takes no memory.
    #[tactic(auto, unfolding(crate::specs::Marks::input_of, crate::specs::Marks::input_at, crate::specs::Marks::IsKept))]
    pub fn mark(&mut self) -> Mark
        ensures same { input_of self.new ≡ input_of self.old }
        ensures live { IsKept result self.new self.new }
        ensures now { input_at self.new result ≡ input_of self.new }
        ensures kept { Keeps self.old self.new }
        ensures before { (m : Mark) (first : Levels) → IsKept m first self.old → IsBefore m result }
    {
        let levels = self.levels.mark();
        Mark {
            levels,
            left: self.left,
        }
    }

    /// Makes the input what it was at the mark. Marks that were taken before it stay. Takes no memory.
    #[tactic(auto, unfolding(crate::specs::Marks::input_of, crate::specs::Marks::input_at, crate::specs::Marks::IsKept))]
    pub fn back_to(&mut self, mark: Mark)
        requires { IsKept mark self.old self.old }
        ensures input { (first : Levels) → IsKept mark first self.old → input_of self.new ≡ input_at first mark }
        ensures kept { (m : Mark) (first : Levels) → IsBefore m mark → IsKept m first self.old → IsKept m first self.new }
    {
        self.levels.back_to(mark.levels);
        self.left = mark.left;
    }

    /// The input stays, and no mark stands for anything any more. Takes no memory.
    #[tactic(auto, unfolding(crate::specs::Marks::input_of))]
    pub fn forget(&mut self)
        ensures { input_of self.new ≡ input_of self.old }
    {
        self.levels.forget();
    }
}

//! What one level of the input gives.
ghost use Rattle.std.specs.Prelude.{◌≡◌, IfOk, OnOk};
ghost use Rattle.etx_input.specs.Files.{got_of};
ghost use Rattle.etx_input.specs.Gifts.{list_gift, list_behind, file_gift, level_gift, level_behind, IsListedBy};

use crate::file::FileInput;
use crate::level::{Level, ListInput};
use crate::levels::Next;
use etx_lexer::CatOf;
use std::alloc::{AllocError, Global};

/// What the innermost level gives, and whether it is then left.
#[derive(Drop)]
pub(crate) enum Gift {
    /// It gives this, and stays.
    Stay(Next),
    /// It gives this, and is left.
    Leave(Next),
    /// It gives nothing, and is left.
    Empty,
}

/// What a list gives.
fn give_token(list: &mut ListInput) -> Gift
    ensures gift { result ≡ list_gift list.old.rest list.old.origin }
    ensures list { list.new ≡ list_behind list.old }
{
    match list.next() {
        None => Gift::Empty,
        Some(token) => {
            let origin = list.origin();
            if list.is_over() {
                Gift::Leave(Next::Listed { token, origin })
            } else {
                Gift::Stay(Next::Listed { token, origin })
            }
        }
    }
}

/// What a file gives.
fn give_lexed<C: CatOf>(
    file: &mut FileInput,
    alloc: Global,
    endline: i32,
    cats: &C,
) -> Result<Gift, AllocError>
    ensures gift { IfOk result (λ gift. gift ≡ file_gift (got_of (C.category cats.now) endline file.old).lexed) }
    ensures file { OnOk result (file.new ≡ (got_of (C.category cats.now) endline file.old).file) }
{
    match file.next(alloc, endline, cats)? {
        None => Ok(Gift::Leave(Next::FileEnd)),
        Some(lexed) => Ok(Gift::Stay(Next::Lexed(lexed))),
    }
}

impl Level {
    /// What the level gives, if it is a list.
    #[tactic(auto, using(crate::proofs::Listed::list_listed))]
    pub(crate) fn give_listed(&mut self) -> Gift
        ensures { IsListedBy result self.old self.new }
    {
        match self {
            Level::File(_) => Gift::Empty,
            Level::List(list) => give_token(list),
        }
    }

    /// What the level gives. After an `Err` it is only dropped.
    pub(crate) fn give<C: CatOf>(
        &mut self,
        alloc: Global,
        endline: i32,
        cats: &C,
    ) -> Result<Gift, AllocError>
        ensures gift { IfOk result (λ gift. gift ≡ level_gift (C.category cats.now) endline self.old) }
        ensures level { OnOk result (self.new ≡ level_behind (C.category cats.now) endline self.old) }
    {
        match self {
            Level::File(file) => {
                let gift = give_lexed(file, alloc, endline, cats)?;
                Ok(gift)
            }
            Level::List(list) => Ok(give_token(list)),
        }
    }
}

//! What the state keeps of a key, and what the end of a group does.
ghost use Rattle.std.specs.Prelude.{◌≡◌, IfOk};

use crate::key::{GroupKind, Val};
use etx_keys::Key;
use etx_matter::Token;
use std::alloc::AllocError;

/// A value, and the number of the group whose map it stands in, or 0.
#[derive(Drop)]
pub struct Cell {
    pub value: Val,
    pub level: u32,
}

impl Cell {
    /// The same cell.
    pub fn share(&self) -> Result<Cell, AllocError>
        ensures { IfOk result (λ cell. cell ≡ self.now) }
    {
        let value = self.value.share()?;
        Ok(Cell {
            value,
            level: self.level,
        })
    }
}

/// What the end of a group does, the last first.
#[derive(Drop)]
pub enum Item {
    /// It puts the cell of the key back.
    Undo { key: Key, cell: Cell },
    /// It hands the token out, to be read.
    After(Token),
    /// The group began here.
    Begin(GroupKind),
}

impl Item {
    /// The same item.
    pub fn share(&self) -> Result<Item, AllocError>
        ensures { IfOk result (λ item. item ≡ self.now) }
    {
        match self {
            Item::Undo { key, cell } => {
                let cell = cell.share()?;
                Ok(Item::Undo { key: *key, cell })
            }
            Item::After(token) => Ok(Item::After(*token)),
            Item::Begin(kind) => Ok(Item::Begin(*kind)),
        }
    }
}

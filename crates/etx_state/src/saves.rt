//! The cells and the stack of what the ends of groups do, one step at a time.
ghost use Rattle.std.specs.Prelude.{◌≡◌, ◌+◌, ◌<◌, ◌≤◌, ◌^◌, ◌∷◌, [], OnOk, OnErr, IfOk, Some, None};
ghost use Rattle.std.specs.Option.{option_copied};
ghost use Rattle.etx_state.specs.Saves.{
  cells_of,
  items_of,
  put,
  back,
  left_of,
  depth_of,
  depth_after,
  top_of,
  tail_of,
  kind_in,
  KeepsIn,
  IsSound,
  IsTied,
  ItemFits,
};
ghost use Rattle.etx_state.specs.Fits.{Fits};

use crate::cell::{Cell, Item};
use crate::initial::Firsts;
use crate::key::GroupKind;
use crate::noted::Noted;
use crate::parts::Parts;
use crate::slots::slot;
use etx_keys::Key;
use std::alloc::AllocError;

/// The cell of the key.
#[tactic(auto, unfolding(crate::specs::Saves::cells_of))]
pub fn cell(parts: &Parts, firsts: &Firsts, key: Key) -> Result<Cell, AllocError>
    ensures { IfOk result (λ cell. cell ≡ cells_of parts.now key) }
{
    match parts.store.get(slot(key)) {
        Some(cell) => cell.share(),
        None => Ok(Cell {
            value: firsts.get(key).share()?,
            level: 0,
        }),
    }
}

/// The number of the group whose map the key's value stands in, or 0.
#[tactic(auto, unfolding(crate::specs::Saves::cells_of))]
pub fn level(parts: &Parts, key: Key) -> u32
    ensures { result ≡ (cells_of parts.now key).level }
{
    match parts.store.get(slot(key)) {
        Some(cell) => cell.level,
        None => 0,
    }
}

/// Puts a cell in the place of the key's.
pub fn put_cell(parts: &mut Parts, key: Key, cell: Cell) -> Result<(), AllocError>
    requires sound { IsSound parts.old }
    requires tied { IsTied (items_of parts.old) (put (cells_of parts.old) key cell) }
    requires fits { Fits key cell.value }
    ensures cells { OnOk result (cells_of parts.new ≡ put (cells_of parts.old) key cell) }
    ensures items { OnOk result (items_of parts.new ≡ items_of parts.old) }
    ensures depth { parts.new.depth ≡ parts.old.depth }
    ensures sound { IsSound parts.new }
    ensures err { OnErr result (parts.new ≡ parts.old) }
    ensures kept { KeepsIn parts.old parts.new }
{
    parts.store.set(slot(key), cell)?;
    Ok(())
}

/// The depth with one item more.
fn deeper(item: &Item, depth: u32) -> u32
    requires { depth + 1 < 2 ^ 32 }
    ensures { result ≡ depth_after item.now depth }
{
    match item {
        Item::Begin(_) => depth + 1,
        Item::After(_) => depth,
        Item::Undo { .. } => depth,
    }
}

/// The depth with this item less.
fn shallower(item: &Item, depth: u32) -> u32
    requires { depth_after item.now 0 ≤ depth }
    ensures { depth ≡ depth_after item.now result }
{
    match item {
        Item::Begin(_) => depth - 1,
        Item::After(_) => depth,
        Item::Undo { .. } => depth,
    }
}

/// One more item on the stack.
pub fn push(parts: &mut Parts, item: Item) -> Result<(), AllocError>
    requires sound { IsSound parts.old }
    requires tied { IsTied (item ∷ items_of parts.old) (cells_of parts.old) }
    requires fits { ItemFits item }
    ensures items { OnOk result (items_of parts.new ≡ item ∷ items_of parts.old) }
    ensures cells { OnOk result (cells_of parts.new ≡ cells_of parts.old) }
    ensures sound { IsSound parts.new }
    ensures err { OnErr result (parts.new ≡ parts.old) }
    ensures kept { KeepsIn parts.old parts.new }
{
    if parts.depth == u32::MAX {
        return Err(AllocError);
    }
    let depth = deeper(&item, parts.depth);
    parts.stack.push(item)?;
    parts.depth = depth;
    Ok(())
}

/// The kind of the last group that began.
pub fn last_kind(parts: &Parts) -> Option<GroupKind>
    ensures { result ≡ kind_in (items_of parts.now) }
{
    let mut count = parts.stack.len();
    while count > 0 {
        count -= 1;
        match parts.stack.get(count) {
            Item::Begin(kind) => return Some(*kind),
            _ => {}
        }
    }
    None
}

/// The last item of the stack.
fn last(parts: &Parts) -> Option<&Item>
    ensures { option_copied result ≡ top_of (items_of parts.now) }
{
    parts.stack.last()
}

/// The same, once more.
fn top(parts: &Parts) -> Result<Option<Item>, AllocError>
    ensures { IfOk result (λ item. item ≡ top_of (items_of parts.now)) }
{
    match last(parts) {
        None => Ok(None),
        Some(item) => {
            let item = item.share()?;
            Ok(Some(item))
        }
    }
}

/// Takes the last item off the stack.
fn drop_top(parts: &mut Parts, item: &Item) -> Result<(), AllocError>
    requires sound { IsSound parts.old }
    requires top { top_of (items_of parts.old) ≡ Some item.now }
    requires tied { IsTied (tail_of (items_of parts.old)) (cells_of parts.old) }
    ensures items { OnOk result (items_of parts.new ≡ tail_of (items_of parts.old)) }
    ensures cells { OnOk result (cells_of parts.new ≡ cells_of parts.old) }
    ensures sound { IsSound parts.new }
    ensures kept { KeepsIn parts.old parts.new }
{
    let depth = shallower(item, parts.depth);
    parts.stack.drop_last()?;
    parts.depth = depth;
    Ok(())
}

/// Puts back what the cell was, unless it was assigned globally since.
fn put_back(parts: &mut Parts, key: Key, was: Cell) -> Result<(), AllocError>
    requires sound { IsSound parts.old }
    requires top { top_of (items_of parts.old) ≡ Some (Item.Undo key was) }
    ensures cells { OnOk result (cells_of parts.new ≡ back (depth_of (items_of parts.old)) (cells_of parts.old) key was) }
    ensures items { OnOk result (items_of parts.new ≡ items_of parts.old) }
    ensures sound { IsSound parts.new }
    ensures kept { KeepsIn parts.old parts.new }
{
    if level(parts, key) != parts.depth {
        return Ok(());
    }
    put_cell(parts, key, was)?;
    Ok(())
}

/// The same, and takes the item off the stack.
fn undo(parts: &mut Parts, key: Key, was: Cell) -> Result<(), AllocError>
    requires sound { IsSound parts.old }
    requires top { top_of (items_of parts.old) ≡ Some (Item.Undo key was) }
    ensures cells { OnOk result (cells_of parts.new ≡ back (depth_of (items_of parts.old)) (cells_of parts.old) key was) }
    ensures items { OnOk result (items_of parts.new ≡ tail_of (items_of parts.old)) }
    ensures sound { IsSound parts.new }
    ensures kept { KeepsIn parts.old parts.new }
{
    let cell = was.share()?;
    put_back(parts, key, was)?;
    drop_top(parts, &Item::Undo { key, cell })?;
    Ok(())
}

/// Takes items off the stack up to the beginning of the group.
pub fn unwind(parts: &mut Parts, noted: &mut Noted) -> Result<Option<GroupKind>, AllocError>
    requires { IsSound parts.old }
    ensures kind { IfOk result (λ o. o ≡ (left_of noted.old (items_of parts.old) (cells_of parts.old)).kind) }
    ensures input { OnOk result (noted.new ≡ (left_of noted.old (items_of parts.old) (cells_of parts.old)).input) }
    ensures items { OnOk result (items_of parts.new ≡ (left_of noted.old (items_of parts.old) (cells_of parts.old)).items) }
    ensures cells { OnOk result (cells_of parts.new ≡ (left_of noted.old (items_of parts.old) (cells_of parts.old)).cells) }
    ensures sound { IsSound parts.new }
    ensures kept { KeepsIn parts.old parts.new }
{
    while let Some(item) = top(parts)? {
        match item {
            Item::Begin(kind) => {
                drop_top(parts, &Item::Begin(kind))?;
                return Ok(Some(kind));
            }
            Item::After(token) => {
                noted.push(token)?;
                drop_top(parts, &Item::After(token))?;
            }
            Item::Undo { key, cell } => undo(parts, key, cell)?,
        }
    }
    Ok(None)
}

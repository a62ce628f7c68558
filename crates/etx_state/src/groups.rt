//! The calls on values in groups, over the parts.
ghost use Rattle.std.specs.Prelude.{◌≡◌, ◌++◌, OnOk, OnErr, IfOk};
ghost use Rattle.etx_state.specs.Fits.{Fits};
ghost use Rattle.etx_state.specs.Values.{assign, assign_global, change, begin, ended, kind, after, noted};
ghost use Rattle.etx_state.specs.Saves.{values_in, KeepsIn, IsSound};

use crate::cell::{Cell, Item};
use crate::initial::Firsts;
use crate::key::{GroupKind, Val};
use crate::noted::Noted;
use crate::parts::Parts;
use crate::saves;
use etx_keys::Key;
use etx_matter::Token;
use std::alloc::AllocError;

pub fn assign(parts: &mut Parts, firsts: &Firsts, key: Key, value: Val) -> Result<(), AllocError>
    requires sound { IsSound parts.old }
    requires fits { Fits key value }
    ensures ok { OnOk result (values_in parts.new ≡ assign (values_in parts.old) key value) }
    ensures sound { IsSound parts.new }
    ensures kept { KeepsIn parts.old parts.new }
{
    let level = parts.depth;
    if saves::level(parts, key) == level {
        saves::put_cell(parts, key, Cell { value, level })?;
        return Ok(());
    }
    let cell = saves::cell(parts, firsts, key)?;
    saves::push(parts, Item::Undo { key, cell })?;
    saves::put_cell(parts, key, Cell { value, level })?;
    Ok(())
}

pub fn assign_global(parts: &mut Parts, key: Key, value: Val) -> Result<(), AllocError>
    requires sound { IsSound parts.old }
    requires fits { Fits key value }
    ensures ok { OnOk result (values_in parts.new ≡ assign_global (values_in parts.old) key value) }
    ensures err { OnErr result (parts.new ≡ parts.old) }
    ensures sound { IsSound parts.new }
    ensures kept { KeepsIn parts.old parts.new }
{
    saves::put_cell(parts, key, Cell { value, level: 0 })?;
    Ok(())
}

pub fn change(parts: &mut Parts, key: Key, value: Val) -> Result<(), AllocError>
    requires sound { IsSound parts.old }
    requires fits { Fits key value }
    ensures ok { OnOk result (values_in parts.new ≡ change (values_in parts.old) key value) }
    ensures err { OnErr result (parts.new ≡ parts.old) }
    ensures sound { IsSound parts.new }
    ensures kept { KeepsIn parts.old parts.new }
{
    let level = saves::level(parts, key);
    saves::put_cell(parts, key, Cell { value, level })?;
    Ok(())
}

pub fn begin(parts: &mut Parts, kind: GroupKind) -> Result<(), AllocError>
    requires { IsSound parts.old }
    ensures ok { OnOk result (values_in parts.new ≡ begin (values_in parts.old) kind) }
    ensures err { OnErr result (parts.new ≡ parts.old) }
    ensures sound { IsSound parts.new }
    ensures kept { KeepsIn parts.old parts.new }
{
    saves::push(parts, Item::Begin(kind))?;
    Ok(())
}

pub fn after(parts: &mut Parts, token: Token) -> Result<(), AllocError>
    requires { IsSound parts.old }
    ensures ok { OnOk result (values_in parts.new ≡ noted (values_in parts.old) token) }
    ensures err { OnErr result (parts.new ≡ parts.old) }
    ensures sound { IsSound parts.new }
    ensures kept { KeepsIn parts.old parts.new }
{
    if parts.depth == 0 {
        return Ok(());
    }
    saves::push(parts, Item::After(token))?;
    Ok(())
}

pub fn end(parts: &mut Parts, noted: &mut Noted) -> Result<Option<GroupKind>, AllocError>
    requires { IsSound parts.old }
    ensures kind { IfOk result (λ o. o ≡ kind (values_in parts.old)) }
    ensures ok { OnOk result (values_in parts.new ≡ ended (values_in parts.old)) }
    ensures after { OnOk result (noted.new ≡ after (values_in parts.old) ++ noted.old) }
    ensures sound { IsSound parts.new }
    ensures kept { KeepsIn parts.old parts.new }
{
    let kind = saves::unwind(parts, noted)?;
    Ok(kind)
}

pub fn kind(parts: &Parts) -> Option<GroupKind>
    ensures { result ≡ kind (values_in parts.now) }
{
    saves::last_kind(parts)
}

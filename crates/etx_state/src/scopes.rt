//! The values of the state, in groups.
ghost use Rattle.std.specs.Prelude.{◌≡◌, ◌≤◌, ◌++◌, OnOk, OnErr, IfOk};
ghost use Rattle.etx_undo.specs.declared.state_mark.RestMark.{RestMark};
ghost use Rattle.etx_state.specs.declared.parts.Parts.{Parts};
ghost use Rattle.etx_state.specs.Fits.{Fits};
ghost use Rattle.etx_state.specs.Values.{get, assign, assign_global, change, begin, ended, kind, after, noted, level, outermost};
ghost use Rattle.etx_state.specs.Initial.{first_of};
ghost use Rattle.etx_state.specs.Frozen.{frozen_meaning};
ghost use Rattle.etx_state.specs.Reading.{category_in};
ghost use Rattle.etx_state.specs.Saves.{values_in, values_in_at, KeepsIn, IsKeptIn, IsBeforeIn, cells_of, cells_at, IsSound};

use crate::initial::Firsts;
use crate::key::{GroupKind, Meaning, Val};
use crate::noted::Noted;
use crate::parts::Parts;
use crate::slots::slot;
use crate::{groups, history};
use etx_keys::Key;
use etx_matter::{NameId, Token};
use etx_prims::CodeKind;
use etx_stack::{Mark, Stack};
use etx_undo::{RestMark, Store};
use std::alloc::{AllocError, Global};
use std::marker::Model;

/// Values under keys, in groups: the cells of keys in a store, and what the ends of groups put back on a stack.
#[derive(Drop)]
pub struct Scopes {
    parts: Parts,
    firsts: Firsts,
}

impl Model for Scopes {
    ghost use Rattle.etx_state.specs.declared.parts.Parts.{Parts};

    ghost Value = { Parts };

    ghost use Rattle.etx_state.specs.Saves.{IsSound};

    ghost view = { λ s. s.parts };

    ghost invariant = { λ s. IsSound s.parts };
}

impl Scopes {
    /// INITEX's values, with no group open.
    pub fn new(alloc: Global) -> Result<Scopes, AllocError>
        ensures { IfOk result (λ scopes. values_in scopes ≡ outermost first_of) }
    {
        let firsts = Firsts::new(alloc)?;
        Ok(Scopes {
            parts: Parts {
                store: Store::new(alloc),
                stack: Stack::new(alloc),
                depth: 0,
            },
            firsts,
        })
    }

    /// The value in the innermost map that has the key.
    pub fn get(&self, key: Key) -> &Val
        ensures value { result.now ≡ get (values_in self.now) key }
        ensures fits { Fits key result.now }
    {
        self.held(key)
    }

    /// The category of a character, at most 15.
    #[tactic(auto, unfolding(crate::specs::Reading::category_in))]
    pub fn category(&self, code: u8) -> u8
        ensures value { result ≡ category_in (values_in self.now) code }
        ensures small { result ≤ 15 }
    {
        match self.get(Key::Code {
            kind: CodeKind::Cat,
            code,
        }) {
            Val::Int(category) => *category as u8,
            _ => unreachable!(),
        }
    }

    /// What a control sequence means whose number is above those of all names.
    pub fn frozen(&self, name: NameId) -> &Meaning
        ensures { result.now ≡ frozen_meaning name.0 }
    {
        self.firsts.frozen(name)
    }

    #[tactic(auto, unfolding(crate::specs::Saves::cells_of))]
    fn held(&self, key: Key) -> &Val
        ensures value { result.now ≡ (cells_of self.now key).value }
        ensures sound { IsSound self.now }
    {
        match self.parts.store.get(slot(key)) {
            Some(cell) => &cell.value,
            None => self.firsts.get(key),
        }
    }

    /// The number of open groups.
    pub fn level(&self) -> u32
        ensures { result ≡ level (values_in self.now) }
    {
        self.parts.depth
    }

    /// The kind of the innermost group.
    pub fn kind(&self) -> Option<GroupKind>
        ensures { result ≡ kind (values_in self.now) }
    {
        groups::kind(&self.parts)
    }

    /// Writes the innermost map.
    pub fn assign(&mut self, key: Key, value: Val) -> Result<(), AllocError>
        requires { Fits key value }
        ensures ok { OnOk result (values_in self.new ≡ assign (values_in self.old) key value) }
        ensures kept { KeepsIn self.old self.new }
    {
        groups::assign(&mut self.parts, &self.firsts, key, value)
    }

    /// Writes the outermost map, and takes the key out of all others.
    pub fn assign_global(&mut self, key: Key, value: Val) -> Result<(), AllocError>
        requires { Fits key value }
        ensures ok { OnOk result (values_in self.new ≡ assign_global (values_in self.old) key value) }
        ensures err { OnErr result (self.new ≡ self.old) }
        ensures kept { KeepsIn self.old self.new }
    {
        groups::assign_global(&mut self.parts, key, value)
    }

    /// Writes the innermost map that has the key.
    pub fn change(&mut self, key: Key, value: Val) -> Result<(), AllocError>
        requires { Fits key value }
        ensures ok { OnOk result (values_in self.new ≡ change (values_in self.old) key value) }
        ensures err { OnErr result (self.new ≡ self.old) }
        ensures kept { KeepsIn self.old self.new }
    {
        groups::change(&mut self.parts, key, value)
    }

    /// One more group.
    pub fn begin(&mut self, kind: GroupKind) -> Result<(), AllocError>
        ensures ok { OnOk result (values_in self.new ≡ begin (values_in self.old) kind) }
        ensures err { OnErr result (self.new ≡ self.old) }
        ensures kept { KeepsIn self.old self.new }
    {
        groups::begin(&mut self.parts, kind)
    }

    /// Notes a token that is read after the end of the innermost group.
    pub fn after(&mut self, token: Token) -> Result<(), AllocError>
        ensures ok { OnOk result (values_in self.new ≡ noted (values_in self.old) token) }
        ensures err { OnErr result (self.new ≡ self.old) }
        ensures kept { KeepsIn self.old self.new }
    {
        groups::after(&mut self.parts, token)
    }

    /// The end of the innermost group, whose kind it answers.
    pub fn end(&mut self, noted: &mut Noted) -> Result<Option<GroupKind>, AllocError>
        ensures kind { IfOk result (λ o. o ≡ kind (values_in self.old)) }
        ensures ok { OnOk result (values_in self.new ≡ ended (values_in self.old)) }
        ensures after { OnOk result (noted.new ≡ after (values_in self.old) ++ noted.old) }
        ensures kept { KeepsIn self.old self.new }
    {
        groups::end(&mut self.parts, noted)
    }

    /// The value under the key at the mark.
    pub fn value_at(&self, mark: RestMark, key: Key) -> &Val
        requires { IsKeptIn mark self.now self.now }
        ensures value { result.now ≡ get (values_in_at self.now mark) key }
        ensures fits { Fits key result.now }
    {
        self.held_at(mark, key)
    }

    #[tactic(auto, unfolding(crate::specs::Saves::cells_at))]
    fn held_at(&self, mark: RestMark, key: Key) -> &Val
        requires { IsKeptIn mark self.now self.now }
        ensures { result.now ≡ (cells_at self.now mark key).value }
    {
        match self.parts.store.value_at(mark.values, slot(key)) {
            Some(cell) => &cell.value,
            None => self.firsts.get(key),
        }
    }

    /// A mark of this time, where there are so many names. Takes no memory.
    pub fn mark(&mut self, names: u32, conditions: Mark, mag: u16) -> RestMark
        ensures names { result.names ≡ names }
        ensures conditions { result.conditions ≡ conditions }
        ensures mag { result.mag ≡ mag }
        ensures same { values_in self.new ≡ values_in self.old }
        ensures live { IsKeptIn result self.new self.new }
        ensures values { values_in_at self.new result ≡ values_in self.new }
        ensures kept { KeepsIn self.old self.new }
        ensures before { (m : RestMark) (first : Parts) → IsKeptIn m first self.old → IsBeforeIn m result }
    {
        history::mark(&mut self.parts, names, conditions, mag)
    }

    /// Makes the values what they were at the mark. Takes no memory.
    pub fn back_to(&mut self, mark: RestMark)
        requires { IsKeptIn mark self.old self.old }
        ensures values { values_in self.new ≡ values_in_at self.old mark }
        ensures kept { (m : RestMark) (first : Parts) → IsBeforeIn m mark → IsKeptIn m first self.old → IsKeptIn m first self.new }
    {
        history::back_to(&mut self.parts, mark);
    }

    /// Forgets what was. The values stay. Takes no memory.
    pub fn forget(&mut self)
        ensures { values_in self.new ≡ values_in self.old }
    {
        history::forget(&mut self.parts);
    }
}

// The trusted edge: the files of the current folder, and standard output.
//
// No clause can say what a folder or a terminal holds, so neither type tells it. What their clauses say is that a
// count rises at each `Err`, and at no other time. Beyond that they are tested.
ghost use Rattle.std.specs.Prelude.{◌≡◌, ℕ, ⊤, [], None, OnOk, OnErr, ◌≤◌};
ghost use Rattle.etx_outside.specs.Faults.{Counts};
ghost use Rattle.etx_outside.specs.Memory.{next};

use crate::{LONGEST_FILE, Loaded, TermFault, Terminal, Tree, TreeFault};
use etx_lists::Bytes;
use std::alloc::{AllocError, Global};
use std::fs::{OpenFile, OpenOptions};
use std::io::{ErrorKind, Read, Write};
use std::marker::Model;
use std::rt::Files;
use std::{fs, io};

impl From<io::Error> for TreeFault {
    fn from(error: io::Error) -> Self {
        match error.kind() {
            ErrorKind::OutOfMemory => TreeFault::OutOfMemory,
            _ => TreeFault::Failed,
        }
    }
}

impl From<io::Error> for TermFault {
    fn from(error: io::Error) -> Self {
        match error.kind() {
            ErrorKind::OutOfMemory => TermFault::OutOfMemory,
            _ => TermFault::Failed,
        }
    }
}

/// The files of the current folder. It tells none of its contents.
#[derive(Drop)]
pub struct RealTree<R: Drop> {
    rt: R,
    read_faults: u64,
    write_faults: u64,
}

impl<R: Drop> Model for RealTree<R> {
    ghost use Rattle.etx_outside.specs.Faults.{Counts};

    ghost Value = { Counts };

    ghost view = { λ t. record { reads = t.read_faults; writes = t.write_faults } };
}

/// The name as a path. A name that is no text fails.
fn path(name: &[u8]) -> Result<&str, TreeFault> {
    match std::str::from_utf8(name) {
        Ok(path) => Ok(path),
        Err(_) => Err(TreeFault::Failed),
    }
}

/// Reads a file, of which at most one byte more than may be loaded.
fn load_file<R: Files>(alloc: Global, rt: &R, name: &[u8]) -> Result<Loaded, TreeFault> {
    let file = match fs::open(rt, path(name)?) {
        Ok(file) => file,
        Err(error) => {
            return match error.kind() {
                ErrorKind::NotFound => Ok(Loaded::Absent),
                _ => Err(TreeFault::from(error)),
            };
        }
    };
    let most = LONGEST_FILE + 1;
    let size = file.metadata()?.len().min(most as u64);
    let mut bytes = Vec::with_capacity(alloc, size as usize + 1)?;
    file.take(most as u64).read_to_end(&mut bytes)?;
    if bytes.len() > LONGEST_FILE {
        return Ok(Loaded::TooLong);
    }
    Ok(Loaded::Bytes(Bytes::from_vec(bytes)?))
}

fn append_to_file<R: Files>(rt: &R, name: &[u8], bytes: &[u8]) -> Result<(), TreeFault> {
    let mut file = OpenOptions::new().append(true).open(rt, path(name)?)?;
    file.write_all(bytes)?;
    Ok(())
}

fn create_file<R: Files>(rt: &R, name: &[u8]) -> Result<(), TreeFault> {
    fs::create(rt, path(name)?)?;
    Ok(())
}

impl<R: Files + Clone + Drop> RealTree<R> {
    /// The files of the current folder of this runtime, which is kept. Takes no memory.
    pub fn new(rt: &R) -> RealTree<R>
        requires { R.is_infallible rt.now }
        ensures { result ≡ record { reads = 0; writes = 0 } }
    {
        match rt.clone() {
            Ok(rt) => RealTree {
                rt,
                read_faults: 0,
                write_faults: 0,
            },
            Err(_) => unreachable!(),
        }
    }
}

impl<R: Drop> RealTree<R> {
    /// How many loads answered an `Err`, up to 2^64-1.
    pub fn read_faults(&self) -> u64
        ensures { result ≡ self.now.reads }
    {
        self.read_faults
    }

    /// How many creations and additions answered an `Err`, up to 2^64-1.
    pub fn write_faults(&self) -> u64
        ensures { result ≡ self.now.writes }
    {
        self.write_faults
    }
}

impl<R: Files + Drop> Tree for RealTree<R> {
    ghost tells = { ⊥ };

    ghost files = { λ _ _. None };

    ghost asked = { λ _. [] };

    ghost is_open = { λ _ _. ⊤ };

    ghost faults = { λ t. t };

    ghost counts_only_faults = { ⊤ };

    fn load(&mut self, alloc: Global, name: &[u8]) -> Result<Loaded, TreeFault>
        ensures ok { OnOk result (self.new ≡ self.old) }
        ensures err { OnErr result (self.new ≡ record self.old { reads = next self.old.reads }) }
        ensures later { self.old.reads ≤ self.new.reads }
    {
        let loaded = load_file(alloc, &self.rt, name);
        if loaded.is_err() {
            self.read_faults = self.read_faults.saturating_add(1);
        }
        loaded
    }

    fn create(&mut self, _alloc: Global, name: &[u8]) -> Result<(), TreeFault>
        ensures ok { OnOk result (self.new ≡ self.old) }
        ensures err { OnErr result (self.new ≡ record self.old { writes = next self.old.writes }) }
        ensures later { self.old.writes ≤ self.new.writes }
    {
        let created = create_file(&self.rt, name);
        if created.is_err() {
            self.write_faults = self.write_faults.saturating_add(1);
        }
        created
    }

    fn append(&mut self, _alloc: Global, name: &[u8], bytes: &[u8]) -> Result<(), TreeFault>
        ensures ok { OnOk result (self.new ≡ self.old) }
        ensures err { OnErr result (self.new ≡ record self.old { writes = next self.old.writes }) }
        ensures later { self.old.writes ≤ self.new.writes }
    {
        let appended = append_to_file(&self.rt, name, bytes);
        if appended.is_err() {
            self.write_faults = self.write_faults.saturating_add(1);
        }
        appended
    }
}

/// Standard output. It tells none of its text.
#[derive(Drop)]
pub struct RealTerminal<R: Drop> {
    rt: R,
    faults: u64,
}

impl<R: Drop> Model for RealTerminal<R> {
    ghost use Rattle.std.specs.Prelude.{ℕ};

    ghost Value = { ℕ };

    ghost view = { λ t. t.faults };
}

impl<R: Print + Clone + Drop> RealTerminal<R> {
    /// The standard output of this runtime, which is kept. Takes no memory.
    pub fn new(rt: &R) -> RealTerminal<R>
        requires { R.is_infallible rt.now }
        ensures { result ≡ 0 }
    {
        match rt.clone() {
            Ok(rt) => RealTerminal { rt, faults: 0 },
            Err(_) => unreachable!(),
        }
    }
}

impl<R: Drop> RealTerminal<R> {
    /// How many calls answered an `Err`, up to 2^64-1.
    pub fn faults(&self) -> u64
        ensures { result ≡ self.now }
    {
        self.faults
    }
}

impl<R: Print + Drop> Terminal for RealTerminal<R> {
    ghost tells = { ⊥ };

    ghost text = { λ _. [] };

    ghost faults = { λ t. t };

    ghost counts_only_faults = { ⊤ };

    fn say(&mut self, _alloc: Global, bytes: &[u8]) -> Result<(), TermFault>
        ensures ok { OnOk result (self.new ≡ self.old) }
        ensures err { OnErr result (self.new ≡ next self.old) }
        ensures later { self.old ≤ self.new }
    {
        match self.rt.write_all(bytes) {
            Ok(()) => Ok(()),
            Err(error) => {
                self.faults = self.faults.saturating_add(1);
                Err(TermFault::from(error))
            }
        }
    }
}

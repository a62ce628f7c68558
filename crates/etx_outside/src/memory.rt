// A tree in memory, some of whose calls fail.
ghost use Rattle.std.specs.Prelude.{◌≡◌, ◌≢◌, ◌⊎◌, ◌++◌, ◌∷◌, ◌≤◌, [], ⊤, List, ℕ, Bool, true, false, IsSome, IfOk, OnOk, OnErr, IsErrOf, MatchOption, All, take, map, length};
ghost use Rattle.std.specs.Option.{option_copied};
ghost use Rattle.etx_outside.specs.Entries.{Files, Made, files_after, bytes_to};
ghost use Rattle.etx_outside.specs.Faults.{Counts, Later, Rose};
ghost use Rattle.etx_outside.specs.Loading.{load_of};
ghost use Rattle.etx_outside.specs.Memory.{FileMap, IsFirstNamed, no_files, file_at, file_map, with_file, with_more, with_all, is_failing, half, fresh_tree, tree_asked, tree_written, with_read_fault, with_write_fault};

use crate::{LONGEST_FILE, Loaded, Tree, TreeFault};
use etx_lists::Bytes;
use std::alloc::{AllocError, Global};
use std::marker::Model;

/// A tree in memory. Its calls are numbered from 1, each call behind number 2^64-1 having that number too, and those
/// whose numbers are listed fail. A call that answers want of memory changes nothing, and isn't counted.
#[derive(Debug, Drop)]
pub struct MemTree {
    files: Vec<(Bytes, Bytes)>,
    asked: Vec<Bytes>,
    failing: Vec<u64>,
    calls: u64,
    read_faults: u64,
    write_faults: u64,
}

impl Model for MemTree {
    ghost use Rattle.etx_outside.specs.Memory.{TreeState, tree_code, file_map};

    ghost Value = { TreeState };

    ghost coded = { tree_code };

    ghost view = { λ t. record {
      files = file_map t.files.items;
      asked = t.asked.items;
      failing = t.failing.items;
      calls = t.calls;
      read_faults = t.read_faults;
      write_faults = t.write_faults;
    } };
}

/// Where the first file of this name stands. `None` exactly where there is none.
fn place(files: &[(Bytes, Bytes)], name: &[u8]) -> Option<usize>
    ensures { MatchOption result (All (λ f. f.0 ≢ name.now) files.now) (IsFirstNamed name.now files.now) }
{
    for (i, file) in files.iter().enumerate() {
        if file.0.as_slice() == name {
            return Some(i);
        }
    }
    None
}

/// What the file of this name holds. `None` exactly where there is none.
fn find<'a>(files: &'a [(Bytes, Bytes)], name: &[u8]) -> Option<&'a Bytes>
    ensures { option_copied result ≡ file_at (file_map files.now) name.now }
{
    let i = place(files, name)?;
    Some(&files[i].1)
}

/// Puts a file in, in place of that of its name.
fn put(
    alloc: Global,
    files: &mut Vec<(Bytes, Bytes)>,
    name: &[u8],
    content: Bytes,
) -> Result<(), AllocError>
    ensures ok { OnOk result (file_map files.new.items ≡ with_file name.now content (file_map files.old.items)) }
    ensures err { OnErr result (files.new.items ≡ files.old.items) }
{
    match place(files, name) {
        Some(i) => {
            files[i].1 = content;
            Ok(())
        }
        None => {
            files.push((Bytes::from_slice(alloc, name)?, content))?;
            Ok(())
        }
    }
}

/// Adds bytes at the end of the file of this name.
fn add(files: &mut Vec<(Bytes, Bytes)>, name: &[u8], more: &[u8]) -> Result<(), AllocError>
    requires { IsSome (file_at (file_map files.old.items) name.now) }
    ensures ok { OnOk result (file_map files.new.items ≡ with_more name.now more.now (file_map files.old.items)) }
    ensures err { OnErr result (files.new.items ≡ files.old.items) }
{
    match place(files, name) {
        Some(i) => files[i].1.extend_from_slice(more),
        None => Ok(()),
    }
}

/// What a load of this name answers.
fn read(alloc: Global, files: &[(Bytes, Bytes)], name: &[u8]) -> Result<Loaded, AllocError>
    ensures { IfOk result (λ loaded. loaded ≡ load_of (file_at (file_map files.now) name.now)) }
{
    match find(files, name) {
        None => Ok(Loaded::Absent),
        Some(content) if content.len() > LONGEST_FILE => Ok(Loaded::TooLong),
        Some(content) => Ok(Loaded::Bytes(content.copy()?)),
    }
}

impl MemTree {
    /// A tree of these files, each a name and what it holds, in which the calls with these numbers will fail. Of two
    /// files with one name the last counts. A file of more than 2^30 bytes is refused as want of memory.
    pub fn new(
        alloc: Global,
        files: Vec<(Vec<u8>, Vec<u8>)>,
        failing: Vec<u64>,
    ) -> Result<MemTree, AllocError>
        ensures { IfOk result (λ t. t ≡ fresh_tree (with_all (map (λ f. (f.0.items, f.1.items)) files.items) no_files) failing.items) }
    {
        let mut kept = Vec::new(alloc);
        for (name, content) in files {
            put(alloc, &mut kept, name.as_slice(), Bytes::from_vec(content)?)?;
        }
        Ok(MemTree {
            files: kept,
            asked: Vec::new(alloc),
            failing,
            calls: 0,
            read_faults: 0,
            write_faults: 0,
        })
    }

    /// What the file of this name holds. `None` exactly where there is none.
    pub fn file(&self, name: &[u8]) -> Option<&[u8]>
        ensures { option_copied result ≡ file_at self.now.files name.now }
    {
        match find(&self.files, name) {
            None => None,
            Some(content) => Some(content.as_slice()),
        }
    }

    /// The names that loads asked for, in order.
    pub fn names_asked(&self) -> &[Bytes]
        ensures { result.now ≡ self.now.asked }
    {
        self.asked.as_slice()
    }

    /// How many calls were made, up to 2^64-1.
    pub fn calls(&self) -> u64
        ensures { result ≡ self.now.calls }
    {
        self.calls
    }

    /// How many loads failed, up to 2^64-1.
    pub fn read_faults(&self) -> u64
        ensures { result ≡ self.now.read_faults }
    {
        self.read_faults
    }

    /// How many creations and additions failed, up to 2^64-1.
    pub fn write_faults(&self) -> u64
        ensures { result ≡ self.now.write_faults }
    {
        self.write_faults
    }
}

impl Tree for MemTree {
    ghost tells = { ⊤ };

    ghost files = { λ t. file_at t.files };

    ghost asked = { λ t. t.asked };

    ghost is_open = { λ t q. IsSome (file_at t.files q) };

    ghost faults = { λ t. record { reads = t.read_faults; writes = t.write_faults } };

    ghost counts_only_faults = { ⊤ };

    fn load(&mut self, alloc: Global, name: &[u8]) -> Result<Loaded, TreeFault>
        ensures loaded { IfOk result (λ loaded. (is_failing self.old.failing self.old.calls ≡ false)
            × (loaded ≡ load_of (file_at self.old.files name.now)) × (self.new ≡ tree_asked name.now self.old)) }
        ensures failed { IsErrOf result TreeFault.Failed →
            (is_failing self.old.failing self.old.calls ≡ true) × (self.new ≡ with_read_fault (tree_asked name.now self.old)) }
        ensures out_of_memory { IsErrOf result TreeFault.OutOfMemory → self.new ≡ self.old }
        ensures reads_later { self.old.read_faults ≤ self.new.read_faults }
        ensures writes_later { self.old.write_faults ≤ self.new.write_faults }
    {
        let asked = Bytes::from_slice(alloc, name)?;
        let number = self.calls.saturating_add(1);
        if self.failing.contains(&number) {
            self.asked.push(asked)?;
            self.calls = number;
            self.read_faults = self.read_faults.saturating_add(1);
            return Err(TreeFault::Failed);
        }
        let loaded = read(alloc, &self.files, name)?;
        self.asked.push(asked)?;
        self.calls = number;
        Ok(loaded)
    }

    fn create(&mut self, alloc: Global, name: &[u8]) -> Result<(), TreeFault>
        ensures created { OnOk result ((is_failing self.old.failing self.old.calls ≡ false)
            × (self.new ≡ tree_written (with_file name.now [] self.old.files) self.old)) }
        ensures failed { IsErrOf result TreeFault.Failed →
            (is_failing self.old.failing self.old.calls ≡ true) × (self.new ≡ with_write_fault (tree_written self.old.files self.old)) }
        ensures out_of_memory { IsErrOf result TreeFault.OutOfMemory → self.new ≡ self.old }
        ensures reads_later { self.old.read_faults ≤ self.new.read_faults }
        ensures writes_later { self.old.write_faults ≤ self.new.write_faults }
    {
        let number = self.calls.saturating_add(1);
        if self.failing.contains(&number) {
            self.calls = number;
            self.write_faults = self.write_faults.saturating_add(1);
            return Err(TreeFault::Failed);
        }
        put(alloc, &mut self.files, name, Bytes::new(alloc))?;
        self.calls = number;
        Ok(())
    }

    /// Adds all of the bytes, or the first half of them, rounded down, where the number of the call is listed.
    fn append(&mut self, _alloc: Global, name: &[u8], bytes: &[u8]) -> Result<(), TreeFault>
        requires { IsSome (file_at self.old.files name.now) }
        ensures appended { OnOk result ((is_failing self.old.failing self.old.calls ≡ false)
            × (self.new ≡ tree_written (with_more name.now bytes.now self.old.files) self.old)) }
        ensures failed { IsErrOf result TreeFault.Failed →
            (is_failing self.old.failing self.old.calls ≡ true)
            × (self.new ≡ with_write_fault (tree_written (with_more name.now (half bytes.now) self.old.files) self.old)) }
        ensures out_of_memory { IsErrOf result TreeFault.OutOfMemory → self.new ≡ self.old }
        ensures reads_later { self.old.read_faults ≤ self.new.read_faults }
        ensures writes_later { self.old.write_faults ≤ self.new.write_faults }
    {
        let number = self.calls.saturating_add(1);
        if self.failing.contains(&number) {
            add(&mut self.files, name, &bytes[..bytes.len() / 2])?;
            self.calls = number;
            self.write_faults = self.write_faults.saturating_add(1);
            return Err(TreeFault::Failed);
        }
        add(&mut self.files, name, bytes)?;
        self.calls = number;
        Ok(())
    }
}

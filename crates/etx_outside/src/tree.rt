// A tree of files.
ghost use Rattle.std.specs.Prelude.{◌≡◌, ◌⊎◌, ◌++◌, [], ◌∷◌, List, ℕ, take, IfOk, OnOk, OnErr, IsErrOf};
ghost use Rattle.etx_outside.specs.Entries.{Files, Entry, Made, files_after, bytes_to};
ghost use Rattle.etx_outside.specs.Faults.{Counts, Later, Rose};
ghost use Rattle.etx_outside.specs.Loading.{load_of};
ghost use Rattle.etx_outside.specs.declared.tree.TreeFault.TheVariants.{OutOfMemory};

use etx_lists::Bytes;
use std::alloc::{AllocError, AllocFailed, Global};

/// The most bytes of a file that is loaded.
pub const LONGEST_FILE: usize = 16_777_216;

/// What a load answers.
#[derive(Debug, Drop)]
pub enum Loaded {
    /// There is no file of that name.
    Absent,
    /// The file has more than [`LONGEST_FILE`] bytes.
    TooLong,
    /// All that the file holds.
    Bytes(Bytes),
}

/// Why a call of a tree did not do what was asked.
#[derive(Clone, Copy, Debug, PartialEq, Eq)]
pub enum TreeFault {
    /// The tree failed to read or to write. The count of such faults rose.
    Failed,
    /// Memory was wanted.
    OutOfMemory,
}

impl From<AllocError> for TreeFault {
    ghost from_gives = { λ _ e. e ≡ OutOfMemory };

    fn from(_: AllocError) -> Self {
        TreeFault::OutOfMemory
    }
}

impl<T: Drop> From<AllocFailed<T>> for TreeFault {
    ghost from_gives = { λ _ e. e ≡ OutOfMemory };

    fn from(_: AllocFailed<T>) -> Self {
        TreeFault::OutOfMemory
    }
}

/// A tree of files, each a name and its bytes.
///
/// Whether a tree tells what it holds belongs to its type, so no call changes it. Clauses on files and on names asked
/// hold for the types that tell. Counts of faults are read from each tree: they never fall, they stop at 2^64-1, and
/// a count rose in a call where it is greater afterwards or stands at 2^64-1 afterwards.
pub trait Tree {
    /// Holds for a type of trees whose files and asked names are known.
    ghost tells: { Type 0 };

    /// What each file holds.
    ghost files: { Self → Files };

    /// The names that loads asked for, in order.
    ghost asked: { Self → List (List ℕ) };

    /// The names that may be appended to.
    ghost is_open: { Self → List ℕ → Type 0 };

    /// How often it failed to read, and to write.
    ghost faults: { Self → Counts };

    /// Holds for a type of trees whose counts stay where a call answers `Ok`.
    ghost counts_only_faults: { Type 0 };

    /// Reads the file of this name.
    ///
    /// - `answer`: it is absent exactly where the name has no file, and too long exactly where the file has more than
    ///   [`LONGEST_FILE`] bytes.
    /// - `files`: whatever it answers, no file changes.
    /// - `asked`, `asked_failed`: the name is added to those asked for, also by a load that failed.
    /// - `asked_err`: only for want of memory may those names stay as they were.
    /// - `open`: what could be appended to still can.
    /// - `later`: no count of faults falls.
    /// - `steady`: where it answers `Ok`, no count rises.
    /// - `cause`: it fails only where the count of faults of reading rose.
    fn load(&mut self, alloc: Global, name: &[u8]) -> Result<Loaded, TreeFault>
        ensures answer { IfOk result (λ loaded. tells → loaded ≡ load_of (files self.old name.now)) }
        ensures files { tells → files self.new ≡ files self.old }
        ensures asked { OnOk result (tells → asked self.new ≡ asked self.old ++ name.now ∷ []) }
        ensures asked_failed { IsErrOf result TreeFault.Failed → tells → asked self.new ≡ asked self.old ++ name.now ∷ [] }
        ensures asked_err { OnErr result (tells → (asked self.new ≡ asked self.old) ⊎ (asked self.new ≡ asked self.old ++ name.now ∷ [])) }
        ensures open { (q : List ℕ) → is_open self.old q → is_open self.new q }
        ensures later { Later (faults self.old) (faults self.new) }
        ensures steady { OnOk result (counts_only_faults → faults self.new ≡ faults self.old) }
        ensures cause { IsErrOf result TreeFault.Failed → Rose (faults self.old).reads (faults self.new).reads };

    /// Makes an empty file of this name, in place of one that is there.
    ///
    /// - `ok`, `err`: the empty file is made; after an `Err` it is made or no file changed. No other file changes.
    /// - `asked`: the names asked for stay as they were.
    /// - `opened`, `open`: this name, and what could be appended to before, can be appended to.
    /// - `later`: no count of faults falls.
    /// - `steady`: where it answers `Ok`, no count rises.
    /// - `cause`: it fails only where the count of faults of writing rose.
    fn create(&mut self, alloc: Global, name: &[u8]) -> Result<(), TreeFault>
        ensures ok { OnOk result (tells → files self.new ≡ files_after (Made name.now ∷ []) (files self.old)) }
        ensures err { OnErr result (tells → (files self.new ≡ files self.old) ⊎ (files self.new ≡ files_after (Made name.now ∷ []) (files self.old))) }
        ensures asked { tells → asked self.new ≡ asked self.old }
        ensures opened { OnOk result (is_open self.new name.now) }
        ensures open { (q : List ℕ) → is_open self.old q → is_open self.new q }
        ensures later { Later (faults self.old) (faults self.new) }
        ensures steady { OnOk result (counts_only_faults → faults self.new ≡ faults self.old) }
        ensures cause { IsErrOf result TreeFault.Failed → Rose (faults self.old).writes (faults self.new).writes };

    /// Adds bytes at the end of the file of this name, which has to be one that may be appended to.
    ///
    /// - `ok`, `err`: all of the bytes are added; after an `Err`, so many of the first. No other file changes.
    /// - `asked`: the names asked for stay as they were.
    /// - `open`: what could be appended to still can.
    /// - `later`: no count of faults falls.
    /// - `steady`: where it answers `Ok`, no count rises.
    /// - `cause`: it fails only where the count of faults of writing rose.
    fn append(&mut self, alloc: Global, name: &[u8], bytes: &[u8]) -> Result<(), TreeFault>
        requires { is_open self.old name.now }
        ensures ok { OnOk result (tells → files self.new ≡ files_after (bytes_to name.now bytes.now) (files self.old)) }
        ensures err { OnErr result (tells → (n : ℕ) × (files self.new ≡ files_after (bytes_to name.now (take n bytes.now)) (files self.old))) }
        ensures asked { tells → asked self.new ≡ asked self.old }
        ensures open { (q : List ℕ) → is_open self.old q → is_open self.new q }
        ensures later { Later (faults self.old) (faults self.new) }
        ensures steady { OnOk result (counts_only_faults → faults self.new ≡ faults self.old) }
        ensures cause { IsErrOf result TreeFault.Failed → Rose (faults self.old).writes (faults self.new).writes };
}

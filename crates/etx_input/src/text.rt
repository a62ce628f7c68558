//! The text of a file, which marks share.
ghost use Rattle.std.specs.Prelude.{◌≡◌, ◌≤◌, length, IfOk};

use etx_lists::Bytes;
use std::alloc::{AllocError, Global};
use std::marker::Model;
use std::sync::Arc;

/// A text that is never changed. Its sharing copies no byte.
#[derive(Drop)]
pub(crate) struct SharedText {
    bytes: Arc<Bytes, Global>,
}

impl Model for SharedText {
    ghost use Rattle.std.specs.Prelude.{List, ℕ};
    ghost use Rattle.std.specs.Arc.{arc_value};

    ghost Value = { List ℕ };

    ghost view = { λ it. arc_value it.bytes };
}

impl SharedText {
    /// Takes a text.
    pub(crate) fn new(alloc: Global, bytes: Bytes) -> Result<SharedText, AllocError>
        ensures { IfOk result (λ it. it ≡ bytes) }
    {
        Ok(SharedText {
            bytes: Arc::new(alloc, bytes)?,
        })
    }

    /// The same text, once more. The only want is of room in the count of those that share it.
    pub(crate) fn share(&self) -> Result<SharedText, AllocError>
        ensures { IfOk result (λ it. it ≡ self.now) }
    {
        Ok(SharedText {
            bytes: Arc::try_clone(&self.bytes)?,
        })
    }

    /// The bytes, of which there are at most 2^30.
    pub(crate) fn as_slice(&self) -> &[u8]
        ensures same { result.now ≡ self.now }
        ensures small { length self.now ≤ 1073741824 }
    {
        self.bytes.as_slice()
    }
}

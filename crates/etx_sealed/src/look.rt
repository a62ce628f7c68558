//! What the page builder sees of the state.
ghost use Rattle.std.specs.Prelude.{◌≡◌, ℕ, ℤ};
ghost use Rattle.etx_keys.specs.declared.key.Key.{Key};
ghost use Rattle.etx_matter.specs.declared.glue.Glue.{Glue};
ghost use Rattle.etx_matter.specs.declared.sizes.BoxSize.{BoxSize};

use etx_keys::Key;
use etx_matter::{BoxSize, Glue};

/// The state as it stands at a mark.
pub trait Look {
    /// The number under each key.
    ghost ints: { Self → Key → ℤ };

    /// The glue under each key.
    ghost glues: { Self → Key → Glue };

    /// What stands in each box register.
    ghost boxes: { Self → ℕ → BoxSize };

    /// The number under a key: a parameter, a register or the interaction mode. For `\output` it is 0 if that is empty and
    /// otherwise 1. The number of the source line has no key yet; it gets one with the page builder, whose errors and
    /// reports tell it.
    fn int(&self, k: Key) -> i32
        ensures { result ≡ ints self.now k };

    /// The glue under a key.
    fn glue(&self, k: Key) -> Glue
        ensures { result ≡ glues self.now k };

    /// The sizes of what a box register holds.
    fn box_size(&self, n: u16) -> BoxSize
        ensures { result ≡ boxes self.now n };
}

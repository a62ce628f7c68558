//! Where the cell of a key stands in the store.
ghost use Rattle.std.specs.Prelude.{◌≡◌};
ghost use Rattle.etx_state.specs.Slots.{font_of, slot_of};

use etx_keys::Key;
use etx_undo::Slot;

/// The font of a parameter of a font, and 0 for other keys.
fn font_of(key: Key) -> u8
    ensures { result ≡ font_of key }
{
    match key {
        Key::FontDimen { font, .. } => font,
        _ => 0,
    }
}

/// The slot of the key: the number that it has in tables. The meanings of control sequences have the row of kind 0.
#[tactic(auto, unfolding(crate::specs::Slots::slot_of))]
pub fn slot(key: Key) -> Slot
    ensures { result ≡ slot_of key }
{
    let _font = font_of(key);
    let number = key.number();
    Slot {
        kind: number.kind,
        at: number.at,
    }
}

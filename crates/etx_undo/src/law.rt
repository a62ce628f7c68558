//! What holds of every run of sets and goings back.
ghost use Rattle.std.specs.Prelude.{◌≡◌, List};
ghost use Rattle.etx_undo.specs.declared.slot.Slot.{Slot};
ghost use Rattle.etx_undo.specs.History.{Kept, place, present, at, Deed, CameBy, IsBack};

/// A mark is taken, and then slots are set, and the store goes back to places that are not before the mark, in any order.
/// A look back at the mark finds the map that was there when it was taken, and so does going back to it.
pub fn a_mark_keeps_its_map<V>()
    ensures looked { (ds : List (Deed V)) (old new : Kept V) → CameBy (place old) ds old new
        → (q : Slot) → at new (place old) q ≡ present old q }
    ensures gone { (ds : List (Deed V)) (old new back : Kept V) → CameBy (place old) ds old new → IsBack (place old) new back
        → (q : Slot) → present back q ≡ present old q }
{}

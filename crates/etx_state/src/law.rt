//! What holds of every rest of a state.
ghost use Rattle.std.specs.Prelude.{◌≡◌};
ghost use Rattle.etx_undo.specs.declared.state_mark.RestMark.{RestMark};
ghost use Rattle.etx_state.specs.declared.rest.Rest.{Rest};
ghost use Rattle.etx_state.specs.Rests.{rest_at, IsKept, Keeps};

/// A rest in which a mark's time is kept is at the mark what it was when the mark was taken. So it is behind calls that keep
/// what was, however many: at the mark it is what it was in the rest that the mark was taken in.
pub fn what_a_mark_stands_for_stays()
    ensures kept { (mark : RestMark) (first now : Rest) → IsKept mark first now → rest_at now mark ≡ rest_at first mark }
    ensures behind_calls { (mark : RestMark) (first now : Rest) → IsKept mark first first → Keeps first now → rest_at now mark ≡ rest_at first mark }
{}

//! Marks of the values, over the parts.
ghost use Rattle.std.specs.Prelude.{◌≡◌};
ghost use Rattle.etx_undo.specs.declared.state_mark.RestMark.{RestMark};
ghost use Rattle.etx_state.specs.declared.parts.Parts.{Parts};
ghost use Rattle.etx_state.specs.Saves.{values_in, values_in_at, KeepsIn, IsKeptIn, IsBeforeIn, IsSound};

use crate::parts::Parts;
use etx_stack::Mark;
use etx_undo::RestMark;

/// A mark of this time, where there are so many names, and this is the mark of the conditionals.
pub fn mark(parts: &mut Parts, names: u32, conditions: Mark, mag: u16) -> RestMark
    requires { IsSound parts.old }
    ensures names { result.names ≡ names }
    ensures conditions { result.conditions ≡ conditions }
    ensures mag { result.mag ≡ mag }
    ensures sound { IsSound parts.new }
    ensures same { values_in parts.new ≡ values_in parts.old }
    ensures live { IsKeptIn result parts.new parts.new }
    ensures values { values_in_at parts.new result ≡ values_in parts.new }
    ensures kept { KeepsIn parts.old parts.new }
    ensures before { (m : RestMark) (first : Parts) → IsKeptIn m first parts.old → IsBeforeIn m result }
{
    let values = parts.store.mark();
    let saves = parts.stack.mark();
    RestMark {
        values,
        saves,
        depth: parts.depth,
        names,
        conditions,
        mag,
    }
}

/// Makes the parts what they were at the mark.
pub fn back_to(parts: &mut Parts, mark: RestMark)
    requires { IsKeptIn mark parts.old parts.old }
    ensures sound { IsSound parts.new }
    ensures values { values_in parts.new ≡ values_in_at parts.old mark }
    ensures kept { (m : RestMark) (first : Parts) → IsBeforeIn m mark → IsKeptIn m first parts.old → IsKeptIn m first parts.new }
{
    parts.store.back_to(mark.values);
    parts.stack.back_to(mark.saves);
    parts.depth = mark.depth;
}

/// Forgets what was.
pub fn forget(parts: &mut Parts)
    requires { IsSound parts.old }
    ensures sound { IsSound parts.new }
    ensures values { values_in parts.new ≡ values_in parts.old }
{
    parts.store.forget();
    parts.stack.forget();
}

//! What holds of every turn of assignments.
ghost use Rattle.std.specs.Prelude.{ℕ, Bool, List};
ghost use Rattle.etx_matter.specs.declared.token.Token.{Token};
ghost use Rattle.etx_state.specs.declared.key.Meaning.{Meaning};
ghost use Rattle.etx_state.specs.declared.scan.AssignNumber.{AssignNumber};
ghost use Rattle.etx_exprs.specs.declared.value.Value.{Value as Amount};
ghost use Rattle.etx_state.specs.declared.scan.AssignScan.{AssignScan};
ghost use Rattle.etx_state.specs.declared.scan.AssignText.{AssignText};
ghost use Rattle.etx_state.specs.declared.scan.Value.{Value};
ghost use Rattle.etx_state.specs.declared.scan.Keeper.TheVariants as keeper;
ghost use Rattle.etx_state.specs.declared.scan.Scan.TheVariants as scan;
ghost use Rattle.etx_state.specs.declared.scan.Entry.TheVariants as entry;
ghost use Rattle.etx_state.specs.Mouths.{Mouth};
ghost use Rattle.etx_expand.specs.Measure.{back_weight, Steps, Falls, Goes};
ghost use Rattle.etx_expand.specs.Moves.{entered, scanning};
ghost use Rattle.etx_assign.specs.Turn.{assign_token, number_turn, text_turn, assign_word_turn, future_turn};

/// Each turn of an assignment goes on: it ends the job, reports an error, takes a step, or makes the weight of the mouth smaller, and
/// it takes two steps at most. `old` is the mouth before a token was got, without the scan that got it, and `m` the one behind that; `v` is the value that is taken.
pub fn each_assignment_goes_on()
    ensures token { (left : ℕ) (a : AssignScan) (t : Token) (mm : Meaning) (old m : Mouth) → Falls back_weight old m → Steps 1 old m → Goes (scanning left (scan.Assign a) old) (assign_token left a t mm m) }
    ensures number { (left : ℕ) (f : AssignNumber) (a : Amount) (v : Value) (m : Mouth) → Goes (entered (entry.Given left v) m) (number_turn left f a m) }
    ensures text { (left : ℕ) (f : AssignText) (ts : List Token) (v : Value) (m : Mouth) → Goes (entered (entry.Given left v) m) (text_turn left f ts m) }
    ensures word { (left : ℕ) (a : AssignScan) (letters : List Token) (t : Token) (old m : Mouth) → Falls back_weight old m → Steps 1 old m → Goes (entered (entry.Word left letters (scan.Assign a)) old) (assign_word_turn left a letters t m) }
    ensures future { (is_global : Bool) (name first : Token) (m : Mouth) → Goes (entered (entry.Kept first (keeper.Future is_global name)) m) (future_turn is_global name first m) }
{}

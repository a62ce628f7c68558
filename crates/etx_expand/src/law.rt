//! What holds of every turn.
ghost use Rattle.std.specs.Prelude.{◌≡◌, ◌++◌, ◌∷◌, [], ℕ, Some, List};
ghost use Rattle.etx_matter.specs.declared.token.Token.{Token};
ghost use Rattle.etx_state.specs.declared.scan.Value.{Value};
ghost use Rattle.etx_state.specs.declared.scan.Keeper.TheVariants as keeper;
ghost use Rattle.etx_state.specs.declared.scan.Scan.{Scan};
ghost use Rattle.etx_state.specs.declared.scan.Entry.TheVariants as entry;
ghost use Rattle.etx_macros.specs.State.{MatcherState};
ghost use Rattle.etx_macros.specs.Marks.{IsPattern};
ghost use Rattle.etx_macros.specs.Calls.{MatchesCall, Begins};
ghost use Rattle.etx_macros.specs.Feeding.{fed_of, started, after, is_copied};
ghost use Rattle.etx_macros.specs.Substituting.{substituted};
ghost use Rattle.etx_state.specs.declared.scan.Call.{Call};
ghost use Rattle.etx_state.specs.Rests.{RestState};
ghost use Rattle.etx_state.specs.Mouths.{Mouth};
ghost use Rattle.etx_expand.specs.declared.fetch.Idle.{Idle};
ghost use Rattle.etx_expand.specs.declared.fetch.Fetched.TheVariants as fetched;
ghost use Rattle.etx_answers.specs.declared.plan.WordPlan.{WordPlan};
ghost use Rattle.etx_answers.specs.Answers.{Planned, Begun, Finished, quiet, insert_of};
ghost use Rattle.etx_expand.specs.Calls.{call_scan, goes_on, is_over, call_row};
ghost use Rattle.etx_expand.specs.Moves.{entered, scanning, planned_turn, begun_turn, finished_turn, word_turn};
ghost use Rattle.etx_expand.specs.Measure.{back_weight, Steps, PaidFor, PaysFor, Falls, Goes};
ghost use Rattle.etx_expand.specs.Turn.{scan_fetched, idle_turn, expand_after_turn, due_turn, say_turn};

/// Whatever rows decide, the turn goes on: it ends the job, reports an error, takes a step, or makes the weight of the mouth
/// smaller. It takes no step back, and two at most. `old` is the mouth before the token was got, without the scan that got it, and
/// `m` the one behind that: a token that was got was paid for (`fetched`), so that it may be put back.
pub fn each_turn_goes_on()
    ensures fetched { (s : Scan) (m : Mouth) → PaysFor m (scan_fetched s m) }
    ensures plan { (left : ℕ) (s : Scan) (t : Token) (p : Planned) (old m : Mouth) → Falls back_weight old m → Steps 1 old m → Goes (scanning left s old) (planned_turn left t p m) }
    ensures start { (t : Token) (b : Begun) (old m : Mouth) → Falls back_weight old m → Steps 1 old m → Goes old (begun_turn t b m) }
    ensures value { (left : ℕ) (v : Value) (f : Finished) (m : Mouth) → Goes (entered (entry.Given left v) m) (finished_turn left f m) }
    ensures word { (left : ℕ) (letters : List Token) (s : Scan) (t : Token) (p : WordPlan) (old m : Mouth) → Falls back_weight old m → Steps 1 old m → Goes (entered (entry.Word left letters s) old) (word_turn left letters t p m) }
    ensures idle { (left : ℕ) (s : Scan) (i : Idle) (old m : Mouth) → PaidFor (fetched.Idle i) old m → Steps 1 old m → Goes (scanning left s old) (idle_turn left s i m) }
    ensures kept { (t : Token) (m : Mouth) → Goes (entered (entry.Kept t keeper.ExpandAfter) m) (expand_after_turn t m) }
    ensures due { (t : Token) (m : Mouth) → Goes (entered (entry.Due t) m) (due_turn t m) }
    ensures says { (text : List ℕ) (m : Mouth) → Goes (entered (entry.Say text) m) (say_turn text m) }
{}

/// A call that is fed a match is read as its body with the arguments put in. Behind the tokens that were fed so far, `m` is how far the
/// match has come: where they and the next one are the beginning of a call and not all of it, the call goes on, and where they are a
/// call, its body is read next. A token is one step more where it is copied into an argument (`is_copied`), and else none.
pub fn a_call_is_read_as_its_body()
    ensures ends { (c : Call) (front : List Token) (t : Token) (args : List (List Token)) (m : MatcherState) (r : RestState) →
        IsPattern c.definition.parts → after (started c.definition.parts c.definition.is_long) front ≡ Some m →
        MatchesCall c.definition.is_long c.definition.parts (front ++ t ∷ []) args →
        call_row (record c { matcher = m }) t r ≡ quiet (is_over (is_copied m t) (insert_of (substituted c.definition.body args))) }
    ensures goes_on { (c : Call) (front : List Token) (t : Token) (m : MatcherState) (r : RestState) →
        IsPattern c.definition.parts → after (started c.definition.parts c.definition.is_long) front ≡ Some m →
        Begins c.definition.is_long c.definition.parts (front ++ t ∷ []) →
        call_row (record c { matcher = m }) t r ≡ quiet (goes_on (is_copied m t) (call_scan (record c { matcher = (fed_of m t).matcher }))) }
{}

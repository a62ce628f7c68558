// What holds of every call.
ghost use Rattle.std.specs.Prelude.{◌≡◌, ◌++◌, ◌∷◌, [], ◌↔◌, Bool, true, List, Some};
ghost use Rattle.etx_matter.specs.declared.token.Token.{Token};
ghost use Rattle.etx_macros.specs.declared.fault.Fed.{Fed};
ghost use Rattle.etx_macros.specs.declared.fault.Fed.TheVariants.{Done, Fault};
ghost use Rattle.etx_macros.specs.declared.fault.MatchFault.TheVariants.{ExtraBrace};
ghost use Rattle.etx_macros.specs.State.{MatcherState};
ghost use Rattle.etx_macros.specs.Marks.{IsPattern};
ghost use Rattle.etx_macros.specs.Feeding.{fed_of, started, after, is_extra};
ghost use Rattle.etx_macros.specs.Calls.{MatchesCall};
ghost use Rattle.etx_macros.specs.Says.{Says};

/// A text begins with at most one call of a pattern, which has one list of arguments: of two calls with which the same
/// text begins, both are the same tokens with the same arguments.
pub fn each_text_begins_with_one_call()
    ensures { (long : Bool) (parts args others : List (List Token)) (call behind other behind_other : List Token) →
        MatchesCall long parts call args → MatchesCall long parts other others →
        call ++ behind ≡ other ++ behind_other → (call ≡ other) × (args ≡ others) }
{}

/// One thing is said of any tokens: that they are the beginning of a call, that they are a call, or for one cause that
/// no call begins with them. So what [`crate::Matcher::feed`] says comes exactly where it is true.
pub fn one_thing_is_said_of_any_tokens()
    ensures { (fed other : Fed) (long : Bool) (parts : List (List Token)) (tokens : List Token) →
        Says fed long parts tokens → Says other long parts tokens → fed ≡ other }
{}

/// After these tokens, behind each of which more were wanted, a match says of the next one exactly what is said of them
/// all; and where that is `Done`, its arguments are those of the call.
pub fn a_match_says_of_each_token_what_is_true()
    ensures says { (parts : List (List Token)) (long : Bool) (front : List Token) (t : Token) (m : MatcherState) (fed : Fed) →
        IsPattern parts → after (started parts long) front ≡ Some m →
        ((fed_of m t).fed ≡ fed) ↔ Says fed long parts (front ++ t ∷ []) }
    ensures arguments { (parts : List (List Token)) (long : Bool) (front : List Token) (t : Token) (m : MatcherState) →
        IsPattern parts → after (started parts long) front ≡ Some m →
        (fed_of m t).fed ≡ Done → MatchesCall long parts (front ++ t ∷ []) (fed_of m t).matcher.args }
{}

/// A right brace that no left brace of an argument opens is known before it is fed: a match refuses it, and no other
/// token, as an extra one.
pub fn an_extra_brace_is_known_before_it_is_fed()
    ensures { (parts : List (List Token)) (long : Bool) (front : List Token) (t : Token) (m : MatcherState) →
        IsPattern parts → after (started parts long) front ≡ Some m →
        (is_extra m t ≡ true) ↔ ((fed_of m t).fed ≡ Fault ExtraBrace) }
{}

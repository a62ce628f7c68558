//! What holds of every input.
ghost use Rattle.std.specs.Prelude.{◌≡◌, ◌+◌, ◌<◌, ◌∷◌, ℕ, ℤ, List, length, drop};
ghost use Rattle.etx_matter.specs.declared.token.Token.{Token};
ghost use Rattle.etx_input.specs.declared.origin.Origin.TheVariants.{Fresh};
ghost use Rattle.etx_input.specs.declared.levels.Next.TheVariants.{Listed};
ghost use Rattle.etx_input.specs.Levels.{InputState, given_of};
ghost use Rattle.etx_input.specs.Runs.{fresh_in, skipped};

/// The fresh tokens of the innermost level are what the input gives, one after another, whatever the categories and
/// `\endlinechar` are: the first is given, and behind it the input is as if one was skipped; to skip one more is to skip
/// some, and then one; and behind some that are skipped the others are still the fresh tokens, while one is left.
pub fn fresh_tokens_are_given()
    ensures first { (cats : ℕ → ℕ) (endline : ℤ) (input : InputState) (token : Token) (tokens : List Token) →
        fresh_in input.levels ≡ token ∷ tokens →
        given_of cats endline input ≡ record { next = Listed token Fresh; input = skipped 1 input } }
    ensures more { (count : ℕ) (input : InputState) → count < length (fresh_in input.levels) →
        skipped (count + 1) input ≡ skipped 1 (skipped count input) }
    ensures rest { (count : ℕ) (input : InputState) → count < length (fresh_in input.levels) →
        fresh_in (skipped count input).levels ≡ drop count (fresh_in input.levels) }
{}

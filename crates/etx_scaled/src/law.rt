// What holds of the definitions that the calls meet.
ghost use Rattle.std.specs.Prelude.{ℕ, ◌≡◌, ◌≢◌, ◌+◌, ◌*◌, ◌<◌, ◌≤◌, ◌^◌, ◌↔◌, ◌⊎◌, All, [], List, length, ℤ, pos, suc, ◌≤ℤ◌, ◌<ℤ◌, FitsSigned, int_div, int_rem};
ghost use Rattle.std.specs.Int.{w32};
ghost use Rattle.etx_scaled.specs.Badness.{badness_of};
ghost use Rattle.etx_scaled.specs.Decimal.{decimal_text, digits_of_fraction, fraction_digits};
ghost use Rattle.etx_scaled.specs.Division.{IsDivided};
ghost use Rattle.etx_scaled.specs.Reading.{fraction_read, scaled_read};
ghost use Rattle.etx_scaled.specs.Rounding.{IsNearest, nearest};

/// There is exactly one quotient toward zero with its remainder.
pub fn one_quotient()
    ensures is { (a d : ℤ) → pos 0 <ℤ d → IsDivided a d (int_div a d) (int_rem a d) }
    ensures only { (a d q r : ℤ) → pos 0 <ℤ d → IsDivided a d q r → (q ≡ int_div a d) × (r ≡ int_rem a d) }
{}

/// There is exactly one nearest whole number, where of two that are equally near the one further from zero counts.
pub fn one_nearest()
    ensures is { (num den : ℤ) → pos 0 <ℤ den → IsNearest num den (nearest num den) }
    ensures only { (num den whole : ℤ) → pos 0 <ℤ den → IsNearest num den whole → whole ≡ nearest num den }
{}

/// Badness is at most 10000 and grows with what is to be filled: to fill nothing is never bad, and to fill something
/// without any stretch is infinitely bad.
pub fn badness_grows()
    ensures most { (t : ℕ) (s : ℤ) → badness_of t s ≤ 10000 }
    ensures grows { (t u : ℕ) (s : ℤ) → t ≤ u → badness_of t s ≤ badness_of u s }
    ensures nothing { (s : ℤ) → badness_of 0 s ≡ 0 }
    ensures without { (t : ℕ) (s : ℤ) → 0 < t → s ≤ℤ pos 0 → badness_of t s ≡ 10000 }
{}

/// What is printed reads as the number again, with one to five digits behind the full stop, and no shorter fraction
/// reads as it. That there are no more than five digits is no bound of the definition: with more places it gives the same.
pub fn decimals_read_back()
    ensures reads { (z : ℤ) → FitsSigned w32 z → scaled_read (decimal_text z) ≡ z }
    ensures fraction { (f : ℕ) → f < 65536 → fraction_read (digits_of_fraction f) ≡ f }
    ensures digits { (f : ℕ) → f < 65536 → All (λ d. d < 10) (digits_of_fraction f) }
    ensures some { (f : ℕ) → f < 65536 → 1 ≤ length (digits_of_fraction f) }
    ensures few { (f : ℕ) → f < 65536 → length (digits_of_fraction f) ≤ 5 }
    ensures places { (f places : ℕ) → 5 ≤ places → fraction_digits places (10 * f + 5) 10 ≡ digits_of_fraction f }
    ensures shortest { (f : ℕ) (ds : List ℕ) → f < 65536 → 1 ≤ length ds → length ds < length (digits_of_fraction f) → fraction_read ds ≢ f }
{}

//! Units of dimensions.
ghost use Rattle.std.specs.Prelude.{◌≡◌, ◌<◌, ◌≤◌, ◌^◌, pos, ◌≤ℤ◌, unsigned_abs, MatchResult};
ghost use Rattle.etx_exprs.specs.Units.{parts_of, number_in, unmagnified, is_true, size_in, number_for, converted};

/// A unit of dimensions, with its size, and the `true` form of each. A `true` unit has that size on the page that is printed:
/// what `\mag` magnifies is made smaller before.
#[derive(Clone, Copy, Debug, PartialEq, Eq)]
pub enum Unit {
    /// A printer's point, 65536 sp.
    Pt,
    /// A pica, 12 pt.
    Pc,
    /// An inch, 72.27 pt.
    In,
    /// A centimetre, 7227/254 pt.
    Cm,
    /// A millimetre, 7227/2540 pt.
    Mm,
    /// A big point, 7227/7200 pt.
    Bp,
    /// A didot point, 1238/1157 pt.
    Dd,
    /// A cicero, 14856/1157 pt.
    Cc,
    /// A scaled point.
    Sp,
    /// `true pt`.
    TruePt,
    /// `true pc`.
    TruePc,
    /// `true in`.
    TrueIn,
    /// `true cm`.
    TrueCm,
    /// `true mm`.
    TrueMm,
    /// `true bp`.
    TrueBp,
    /// `true dd`.
    TrueDd,
    /// `true cc`.
    TrueCc,
    /// `true sp`.
    TrueSp,
}

/// A dimension has a size of 2^30 sp or more. TeX then reports `Dimension too large`, and takes 2^30-1 sp.
#[derive(Clone, Copy, Debug, PartialEq, Eq)]
pub struct TooLarge;

/// The number in front of a unit: its whole part, and its fraction in 65536ths.
#[derive(Clone, Copy)]
struct Number {
    whole: u128,
    fraction: u128,
}

/// A point has this many sp, and a fraction counts this many parts.
const UNITY: u128 = 65536;

impl Unit {
    fn is_true(self) -> bool
        ensures { result ≡ is_true self }
    {
        match self {
            Unit::Pt => false,
            Unit::Pc => false,
            Unit::In => false,
            Unit::Cm => false,
            Unit::Mm => false,
            Unit::Bp => false,
            Unit::Dd => false,
            Unit::Cc => false,
            Unit::Sp => false,
            Unit::TruePt => true,
            Unit::TruePc => true,
            Unit::TrueIn => true,
            Unit::TrueCm => true,
            Unit::TrueMm => true,
            Unit::TrueBp => true,
            Unit::TrueDd => true,
            Unit::TrueCc => true,
            Unit::TrueSp => true,
        }
    }

    fn size_of(self, number: Number) -> u128
        requires whole { number.whole < 2 ^ 41 }
        requires fraction { number.fraction ≤ 65536 }
        ensures { result ≡ size_in self number }
    {
        match self {
            Unit::Pt => number.parts(),
            Unit::Pc => number.parts() * 12,
            Unit::In => number.parts() * 7227 / 100,
            Unit::Cm => number.parts() * 7227 / 254,
            Unit::Mm => number.parts() * 7227 / 2540,
            Unit::Bp => number.parts() * 7227 / 7200,
            Unit::Dd => number.parts() * 1238 / 1157,
            Unit::Cc => number.parts() * 14856 / 1157,
            Unit::Sp => number.whole,
            Unit::TruePt => number.parts(),
            Unit::TruePc => number.parts() * 12,
            Unit::TrueIn => number.parts() * 7227 / 100,
            Unit::TrueCm => number.parts() * 7227 / 254,
            Unit::TrueMm => number.parts() * 7227 / 2540,
            Unit::TrueBp => number.parts() * 7227 / 7200,
            Unit::TrueDd => number.parts() * 1238 / 1157,
            Unit::TrueCc => number.parts() * 14856 / 1157,
            Unit::TrueSp => number.whole,
        }
    }
}

impl Number {
    // All of it in 65536ths.
    fn parts(self) -> u128
        requires whole { self.whole < 2 ^ 41 }
        requires fraction { self.fraction ≤ 65536 }
        ensures value { result ≡ parts_of self }
        ensures small { result < 2 ^ 58 }
    {
        self.whole * UNITY + self.fraction
    }

    // On a page that is not magnified.
    fn unmagnified(self, mag: u128) -> Number
        requires whole { self.whole < 2 ^ 31 }
        requires fraction { self.fraction ≤ 65536 }
        requires mag { 1 ≤ mag }
        ensures value { result ≡ unmagnified mag self }
        ensures whole { result.whole < 2 ^ 41 }
        ensures fraction { result.fraction ≤ 65536 }
    {
        if mag == 1000 {
            return self;
        }
        let parts = self.parts() * 1000 / mag;
        Number {
            whole: parts / UNITY,
            fraction: parts % UNITY,
        }
    }

    fn for_unit(self, unit: Unit, mag: u128) -> Number
        requires whole { self.whole < 2 ^ 31 }
        requires fraction { self.fraction ≤ 65536 }
        requires mag { 1 ≤ mag }
        ensures value { result ≡ number_for unit mag self }
        ensures whole { result.whole < 2 ^ 41 }
        ensures fraction { result.fraction ≤ 65536 }
    {
        if unit.is_true() {
            self.unmagnified(mag)
        } else {
            self
        }
    }
}

#[tactic(auto, unfolding(crate::specs::Units::converted))]
fn size(unit: Unit, whole: u32, fraction: u32, mag: u32) -> u128
    requires whole { whole < 2 ^ 31 }
    requires fraction { fraction ≤ 65536 }
    requires mag { 1 ≤ mag }
    ensures { result ≡ converted unit whole fraction mag }
{
    let number = Number {
        whole: whole as u128,
        fraction: fraction as u128,
    };
    unit.size_of(number.for_unit(unit, mag as u128))
}

/// The size in sp of `whole` and `frac` 65536ths of a unit, where `mag` is the page's magnification in thousandths; `mag`
/// counts for `true` units alone.
///
/// `whole` is at least 0, `frac` from 0 to 65536, as a decimal fraction is rounded, and `mag` from 1 to 32768. What is less
/// than 1 sp is cut off, and a number of sp loses its fraction. For a `true` unit, where `mag` isn't 1000, the number is
/// divided by the magnification first, and what is less than a 65536th of the unit is cut off then already; the fraction of
/// a number of `true sp` counts there, before it is lost. `TooLarge` exactly where the size is 2^30 sp or more.
/// ("TeX: The Program", sections 453 to 458.)
pub fn convert(unit: Unit, whole: i32, frac: i32, mag: i32) -> Result<i32, TooLarge>
    requires whole { pos 0 ≤ℤ whole }
    requires frac { (pos 0 ≤ℤ frac) × (frac ≤ℤ pos 65536) }
    requires mag { (pos 1 ≤ℤ mag) × (mag ≤ℤ pos 32768) }
    ensures { let size = converted unit (unsigned_abs whole) (unsigned_abs frac) (unsigned_abs mag) in
        MatchResult result (λ z. (z ≡ pos size) × (size < 2 ^ 30)) (λ _. 2 ^ 30 ≤ size) }
{
    let size = size(
        unit,
        whole.unsigned_abs(),
        frac.unsigned_abs(),
        mag.unsigned_abs(),
    );
    if size < 1_073_741_824 {
        Ok(size as i32)
    } else {
        Err(TooLarge)
    }
}

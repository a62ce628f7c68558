//! Glue, and how the glue of a box is set ("TeX: The Program", sections 150 and 135).
ghost use Rattle.std.specs.Prelude.{◌≡◌, pos, ◌≤ℤ◌, false};
ghost use Rattle.etx_matter.specs.GlueSets.{GlueSetting};
ghost use Rattle.etx_matter.specs.declared.glue.GlueOrder.TheVariants.{Normal};

use std::marker::Model;

/// The order of infinity of a stretch or shrink, the finite first. Any glue of a higher order outweighs all of a lower
/// one.
#[derive(Clone, Copy, Debug, PartialEq, Eq, PartialOrd, Ord)]
pub enum GlueOrder {
    /// Finite, in sp.
    Normal,
    /// `fil`.
    Fil,
    /// `fill`.
    Fill,
    /// `filll`.
    Filll,
}

/// A space that can stretch and shrink. The sizes are in sp, or where the order is infinite in 65536ths of its unit; in
/// `\muskip` glue a 65536th of a mu stands in place of an sp.
#[derive(Clone, Copy, Debug, PartialEq, Eq)]
pub struct Glue {
    /// The natural width.
    pub width: i32,
    pub stretch: i32,
    pub shrink: i32,
    pub stretch_order: GlueOrder,
    pub shrink_order: GlueOrder,
}

/// How the glue of a box is set: each glue of the governing order grows by the fraction `num / den` of its stretch, or
/// falls by that of its shrink. The fraction is exact, and `den` is at least 1.
#[derive(Clone, Copy, Debug, PartialEq, Eq)]
pub struct GlueSet {
    stretching: bool,
    order: GlueOrder,
    num: i64,
    den: i64,
}

impl Model for GlueSet {
    ghost use Rattle.std.specs.Prelude.{pos, ◌≤ℤ◌};
    ghost use Rattle.etx_matter.specs.GlueSets.{GlueSetting};

    ghost Value = { GlueSetting };

    ghost view = { λ set. record { stretching = set.stretching; order = set.order; num = set.num; den = set.den } };

    ghost invariant = { λ set. pos 1 ≤ℤ set.den };

    ghost inverse = { λ it. record { stretching = it.stretching; order = it.order; num = it.num; den = it.den } };
}

impl GlueSet {
    /// The fraction `num / den` of the stretch, or else of the shrink, of this order.
    pub fn new(stretching: bool, order: GlueOrder, num: i64, den: i64) -> GlueSet
        requires { pos 1 ≤ℤ den }
        ensures { result ≡ record { stretching = stretching; order = order; num = num; den = den } }
    {
        GlueSet {
            stretching,
            order,
            num,
            den,
        }
    }

    /// The glue keeps its natural width.
    pub fn natural() -> GlueSet
        ensures { result ≡ record { stretching = false; order = Normal; num = pos 0; den = pos 1 } }
    {
        GlueSet {
            stretching: false,
            order: GlueOrder::Normal,
            num: 0,
            den: 1,
        }
    }

    /// Whether the glue stretches; else it shrinks, or keeps its natural width.
    pub fn is_stretching(self) -> bool
        ensures { result ≡ self.stretching }
    {
        self.stretching
    }

    /// The order that governs.
    pub fn order(self) -> GlueOrder
        ensures { result ≡ self.order }
    {
        self.order
    }

    /// The numerator of the fraction.
    pub fn num(self) -> i64
        ensures { result ≡ self.num }
    {
        self.num
    }

    /// The denominator of the fraction, at least 1.
    pub fn den(self) -> i64
        ensures value { result ≡ self.den }
        ensures positive { pos 1 ≤ℤ result }
    {
        self.den
    }
}

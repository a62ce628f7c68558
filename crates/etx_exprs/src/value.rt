//! Values, and the kinds that they are of.
ghost use Rattle.std.specs.Prelude.{◌≡◌};
ghost use Rattle.etx_exprs.specs.Values.{kind_of, is_of};

use etx_matter::Glue;

/// The kind of an expression.
#[derive(Clone, Copy, Debug, PartialEq, Eq)]
pub enum ValueKind {
    /// Of `\numexpr`.
    Int,
    /// Of `\dimexpr`.
    Dim,
    /// Of `\glueexpr`.
    Glue,
    /// Of `\muexpr`.
    MuGlue,
}

/// A value of one of the four kinds.
#[derive(Clone, Copy, Debug, PartialEq, Eq)]
pub enum Value {
    /// An integer. Its range is from -(2^31-1) to 2^31-1; an expression with an operand outside it is an [`Overflow`].
    Int(i32),
    /// A dimension in sp. Its range is from -(2^30-1) to 2^30-1, likewise.
    Dim(i32),
    /// Glue. The range of its width, its stretch and its shrink is from -(2^30-1) to 2^30-1 each, likewise.
    Glue(Glue),
    /// Glue in mu, with the same ranges.
    MuGlue(Glue),
}

/// An operand or a number that was formed in an expression is out of its range, or a divisor is zero. e-TeX then reports
/// `Arithmetic overflow`, and takes 0.
#[derive(Clone, Copy, Debug, PartialEq, Eq)]
pub struct Overflow;

impl Value {
    /// The kind of the value.
    pub fn kind(self) -> ValueKind
        ensures { result ≡ kind_of self }
    {
        match self {
            Value::Int(_) => ValueKind::Int,
            Value::Dim(_) => ValueKind::Dim,
            Value::Glue(_) => ValueKind::Glue,
            Value::MuGlue(_) => ValueKind::MuGlue,
        }
    }

    pub(crate) fn is_of(self, kind: ValueKind) -> bool
        ensures { result ≡ is_of kind self }
    {
        match self {
            Value::Int(_) => matches!(kind, ValueKind::Int),
            Value::Dim(_) => matches!(kind, ValueKind::Dim),
            Value::Glue(_) => matches!(kind, ValueKind::Glue),
            Value::MuGlue(_) => matches!(kind, ValueKind::MuGlue),
        }
    }
}

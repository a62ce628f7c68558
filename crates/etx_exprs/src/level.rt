//! One level of an expression: what stands in it so far.
ghost use Rattle.std.specs.Prelude.{◌≡◌};
ghost use Rattle.etx_exprs.specs.Feeding.{fresh, wanted_by, is_due, with_factor, value_so_far, value_begun, with_sum, level_value, level_begun, behind_sign, behind_times, divided_progress, behind_divide, behind_factor};

use crate::step::{product, quotient, scaled};
use crate::sum::{Formed, Sign, normalized, sum_of};
use crate::value::ValueKind;

/// The terms before the one at hand.
#[derive(Clone, Copy)]
pub(crate) enum Sum {
    /// None.
    Nothing,
    /// Their value, and the sign behind them.
    Before(Formed, Sign),
}

/// How far the term at hand has come. A product is formed only where it is known that no division follows it.
#[derive(Clone, Copy)]
pub(crate) enum Progress {
    /// Its first factor is due.
    Begins,
    /// Its first factor.
    Lone(Formed),
    /// What a division gave.
    Whole(Formed),
    /// A value and the factor that multiplies it.
    Product(Formed, Formed),
    /// A value, behind which the factor that multiplies it is due.
    Times(Formed),
    /// A value, behind which its divisor is due.
    Over(Formed),
    /// A value and the factor that multiplies it, behind which their divisor is due.
    Scale(Formed, Formed),
}

/// What stands between two parentheses, or in the whole expression, so far.
#[derive(Clone, Copy)]
pub(crate) struct Level {
    pub kind: ValueKind,
    pub sum: Sum,
    pub progress: Progress,
}

impl Progress {
    fn wanted_by(self, kind: ValueKind) -> Option<ValueKind>
        ensures { result ≡ wanted_by kind self }
    {
        match self {
            Progress::Begins => Some(kind),
            Progress::Times(_) => Some(ValueKind::Int),
            Progress::Over(_) => Some(ValueKind::Int),
            Progress::Scale(_, _) => Some(ValueKind::Int),
            Progress::Lone(_) => None,
            Progress::Whole(_) => None,
            Progress::Product(_, _) => None,
        }
    }

    fn is_due(self) -> bool
        ensures { result ≡ is_due self }
    {
        match self {
            Progress::Begins => false,
            Progress::Times(_) => false,
            Progress::Over(_) => false,
            Progress::Scale(_, _) => false,
            Progress::Lone(_) => true,
            Progress::Whole(_) => true,
            Progress::Product(_, _) => true,
        }
    }

    fn with_factor(self, factor: Formed) -> Progress
        ensures { result ≡ with_factor self factor }
    {
        match self {
            Progress::Begins => Progress::Lone(factor),
            Progress::Times(value) => Progress::Product(value, factor),
            Progress::Over(value) => Progress::Whole(quotient(value, factor)),
            Progress::Scale(value, n) => Progress::Whole(scaled(value, n, factor)),
            Progress::Lone(value) => Progress::Lone(value),
            Progress::Whole(value) => Progress::Whole(value),
            Progress::Product(value, n) => Progress::Product(value, n),
        }
    }

    // The term's value, if it ends here.
    fn value(self) -> Formed
        ensures { result ≡ value_so_far self }
    {
        match self {
            Progress::Lone(value) => value,
            Progress::Whole(value) => value,
            Progress::Product(value, n) => product(value, n),
            Progress::Begins => None,
            Progress::Times(_) => None,
            Progress::Over(_) => None,
            Progress::Scale(_, _) => None,
        }
    }

    // The same where an operator stands behind it.
    fn value_begun(self) -> Formed
        ensures { result ≡ value_begun self }
    {
        match self {
            Progress::Lone(value) => normalized(value),
            Progress::Whole(value) => value,
            Progress::Product(value, n) => product(value, n),
            Progress::Begins => None,
            Progress::Times(_) => None,
            Progress::Over(_) => None,
            Progress::Scale(_, _) => None,
        }
    }

    fn divided(self) -> Progress
        ensures { result ≡ divided_progress self }
    {
        match self {
            Progress::Product(value, n) => Progress::Scale(value, n),
            Progress::Lone(value) => Progress::Over(normalized(value)),
            Progress::Whole(value) => Progress::Over(value),
            Progress::Begins => Progress::Begins,
            Progress::Times(value) => Progress::Times(value),
            Progress::Over(value) => Progress::Over(value),
            Progress::Scale(value, n) => Progress::Scale(value, n),
        }
    }
}

impl Level {
    /// A level in which nothing stands.
    pub fn fresh(kind: ValueKind) -> Level
        ensures { result ≡ fresh kind }
    {
        Level {
            kind,
            sum: Sum::Nothing,
            progress: Progress::Begins,
        }
    }

    /// The kind of operand that is wanted. `None` where an operator is due.
    pub fn wanted(self) -> Option<ValueKind>
        ensures { result ≡ wanted_by self.kind self.progress }
    {
        self.progress.wanted_by(self.kind)
    }

    /// Whether an operator is due.
    pub fn is_due(self) -> bool
        ensures { result ≡ is_due self.progress }
    {
        self.progress.is_due()
    }

    /// The value, if the level ends here.
    pub fn value(self) -> Formed
        ensures { result ≡ level_value self }
    {
        match self.sum {
            Sum::Nothing => self.progress.value(),
            Sum::Before(before, sign) => sum_of(sign, before, self.progress.value()),
        }
    }

    // The same where a sign stands behind it.
    fn value_begun(self) -> Formed
        ensures { result ≡ level_begun self }
    {
        match self.sum {
            Sum::Nothing => self.progress.value_begun(),
            Sum::Before(before, sign) => sum_of(sign, before, self.progress.value()),
        }
    }

    /// Behind `+` or `-`.
    pub fn signed(self, sign: Sign) -> Level
        ensures { result ≡ behind_sign sign self }
    {
        Level {
            kind: self.kind,
            sum: Sum::Before(self.value_begun(), sign),
            progress: Progress::Begins,
        }
    }

    /// Behind `*`.
    pub fn times(self) -> Level
        ensures { result ≡ behind_times self }
    {
        Level {
            kind: self.kind,
            sum: self.sum,
            progress: Progress::Times(self.progress.value_begun()),
        }
    }

    /// Behind `/`.
    pub fn divided(self) -> Level
        ensures { result ≡ behind_divide self }
    {
        Level {
            kind: self.kind,
            sum: self.sum,
            progress: self.progress.divided(),
        }
    }

    /// Behind an operand or a closing parenthesis.
    pub fn with_factor(self, factor: Formed) -> Level
        ensures { result ≡ behind_factor self factor }
    {
        Level {
            kind: self.kind,
            sum: self.sum,
            progress: self.progress.with_factor(factor),
        }
    }
}

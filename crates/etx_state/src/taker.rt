//! Numbers, dimensions and glue as far as they are read. What is read of one may need another first, as the number of a register;
//! then what waits for that is kept in a list of outer scans, the innermost last.
ghost use Rattle.std.specs.Prelude.{◌≡◌, ◌∷◌, [], length, OnOk, OnErr, MatchOption};

use crate::scan::NumberFinish;
use etx_exprs::{Digits, Expr, Value as Quantity};
use etx_matter::{Boxed, Glue, GlueOrder};
use etx_prims::{CodeKind, GlueConversionKind, GluePartKind, RegisterKind};
use std::alloc::{AllocError, Global};
use std::marker::Model;

/// What a dimension is to be.
#[derive(Clone, Copy)]
pub struct Length {
    pub is_negative: bool,
    /// Whether it is in mu.
    pub is_mu: bool,
    /// Whether it may be infinite, in `fil`, `fill` or `filll`.
    pub is_infinite: bool,
}

/// The number in front of a unit: its whole part, and its fraction in 65536ths.
#[derive(Clone, Copy)]
pub struct Factor {
    pub whole: i32,
    pub fraction: i32,
}

/// What is read.
#[derive(Clone, Copy)]
pub enum Want {
    Integer { is_negative: bool },
    Dimension(Length),
    /// The unit of a dimension.
    Unit { length: Length, factor: Factor },
    Glue { is_negative: bool, is_mu: bool },
    /// Whatever stands there, as for `\the`.
    Whole,
}

/// The digits behind a full stop. Digits behind the 17th don't count.
#[derive(Clone, Copy)]
pub struct Decimals {
    pub digits: u64,
    pub places: u8,
}

/// A scan of a number, a dimension or glue.
#[derive(Drop)]
pub enum NumberScan {
    /// An `=` that may be there, and then the same as at the start.
    Equals(Want),
    /// Signs, and then what is wanted.
    Start(Want),
    /// Behind a backquote: a character.
    Character(Want),
    /// Behind that character: a space that may be there.
    CharacterEnd {
        want: Want,
        code: u8,
    },
    /// Digits of an integer.
    Digits {
        want: Want,
        digits: Digits,
        is_decimal: bool,
    },
    /// Digits behind a full stop.
    Fraction {
        length: Length,
        whole: i32,
        decimals: Decimals,
    },
    /// The unit of a dimension, behind `true` or not.
    Unit {
        length: Length,
        factor: Factor,
        is_true: bool,
    },
    /// Behind `fil`: further letters `l`.
    Fil {
        length: Length,
        factor: Factor,
        order: GlueOrder,
    },
    /// Behind the unit: a space that may be there. No size: the dimension is too large.
    UnitEnd {
        length: Length,
        size: Option<i32>,
    },
    /// Behind the width of glue: `plus` or `minus`.
    Plus {
        glue: Glue,
        is_mu: bool,
    },
    /// Behind its stretch: `minus`.
    Minus {
        glue: Glue,
        is_mu: bool,
    },
    /// An operand of an expression, or a parenthesis.
    Operand {
        expr: Boxed<Expr>,
        want: Want,
    },
    /// An operator, or the end of the expression.
    Operator {
        expr: Boxed<Expr>,
        want: Want,
    },
}

/// What waits for a number that another scan reads first.
#[derive(Drop)]
pub enum Outer {
    /// It is the number of a register whose value is wanted.
    Register {
        kind: RegisterKind,
        want: Want,
    },
    /// It is the code of a character of which a code is wanted.
    Code {
        kind: CodeKind,
        want: Want,
    },
    /// It is glue of which a part is wanted.
    GluePart {
        kind: GluePartKind,
        want: Want,
    },
    /// It is glue that is wanted as glue of the other kind.
    GlueConversion {
        kind: GlueConversionKind,
        want: Want,
    },
    /// It is an operand of an expression.
    Operand {
        expr: Boxed<Expr>,
        want: Want,
    },
    /// It is the width of glue.
    Width {
        is_mu: bool,
    },
    /// It is the stretch of this glue.
    Stretch {
        glue: Glue,
        is_mu: bool,
    },
    /// It is the shrink of this glue.
    Shrink {
        glue: Glue,
        is_mu: bool,
    },
    /// It is what is wanted, behind an error.
    Again(Want),
}

/// The outer scans. Contracts see a list, the innermost first.
#[derive(Drop)]
pub struct Outers {
    items: Vec<Outer>,
}

impl Model for Outers {
    ghost use Rattle.std.specs.Prelude.{List, reverse};
    ghost use Rattle.etx_state.specs.declared.taker.Outer.{Outer};

    ghost Value = { List Outer };

    ghost view = { λ o. reverse o.items.items };
}

/// Who takes a number: the outer scans, the innermost first, and behind them the finisher.
#[derive(Drop)]
pub struct Taker {
    pub outers: Outers,
    pub finish: NumberFinish,
}

impl Outers {
    /// No outer scans. Takes no memory.
    pub fn new(alloc: Global) -> Outers
        ensures { result ≡ [] }
    {
        Outers {
            items: Vec::new(alloc),
        }
    }

    /// How many there are.
    pub fn len(&self) -> usize
        ensures { result ≡ length self.now }
    {
        self.items.len()
    }

    /// One more, the innermost. After an `Err` they are what they were.
    pub fn push(&mut self, outer: Outer) -> Result<(), AllocError>
        ensures ok { OnOk result (self.new ≡ outer ∷ self.old) }
        ensures err { OnErr result (self.new ≡ self.old) }
    {
        self.items.push(outer)?;
        Ok(())
    }

    /// Takes the innermost. `None` exactly where there is none.
    pub fn pop(&mut self) -> Option<Outer>
        ensures { MatchOption result ((self.old ≡ []) × (self.new ≡ [])) (λ outer. self.old ≡ outer ∷ self.new) }
    {
        self.items.pop()
    }
}

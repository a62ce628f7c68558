//! An expression, part by part.
ghost use Rattle.std.specs.Prelude.{◌≡◌, ◌↔◌, ◌+◌, ◌++◌, ◌∷◌, [], List, length, true, false, IfOk, OnOk, OnErr, MatchResult, Some, None};
ghost use Rattle.etx_exprs.specs.declared.part.Part.{Part};
ghost use Rattle.etx_exprs.specs.declared.value.ValueKind.{ValueKind};
ghost use Rattle.etx_exprs.specs.declared.value.Value.{Value};
ghost use Rattle.etx_exprs.specs.Values.{checked, kind_of};
ghost use Rattle.etx_exprs.specs.Trees.{Expression, expression_parts, expression_value, IsExpression};
ghost use Rattle.etx_exprs.specs.Says.{Says, Took, Comes, IsTree, opens, closes};
ghost use Rattle.etx_exprs.specs.declared.part.Part.TheVariants as part;
ghost use Rattle.etx_exprs.specs.declared.part.Turn.TheVariants.{More};
ghost use Rattle.etx_exprs.specs.Feeding.{started, fed_of, wanted_of, is_due, is_whole, level_value, operand_fed, operator_fed, open_fed, close_fed, relax_fed};

use crate::level::Level;
use crate::levels::Levels;
use crate::part::{Part, Turn};
use crate::step::checked;
use crate::sum::Sign;
use crate::value::{Overflow, Value, ValueKind};
use std::alloc::{AllocError, Global};
use std::marker::Model;

/// An expression of e-TeX of which some parts were fed.
///
/// Terms stand with `+` or `-` between them. A term is a factor of the expression's kind, times or divided by integer factors,
/// and a factor is an operand, or an expression in parentheses. A quotient is the nearest whole number, halves away from zero;
/// a product directly followed by a division is one scaling, whose product has no bound. Stretches, and shrinks, of one order
/// are added; else the right one counts where it is of the higher order and not nothing, and the left one otherwise. As in
/// e-TeX, a right one that counts keeps its sign in a difference too. A stretch or shrink of nothing becomes finite in a sum,
/// and where an operator stands behind a term's first factor, but not by a product or a quotient. (The e-TeX manual, section
/// 3.5; "TeX: The Program", section 1239; of signs and orders both say little, and e-TeX's program does it so.)
#[derive(Drop)]
pub struct Expr {
    /// What stands around the innermost parenthesis that is open.
    outer: Levels,
    level: Level,
}

impl Model for Expr {
    ghost use Rattle.etx_exprs.specs.Feeding.{ExprState};

    ghost Value = { ExprState };

    ghost view = { λ it. record { outer = it.outer; level = it.level } };
}

impl Expr {
    /// An expression of a kind, to which nothing was fed. Takes no memory.
    #[tactic(auto, unfolding(crate::specs::Feeding::started))]
    pub fn new(alloc: Global, kind: ValueKind) -> Expr
        ensures state { result ≡ started kind }
        ensures took { Took kind [] result }
    {
        Expr {
            outer: Levels::new(alloc),
            level: Level::fresh(kind),
        }
    }

    /// The kind of operand that is wanted; a `(` may stand there too. `None` where an operator is due.
    pub fn wanted(&self) -> Option<ValueKind>
        ensures value { result ≡ wanted_of self.now }
        ensures fits { (v : Value) → ((fed_of self.now (part.Operand v)).turn ≡ More) ↔ (result ≡ Some (kind_of v)) }
    {
        self.level.wanted()
    }

    /// The kind of the innermost parenthesis that is open, or else of the whole.
    pub fn kind(&self) -> ValueKind
        ensures { result ≡ self.now.level.kind }
    {
        self.level.kind
    }

    /// How many parentheses are open.
    pub fn depth(&self) -> usize
        ensures value { result ≡ length self.now.outer }
        ensures parts { (kind : ValueKind) (parts : List Part) → Took kind parts self.now → result + closes parts ≡ opens parts }
    {
        self.outer.len()
    }

    #[tactic(auto, unfolding(crate::specs::Feeding::is_whole))]
    fn is_due(&self) -> bool
        ensures { result ≡ is_whole self.now }
    {
        self.outer.len() == 0 && self.level.is_due()
    }

    /// Whether the parts that were taken are a whole expression, so that it has a value: no parenthesis is open, and an
    /// operator is due.
    pub fn is_whole(&self) -> bool
        ensures value { result ≡ is_whole self.now }
        ensures whole { result ≡ true → (kind : ValueKind) (parts : List Part) → Took kind parts self.now → IsTree kind parts }
        ensures part { result ≡ false → (kind : ValueKind) (parts : List Part) → Took kind parts self.now → IsTree kind parts → ⊥ }
    {
        self.is_due()
    }

    fn feed_operand(&mut self, value: Value) -> Turn
        ensures turn { result ≡ (operand_fed (wanted_of self.old) self.old value).turn }
        ensures state { self.new ≡ (operand_fed (wanted_of self.old) self.old value).state }
    {
        match self.level.wanted() {
            None => Turn::DoneBack,
            Some(kind) => {
                if value.is_of(kind) {
                    self.level = self.level.with_factor(checked(value));
                    Turn::More
                } else {
                    Turn::DoneBack
                }
            }
        }
    }

    fn feed_operator(&mut self, level: Level) -> Turn
        ensures turn { result ≡ (operator_fed (is_due self.old.level.progress) self.old level).turn }
        ensures state { self.new ≡ (operator_fed (is_due self.old.level.progress) self.old level).state }
    {
        if self.level.is_due() {
            self.level = level;
            Turn::More
        } else {
            Turn::DoneBack
        }
    }

    fn feed_open(&mut self) -> Result<Turn, AllocError>
        ensures turn { IfOk result (λ turn. turn ≡ (open_fed (wanted_of self.old) self.old).turn) }
        ensures state { OnOk result (self.new ≡ (open_fed (wanted_of self.old) self.old).state) }
        ensures err { OnErr result (self.new ≡ self.old) }
    {
        match self.level.wanted() {
            None => Ok(Turn::DoneBack),
            Some(kind) => {
                self.outer.push(self.level)?;
                self.level = Level::fresh(kind);
                Ok(Turn::More)
            }
        }
    }

    fn feed_close(&mut self) -> Turn
        ensures turn { result ≡ (close_fed (is_due self.old.level.progress) self.old).turn }
        ensures state { self.new ≡ (close_fed (is_due self.old.level.progress) self.old).state }
    {
        if !self.level.is_due() {
            return Turn::DoneBack;
        }
        match self.outer.pop() {
            None => Turn::DoneBack,
            Some(around) => {
                self.level = around.with_factor(self.level.value());
                Turn::More
            }
        }
    }

    fn feed_relax(&self) -> Turn
        ensures { result ≡ (relax_fed self.now).turn }
    {
        if self.outer.len() == 0 && self.level.is_due() {
            Turn::Done
        } else {
            Turn::DoneBack
        }
    }

    #[tactic(auto, unfolding(crate::specs::Feeding::fed_of))]
    fn take(&mut self, part: Part) -> Result<Turn, AllocError>
        ensures turn { IfOk result (λ turn. turn ≡ (fed_of self.old part).turn) }
        ensures state { OnOk result (self.new ≡ (fed_of self.old part).state) }
        ensures err { OnErr result (self.new ≡ self.old) }
    {
        match part {
            Part::Operand(value) => Ok(self.feed_operand(value)),
            Part::Plus => Ok(self.feed_operator(self.level.signed(Sign::Plus))),
            Part::Minus => Ok(self.feed_operator(self.level.signed(Sign::Minus))),
            Part::Times => Ok(self.feed_operator(self.level.times())),
            Part::Divide => Ok(self.feed_operator(self.level.divided())),
            Part::Open => self.feed_open(),
            Part::Close => Ok(self.feed_close()),
            Part::Relax => Ok(self.feed_relax()),
            Part::Other => Ok(Turn::DoneBack),
        }
    }

    /// Takes the next part, if it can follow.
    ///
    /// `More` where it goes on with an expression, `Done` for a `\relax` behind a whole expression, and `DoneBack` where it
    /// can't follow: then it isn't taken, and the expression is what it was, as behind `Done`. An operand can't follow where another
    /// kind is wanted; one that is out of its range is taken, and makes the value an [`Overflow`].
    ///
    /// Behind `DoneBack` the caller looks where the expression stands. Where [`Expr::wanted`] is some kind, an operand is missing: it
    /// scans one, with TeX's errors about numbers. Where it is `None` and [`Expr::depth`] is above 0, e-TeX reports `Missing )
    /// inserted for expression`: the caller feeds `Close`, and then the part again. Else the expression is whole.
    ///
    /// Only `Open` takes memory. After an `Err` the expression is what it was.
    pub fn feed(&mut self, part: Part) -> Result<Turn, AllocError>
        ensures turn { IfOk result (λ turn. turn ≡ (fed_of self.old part).turn) }
        ensures state { OnOk result (self.new ≡ (fed_of self.old part).state) }
        ensures says { IfOk result (λ turn. (kind : ValueKind) (parts : List Part) → Took kind parts self.old → Says turn kind parts part) }
        ensures comes { IfOk result (λ turn. Comes turn self.old part self.new) }
        ensures err { OnErr result (self.new ≡ self.old) }
    {
        self.take(part)
    }

    fn level_value(&self) -> Result<Value, Overflow>
        ensures { MatchResult result (λ v. level_value self.now.level ≡ Some v) (λ _. level_value self.now.level ≡ None) }
    {
        self.level.value().ok_or(Overflow)
    }

    /// The value of the parts that were taken, which are a whole expression. It is of the expression's kind, and in
    /// its range.
    ///
    /// `Overflow` exactly where an operand or a number that was formed is out of its range, or a divisor is zero.
    pub fn value(&self) -> Result<Value, Overflow>
        requires whole { is_whole self.now ≡ true }
        ensures tree { (kind : ValueKind) (tree : Expression) → IsExpression kind tree → Took kind (expression_parts tree) self.now →
            MatchResult result (λ v. expression_value tree ≡ Some v) (λ _. expression_value tree ≡ None) }
        ensures kind { (kind : ValueKind) (parts : List Part) → Took kind parts self.now → IfOk result (λ v. kind_of v ≡ kind) }
        ensures range { (kind : ValueKind) (parts : List Part) → Took kind parts self.now → IfOk result (λ v. checked v ≡ Some v) }
        ensures value { MatchResult result (λ v. level_value self.now.level ≡ Some v) (λ _. level_value self.now.level ≡ None) }
    {
        self.level_value()
    }
}

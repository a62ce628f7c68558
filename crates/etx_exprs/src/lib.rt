//! The values of numbers: the digits of an integer constant, a dimension in its unit, and the expressions of e-TeX.
//!
//! An [`Expr`] is fed the parts of an expression, one after another, and says whether it goes on; [`Digits`] does the same
//! with the tokens of a constant. Each refusal comes exactly where an operand or a number that is formed is out of its
//! range, or a divisor is zero. The rules are those of "TeX: The Program", sections 444 to 458 and 1239, and of section 3.5
//! of the e-TeX manual; where both are silent, they are what e-TeX's program is seen to do.
#![tactic(auto)]

mod digits;
mod expr;
mod law;
mod level;
mod levels;
mod part;
mod step;
mod sum;
mod unit;
mod value;

pub use digits::{Digits, TooBig};
pub use expr::Expr;
pub use law::{
    each_tree_is_taken_and_has_its_value, one_thing_is_said_of_a_part, quotients_are_nearest,
    the_parts_have_one_value, two_steps_convert_alike,
};
pub use part::{Part, Turn};
pub use unit::{TooLarge, Unit, convert};
pub use value::{Overflow, Value, ValueKind};

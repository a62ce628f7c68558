//! TeX's arithmetic of scaled points. A scaled point (sp) is 2^-16 of a printer's point (pt).
//!
//! The calls are those of "TeX: The Program", sections 99 to 108, each stated as a fact on whole numbers and fractions.
#![tactic(auto)]

mod decimal;
mod division;
mod law;
mod rounding;
mod stretching;

pub use decimal::print_scaled;
pub use division::{nx_plus_y, xn_over_d};
pub use law::{badness_grows, decimals_read_back, one_nearest, one_quotient};
pub use rounding::{Ratio, round_half};
pub use stretching::badness;

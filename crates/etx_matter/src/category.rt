//! The category of a character.
ghost use Rattle.std.specs.Prelude.{◌≡◌, ◌≤◌};

use std::marker::Model;

/// A category of characters, from 0 to 15 ("TeX: The Program", section 207). Contracts see it as its number.
#[derive(Clone, Copy, Debug, PartialEq, Eq)]
pub struct Category {
    number: u8,
}

impl Model for Category {
    ghost use Rattle.std.specs.Prelude.{ℕ, ◌≤◌};

    ghost Value = { ℕ };

    ghost view = { λ c. c.number };

    ghost invariant = { λ c. c.number ≤ 15 };

    ghost inverse = { λ n. record { number = n } };
}

impl Category {
    /// The category of this number.
    pub fn new(number: u8) -> Category
        requires { number ≤ 15 }
        ensures { result ≡ number }
    {
        Category { number }
    }

    pub fn number(self) -> u8
        ensures value { result ≡ self }
        ensures small { result ≤ 15 }
    {
        self.number
    }
}

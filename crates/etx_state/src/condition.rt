//! Conditionals that are open.
ghost use Rattle.std.specs.Prelude.{◌≡◌, IfOk};
ghost use Rattle.etx_state.specs.Conditions.{if_number, branch_number, type_by};

use etx_prims::IfKind;
use etx_stack::Share;
use std::alloc::AllocError;

/// How far a conditional has come ("TeX: The Program", section 489).
#[derive(Clone, Copy, Debug, PartialEq, Eq)]
pub enum Branch {
    /// Its test is being read.
    Test,
    /// Only `\fi` may follow.
    Last,
    /// `\else` or `\fi` may follow.
    First,
    /// A case of `\ifcase`: `\or`, `\else` or `\fi` may follow.
    Case,
}

/// A conditional that is open.
#[derive(Clone, Copy, Debug, PartialEq, Eq)]
pub struct Condition {
    pub kind: IfKind,
    /// Whether `\unless` stood before it.
    pub is_unless: bool,
    pub branch: Branch,
    /// The number of the line in which it began.
    pub line: u32,
}

impl Share for Condition {
    fn share(&self) -> Result<Condition, AllocError> {
        Ok(*self)
    }
}

impl Condition {
    /// Its number in `\currentiftype`.
    pub fn number(self) -> i32
        ensures { result ≡ type_by self.is_unless (if_number self.kind) }
    {
        let number = self.kind as i32 + 1;
        if self.is_unless { -number } else { number }
    }
}

impl Branch {
    /// Its number in `\currentifbranch`.
    pub fn number(self) -> i32
        ensures { result ≡ branch_number self }
    {
        match self {
            Branch::Test => 0,
            Branch::Last => -1,
            Branch::First => 1,
            Branch::Case => 1,
        }
    }
}

//! What there is one of.
ghost use Rattle.std.specs.Prelude.{◌≡◌};
ghost use Rattle.etx_keys.specs.Singles.{single_number, single_at};

use crate::table::in_table;

/// What there is one of.
#[derive(Clone, Copy, Debug, PartialEq, Eq, PartialOrd, Ord)]
pub enum Single {
    /// The number of the current font.
    CurrentFont,
    /// The shape of paragraphs.
    ParShape,
    /// The token that `\afterassignment` keeps ("TeX: The Program", section 1266).
    AfterAssignment,
    /// How the job deals with errors: 0 batch mode, 1 nonstop mode, 2 scroll mode, 3 error stop mode.
    Interaction,
    /// The patterns and exceptions of all languages.
    HyphenTables,
}

static SINGLES: [Single; 5] = [
    Single::CurrentFont,
    Single::ParShape,
    Single::AfterAssignment,
    Single::Interaction,
    Single::HyphenTables,
];

/// The number of what there is one of.
#[tactic(auto, unfolding(crate::specs::Singles::single_number))]
pub fn single_number(single: Single) -> u32
    ensures { result ≡ single_number single }
{
    single as u32
}

/// What there is one of, by its number.
#[tactic(auto, unfolding(crate::specs::Singles::all_singles, crate::specs::Singles::single_at))]
pub fn single_at(number: u32) -> Option<Single>
    ensures { result ≡ single_at number }
{
    in_table(&SINGLES, number)
}

//! Rows of the table, and what may become one.
ghost use Rattle.std.specs.Prelude.{◌≡◌};
ghost use Rattle.etx_linebreak.specs.Lines.{rank, is_far};

/// How tight or loose a line is set.
#[derive(Clone, Copy)]
pub enum Class {
    VeryLoose,
    Loose,
    Decent,
    Tight,
}

impl Class {
    fn rank(self) -> u32
        ensures { result ≡ rank self }
    {
        match self {
            Class::VeryLoose => 0,
            Class::Loose => 1,
            Class::Decent => 2,
            Class::Tight => 3,
        }
    }

    /// Whether two classes are neither equal nor neighbours.
    #[tactic(auto, unfolding(crate::specs::Lines::is_far))]
    pub fn is_far(self, other: Class) -> bool
        ensures { result ≡ is_far self other }
    {
        let a = self.rank();
        let b = other.rank();
        a.saturating_sub(b) > 1 || b.saturating_sub(a) > 1
    }
}

/// A way to end a line at a break: the best one for its class among some.
#[derive(Clone, Copy)]
pub struct Row {
    /// Its place in the list of all rows.
    pub number: usize,
    /// The number of its break among the legal ones, from 1 on; 0 is the start.
    pub break_number: usize,
    /// The number of the line that follows.
    pub line: usize,
    /// The class of the line that ends here.
    pub class: Class,
    /// The demerits of all lines up to here.
    pub total: i64,
    /// The number of the row where the line that ends here begins.
    pub before: usize,
}

/// What a row offers at a break.
#[derive(Clone, Copy)]
pub struct Candidate {
    pub line: usize,
    pub class: Class,
    pub total: i64,
    pub before: usize,
}

//! The best candidate of each class.
ghost use Rattle.std.specs.Prelude.{◌≡◌, ◌++◌, ◌∷◌, [], None, length, int_le, OnOk, IfOk};
ghost use Rattle.etx_linebreak.specs.Rows.{better, no_bests, with_in, with_offer, by_class, lesser, least_after, row_of, row_if, rows_within, kept_at, kept_rows};

use crate::pass::Pass;
use crate::row::{Candidate, Class, Row};
use std::alloc::AllocError;

/// The best candidate of each class among some rows.
#[derive(Clone, Copy)]
pub struct Bests {
    very_loose: Option<Candidate>,
    loose: Option<Candidate>,
    decent: Option<Candidate>,
    tight: Option<Candidate>,
}

#[tactic(auto, unfolding(crate::specs::Rows::better))]
fn better(old: Option<Candidate>, new: Candidate) -> Option<Candidate>
    ensures { result ≡ better old new }
{
    match old {
        None => Some(new),
        Some(best) => {
            if new.total <= best.total {
                Some(new)
            } else {
                Some(best)
            }
        }
    }
}

#[tactic(auto, unfolding(crate::specs::Rows::lesser))]
fn lesser(least: Option<i64>, best: Option<Candidate>) -> Option<i64>
    ensures { result ≡ lesser least best }
{
    match best {
        None => least,
        Some(it) => match least {
            None => Some(it.total),
            Some(total) => {
                if it.total <= total {
                    Some(it.total)
                } else {
                    Some(total)
                }
            }
        },
    }
}

/// The least total of these, or `None` if there is none.
#[tactic(auto, unfolding(crate::specs::Rows::least_after))]
fn least_of(bests: &[Option<Candidate>]) -> Option<i64>
    ensures { result ≡ least_after None bests.now }
{
    let mut least = None;
    for best in bests {
        least = lesser(least, *best);
    }
    least
}

impl Bests {
    pub fn new() -> Bests
        ensures { result ≡ no_bests }
    {
        Bests {
            very_loose: None,
            loose: None,
            decent: None,
            tight: None,
        }
    }

    fn take(&mut self, new: Candidate)
        ensures { self.new ≡ with_in new.class self.old new }
    {
        match new.class {
            Class::VeryLoose => self.very_loose = better(self.very_loose, new),
            Class::Loose => self.loose = better(self.loose, new),
            Class::Decent => self.decent = better(self.decent, new),
            Class::Tight => self.tight = better(self.tight, new),
        }
    }

    /// Takes what another row gives. It changes these in their place, since most rows give nothing.
    #[tactic(auto, unfolding(crate::specs::Rows::with_offer))]
    pub fn take_offer(&mut self, offer: Option<Candidate>)
        ensures { self.new ≡ with_offer self.old offer }
    {
        match offer {
            None => {}
            Some(new) => self.take(new),
        }
    }

    #[tactic(auto, unfolding(crate::specs::Rows::by_class))]
    fn by_class(self) -> [Option<Candidate>; 4]
        ensures { result ≡ by_class self }
    {
        [self.very_loose, self.loose, self.decent, self.tight]
    }

    /// Adds a row for each class whose best is near the least total.
    #[tactic(auto, unfolding(crate::specs::Rows::kept_rows, crate::specs::Rows::kept_at))]
    pub fn keep(
        self,
        pass: &Pass,
        break_number: usize,
        rows: &mut Vec<Row>,
        active: &mut Vec<Row>,
    ) -> Result<(), AllocError>
        ensures rows { OnOk result (rows.new.items ≡ rows.old.items ++ kept_rows pass.now break_number (length rows.old.items) self) }
        ensures active { OnOk result (active.new.items ≡ active.old.items ++ kept_rows pass.now break_number (length rows.old.items) self) }
    {
        let bests = self.by_class();
        match least_of(&bests) {
            None => Ok(()),
            Some(least) => match least.checked_add(pass.far()) {
                None => Err(AllocError),
                Some(limit) => add_within(break_number, limit, &bests, rows, active),
            },
        }
    }
}

/// Adds a row to both lists.
pub fn add(
    break_number: usize,
    it: Candidate,
    rows: &mut Vec<Row>,
    active: &mut Vec<Row>,
) -> Result<(), AllocError>
    ensures rows { OnOk result (rows.new.items ≡ rows.old.items ++ row_of break_number (length rows.old.items) it ∷ []) }
    ensures active { OnOk result (active.new.items ≡ active.old.items ++ row_of break_number (length rows.old.items) it ∷ []) }
{
    let row = Row {
        number: rows.len(),
        break_number,
        line: it.line,
        class: it.class,
        total: it.total,
        before: it.before,
    };
    rows.push(row)?;
    active.push(row)?;
    Ok(())
}

#[tactic(auto, unfolding(crate::specs::Rows::row_if))]
fn add_if(
    break_number: usize,
    limit: i64,
    best: Option<Candidate>,
    rows: &mut Vec<Row>,
    active: &mut Vec<Row>,
) -> Result<(), AllocError>
    ensures rows { OnOk result (rows.new.items ≡ rows.old.items ++ row_if break_number limit (length rows.old.items) best) }
    ensures active { OnOk result (active.new.items ≡ active.old.items ++ row_if break_number limit (length rows.old.items) best) }
{
    match best {
        None => Ok(()),
        Some(it) => {
            if it.total <= limit {
                add(break_number, it, rows, active)
            } else {
                Ok(())
            }
        }
    }
}

#[tactic(auto, unfolding(crate::specs::Rows::rows_within))]
fn add_within(
    break_number: usize,
    limit: i64,
    bests: &[Option<Candidate>],
    rows: &mut Vec<Row>,
    active: &mut Vec<Row>,
) -> Result<(), AllocError>
    ensures rows { OnOk result (rows.new.items ≡ rows.old.items ++ rows_within break_number limit (length rows.old.items) bests.now) }
    ensures active { OnOk result (active.new.items ≡ active.old.items ++ rows_within break_number limit (length rows.old.items) bests.now) }
{
    for best in bests {
        add_if(break_number, limit, *best, rows, active)?;
    }
    Ok(())
}

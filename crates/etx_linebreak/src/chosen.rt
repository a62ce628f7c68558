//! Which row ends a paragraph, and the breaks that lead to one.
ghost use Rattle.std.specs.Prelude.{◌≡◌, ◌&&◌, ◌||◌, int_lt, ◌-ℤ◌, pos, [], ◌∷◌, ◌++◌, Some, None, length, reverse, IfOk, OnOk};
ghost use Rattle.std.specs.Option.{option_map};
ghost use Rattle.etx_linebreak.specs.Choices.{fewer, fewest, nearer, is_same, is_cheaper, taken_at, next_taken, walked, looseness, good_enough, chosen_by, chosen, earlier, with_break, breaks_to, found};
ghost use Rattle.etx_linebreak.specs.Passes.{break_at};

use crate::pass::Pass;
use crate::row::Row;
use std::alloc::{AllocError, Global};

/// The row that is taken so far where a number of lines is wanted.
#[derive(Clone, Copy)]
pub struct Taken {
    pub row: Row,
    /// How many lines it is longer than the one of fewest demerits.
    pub off: i64,
}

/// The first of two of fewest demerits.
#[tactic(auto, unfolding(crate::specs::Choices::fewer))]
fn fewer(best: Row, row: Row) -> Row
    ensures { result ≡ fewer best row }
{
    if row.total < best.total { row } else { best }
}

/// The first of fewest demerits.
#[tactic(auto, unfolding(crate::specs::Choices::fewest))]
fn fewest(first: Row, rows: &[Row]) -> Row
    ensures { result ≡ fewest first rows.now }
{
    let mut best = first;
    for row in rows {
        best = fewer(best, *row);
    }
    best
}

/// Whether so many lines are nearer to what is wanted.
#[tactic(auto, unfolding(crate::specs::Choices::nearer))]
fn nearer(wanted: i32, off: i64, d: i64) -> bool
    ensures { result ≡ nearer wanted off d }
{
    let wanted = i64::from(wanted);
    (wanted <= d && d < off) || (off < d && d <= wanted)
}

/// By how many lines a row is longer than another. A difference that passes 64 bits counts as want of memory.
fn lines_more(row: &Row, line: usize) -> Result<i64, AllocError>
    ensures { IfOk result (λ it. it ≡ pos row.now.line -ℤ pos line) }
{
    match (i64::try_from(row.line), i64::try_from(line)) {
        (Ok(a), Ok(b)) => Ok(a - b),
        _ => Err(AllocError),
    }
}

#[tactic(auto, unfolding(crate::specs::Choices::is_same))]
fn is_same(a: i64, b: i64) -> bool
    ensures { result ≡ is_same a b }
{
    a <= b && b <= a
}

/// Whether a row that is longer by so many lines has as many as the one that is taken, and fewer demerits.
fn is_cheaper(so_far: Taken, off: i64, row: &Row) -> bool
    ensures { result ≡ is_cheaper so_far off row.now }
{
    is_same(off, so_far.off) && row.total < so_far.row.total
}

/// The row that is taken after one that is longer by so many lines.
#[tactic(auto, unfolding(crate::specs::Choices::taken_at))]
fn taken_at(wanted: i32, so_far: Taken, off: i64, row: &Row) -> Taken
    ensures { result ≡ taken_at wanted so_far off row.now }
{
    if nearer(wanted, so_far.off, off) {
        return Taken { row: *row, off };
    }
    if is_cheaper(so_far, off, row) {
        return Taken { row: *row, off };
    }
    so_far
}

#[tactic(auto, unfolding(crate::specs::Choices::next_taken))]
fn next_taken(wanted: i32, line: usize, so_far: Taken, row: &Row) -> Result<Taken, AllocError>
    ensures { IfOk result (λ it. it ≡ next_taken wanted line so_far row.now) }
{
    let off = lines_more(row, line)?;
    Ok(taken_at(wanted, so_far, off, row))
}

/// Goes over the rows, of which the one of fewest demerits is taken first.
#[tactic(auto, unfolding(crate::specs::Choices::walked))]
fn walked(wanted: i32, best: Row, rows: &[Row]) -> Result<Taken, AllocError>
    ensures { IfOk result (λ it. it ≡ walked wanted best.line (record { row = best; off = pos 0 }) rows.now) }
{
    let mut so_far = Taken { row: best, off: 0 };
    for row in rows {
        so_far = next_taken(wanted, best.line, so_far, row)?;
    }
    Ok(so_far)
}

impl Pass {
    #[tactic(auto, unfolding(crate::specs::Choices::looseness))]
    fn looseness(&self) -> i32
        ensures { result ≡ looseness self.now }
    {
        self.params().looseness
    }

    /// Whether it is as much longer as wanted, or no further pass can find something nearer.
    fn is_good(&self, it: Taken) -> bool
        ensures { result ≡ (is_same it.off (looseness self.now) || self.now.is_final) }
    {
        is_same(it.off, i64::from(self.looseness())) || self.is_final()
    }

    fn good_enough(&self, it: Taken) -> Option<Row>
        ensures { result ≡ good_enough self.now it }
    {
        if self.is_good(it) { Some(it.row) } else { None }
    }

    #[tactic(auto, unfolding(crate::specs::Choices::chosen_by))]
    fn chosen_by(&self, best: Row, rows: &[Row]) -> Result<Option<Row>, AllocError>
        ensures { IfOk result (λ it. it ≡ chosen_by self.now best rows.now) }
    {
        let wanted = self.looseness();
        if wanted == 0 {
            return Ok(Some(best));
        }
        let it = walked(wanted, best, rows)?;
        Ok(self.good_enough(it))
    }

    /// The row of these that ends the paragraph, if one does.
    #[tactic(auto, unfolding(crate::specs::Choices::chosen))]
    fn chosen(&self, rows: &[Row]) -> Result<Option<Row>, AllocError>
        ensures { IfOk result (λ it. it ≡ chosen self.now rows.now) }
    {
        match rows.split_first() {
            None => Ok(None),
            Some((first, rest)) => self.chosen_by(fewest(*first, rest), rows),
        }
    }

    /// Notes the break of a row, unless it is the start.
    #[tactic(auto, using(crate::proofs::Leading::pushed_last), unfolding(crate::specs::Choices::with_break))]
    fn note(&self, at: Option<Row>, found: &mut Vec<u32>) -> Result<(), AllocError>
        ensures { OnOk result (reverse found.new.items ≡ with_break self.now at (reverse found.old.items)) }
    {
        match at {
            None => Ok(()),
            Some(row) => {
                if row.break_number == 0 {
                    Ok(())
                } else {
                    self.push_break(row.break_number, found)
                }
            }
        }
    }

    fn push_break(&self, number: usize, found: &mut Vec<u32>) -> Result<(), AllocError>
        ensures { OnOk result (found.new.items ≡ found.old.items ++ break_at self.now number ∷ []) }
    {
        found.push(self.stop(number).place())?;
        Ok(())
    }

    /// The places of the breaks that lead to a row.
    fn breaks_to(&self, alloc: Global, rows: &[Row], last: Row) -> Result<Vec<u32>, AllocError>
        ensures { IfOk result (λ it. it.items ≡ breaks_to self.now rows.now (length rows.now) (Some last) []) }
    {
        let mut found = Vec::new(alloc);
        let mut at = Some(last);
        for _passed in 0..rows.len() {
            self.note(at, &mut found)?;
            at = earlier(rows, at);
        }
        found.reverse();
        Ok(found)
    }

    /// The breaks with which the pass ends, if it ends with any.
    #[tactic(auto, unfolding(crate::specs::Choices::found, crate::specs::Choices::breaks_of))]
    pub fn found(&self, alloc: Global) -> Result<Option<Vec<u32>>, AllocError>
        ensures { IfOk result (λ it. option_map (λ breaks. breaks.items) it ≡ found self.now) }
    {
        let rows = self.rows(alloc)?;
        match self.chosen(&rows.last)? {
            None => Ok(None),
            Some(last) => {
                let breaks = self.breaks_to(alloc, &rows.all, last)?;
                Ok(Some(breaks))
            }
        }
    }
}

/// The row at which the line of a row begins, unless it is the start.
#[tactic(auto, unfolding(crate::specs::Choices::earlier))]
fn earlier(rows: &[Row], at: Option<Row>) -> Option<Row>
    ensures { result ≡ earlier rows.now at }
{
    match at {
        None => None,
        Some(row) => {
            if row.break_number == 0 {
                None
            } else {
                rows.get(row.before).copied()
            }
        }
    }
}

//! The active list.
ghost use Rattle.std.specs.Prelude.{◌≡◌, ◌++◌, ◌∷◌, [], Bool, not, length, ◌≤◌, OnOk, IfOk};
ghost use Rattle.std.specs.List.{filter};
ghost use Rattle.etx_linebreak.specs.Rows.{closes_by, by_line, offer_by, gives_by, no_bests, bests_after, is_stuck, is_number, last_resort, group_of, is_in, kept_rows, made, stays};
ghost use Rattle.etx_linebreak.specs.Runs.{IsInGroups, run, next_of};
ghost use Rattle.etx_linebreak.specs.Choices.{last_rows};
ghost use Rattle.etx_linebreak.specs.Table.{table, IsNumbered};

use crate::bests::Bests;
use crate::line::Line;
use crate::pass::Pass;
use crate::row::{Candidate, Class, Row};
use std::alloc::{AllocError, Global};
use std::mem;

impl Pass {
    #[tactic(auto, unfolding(crate::specs::Rows::closes_by))]
    fn closes(&self, break_number: usize, line: Line) -> bool
        ensures { result ≡ closes_by self.now break_number line }
    {
        line.is_overfull || self.is_forced(break_number)
    }

    /// The candidate of a row by its line.
    #[tactic(auto, unfolding(crate::specs::Rows::offer_by))]
    fn offer(
        &self,
        break_number: usize,
        row: &Row,
        line: Line,
    ) -> Result<Option<Candidate>, AllocError>
        ensures { IfOk result (λ it. it ≡ offer_by self.now break_number row.now line) }
    {
        if !line.is_overfull && line.badness <= self.threshold() {
            let demerits = self.demerits(break_number, row, line);
            match row.total.checked_add(demerits) {
                None => Err(AllocError),
                Some(total) => {
                    let it = by_line(row, line, total)?;
                    Ok(Some(it))
                }
            }
        } else {
            Ok(None)
        }
    }

    /// Whether every row closes here, and none before the last gives a candidate.
    #[tactic(auto, unfolding(crate::specs::Rows::is_stuck))]
    fn is_stuck(&self, break_number: usize, active: &[Row]) -> Result<bool, AllocError>
        ensures { IfOk result (λ it. it ≡ is_stuck self.now break_number active.now) }
    {
        for (index, row) in active.iter().enumerate() {
            let line = self.measured(break_number, row);
            if !self.closes(break_number, line) {
                return Ok(false);
            }
            if index + 1 < active.len() {
                if let Some(_) = self.offer(break_number, row, line)? {
                    return Ok(false);
                }
            }
        }
        Ok(true)
    }

    /// The number of the row that gives the artificial line.
    #[tactic(auto, unfolding(crate::specs::Rows::last_resort))]
    fn last_resort(&self, break_number: usize, active: &[Row]) -> Result<Option<usize>, AllocError>
        ensures { IfOk result (λ it. it ≡ last_resort self.now break_number active.now) }
    {
        if self.is_final() && self.is_stuck(break_number, active)? {
            match active.last() {
                None => Ok(None),
                Some(last) => Ok(Some(last.number)),
            }
        } else {
            Ok(None)
        }
    }

    #[tactic(auto, unfolding(crate::specs::Rows::gives_by))]
    fn gives(
        &self,
        break_number: usize,
        resort: Option<usize>,
        row: &Row,
        line: Line,
    ) -> Result<Option<Candidate>, AllocError>
        ensures { IfOk result (λ it. it ≡ gives_by self.now break_number resort row.now line) }
    {
        if is_number(row.number, resort) {
            let it = by_line(row, line, row.total)?;
            Ok(Some(it))
        } else {
            self.offer(break_number, row, line)
        }
    }

    /// The candidates of these rows. The rows that stay go into the next list.
    #[tactic(auto, unfolding(crate::specs::Rows::bests_after, crate::specs::Rows::stays))]
    fn walk(
        &self,
        break_number: usize,
        resort: Option<usize>,
        group: &[Row],
        next: &mut Vec<Row>,
    ) -> Result<Bests, AllocError>
        ensures bests { IfOk result (λ it. it ≡ bests_after self.now break_number resort no_bests group.now) }
        ensures next { OnOk result (next.new.items ≡ next.old.items ++ filter (stays self.now break_number) group.now) }
    {
        let mut bests = Bests::new();
        for row in group {
            let line = self.measured(break_number, row);
            bests.take_offer(self.gives(break_number, resort, row, line)?);
            if !self.closes(break_number, line) {
                next.push(*row)?;
            }
        }
        Ok(bests)
    }

    #[tactic(auto, unfolding(crate::specs::Rows::group_of))]
    fn group_of(&self, row: &Row) -> usize
        ensures { result ≡ group_of self.now row.now }
    {
        row.line.min(self.easy())
    }

    #[tactic(auto, unfolding(crate::specs::Rows::is_in))]
    fn is_in(&self, group: usize, row: &Row) -> bool
        ensures { result ≡ is_in self.now group row.now }
    {
        self.group_of(row) == group
    }

    /// How many of the first rows are of a group.
    #[tactic(auto, unfolding(crate::specs::Runs::run))]
    fn run(&self, group: usize, rows: &[Row]) -> usize
        ensures within { result ≤ length rows.now }
        ensures value { result ≡ run self.now group rows.now }
    {
        for (index, row) in rows.iter().enumerate() {
            if !self.is_in(group, row) {
                return index;
            }
        }
        rows.len()
    }

    /// The candidates of a group become rows.
    fn advance_group(
        &self,
        break_number: usize,
        resort: Option<usize>,
        group: &[Row],
        rows: &mut Vec<Row>,
        next: &mut Vec<Row>,
    ) -> Result<(), AllocError>
        ensures rows { OnOk result (rows.new.items ≡ rows.old.items ++ kept_rows self.now break_number (length rows.old.items) (bests_after self.now break_number resort no_bests group.now)) }
        ensures next { OnOk result (next.new.items ≡ next.old.items ++ filter (stays self.now break_number) group.now ++ kept_rows self.now break_number (length rows.old.items) (bests_after self.now break_number resort no_bests group.now)) }
    {
        self.walk(break_number, resort, group, next)?
            .keep(self, break_number, rows, next)
    }

    /// The rows that are made at a break go into both lists, and the rows that stay into the next one.
    fn advance(
        &self,
        break_number: usize,
        active: &[Row],
        rows: &mut Vec<Row>,
        next: &mut Vec<Row>,
    ) -> Result<(), AllocError>
        requires { IsInGroups self.now 0 active.now }
        ensures rows { OnOk result (rows.new.items ≡ rows.old.items ++ made self.now break_number (length rows.old.items) active.now) }
        ensures next { OnOk result (next.new.items ≡ next.old.items ++ next_of self.now break_number (length rows.old.items) active.now) }
    {
        let resort = self.last_resort(break_number, active)?;
        let mut rest = active;
        'groups: while let Some(first) = rest.first() {
            let count = self.run(self.group_of(first), rest);
            let (group, behind) = rest.split_at(count);
            self.advance_group(break_number, resort, group, rows, next)?;
            rest = behind;
        }
        Ok(())
    }
}

/// A total or a line number that passes 64 bits counts as want of memory.
fn by_line(row: &Row, line: Line, total: i64) -> Result<Candidate, AllocError>
    ensures { IfOk result (λ it. it ≡ by_line row.now line total) }
{
    match row.line.checked_add(1) {
        None => Err(AllocError),
        Some(next) => Ok(Candidate {
            line: next,
            class: line.class,
            total,
            before: row.number,
        }),
    }
}

fn is_number(number: usize, resort: Option<usize>) -> bool
    ensures { result ≡ is_number number resort }
{
    match resort {
        None => false,
        Some(it) => number == it,
    }
}

/// The rows of a pass.
#[derive(Drop)]
pub(crate) struct Rows {
    /// All of them, in the order of their breaks.
    pub all: Vec<Row>,
    /// Those at the end, in the order in which one is chosen of them.
    pub last: Vec<Row>,
}

impl Pass {
    /// All rows of the pass, and the last ones.
    pub(crate) fn rows(&self, alloc: Global) -> Result<Rows, AllocError>
        ensures all { IfOk result (λ it. it.all.items ≡ table self.now) }
        ensures last { IfOk result (λ it. it.last.items ≡ last_rows self.now) }
        ensures numbers { IfOk result (λ it. IsNumbered 0 it.all.items) }
    {
        let opening = Row {
            number: 0,
            break_number: 0,
            line: 1,
            class: Class::Decent,
            total: 0,
            before: 0,
        };
        let mut rows = Vec::new(alloc);
        rows.push(opening)?;
        let mut active = Vec::new(alloc);
        active.push(opening)?;
        let mut next = Vec::new(alloc);
        for index in 0..self.break_count() {
            next.clear();
            self.advance(index + 1, &active, &mut rows, &mut next)?;
            mem::swap(&mut active, &mut next);
        }
        Ok(Rows {
            all: rows,
            last: active,
        })
    }
}

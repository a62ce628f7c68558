//! How often and where leaders repeat their box.
ghost use Rattle.std.specs.Prelude.{◌≡◌, ◌<◌, ◌≤◌, ◌^◌, ◌+◌, ℤ, pos, ◌-ℤ◌, ◌<ℤ◌, unsigned_abs, IfOk};
ghost use Rattle.etx_ship.specs.Copies.{spread, offset, distance, count, copies_of, row_of, behind_first};

use crate::place::{minus, plus};
use etx_matter::LeaderKind;
use std::alloc::AllocError;

/// The boxes of leaders: where the first begins, in sp, how far the next is behind it, and how many there are.
#[derive(Clone, Copy)]
pub(crate) struct Repeats {
    pub first: i64,
    pub step: i64,
    pub count: u64,
}

impl Repeats {
    /// The boxes behind the first.
    pub(crate) fn behind_first(self) -> Result<Repeats, AllocError>
        requires { 0 < self.count }
        ensures { IfOk result (λ rest. rest ≡ behind_first self) }
    {
        Ok(Repeats {
            first: plus(self.first, self.step)?,
            step: self.step,
            count: self.count - 1,
        })
    }
}

fn spread_of(room: u64, size: u64) -> u64
    requires some { 0 < size }
    requires short { room < 2 ^ 63 }
    ensures value { result ≡ spread room size }
    ensures small { result ≤ room }
{
    room % size / (room / size + 1)
}

// How far the first box stands behind the beginning of the room, which is so far behind the edge.
fn offset_of(kind: LeaderKind, behind: i64, room: u64, size: u64) -> u64
    requires some { 0 < size }
    requires small { size < 2 ^ 33 }
    requires short { room < 2 ^ 62 }
    ensures value { result ≡ offset kind behind room size }
    ensures small { result ≤ room + size }
{
    match kind {
        LeaderKind::Aligned => behind.rem_euclid(size as i64) as u64,
        LeaderKind::Centered => room % size / 2,
        LeaderKind::Expanded => {
            let inner = (room / size).saturating_sub(1) * spread_of(room, size);
            (room % size).saturating_sub(inner) / 2
        }
    }
}

fn distance_of(kind: LeaderKind, room: u64, size: u64) -> u64
    requires some { 0 < size }
    requires small { size < 2 ^ 33 }
    requires short { room < 2 ^ 62 }
    ensures value { result ≡ distance kind room size }
    ensures some { size ≤ result }
    ensures small { result < 2 ^ 63 }
{
    match kind {
        LeaderKind::Aligned | LeaderKind::Centered => size,
        LeaderKind::Expanded => size + spread_of(room, size),
    }
}

fn count_of(room: u64, first: u64, step: u64) -> u64
    requires some { 0 < step }
    requires short { room < 2 ^ 62 }
    ensures { result ≡ count room first step }
{
    if first <= room {
        (room - first) / step + 1
    } else {
        0
    }
}

fn fit(
    kind: LeaderKind,
    behind: i64,
    from: i64,
    room: u64,
    size: u64,
) -> Result<Repeats, AllocError>
    requires some { 0 < size }
    requires small { size < 2 ^ 33 }
    requires short { room < 2 ^ 62 }
    ensures { IfOk result (λ copies. (edge : ℤ) → behind ≡ edge -ℤ from → copies ≡ row_of kind edge from room size) }
{
    let before = offset_of(kind, behind, room, size);
    let step = distance_of(kind, room, size);
    Ok(Repeats {
        first: plus(from, before as i64)?,
        step: step as i64,
        count: count_of(room, before + size, step),
    })
}

/// The boxes of this size that fill a gap which begins at `from`, in a list that begins at `edge`.
///
/// A gap is a glue's width and the difference of two growths, so at most 2^31 + 2 * 10^9 sp. One of 2^62 sp would be refused
/// as memory is.
#[tactic(auto, unfolding(crate::specs::Copies::copies_of))]
pub(crate) fn copies(
    kind: LeaderKind,
    edge: i64,
    from: i64,
    gap: i64,
    size: i64,
) -> Result<Repeats, AllocError>
    requires { size <ℤ pos (2 ^ 33) }
    ensures { IfOk result (λ copies. copies ≡ copies_of kind edge from gap size) }
{
    if size > 0 && gap > 0 {
        let room = gap.unsigned_abs() + 10;
        if room >= 4_611_686_018_427_387_904 {
            return Err(AllocError);
        }
        fit(kind, minus(edge, from)?, from, room, size.unsigned_abs())
    } else {
        Ok(Repeats {
            first: from,
            step: 0,
            count: 0,
        })
    }
}

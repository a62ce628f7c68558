//! Groups and assignments, over the rest of the state.
ghost use Rattle.std.specs.Prelude.{◌≡◌, ◌↔◌, ◌≤◌, Some, Err, OnOk, OnErr, IfOk};
ghost use Rattle.etx_state.specs.Fits.{Fits};
ghost use Rattle.etx_state.specs.Values.{assign, assign_global, begin, ended, after, kind, noted, level};
ghost use Rattle.etx_state.specs.Rests.{rest_of, with_values, OnlyValues, Keeps};
ghost use Rattle.etx_groups.specs.declared.groups.NoGroup.TheVariants.{OutOfMemory};

use etx_matter::{Token, Tokens};
use etx_state::{Capacity, GroupKind, Key, Limit, MOST_GROUPS, Rest, Val};
use std::alloc::AllocError;

/// Why no group ended.
#[derive(Debug, Drop)]
pub enum NoGroup {
    /// No group is open.
    Outermost,
    /// There is no memory left.
    OutOfMemory,
}

impl From<AllocError> for NoGroup {
    ghost from_gives = { λ _ fault. fault ≡ OutOfMemory };

    fn from(_error: AllocError) -> NoGroup {
        NoGroup::OutOfMemory
    }
}

/// What the end of a group hands out.
#[derive(Drop)]
pub struct GroupEnd {
    /// The kind of the group.
    pub kind: GroupKind,
    /// The tokens that were noted in it, in the order in which they were noted. They are read next.
    pub tokens: Tokens,
}

/// Opens a group: one more map, which has no key.
///
/// `Full` comes exactly where 10000 groups are open, or more. After an `Err` the rest is what it was.
pub fn begin(rest: &mut Rest, kind: GroupKind) -> Result<(), Capacity>
    ensures ok { OnOk result (rest_of rest.new ≡ with_values (begin (rest_of rest.old).values kind) (rest_of rest.old)) }
    ensures full { (result ≡ Err (Capacity.Full Limit.Groups)) ↔ (10000 ≤ level (rest_of rest.old).values) }
    ensures only { (limit : Limit) → result ≡ Err (Capacity.Full limit) → limit ≡ Limit.Groups }
    ensures err { OnErr result (rest.new ≡ rest.old) }
    ensures kept { Keeps rest.old rest.new }
{
    if rest.level() >= MOST_GROUPS {
        return Err(Capacity::Full(Limit::Groups));
    }
    match rest.begin(kind) {
        Ok(()) => Ok(()),
        Err(_) => Err(Capacity::OutOfMemory),
    }
}

/// Ends the innermost group: its map is gone, and the tokens that were noted in it are handed out, in the order in which
/// they were noted, to be read next ("TeX: The Program", section 326).
///
/// `Outermost` comes exactly where no group is open, and nothing is changed then. After want of memory the values may
/// have changed.
#[tactic(auto, using(crate::proofs::Levels::none_open, crate::proofs::Levels::some_open))]
pub fn end(rest: &mut Rest) -> Result<GroupEnd, NoGroup>
    ensures kind { IfOk result (λ end. kind (rest_of rest.old).values ≡ Some end.kind) }
    ensures tokens { IfOk result (λ end. end.tokens ≡ after (rest_of rest.old).values) }
    ensures ok { OnOk result (rest_of rest.new ≡ with_values (ended (rest_of rest.old).values) (rest_of rest.old)) }
    ensures none { (result ≡ Err NoGroup.Outermost) ↔ (level (rest_of rest.old).values ≡ 0) }
    ensures unchanged { level (rest_of rest.old).values ≡ 0 → rest.new ≡ rest.old }
    ensures rest { OnlyValues (rest_of rest.old) (rest_of rest.new) }
    ensures kept { Keeps rest.old rest.new }
{
    match rest.kind() {
        None => Err(NoGroup::Outermost),
        Some(kind) => match rest.end() {
            Ok(ended) => Ok(GroupEnd {
                kind,
                tokens: ended.tokens,
            }),
            Err(_) => Err(NoGroup::OutOfMemory),
        },
    }
}

/// A local assignment: the innermost map has the key with this value.
///
/// After want of memory the values may have changed.
pub fn assign(rest: &mut Rest, key: Key, value: Val) -> Result<(), AllocError>
    requires { Fits key value }
    ensures ok { OnOk result (rest_of rest.new ≡ with_values (assign (rest_of rest.old).values key value) (rest_of rest.old)) }
    ensures rest { OnlyValues (rest_of rest.old) (rest_of rest.new) }
    ensures kept { Keeps rest.old rest.new }
{
    rest.assign(key, value)
}

/// A global assignment: the outermost map has the key with this value, and no other map has the key.
///
/// After want of memory the rest is what it was.
pub fn assign_global(rest: &mut Rest, key: Key, value: Val) -> Result<(), AllocError>
    requires { Fits key value }
    ensures ok { OnOk result (rest_of rest.new ≡ with_values (assign_global (rest_of rest.old).values key value) (rest_of rest.old)) }
    ensures err { OnErr result (rest.new ≡ rest.old) }
    ensures rest { OnlyValues (rest_of rest.old) (rest_of rest.new) }
    ensures kept { Keeps rest.old rest.new }
{
    rest.assign_global(key, value)
}

/// Notes a token, to be read behind the end of the innermost group. Where no group is open, nothing is noted.
///
/// After want of memory the rest is what it was.
pub fn after(rest: &mut Rest, token: Token) -> Result<(), AllocError>
    ensures ok { OnOk result (rest_of rest.new ≡ with_values (noted (rest_of rest.old).values token) (rest_of rest.old)) }
    ensures err { OnErr result (rest.new ≡ rest.old) }
    ensures rest { OnlyValues (rest_of rest.old) (rest_of rest.new) }
    ensures kept { Keeps rest.old rest.new }
{
    rest.after(token)
}

//! Tests of the calls. The helpers have no contracts and answer a `bool`, so that each test is short to prove.
use etx_groups::{NoGroup, after, assign, assign_global, begin, end};
use etx_matter::Token;
use etx_prims::IntParam;
use etx_state::{Capacity, GroupKind, Key, Limit, Rest, Val};
use std::test::Fail;

fn opens(rest: &mut Rest, kind: GroupKind) -> bool {
    begin(rest, kind).is_ok()
}

/// Whether a group of this kind ended, in which so many tokens were noted.
fn closes(rest: &mut Rest, kind: GroupKind, noted: &[Token]) -> bool {
    match end(rest) {
        Ok(ended) => ended.kind == kind && ended.tokens.as_slice() == noted,
        Err(_) => false,
    }
}

fn is_outermost(rest: &mut Rest) -> bool {
    matches!(end(rest), Err(NoGroup::Outermost))
}

fn is_full(rest: &mut Rest) -> bool {
    matches!(
        begin(rest, GroupKind::Simple),
        Err(Capacity::Full(Limit::Groups))
    )
}

/// Whether the parameter may have this number, and it was assigned.
fn sets_one(rest: &mut Rest, param: IntParam, number: i32) -> bool {
    let key = Key::Int(param);
    let value = Val::Int(number);
    if !value.fits(key) {
        return false;
    }
    assign(rest, key, value).is_ok()
}

/// Two local assignments.
fn sets(rest: &mut Rest, tolerance: i32, mag: i32) -> bool {
    sets_one(rest, IntParam::Tolerance, tolerance) && sets_one(rest, IntParam::Mag, mag)
}

fn sets_globally(rest: &mut Rest, mag: i32) -> bool {
    let key = Key::Int(IntParam::Mag);
    let value = Val::Int(mag);
    if !value.fits(key) {
        return false;
    }
    assign_global(rest, key, value).is_ok()
}

/// Whether the parameters have these values.
fn holds(rest: &Rest, tolerance: i32, mag: i32) -> bool {
    rest.int(IntParam::Tolerance) == tolerance && rest.int(IntParam::Mag) == mag
}

fn notes_two(rest: &mut Rest) -> bool {
    after(rest, Token::Param(1)).is_ok() && after(rest, Token::Param(2)).is_ok()
}

/// Two groups, and two values in each, the last one of which is assigned globally.
fn sets_in_two_groups(rest: &mut Rest) -> bool {
    opens(rest, GroupKind::Simple)
        && sets(rest, 3, 4)
        && opens(rest, GroupKind::SemiSimple)
        && sets(rest, 5, 6)
        && sets(rest, 7, 8)
        && sets_globally(rest, 9)
}

/// Whether both groups end, with the values in order.
fn ends_both(rest: &mut Rest) -> bool {
    holds(rest, 7, 9)
        && closes(
            rest,
            GroupKind::SemiSimple,
            &[Token::Param(1), Token::Param(2)],
        )
        && holds(rest, 3, 9)
        && closes(rest, GroupKind::Simple, &[])
        && holds(rest, 10_000, 9)
        && is_outermost(rest)
}

#[test]
fn ends_give_back_in_order(rt: HostRuntime) -> Result<(), Fail> {
    let mut rest = Rest::open(rt.alloc(), b"job")?;
    assert!(rt; sets_in_two_groups(&mut rest) && notes_two(&mut rest));
    assert!(rt; ends_both(&mut rest));
    Ok(())
}

/// So many groups, one inside the other, with two values in each.
fn nests(rest: &mut Rest, depth: u32) -> bool {
    for _ in 0..depth {
        if !(opens(rest, GroupKind::Simple) && sets(rest, 7, 8)) {
            return false;
        }
    }
    true
}

/// Whether so many groups end, in each of which the two values hold.
fn unnests(rest: &mut Rest, depth: u32) -> bool {
    for _ in 0..depth {
        if !(holds(rest, 7, 8) && closes(rest, GroupKind::Simple, &[])) {
            return false;
        }
    }
    true
}

#[test]
fn ten_thousand_groups_and_one_more(rt: HostRuntime) -> Result<(), Fail> {
    let mut rest = Rest::open(rt.alloc(), b"job")?;
    assert!(rt; nests(&mut rest, 10_000) && rest.level() == 10_000);
    assert!(rt; is_full(&mut rest) && rest.level() == 10_000);
    assert!(rt; Limit::Groups.text() == b"groups=10000".as_slice());
    assert!(rt; unnests(&mut rest, 10_000) && holds(&rest, 10_000, 1000));
    Ok(())
}

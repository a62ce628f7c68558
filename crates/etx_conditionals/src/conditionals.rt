//! Conditionals: what a test begins, what it decides, and the text that isn't taken.
ghost use Rattle.std.specs.Prelude.{◌≡◌, ◌++◌, ◌∷◌, [], codes, IfOk, OnOk};
ghost use Rattle.etx_state.specs.Rests.{Keeps, rest_of};
ghost use Rattle.etx_answers.specs.Answers.{quiet, quiet_end, starting, fails_back};
ghost use Rattle.etx_answers.specs.Printing.{printed, escape_in};
ghost use Rattle.etx_conditionals.specs.Conditionals.{number_for, compared, skipping, decided, start_decided, move_by, plan_decided, ended_decided, test_begun, if_begun, likeness_of, are_alike, first_character_row, second_character_row, same_token, same_tokens, same_parts, same_flag, same_prefixes, same_macro, test_name, cases_of, takes_unless, primitive_unless, kind_unless, is_same, defined_row, name_ends, if_cs_name_row, relation_of, relation_row, holds, relation_wanted, is_odd, case_taken, unless_refused, unless_row};

use etx_answers::{
    Ended, Insert, Move, Plan, Push, Start, Then, fails_back, finished, has_category, nothing,
    plan_of, push_escaped, push_meaning, quiet, start_ends, starting, used,
};
use etx_lists::Bytes;
use etx_matter::{Boxed, End, Limit, Token, Tokens};
use etx_numbers::{INTEGER, is_other};
use etx_prims::{IfKind, Primitive, name_of};
use etx_state::{
    Branch, Condition, ExpansionNumber, ExpansionScan, Length, Likeness, MOST_CONDITIONS, Macro,
    Meaning, NumberFinish, NumberScan, Order, Outers, Rest, Scan, Skip, Taker, Test, Until, Want,
};
use std::alloc::{AllocError, Global};

/// A scan of a number that expansion takes.
pub fn number_for(alloc: Global, want: Want, finish: ExpansionNumber) -> Result<Scan, AllocError>
    ensures { IfOk result (λ scan. scan ≡ number_for want finish) }
{
    let taker = Taker {
        outers: Outers::new(alloc),
        finish: NumberFinish::Expansion(finish),
    };
    Ok(Scan::Number {
        scan: NumberScan::Start(want),
        taker: Boxed::new(alloc, taker)?,
    })
}

/// A dimension, or an integer.
fn compared(is_dimension: bool) -> Want
    ensures { result ≡ compared is_dimension }
{
    if is_dimension {
        Want::Dimension(Length {
            is_negative: false,
            is_mu: false,
            is_infinite: false,
        })
    } else {
        INTEGER
    }
}

pub(crate) fn begins(scan: Scan) -> Start
    ensures { result ≡ starting (Push.Begin scan) }
{
    starting(Push::Begin(scan))
}

fn scans(scan: ExpansionScan) -> Start
    ensures { result ≡ starting (Push.Begin (Scan.Expansion scan)) }
{
    begins(Scan::Expansion(scan))
}

/// A text that isn't taken begins in this line.
pub(crate) fn skipping(until: Until, line: u32) -> Scan
    ensures { result ≡ skipping until line }
{
    Scan::Expansion(ExpansionScan::Skip(Skip {
        until,
        level: 0,
        line,
    }))
}

/// What a test decides: its first branch is taken, or a text is left out. `None`: nothing is left out.
#[tactic(auto, unfolding(crate::specs::Conditionals::decided))]
fn decided(rest: &mut Rest, line: u32, test: Test, holds: bool) -> Result<Option<Scan>, AllocError>
    ensures rest { OnOk result (rest_of rest.new ≡ (decided test holds line (rest_of rest.old)).rest) }
    ensures skips { IfOk result (λ skips. skips ≡ (decided test holds line (rest_of rest.old)).skips) }
    ensures kept { Keeps rest.old rest.new }
{
    if holds != test.is_unless {
        rest.set_branch(test.number as usize, Branch::First)?;
        return Ok(None);
    }
    Ok(Some(skipping(
        Until::Else {
            number: test.number,
        },
        line,
    )))
}

/// The same for a command without a token of its own.
fn start_decided(rest: &mut Rest, line: u32, test: Test, holds: bool) -> Result<Start, AllocError>
    ensures rest { OnOk result (rest_of rest.new ≡ (start_decided (decided test holds line (rest_of rest.old))).rest) }
    ensures start { IfOk result (λ start. start ≡ (start_decided (decided test holds line (rest_of rest.old))).start) }
    ensures kept { Keeps rest.old rest.new }
{
    match decided(rest, line, test, holds)? {
        None => Ok(starting(nothing())),
        Some(scan) => Ok(begins(scan)),
    }
}

/// The same where a token was used up.
fn move_decided(rest: &mut Rest, line: u32, test: Test, holds: bool) -> Result<Move, AllocError>
    ensures rest { OnOk result (rest_of rest.new ≡ (decided test holds line (rest_of rest.old)).rest) }
    ensures go { IfOk result (λ go. go ≡ move_by (decided test holds line (rest_of rest.old)).skips) }
    ensures kept { Keeps rest.old rest.new }
{
    match decided(rest, line, test, holds)? {
        None => Ok(used()),
        Some(scan) => Ok(Move::Begin(scan)),
    }
}

/// The same behind a number.
fn ended_decided(rest: &mut Rest, line: u32, test: Test, holds: bool) -> Result<Ended, AllocError>
    ensures rest { OnOk result (rest_of rest.new ≡ (ended_decided (decided test holds line (rest_of rest.old))).rest) }
    ensures ended { IfOk result (λ ended. ended ≡ (ended_decided (decided test holds line (rest_of rest.old))).ended) }
    ensures kept { Keeps rest.old rest.new }
{
    match decided(rest, line, test, holds)? {
        None => Ok(finished(Then::Insert(Insert::Nothing))),
        Some(scan) => Ok(finished(Then::More(scan))),
    }
}

/// A line for each test. The mode is outer vertical mode.
#[tactic(auto, unfolding(crate::specs::Conditionals::test_begun))]
fn test_begun(rest: &mut Rest, line: u32, kind: IfKind, test: Test) -> Result<Start, AllocError>
    ensures rest { OnOk result (rest_of rest.new ≡ (test_begun kind test line (rest_of rest.old)).rest) }
    ensures start { IfOk result (λ start. start ≡ (test_begun kind test line (rest_of rest.old)).start) }
    ensures kept { Keeps rest.old rest.new }
{
    let alloc = rest.alloc();
    match kind {
        IfKind::Char => Ok(scans(ExpansionScan::FirstCharacter {
            test,
            is_cat: false,
        })),
        IfKind::Cat => Ok(scans(ExpansionScan::FirstCharacter { test, is_cat: true })),
        IfKind::Num => first_begun(alloc, test, false),
        IfKind::Dim => first_begun(alloc, test, true),
        IfKind::Odd => number_begun(alloc, INTEGER, ExpansionNumber::Odd(test)),
        IfKind::VMode => start_decided(rest, line, test, true),
        IfKind::HMode => start_decided(rest, line, test, false),
        IfKind::MMode => start_decided(rest, line, test, false),
        IfKind::Inner => start_decided(rest, line, test, false),
        IfKind::Void => Ok(start_ends(End::Unbuilt)),
        IfKind::HBox => Ok(start_ends(End::Unbuilt)),
        IfKind::VBox => Ok(start_ends(End::Unbuilt)),
        IfKind::X => Ok(scans(ExpansionScan::FirstMeaning(test))),
        IfKind::Eof => Ok(start_ends(End::Unbuilt)),
        IfKind::True => start_decided(rest, line, test, true),
        IfKind::False => start_decided(rest, line, test, false),
        IfKind::Case => number_begun(alloc, INTEGER, ExpansionNumber::Case(test)),
        IfKind::Defined => Ok(scans(ExpansionScan::Defined(test))),
        IfKind::CsName => name_begun(alloc, test),
        IfKind::FontChar => Ok(start_ends(End::Unbuilt)),
    }
}

/// A number of a test begins.
fn number_begun(alloc: Global, want: Want, finish: ExpansionNumber) -> Result<Start, AllocError>
    ensures { IfOk result (λ start. start ≡ starting (Push.Begin (number_for want finish))) }
{
    Ok(begins(number_for(alloc, want, finish)?))
}

/// The first number of a comparison begins.
fn first_begun(alloc: Global, test: Test, is_dimension: bool) -> Result<Start, AllocError>
    ensures { IfOk result (λ start. start ≡ starting (Push.Begin (number_for (compared is_dimension) (ExpansionNumber.First test is_dimension)))) }
{
    let finish = ExpansionNumber::First { test, is_dimension };
    number_begun(alloc, compared(is_dimension), finish)
}

/// The name of `\ifcsname` begins.
fn name_begun(alloc: Global, test: Test) -> Result<Start, AllocError>
    ensures { IfOk result (λ start. start ≡ starting (Push.Begin (Scan.Expansion (ExpansionScan.IfCsName test [])))) }
{
    let name = Boxed::new(alloc, Bytes::new(alloc))?;
    Ok(scans(ExpansionScan::IfCsName { test, name }))
}

/// A conditional begins, unless 10000 are open.
#[tactic(auto, unfolding(crate::specs::Conditionals::if_begun))]
pub fn if_begun(
    rest: &mut Rest,
    line: u32,
    kind: IfKind,
    is_unless: bool,
) -> Result<Start, AllocError>
    ensures rest { OnOk result (rest_of rest.new ≡ (if_begun kind is_unless line (rest_of rest.old)).rest) }
    ensures start { IfOk result (λ start. start ≡ (if_begun kind is_unless line (rest_of rest.old)).start) }
    ensures kept { Keeps rest.old rest.new }
{
    let open = rest.conditions();
    if open >= MOST_CONDITIONS {
        return Ok(start_ends(End::Capacity(Limit::Conditionals)));
    }
    rest.open_condition(Condition {
        kind,
        is_unless,
        branch: Branch::Test,
        line,
    })?;
    let test = Test {
        is_unless,
        number: open as u32 + 1,
    };
    test_begun(rest, line, kind, test)
}

/// What `\if` and `\ifcat` see of a token. An active character that isn't expanded this time is a character.
fn likeness_of(token: Token, meaning: &Meaning) -> Likeness
    ensures { result ≡ likeness_of token meaning.now }
{
    match meaning {
        Meaning::Char { code, cat } => Likeness::Character {
            code: *code,
            cat: *cat,
        },
        Meaning::Unexpanded => match token {
            Token::Char { code, cat } => Likeness::Character { code, cat },
            _ => Likeness::Command,
        },
        _ => Likeness::Command,
    }
}

fn are_alike(is_cat: bool, first: Likeness, second: Likeness) -> bool
    ensures { result ≡ are_alike is_cat first second }
{
    match first {
        Likeness::Command => match second {
            Likeness::Command => true,
            Likeness::Character { .. } => false,
        },
        Likeness::Character { code, cat } => match second {
            Likeness::Command => false,
            Likeness::Character {
                code: other,
                cat: other_cat,
            } => {
                if is_cat {
                    cat == other_cat
                } else {
                    code == other
                }
            }
        },
    }
}

pub fn first_character_row(test: Test, is_cat: bool, token: Token, meaning: &Meaning) -> Plan
    ensures { result ≡ first_character_row test is_cat token meaning.now }
{
    quiet(Move::Begin(Scan::Expansion(ExpansionScan::SecondCharacter {
        test,
        is_cat,
        first: likeness_of(token, meaning),
    })))
}

pub fn second_character_row(
    rest: &mut Rest,
    line: u32,
    test: Test,
    is_cat: bool,
    first: Likeness,
    token: Token,
    meaning: &Meaning,
) -> Result<Plan, AllocError>
    ensures rest { OnOk result (rest_of rest.new ≡ (second_character_row test is_cat first token meaning.now line (rest_of rest.old)).rest) }
    ensures plan { IfOk result (λ plan. plan ≡ (second_character_row test is_cat first token meaning.now line (rest_of rest.old)).plan) }
    ensures kept { Keeps rest.old rest.new }
{
    let holds = are_alike(is_cat, first, likeness_of(token, meaning));
    Ok(quiet(move_decided(rest, line, test, holds)?))
}

pub fn first_meaning_row(alloc: Global, test: Test, meaning: &Meaning) -> Result<Plan, AllocError>
    ensures { IfOk result (λ plan. plan ≡ quiet (Move.Begin (Scan.Expansion (ExpansionScan.SecondMeaning test meaning.now)))) }
{
    let first = Boxed::new(alloc, meaning.share()?)?;
    Ok(quiet(Move::Begin(Scan::Expansion(ExpansionScan::SecondMeaning { test, first }))))
}

/// Whether two macros have the same parameter text.
#[tactic(auto, using(crate::proofs::Sameness::parts_differ))]
fn same_parts(one: &[Tokens], other: &[Tokens]) -> bool
    ensures { result ≡ same_parts one.now other.now }
{
    if one.len() != other.len() {
        return false;
    }
    for i in 0..one.len() {
        if !same_tokens(one[i].as_slice(), other[i].as_slice()) {
            return false;
        }
    }
    true
}

/// Whether two lists have the same tokens.
#[tactic(auto, using(crate::proofs::Sameness::tokens_differ))]
fn same_tokens(one: &[Token], other: &[Token]) -> bool
    ensures { result ≡ same_tokens one.now other.now }
{
    if one.len() != other.len() {
        return false;
    }
    for i in 0..one.len() {
        if !same_token(one[i], other[i]) {
            return false;
        }
    }
    true
}

fn same_token(one: Token, other: Token) -> bool
    ensures { result ≡ same_token one other }
{
    match one {
        Token::Char { code, cat } => match other {
            Token::Char {
                code: second,
                cat: second_cat,
            } => code == second && cat == second_cat,
            Token::Name(_) => false,
            Token::Param(_) => false,
        },
        Token::Name(name) => match other {
            Token::Char { .. } => false,
            Token::Name(second) => name.0 == second.0,
            Token::Param(_) => false,
        },
        Token::Param(number) => match other {
            Token::Char { .. } => false,
            Token::Name(_) => false,
            Token::Param(second) => number == second,
        },
    }
}

/// Whether both hold, or none.
fn same_flag(one: bool, other: bool) -> bool
    ensures { result ≡ same_flag one other }
{
    if one { other } else { !other }
}

/// Whether two macros are the same: in prefixes, parameter text and body.
fn same_macro(one: &Macro, other: &Macro) -> bool
    ensures { result ≡ same_macro one.now other.now }
{
    same_prefixes(one, other)
        && one.marks().as_slice() == other.marks().as_slice()
        && same_parts(one.pattern().parts(), other.pattern().parts())
        && same_tokens(one.body().as_slice(), other.body().as_slice())
}

fn same_prefixes(one: &Macro, other: &Macro) -> bool
    ensures { result ≡ same_prefixes one.now other.now }
{
    same_flag(one.is_long(), other.is_long())
        && same_flag(one.is_outer(), other.is_outer())
        && same_flag(one.is_protected(), other.is_protected())
}

/// Whether two meanings are the same.
#[tactic(auto, unfolding(crate::specs::Conditionals::is_same))]
fn is_same(one: &Meaning, other: &Meaning) -> bool
    ensures { result ≡ is_same one.now other.now }
{
    match one {
        Meaning::Undefined => matches!(other, Meaning::Undefined),
        Meaning::Primitive(primitive) => match other {
            Meaning::Primitive(second) => name_of(*primitive) == name_of(*second),
            _ => false,
        },
        Meaning::Char { code, cat } => match other {
            Meaning::Char {
                code: second,
                cat: second_cat,
            } => *code == *second && *cat == *second_cat,
            _ => false,
        },
        Meaning::Macro(made) => match other {
            Meaning::Macro(second) => same_macro(made, second),
            _ => false,
        },
        Meaning::CharGiven(code) => match other {
            Meaning::CharGiven(second) => *code == *second,
            _ => false,
        },
        Meaning::MathGiven(code) => match other {
            Meaning::MathGiven(second) => *code == *second,
            _ => false,
        },
        Meaning::Register { kind, number } => match other {
            Meaning::Register {
                kind: second_kind,
                number: second,
            } => kind.name() == second_kind.name() && *number == *second,
            _ => false,
        },
        Meaning::Unexpanded => matches!(other, Meaning::Unexpanded),
        Meaning::EndTemplate => matches!(other, Meaning::EndTemplate),
    }
}

pub fn second_meaning_row(
    rest: &mut Rest,
    line: u32,
    test: Test,
    first: &Meaning,
    meaning: &Meaning,
) -> Result<Plan, AllocError>
    ensures rest { OnOk result (rest_of rest.new ≡ (plan_decided (decided test (is_same first.now meaning.now) line (rest_of rest.old))).rest) }
    ensures plan { IfOk result (λ plan. plan ≡ (plan_decided (decided test (is_same first.now meaning.now) line (rest_of rest.old))).plan) }
    ensures kept { Keeps rest.old rest.new }
{
    let holds = is_same(first, meaning);
    Ok(quiet(move_decided(rest, line, test, holds)?))
}

pub fn defined_row(
    rest: &mut Rest,
    line: u32,
    test: Test,
    meaning: &Meaning,
) -> Result<Plan, AllocError>
    ensures rest { OnOk result (rest_of rest.new ≡ (defined_row test meaning.now line (rest_of rest.old)).rest) }
    ensures plan { IfOk result (λ plan. plan ≡ (defined_row test meaning.now line (rest_of rest.old)).plan) }
    ensures kept { Keeps rest.old rest.new }
{
    let holds = !matches!(meaning, Meaning::Undefined);
    Ok(quiet(move_decided(rest, line, test, holds)?))
}

/// The name of `\ifcsname` is over.
fn name_over(
    rest: &mut Rest,
    line: u32,
    test: Test,
    name: &[u8],
    meaning: &Meaning,
) -> Result<Plan, AllocError>
    ensures rest { OnOk result (rest_of rest.new ≡ (name_ends test name.now meaning.now line (rest_of rest.old)).rest) }
    ensures plan { IfOk result (λ plan. plan ≡ (name_ends test name.now meaning.now line (rest_of rest.old)).plan) }
    ensures kept { Keeps rest.old rest.new }
{
    let holds = rest.is_defined_name(name);
    let go = move_decided(rest, line, test, holds)?;
    match meaning {
        Meaning::Primitive(Primitive::EndCsName) => Ok(quiet(go)),
        _ => fails_back(rest.alloc(), b"Missing \\endcsname inserted", go),
    }
}

#[tactic(auto, unfolding(crate::specs::Conditionals::if_cs_name_row))]
pub fn if_cs_name_row(
    rest: &mut Rest,
    line: u32,
    test: Test,
    name: Boxed<Bytes>,
    token: Token,
    meaning: &Meaning,
) -> Result<Plan, AllocError>
    ensures rest { OnOk result (rest_of rest.new ≡ (if_cs_name_row test name token meaning.now line (rest_of rest.old)).rest) }
    ensures plan { IfOk result (λ plan. plan ≡ (if_cs_name_row test name token meaning.now line (rest_of rest.old)).plan) }
    ensures kept { Keeps rest.old rest.new }
{
    match token {
        Token::Char { code, cat } => {
            if cat == 13 {
                name_over(rest, line, test, name.get().as_slice(), meaning)
            } else {
                name_more(test, name, code)
            }
        }
        Token::Name(_) => name_over(rest, line, test, name.get().as_slice(), meaning),
        Token::Param(_) => name_over(rest, line, test, name.get().as_slice(), meaning),
    }
}

/// One character more of that name.
fn name_more(test: Test, mut name: Boxed<Bytes>, code: u8) -> Result<Plan, AllocError>
    ensures { IfOk result (λ plan. plan ≡ quiet (Move.Copied (Scan.Expansion (ExpansionScan.IfCsName test (name ++ code ∷ []))))) }
{
    name.get_mut().push(code)?;
    let scan = ExpansionScan::IfCsName { test, name };
    Ok(quiet(Move::Copied(Scan::Expansion(scan))))
}

/// The relation that a token is.
fn relation_of(token: Token) -> Option<Order>
    ensures { result ≡ relation_of token }
{
    if is_other(b'<', token) {
        Some(Order::Less)
    } else if is_other(b'=', token) {
        Some(Order::Equal)
    } else if is_other(b'>', token) {
        Some(Order::Greater)
    } else {
        None
    }
}

/// The second number comes next.
fn second_number(
    alloc: Global,
    test: Test,
    is_dimension: bool,
    first: i32,
    order: Order,
) -> Result<Scan, AllocError>
    ensures { IfOk result (λ scan. scan ≡ number_for (compared is_dimension) (ExpansionNumber.Second test first order)) }
{
    let finish = ExpansionNumber::Second { test, first, order };
    number_for(alloc, compared(is_dimension), finish)
}

/// A relation; where none is, it is `=`, with an error.
#[tactic(auto, unfolding(crate::specs::Conditionals::relation_row))]
pub fn relation_row(
    rest: &Rest,
    test: Test,
    is_dimension: bool,
    first: i32,
    token: Token,
    meaning: &Meaning,
) -> Result<Plan, AllocError>
    ensures { IfOk result (λ plan. plan ≡ relation_row test is_dimension first token meaning.now (rest_of rest.now)) }
{
    if has_category(10, meaning) {
        return Ok(quiet(Move::Stay(Scan::Expansion(ExpansionScan::Relation {
            test,
            is_dimension,
            first,
        }))));
    }
    let alloc = rest.alloc();
    match relation_of(token) {
        Some(order) => {
            let scan = second_number(alloc, test, is_dimension, first, order)?;
            Ok(quiet(Move::Begin(scan)))
        }
        None => {
            let scan = second_number(alloc, test, is_dimension, first, Order::Equal)?;
            no_relation(rest, is_dimension, Move::Begin(scan))
        }
    }
}

/// The error that a relation lacks.
fn no_relation(rest: &Rest, is_dimension: bool, go: Move) -> Result<Plan, AllocError>
    ensures { IfOk result (λ plan. plan ≡ fails_back (codes "Missing = inserted for " ++ printed (rest_of rest.now).values (escape_in (rest_of rest.now).values ++ test_name is_dimension)) go) }
{
    let mut text = Bytes::from_slice(rest.alloc(), b"Missing = inserted for ")?;
    push_escaped(rest, &mut text, test_name(is_dimension))?;
    fails_back(rest.alloc(), text.as_slice(), go)
}

fn test_name(is_dimension: bool) -> &'static [u8]
    ensures { result.now ≡ test_name is_dimension }
{
    if is_dimension { b"ifdim" } else { b"ifnum" }
}

/// Whether a relation holds.
fn holds(first: i32, order: Order, second: i32) -> bool
    ensures { result ≡ holds first order second }
{
    match order {
        Order::Less => first < second,
        Order::Equal => first == second,
        Order::Greater => first > second,
    }
}

/// The first number of a comparison.
pub fn first_taken(test: Test, is_dimension: bool, number: i32) -> Ended
    ensures { result ≡ quiet_end (relation_wanted test is_dimension number) }
{
    finished(Then::More(Scan::Expansion(ExpansionScan::Relation {
        test,
        is_dimension,
        first: number,
    })))
}

/// The second.
pub fn second_taken(
    rest: &mut Rest,
    line: u32,
    test: Test,
    first: i32,
    order: Order,
    number: i32,
) -> Result<Ended, AllocError>
    ensures rest { OnOk result (rest_of rest.new ≡ (ended_decided (decided test (holds first order number) line (rest_of rest.old))).rest) }
    ensures ended { IfOk result (λ ended. ended ≡ (ended_decided (decided test (holds first order number) line (rest_of rest.old))).ended) }
    ensures kept { Keeps rest.old rest.new }
{
    ended_decided(rest, line, test, holds(first, order, number))
}

pub fn odd_taken(rest: &mut Rest, line: u32, test: Test, number: i32) -> Result<Ended, AllocError>
    ensures rest { OnOk result (rest_of rest.new ≡ (ended_decided (decided test (is_odd number) line (rest_of rest.old))).rest) }
    ensures ended { IfOk result (λ ended. ended ≡ (ended_decided (decided test (is_odd number) line (rest_of rest.old))).ended) }
    ensures kept { Keeps rest.old rest.new }
{
    ended_decided(rest, line, test, number.unsigned_abs() % 2 == 1)
}

/// The number of a case.
#[tactic(auto, unfolding(crate::specs::Conditionals::case_taken))]
pub fn case_taken(rest: &mut Rest, line: u32, test: Test, number: i32) -> Result<Ended, AllocError>
    ensures rest { OnOk result (rest_of rest.new ≡ (case_taken test number line (rest_of rest.old)).rest) }
    ensures ended { IfOk result (λ ended. ended ≡ (case_taken test number line (rest_of rest.old)).ended) }
    ensures kept { Keeps rest.old rest.new }
{
    if number == 0 {
        rest.set_branch(test.number as usize, Branch::Case)?;
        return Ok(finished(Then::Insert(Insert::Nothing)));
    }
    let until = Until::Or {
        number: test.number,
        cases: cases_of(number),
    };
    Ok(finished(Then::More(skipping(until, line))))
}

/// How many cases are left out; of a number below 0 all.
fn cases_of(number: i32) -> Option<u32>
    ensures { result ≡ cases_of number }
{
    if number >= 0 {
        Some(number as u32)
    } else {
        None
    }
}

/// What takes no `\unless` is read again.
fn unless_refused(rest: &Rest, token: Token, meaning: &Meaning) -> Result<Plan, AllocError>
    ensures { IfOk result (λ plan. plan ≡ (unless_refused meaning.now (rest_of rest.now)).plan) }
{
    let mut text = Bytes::from_slice(rest.alloc(), b"You can't use `")?;
    push_escaped(rest, &mut text, b"unless")?;
    text.extend_from_slice(b"' before ")?;
    push_meaning(rest, &mut text, token, meaning)?;
    fails_back(rest.alloc(), text.as_slice(), used())
}

/// `\unless` gets a token.
#[tactic(auto, unfolding(crate::specs::Conditionals::unless_row))]
pub fn unless_row(
    rest: &mut Rest,
    line: u32,
    token: Token,
    meaning: &Meaning,
) -> Result<Plan, AllocError>
    ensures rest { OnOk result (rest_of rest.new ≡ (unless_row meaning.now line (rest_of rest.old)).rest) }
    ensures plan { IfOk result (λ plan. plan ≡ (unless_row meaning.now line (rest_of rest.old)).plan) }
    ensures kept { Keeps rest.old rest.new }
{
    match takes_unless(meaning) {
        Some(kind) => Ok(plan_of(if_begun(rest, line, kind, true)?)),
        None => unless_refused(rest, token, meaning),
    }
}

/// The conditional that takes `\unless`, if a token begins one.
fn takes_unless(meaning: &Meaning) -> Option<IfKind>
    ensures { result ≡ takes_unless meaning.now }
{
    match meaning {
        Meaning::Primitive(primitive) => primitive_unless(*primitive),
        _ => None,
    }
}

fn primitive_unless(primitive: Primitive) -> Option<IfKind>
    ensures { result ≡ primitive_unless primitive }
{
    match primitive {
        Primitive::Conditional(kind) => kind_unless(kind),
        _ => None,
    }
}

fn kind_unless(kind: IfKind) -> Option<IfKind>
    ensures { result ≡ kind_unless kind }
{
    match kind {
        IfKind::Case => None,
        _ => Some(kind),
    }
}

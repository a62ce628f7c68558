//! `\advance`, `\multiply` and `\divide`.
ghost use Rattle.std.specs.Prelude.{◌≡◌, ◌≤◌, pos, int_div, unsigned_abs, false, OnOk, IfOk};
ghost use Rattle.std.specs.Int.{int_min};
ghost use Rattle.etx_exprs.specs.Values.{is_zero};
ghost use Rattle.std.specs.Option.{option_map};
ghost use Rattle.etx_state.specs.Rests.{rest_of, Keeps};
ghost use Rattle.etx_assign.specs.Arithmetic.{changed_primitive, changed_kind, changed_register, changed_of, advance_want, change_taker, greatest_of, amount_scan, by_row, by_word_row, changed_number, scaled_glue, changed_glue, number_value, normal, joined, stretch_of, shrink_of, sum_of, glue_sum, product_of, quotient_of, by_want, by_scan, arithmetic_row, changed_value, change_taken};

use crate::assignment::{over, set_fitting, value_over};
use crate::begun::{DIMENSION, number_scan};
use crate::numbers::{is_glue, kept_number, overflow};
use etx_answers::{Ended, Move, Plan, Then, WordPlan, fails_before, finished, has_category, quiet};
use etx_exprs::Value as Quantity;
use etx_keys::Class;
use etx_matter::{Boxed, Glue, GlueOrder, Token};
use etx_numbers::{INTEGER, Spelled, WordSet, amount_in, begins_word, glue_in, number_row, spell};
use etx_prims::{ArithmeticKind, Primitive, RegisterKind};
use etx_state::{
    AssignNumber, AssignScan, Key, Meaning, NumberFinish, NumberScan, Outers, Rest, Scan, Taker,
    Val, Want,
};
use std::alloc::{AllocError, Global};

/// What may be changed.
#[derive(Clone, Copy)]
enum Changed {
    /// The value under this key.
    Key(Key),
    /// A register, whose number comes next.
    Register(RegisterKind),
    /// Nothing that arithmetic changes.
    Nothing,
}

fn changed_primitive(primitive: Primitive) -> Changed
    ensures { result ≡ changed_primitive primitive }
{
    match primitive {
        Primitive::IntParam(parameter) => Changed::Key(Key::Int(parameter)),
        Primitive::DimenParam(parameter) => Changed::Key(Key::Dimen(parameter)),
        Primitive::GlueParam(parameter) => Changed::Key(Key::Glue(parameter)),
        Primitive::MuGlueParam(parameter) => Changed::Key(Key::MuGlue(parameter)),
        Primitive::Register(kind) => changed_kind(kind),
        _ => Changed::Nothing,
    }
}

fn changed_kind(kind: RegisterKind) -> Changed
    ensures { result ≡ changed_kind kind }
{
    match kind {
        RegisterKind::Toks => Changed::Nothing,
        _ => Changed::Register(kind),
    }
}

fn changed_register(kind: RegisterKind, number: u16) -> Changed
    ensures { result ≡ changed_register kind number }
{
    match kind {
        RegisterKind::Toks => Changed::Nothing,
        _ => Changed::Key(Key::Register { kind, number }),
    }
}

#[tactic(auto, unfolding(crate::specs::Arithmetic::changed_of))]
fn changed_of(meaning: &Meaning) -> Changed
    ensures { result ≡ changed_of meaning.now }
{
    match meaning {
        Meaning::Primitive(primitive) => changed_primitive(*primitive),
        Meaning::Register { kind, number } => changed_register(*kind, *number),
        _ => Changed::Nothing,
    }
}

/// The word `by` may come next.
pub(crate) fn by_scan(kind: ArithmeticKind, key: Key, is_global: bool) -> Scan
    ensures { result ≡ by_scan kind key is_global }
{
    Scan::Assign(AssignScan::By {
        kind,
        is_global,
        key,
    })
}

/// What is to be changed.
#[tactic(auto, unfolding(crate::specs::Arithmetic::arithmetic_row))]
pub(crate) fn arithmetic_row(
    rest: &mut Rest,
    kind: ArithmeticKind,
    is_global: bool,
    meaning: &Meaning,
) -> Result<Plan, AllocError>
    ensures rest { OnOk result (rest_of rest.new ≡ (arithmetic_row kind is_global meaning.now (rest_of rest.old)).rest) }
    ensures plan { IfOk result (λ plan. plan ≡ (arithmetic_row kind is_global meaning.now (rest_of rest.old)).plan) }
    ensures kept { Keeps rest.old rest.new }
{
    match changed_of(meaning) {
        Changed::Key(key) => Ok(quiet(Move::Begin(by_scan(kind, key, is_global)))),
        Changed::Register(register) => {
            let finish = AssignNumber::Changed {
                by: kind,
                kind: register,
                is_global,
            };
            let scan = number_scan(rest.alloc(), NumberScan::Start(INTEGER), finish)?;
            Ok(quiet(Move::Begin(scan)))
        }
        Changed::Nothing => {
            let kept = over(rest)?;
            fails_before(rest.alloc(), b"Other error", kept)
        }
    }
}

/// What a value under a key is changed by.
#[tactic(auto, unfolding(crate::specs::Arithmetic::by_want))]
fn by_want(kind: ArithmeticKind, key: Key) -> Want
    ensures { result ≡ by_want kind key }
{
    match kind {
        ArithmeticKind::Advance => advance_want(key.class()),
        ArithmeticKind::Multiply => INTEGER,
        ArithmeticKind::Divide => INTEGER,
    }
}

/// What a value of a class is advanced by.
fn advance_want(class: Class) -> Want
    ensures { result ≡ advance_want class }
{
    match class {
        Class::Dimension => DIMENSION,
        Class::Glue => Want::Glue {
            is_negative: false,
            is_mu: false,
        },
        Class::MuGlue => Want::Glue {
            is_negative: false,
            is_mu: true,
        },
        _ => INTEGER,
    }
}

fn change_finish(kind: ArithmeticKind, key: Key, is_global: bool) -> AssignNumber
    ensures { result ≡ AssignNumber.Change kind key is_global }
{
    AssignNumber::Change {
        by: kind,
        key,
        is_global,
    }
}

/// The number comes next.
fn amount_scan(
    alloc: Global,
    kind: ArithmeticKind,
    key: Key,
    is_global: bool,
) -> Result<Scan, AllocError>
    ensures { IfOk result (λ scan. scan ≡ amount_scan kind key is_global) }
{
    let scan = NumberScan::Start(by_want(kind, key));
    number_scan(alloc, scan, change_finish(kind, key, is_global))
}

/// The word `by` may stand here; else the number begins.
#[tactic(auto, unfolding(crate::specs::Arithmetic::by_row))]
pub(crate) fn by_row(
    rest: &Rest,
    line: u32,
    kind: ArithmeticKind,
    key: Key,
    is_global: bool,
    token: Token,
    meaning: &Meaning,
) -> Result<Plan, AllocError>
    ensures { IfOk result (λ plan. plan ≡ by_row kind key is_global token meaning.now line (rest_of rest.now)) }
{
    if has_category(10, meaning) {
        return Ok(quiet(Move::Stay(by_scan(kind, key, is_global))));
    }
    if begins_word(WordSet::By, token) {
        return Ok(quiet(Move::Letter(by_scan(kind, key, is_global))));
    }
    let taker = change_taker(rest.alloc(), kind, key, is_global)?;
    let scan = NumberScan::Start(by_want(kind, key));
    number_row(rest, line, scan, taker, token, meaning)
}

/// Who takes that number.
fn change_taker(
    alloc: Global,
    kind: ArithmeticKind,
    key: Key,
    is_global: bool,
) -> Result<Boxed<Taker>, AllocError>
    ensures { IfOk result (λ taker. taker ≡ change_taker kind key is_global) }
{
    let taker = Taker {
        outers: Outers::new(alloc),
        finish: NumberFinish::Assign(change_finish(kind, key, is_global)),
    };
    Boxed::new(alloc, taker)
}

/// The letters of the word `by` get a token.
#[tactic(auto, unfolding(crate::specs::Arithmetic::by_word_row))]
pub(crate) fn by_word_row(
    rest: &Rest,
    kind: ArithmeticKind,
    key: Key,
    is_global: bool,
    letters: &[Token],
    token: Token,
) -> Result<WordPlan, AllocError>
    ensures { IfOk result (λ plan. plan ≡ by_word_row kind key is_global letters.now token) }
{
    match spell(rest.alloc(), WordSet::By, letters, token)? {
        Spelled::Front => Ok(WordPlan::Letter(by_scan(kind, key, is_global))),
        Spelled::Whole(_) => {
            let scan = amount_scan(rest.alloc(), kind, key, is_global)?;
            Ok(WordPlan::Found(quiet(Move::Begin(scan))))
        }
        Spelled::Nothing => {
            let scan = amount_scan(rest.alloc(), kind, key, is_global)?;
            Ok(WordPlan::Lost(finished(Then::More(scan))))
        }
    }
}

/// The sum, brought into the range of numbers that are kept.
fn sum_of(number: i32, more: i32) -> i32
    ensures { result ≡ sum_of number more }
{
    let sum = i64::from(number) + i64::from(more);
    if sum > 2_147_483_647 {
        2_147_483_647
    } else if sum < -2_147_483_647 {
        -2_147_483_647
    } else {
        sum as i32
    }
}

/// A stretch or shrink and its order.
#[derive(Clone, Copy)]
struct Amount {
    size: i32,
    order: GlueOrder,
}

/// Nothing has no order.
fn normal(amount: Amount) -> Amount
    ensures { result ≡ normal amount }
{
    if amount.size == 0 {
        Amount {
            size: 0,
            order: GlueOrder::Normal,
        }
    } else {
        amount
    }
}

/// What is added is of one order, or the greater order counts.
fn amount_sum(added: Amount, old: Amount) -> Amount
    ensures { result ≡ joined (normal added) old }
{
    let added = normal(added);
    if added.order as u8 == old.order as u8 {
        Amount {
            size: sum_of(added.size, old.size),
            order: added.order,
        }
    } else if (added.order as u8) < (old.order as u8) && old.size != 0 {
        old
    } else {
        added
    }
}

fn stretch_of(glue: Glue) -> Amount
    ensures { result ≡ stretch_of glue }
{
    Amount {
        size: glue.stretch,
        order: glue.stretch_order,
    }
}

fn shrink_of(glue: Glue) -> Amount
    ensures { result ≡ shrink_of glue }
{
    Amount {
        size: glue.shrink,
        order: glue.shrink_order,
    }
}

/// The sum of two glues ("TeX: The Program", section 1239).
#[tactic(auto, unfolding(crate::specs::Arithmetic::glue_sum))]
fn glue_sum(added: Glue, old: Glue) -> Glue
    ensures { result ≡ glue_sum added old }
{
    let stretch = amount_sum(stretch_of(added), stretch_of(old));
    let shrink = amount_sum(shrink_of(added), shrink_of(old));
    Glue {
        width: sum_of(added.width, old.width),
        stretch: stretch.size,
        shrink: shrink.size,
        stretch_order: stretch.order,
        shrink_order: shrink.order,
    }
}

/// The product, where it is at most so great in size.
fn product_of(number: i32, factor: i32, most: u32) -> Option<i32>
    requires { most ≤ 2147483647 }
    ensures { result ≡ product_of number factor most }
{
    let product = i64::from(number) * i64::from(factor);
    if product.unsigned_abs() <= u64::from(most) {
        Some(product as i32)
    } else {
        None
    }
}

/// The quotient, cut off. That of -2^31 by -1 has no room in 32 bits.
fn quotient(number: i32, divisor: i32) -> i64
    requires { is_zero divisor ≡ false }
    ensures value { result ≡ int_div number divisor }
    ensures small { unsigned_abs result ≤ 2147483648 }
{
    i64::from(number) / i64::from(divisor)
}

/// A quotient that is too great is the greatest number.
fn cut_quotient(quotient: i64) -> i32
    requires { unsigned_abs quotient ≤ 2147483648 }
    ensures { result ≡ int_min quotient (pos 2147483647) }
{
    if quotient > 2_147_483_647 {
        2_147_483_647
    } else {
        quotient as i32
    }
}

/// The quotient, cut off; none where the divisor is 0.
fn quotient_of(number: i32, divisor: i32) -> Option<i32>
    ensures { result ≡ quotient_of number divisor }
{
    if is_zero(divisor) {
        None
    } else {
        Some(cut_quotient(quotient(number, divisor)))
    }
}

fn is_zero(number: i32) -> bool
    ensures { result ≡ is_zero number }
{
    number == 0
}

/// What becomes of one number.
#[tactic(auto, unfolding(crate::specs::Arithmetic::changed_number))]
fn changed_number(kind: ArithmeticKind, most: u32, number: i32, by: i32) -> Option<i32>
    requires { most ≤ 2147483647 }
    ensures { result ≡ changed_number kind most number by }
{
    match kind {
        ArithmeticKind::Advance => Some(sum_of(by, number)),
        ArithmeticKind::Multiply => product_of(number, by, most),
        ArithmeticKind::Divide => quotient_of(number, by),
    }
}

/// What becomes of glue by a factor or a divisor.
fn scaled_glue(kind: ArithmeticKind, glue: Glue, by: i32) -> Option<Glue>
    ensures { result ≡ scaled_glue kind glue by }
{
    let most = 1_073_741_823;
    Some(Glue {
        width: changed_number(kind, most, glue.width, by)?,
        stretch: changed_number(kind, most, glue.stretch, by)?,
        shrink: changed_number(kind, most, glue.shrink, by)?,
        ..glue
    })
}

#[tactic(auto, unfolding(crate::specs::Arithmetic::changed_glue))]
fn changed_glue(kind: ArithmeticKind, glue: Glue, amount: Quantity) -> Option<Glue>
    ensures { result ≡ changed_glue kind glue amount }
{
    match kind {
        ArithmeticKind::Advance => Some(glue_sum(glue_in(amount), glue)),
        ArithmeticKind::Multiply => scaled_glue(kind, glue, amount_in(amount)),
        ArithmeticKind::Divide => scaled_glue(kind, glue, amount_in(amount)),
    }
}

fn number_value(number: Option<i32>) -> Option<Val>
    ensures { result ≡ number_value number }
{
    match number {
        Some(number) => Some(Val::Int(kept_number(number))),
        None => None,
    }
}

fn glue_value(glue: Option<Glue>) -> Option<Val>
    ensures { result ≡ option_map Val.Glue glue }
{
    match glue {
        Some(glue) => Some(Val::Glue(glue)),
        None => None,
    }
}

/// What becomes of the value under a key; `None` where that has no room.
fn changed_value(rest: &Rest, kind: ArithmeticKind, key: Key, amount: Quantity) -> Option<Val>
    ensures { result ≡ changed_value kind key amount (rest_of rest.now) }
{
    if is_glue(key.class()) {
        return glue_value(changed_glue(kind, rest.glue(key), amount));
    }
    let most = greatest_of(key.class());
    number_value(changed_number(kind, most, rest.number(key), amount_in(amount)))
}

/// The greatest number of a class.
fn greatest_of(class: Class) -> u32
    ensures value { result ≡ greatest_of class }
    ensures small { result ≤ 2147483647 }
{
    match class {
        Class::Dimension => 1_073_741_823,
        _ => 2_147_483_647,
    }
}

/// The value under a key is changed.
#[tactic(auto, unfolding(crate::specs::Arithmetic::change_taken))]
pub(crate) fn change_taken(
    rest: &mut Rest,
    kind: ArithmeticKind,
    key: Key,
    is_global: bool,
    amount: Quantity,
) -> Result<Ended, AllocError>
    ensures rest { OnOk result (rest_of rest.new ≡ (change_taken kind key is_global amount (rest_of rest.old)).rest) }
    ensures ended { IfOk result (λ ended. ended ≡ (change_taken kind key is_global amount (rest_of rest.old)).ended) }
    ensures kept { Keeps rest.old rest.new }
{
    match changed_value(rest, kind, key, amount) {
        Some(value) => {
            set_fitting(rest, is_global, key, value)?;
            value_over(rest)
        }
        None => overflow(rest),
    }
}

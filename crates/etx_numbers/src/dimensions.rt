//! Dimensions: the fraction behind a full stop, and units.
ghost use Rattle.std.specs.Prelude.{◌≡◌, ◌++◌, ◌∷◌, [], pos, ◌^◌, ◌<◌, ◌≤◌, ◌≤ℤ◌, IfOk, OnOk};
ghost use Rattle.etx_state.specs.Rests.{rest_of, Keeps};
ghost use Rattle.etx_numbers.specs.Numbers.{fraction_row, unit_row};
ghost use Rattle.etx_answers.specs.Reads.{goes_on, failing};
ghost use Rattle.etx_answers.specs.Showing.{integer_text};
ghost use Rattle.etx_numbers.specs.Dimensions.{is_no_internal, is_l, size_by, fraction_of, with_decimal, decimal_digit, point_amount, units_of, illegal_unit, incompatible_mag, no_internal_unit, next_order, fil_letter, infinite_by, unit_of, mag_of, points, fil_row, unit_end_row, size_of, with_global_mag, prepared_mag, unit_found, glue_outer, word_found, word_lost, words_at, spelled_at, number_word_row};

use crate::internal::{Internal, internal_of};
use crate::numbers::internal_begun;
use crate::taking::{attached, glue_amount, signed, unit_total, width_glue};
use crate::words::{Spelled, Word, WordSet, is_plus, letter_of, letter_read, spell};
use etx_answers::{
    Ended, Plan, Read, Then, WordPlan, back, behind, failing, gives, gives_order, goes_on,
    has_category, quiet, read_ended, read_plan,
};
use etx_exprs::{TooLarge, Unit, Value as Quantity, convert};
use etx_groups::assign_global;
use etx_lists::Bytes;
use etx_matter::{Boxed, Glue, GlueOrder, Token};
use etx_prims::IntParam;
use etx_state::{
    Decimals, Factor, Key, Length, Meaning, NumberScan, Outer, Rest, Scan, Taker, Val, Want,
};
use std::alloc::{AllocError, Global};

/// The fraction that decimals stand for, in 65536ths.
#[tactic(auto, unfolding(crate::specs::Dimensions::fraction_of))]
pub(crate) fn fraction_of(decimals: Decimals) -> i32
    ensures { result ≡ fraction_of decimals }
{
    let power = power_of_ten(decimals.places.min(17));
    let doubled = u128::from(decimals.digits) * 131_072 / power;
    ((doubled + 1) / 2).min(65536) as i32
}

/// A power of ten.
fn power_of_ten(places: u8) -> u128
    requires { places ≤ 17 }
    ensures value { result ≡ 10 ^ places }
    ensures some { 0 < result }
{
    let mut power: u128 = 1;
    for _place in 0..places {
        power *= 10;
    }
    power
}

/// With one digit more. Digits behind the 17th don't count.
#[tactic(auto, unfolding(crate::specs::Dimensions::with_decimal))]
fn with_decimal(decimals: Decimals, digit: u8) -> Decimals
    ensures { result ≡ with_decimal decimals digit }
{
    if decimals.places < 17 && decimals.digits < 100_000_000_000_000_000 {
        Decimals {
            digits: decimals.digits * 10 + u64::from(digit),
            places: decimals.places + 1,
        }
    } else {
        decimals
    }
}

/// The digit that a token is, if it is one.
fn decimal_digit(token: Token) -> Option<u8>
    ensures { result ≡ decimal_digit token }
{
    match token {
        Token::Char { code, cat } => {
            if cat == 12 && code >= b'0' && code <= b'9' {
                Some(code - b'0')
            } else {
                None
            }
        }
        Token::Name(_) => None,
        Token::Param(_) => None,
    }
}

/// Digits behind a full stop get a token: what is no digit ends them.
#[tactic(auto, unfolding(crate::specs::Numbers::fraction_row))]
pub(crate) fn fraction_row(
    rest: &Rest,
    line: u32,
    length: Length,
    whole: i32,
    decimals: Decimals,
    token: Token,
    meaning: &Meaning,
) -> Result<Read, AllocError>
    ensures { IfOk result (λ read. read ≡ fraction_row length whole decimals token meaning.now line (rest_of rest.now)) }
{
    match decimal_digit(token) {
        Some(digit) => Ok(goes_on(NumberScan::Fraction {
            length,
            whole,
            decimals: with_decimal(decimals, digit),
        })),
        None => {
            let factor = Factor {
                whole,
                fraction: fraction_of(decimals),
            };
            unit_row(rest, line, length, factor, false, token, meaning)
        }
    }
}

/// The words that may stand as a unit.
pub(crate) fn units_of(length: Length, is_true: bool) -> WordSet
    ensures { result ≡ units_of length is_true }
{
    WordSet::Units {
        is_true,
        is_mu: length.is_mu,
        is_infinite: length.is_infinite,
    }
}

/// One point, or one mu.
fn point_amount(length: Length) -> Quantity
    ensures { result ≡ point_amount length }
{
    if length.is_mu {
        glue_amount(true, width_glue(65536))
    } else {
        Quantity::Dim(65536)
    }
}

/// No unit is there: points are taken, or mu.
pub(crate) fn illegal_unit(
    alloc: Global,
    length: Length,
    factor: Factor,
) -> Result<Read, AllocError>
    ensures { IfOk result (λ read. read ≡ illegal_unit length factor) }
{
    let want = Want::Unit { length, factor };
    let read = behind(Outer::Again(want), gives(point_amount(length)));
    if length.is_mu {
        failing(alloc, b"Illegal unit of measure (mu inserted)", read)
    } else {
        failing(alloc, b"Illegal unit of measure (pt inserted)", read)
    }
}

/// A word that is a unit begins here, or no unit is there, and the token is read again.
fn no_internal_unit(
    alloc: Global,
    length: Length,
    factor: Factor,
    is_true: bool,
    token: Token,
) -> Result<Read, AllocError>
    ensures { IfOk result (λ read. read ≡ no_internal_unit length factor is_true token) }
{
    let scan = NumberScan::Unit {
        length,
        factor,
        is_true,
    };
    let other = back(illegal_unit(alloc, length, factor)?);
    Ok(letter_read(units_of(length, is_true), scan, token, other))
}

/// A unit gets a token: a word, or an internal dimension as a unit.
#[tactic(auto, unfolding(crate::specs::Numbers::unit_row))]
pub(crate) fn unit_row(
    rest: &Rest,
    line: u32,
    length: Length,
    factor: Factor,
    is_true: bool,
    token: Token,
    meaning: &Meaning,
) -> Result<Read, AllocError>
    ensures { IfOk result (λ read. read ≡ unit_row length factor is_true token meaning.now line (rest_of rest.now)) }
{
    if has_category(10, meaning) {
        return Ok(goes_on(NumberScan::Unit {
            length,
            factor,
            is_true,
        }));
    }
    let internal = internal_of(rest, line, meaning);
    if is_true || is_no_internal(&internal) {
        no_internal_unit(rest.alloc(), length, factor, is_true, token)
    } else {
        let want = Want::Unit { length, factor };
        internal_begun(rest, want, internal, token, meaning)
    }
}

/// Whether a token stands for no internal quantity.
fn is_no_internal(internal: &Internal) -> bool
    ensures { result ≡ is_no_internal internal.now }
{
    match internal {
        Internal::Nothing => true,
        _ => false,
    }
}

/// So many points, or mu. No size: too many.
#[tactic(auto, unfolding(crate::specs::Dimensions::points))]
pub(crate) fn points(factor: Factor) -> Option<i32>
    ensures { result ≡ points factor }
{
    unit_total(factor, 65536)
}

/// One order more, if there is one.
fn next_order(order: GlueOrder) -> Option<GlueOrder>
    ensures { result ≡ next_order order }
{
    match order {
        GlueOrder::Normal => Some(GlueOrder::Fil),
        GlueOrder::Fil => Some(GlueOrder::Fill),
        GlueOrder::Fill => Some(GlueOrder::Filll),
        GlueOrder::Filll => None,
    }
}

/// One letter `l` more.
fn fil_letter(
    alloc: Global,
    length: Length,
    factor: Factor,
    order: GlueOrder,
) -> Result<Read, AllocError>
    ensures { IfOk result (λ read. read ≡ fil_letter (next_order order) length factor order) }
{
    match next_order(order) {
        Some(order) => Ok(goes_on(NumberScan::Fil {
            length,
            factor,
            order,
        })),
        None => failing(
            alloc,
            b"Illegal unit of measure (replaced by filll)",
            goes_on(NumberScan::Fil {
                length,
                factor,
                order,
            }),
        ),
    }
}

/// An infinite amount is whole.
fn infinite(
    alloc: Global,
    length: Length,
    factor: Factor,
    order: GlueOrder,
) -> Result<Read, AllocError>
    ensures { IfOk result (λ read. read ≡ infinite_by (points factor) length order) }
{
    match points(factor) {
        Some(size) => Ok(gives_order(Quantity::Dim(signed(length.is_negative, size)), order)),
        None => failing(
            alloc,
            b"Dimension too large",
            gives_order(
                Quantity::Dim(signed(length.is_negative, 1_073_741_823)),
                order,
            ),
        ),
    }
}

/// Behind `fil`: letters `l`, with spaces between.
#[tactic(auto, unfolding(crate::specs::Dimensions::fil_row))]
pub(crate) fn fil_row(
    alloc: Global,
    length: Length,
    factor: Factor,
    order: GlueOrder,
    token: Token,
    meaning: &Meaning,
) -> Result<Read, AllocError>
    ensures { IfOk result (λ read. read ≡ fil_row length factor order token meaning.now) }
{
    if has_category(10, meaning) {
        return Ok(goes_on(NumberScan::Fil {
            length,
            factor,
            order,
        }));
    }
    if is_l(letter_of(token)) {
        return fil_letter(alloc, length, factor, order);
    }
    Ok(back(infinite(alloc, length, factor, order)?))
}

/// Whether a letter is an `l`.
fn is_l(letter: Option<u8>) -> bool
    ensures { result ≡ is_l letter }
{
    match letter {
        None => false,
        Some(code) => code == b'l',
    }
}

/// The end of a dimension.
#[tactic(auto, unfolding(crate::specs::Dimensions::unit_end_row))]
pub(crate) fn unit_end_row(
    alloc: Global,
    length: Length,
    size: Option<i32>,
) -> Result<Read, AllocError>
    ensures { IfOk result (λ read. read ≡ unit_end_row length size) }
{
    attached(alloc, length.is_negative, size)
}

/// The unit that a word is, behind `true` or not.
fn unit_of(word: Word, is_true: bool) -> Option<Unit>
    ensures { result ≡ unit_of word is_true }
{
    match word {
        Word::Pt => Some(if is_true { Unit::TruePt } else { Unit::Pt }),
        Word::Pc => Some(if is_true { Unit::TruePc } else { Unit::Pc }),
        Word::In => Some(if is_true { Unit::TrueIn } else { Unit::In }),
        Word::Cm => Some(if is_true { Unit::TrueCm } else { Unit::Cm }),
        Word::Mm => Some(if is_true { Unit::TrueMm } else { Unit::Mm }),
        Word::Bp => Some(if is_true { Unit::TrueBp } else { Unit::Bp }),
        Word::Dd => Some(if is_true { Unit::TrueDd } else { Unit::Dd }),
        Word::Cc => Some(if is_true { Unit::TrueCc } else { Unit::Cc }),
        Word::Sp => Some(if is_true { Unit::TrueSp } else { Unit::Sp }),
        _ => None,
    }
}

/// The magnification, where it is one.
fn mag_of(rest: &Rest) -> i32
    ensures value { result ≡ pos (mag_of (rest_of rest.now).values) }
    ensures range { (pos 1 ≤ℤ result) × (result ≤ℤ pos 32768) }
{
    let mag = rest.int(IntParam::Mag);
    if mag >= 1 && mag <= 32768 { mag } else { 1000 }
}

/// The size of so many of a unit, if it is a dimension.
#[tactic(auto, unfolding(crate::specs::Dimensions::size_of))]
fn size_of(rest: &Rest, unit: Unit, factor: Factor) -> Option<i32>
    ensures { result ≡ size_of unit factor (rest_of rest.now).values }
{
    if factor.whole < 0 || factor.fraction < 0 || factor.fraction > 65536 {
        return None;
    }
    match convert(unit, factor.whole, factor.fraction, mag_of(rest)) {
        Ok(size) => Some(size),
        Err(TooLarge) => None,
    }
}

/// Sets the magnification globally.
fn set_mag(rest: &mut Rest, mag: i32) -> Result<(), AllocError>
    requires { (pos 1 ≤ℤ mag) × (mag ≤ℤ pos 2147483647) }
    ensures rest { OnOk result (rest_of rest.new ≡ with_global_mag mag (rest_of rest.old)) }
    ensures kept { Keeps rest.old rest.new }
{
    assign_global(rest, Key::Int(IntParam::Mag), Val::Int(mag))
}

/// The text of an error about a magnification.
fn mag_text(alloc: Global, before: &[u8], mag: i32, behind: &[u8]) -> Result<Bytes, AllocError>
    ensures { IfOk result (λ text. text ≡ before.now ++ integer_text mag ++ behind.now) }
{
    let mut text = Bytes::from_slice(alloc, before)?;
    etx_answers::push_integer(alloc, &mut text, mag)?;
    text.extend_from_slice(behind)?;
    Ok(text)
}

/// Another magnification than the one that is fixed is set back, with an error.
fn set_back_mag(rest: &mut Rest, fixed: u16, mag: i32, read: Read) -> Result<Read, AllocError>
    requires { 1 ≤ fixed }
    ensures rest { OnOk result (rest_of rest.new ≡ with_global_mag (pos fixed) (rest_of rest.old)) }
    ensures read { IfOk result (λ it. it ≡ failing (incompatible_mag mag) read) }
    ensures kept { Keeps rest.old rest.new }
{
    set_mag(rest, i32::from(fixed))?;
    let text = mag_text(
        rest.alloc(),
        b"Incompatible magnification (",
        mag,
        b"); the previous value will be retained",
    )?;
    failing(rest.alloc(), text.as_slice(), read)
}

/// The magnification is fixed at its first use: another one is set back, with an error, and one that is none is set to 1000 ("TeX: The
/// Program", section 288).
#[tactic(auto, unfolding(crate::specs::Dimensions::prepared_mag))]
fn prepare_mag(rest: &mut Rest, read: Read) -> Result<Read, AllocError>
    ensures rest { OnOk result (rest_of rest.new ≡ (prepared_mag read (rest_of rest.old)).rest) }
    ensures read { IfOk result (λ it. it ≡ (prepared_mag read (rest_of rest.old)).read) }
    ensures kept { Keeps rest.old rest.new }
{
    let mag = rest.int(IntParam::Mag);
    let fixed = rest.fixed_mag();
    if fixed > 0 && mag != i32::from(fixed) {
        return set_back_mag(rest, fixed, mag, read);
    }
    if mag >= 1 && mag <= 32768 {
        rest.fix_mag(mag as u16);
        return Ok(read);
    }
    set_mag(rest, 1000)?;
    rest.fix_mag(1000);
    let text = mag_text(
        rest.alloc(),
        b"Illegal magnification has been changed to 1000 (",
        mag,
        b")",
    )?;
    failing(rest.alloc(), text.as_slice(), read)
}

/// A word stands as a unit.
#[tactic(auto, unfolding(crate::specs::Dimensions::unit_found))]
fn unit_found(
    rest: &mut Rest,
    length: Length,
    factor: Factor,
    is_true: bool,
    word: Word,
) -> Result<Read, AllocError>
    ensures rest { OnOk result (rest_of rest.new ≡ (unit_found word length factor is_true (rest_of rest.old)).rest) }
    ensures read { IfOk result (λ read. read ≡ (unit_found word length factor is_true (rest_of rest.old)).read) }
    ensures kept { Keeps rest.old rest.new }
{
    match word {
        Word::Fil => Ok(goes_on(NumberScan::Fil {
            length,
            factor,
            order: GlueOrder::Fil,
        })),
        Word::True => {
            let read = goes_on(NumberScan::Unit {
                length,
                factor,
                is_true: true,
            });
            prepare_mag(rest, read)
        }
        Word::Em => Ok(unit_ends(length, Some(0))),
        Word::Ex => Ok(unit_ends(length, Some(0))),
        Word::Mu => Ok(unit_ends(length, points(factor))),
        Word::Pt => Ok(unit_ends(length, word_size(rest, word, is_true, factor))),
        Word::Pc => Ok(unit_ends(length, word_size(rest, word, is_true, factor))),
        Word::In => Ok(unit_ends(length, word_size(rest, word, is_true, factor))),
        Word::Cm => Ok(unit_ends(length, word_size(rest, word, is_true, factor))),
        Word::Mm => Ok(unit_ends(length, word_size(rest, word, is_true, factor))),
        Word::Bp => Ok(unit_ends(length, word_size(rest, word, is_true, factor))),
        Word::Dd => Ok(unit_ends(length, word_size(rest, word, is_true, factor))),
        Word::Cc => Ok(unit_ends(length, word_size(rest, word, is_true, factor))),
        Word::Sp => Ok(unit_ends(length, word_size(rest, word, is_true, factor))),
        Word::Plus => Ok(unit_ends(length, Some(0))),
        Word::Minus => Ok(unit_ends(length, Some(0))),
        Word::By => Ok(unit_ends(length, Some(0))),
    }
}

/// A dimension is whole but for a space that may be there.
fn unit_ends(length: Length, size: Option<i32>) -> Read
    ensures { result ≡ goes_on (NumberScan.UnitEnd length size) }
{
    goes_on(NumberScan::UnitEnd { length, size })
}

/// The size of so many of the unit that a word is, if it is a dimension.
fn word_size(rest: &Rest, word: Word, is_true: bool, factor: Factor) -> Option<i32>
    ensures { result ≡ size_by (unit_of word is_true) factor (rest_of rest.now).values }
{
    match unit_of(word, is_true) {
        Some(unit) => size_of(rest, unit, factor),
        None => Some(0),
    }
}

/// The stretch or the shrink of glue comes next.
fn glue_found(glue: Glue, is_mu: bool, word: Word) -> Read
    ensures { result ≡ glue_outer word glue is_mu }
{
    let want = Want::Dimension(Length {
        is_negative: false,
        is_mu,
        is_infinite: true,
    });
    let read = goes_on(NumberScan::Start(want));
    if is_plus(word) {
        behind(Outer::Stretch { glue, is_mu }, read)
    } else {
        behind(Outer::Shrink { glue, is_mu }, read)
    }
}

/// A word stands there.
#[tactic(auto, unfolding(crate::specs::Dimensions::word_found))]
fn word_found(rest: &mut Rest, scan: NumberScan, word: Word) -> Result<Read, AllocError>
    ensures rest { OnOk result (rest_of rest.new ≡ (word_found scan word (rest_of rest.old)).rest) }
    ensures read { IfOk result (λ read. read ≡ (word_found scan word (rest_of rest.old)).read) }
    ensures kept { Keeps rest.old rest.new }
{
    match scan {
        NumberScan::Unit {
            length,
            factor,
            is_true,
        } => unit_found(rest, length, factor, is_true, word),
        NumberScan::Plus { glue, is_mu } => Ok(glue_found(glue, is_mu, word)),
        NumberScan::Minus { glue, is_mu } => Ok(glue_found(glue, is_mu, word)),
        scan => Ok(goes_on(scan)),
    }
}

/// The letters are no word of the place.
#[tactic(auto, unfolding(crate::specs::Dimensions::word_lost))]
fn word_lost(alloc: Global, scan: NumberScan) -> Result<Read, AllocError>
    ensures { IfOk result (λ read. read ≡ word_lost scan) }
{
    match scan {
        NumberScan::Unit {
            length,
            factor,
            is_true: _,
        } => illegal_unit(alloc, length, factor),
        NumberScan::Plus { glue, is_mu } => Ok(gives(glue_amount(is_mu, glue))),
        NumberScan::Minus { glue, is_mu } => Ok(gives(glue_amount(is_mu, glue))),
        scan => Ok(goes_on(scan)),
    }
}

/// The words of a scan's place.
fn words_at(scan: &NumberScan) -> Option<WordSet>
    ensures { result ≡ words_at scan.now }
{
    match scan {
        NumberScan::Unit {
            length,
            is_true,
            ..
        } => Some(units_of(*length, *is_true)),
        NumberScan::Plus { .. } => Some(WordSet::PlusMinus),
        NumberScan::Minus { .. } => Some(WordSet::Minus),
        _ => None,
    }
}

/// How the letters that a scan keeps stand to its words, with one more.
fn spelled(
    alloc: Global,
    scan: &NumberScan,
    letters: &[Token],
    token: Token,
) -> Result<Spelled, AllocError>
    ensures { IfOk result (λ it. it ≡ spelled_at (words_at scan.now) (letters.now ++ token ∷ [])) }
{
    match words_at(scan) {
        None => Ok(Spelled::Nothing),
        Some(set) => spell(alloc, set, letters, token),
    }
}

/// A number that reads a word gets a token.
#[tactic(auto, unfolding(crate::specs::Dimensions::number_word_row))]
pub fn number_word_row(
    rest: &mut Rest,
    scan: NumberScan,
    taker: Boxed<Taker>,
    letters: &[Token],
    token: Token,
) -> Result<WordPlan, AllocError>
    ensures rest { OnOk result (rest_of rest.new ≡ (number_word_row scan taker letters.now token (rest_of rest.old)).rest) }
    ensures plan { IfOk result (λ plan. plan ≡ (number_word_row scan taker letters.now token (rest_of rest.old)).plan) }
    ensures kept { Keeps rest.old rest.new }
{
    match spelled(rest.alloc(), &scan, letters, token)? {
        Spelled::Front => Ok(WordPlan::Letter(Scan::Number { scan, taker })),
        Spelled::Whole(word) => {
            let read = word_found(rest, scan, word)?;
            Ok(WordPlan::Found(read_plan(rest, taker, read)?))
        }
        Spelled::Nothing => {
            let read = word_lost(rest.alloc(), scan)?;
            Ok(WordPlan::Lost(read_ended(rest, taker, read)?))
        }
    }
}

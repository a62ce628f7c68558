// Values that real e-TeX gave, and what is said of parts and tokens.
ghost use Rattle.etx_exprs.specs.Constants.{IsBase};

use etx_exprs::{Digits, Expr, Overflow, Part, TooBig, Turn, Unit, Value, ValueKind, convert};
use etx_matter::{Glue, GlueOrder, NameId, Token};
use std::alloc::{AllocError, Global};
use std::test::Fail;

// In an expression's text each `x` stands for the next operand. `None` is `Arithmetic overflow`.
const INTEGERS: &[(&[u8], &[i32], Option<i32>)] = &[
    (b"x/x", &[7, 2], Some(4)),
    (b"x/x", &[-7, 2], Some(-4)),
    (b"x/x", &[7, -2], Some(-4)),
    (b"x/x", &[5, 2], Some(3)),
    (b"x-x/x", &[1, 7, 2], Some(-3)),
    (
        b"x*x/x",
        &[2147483647, 2147483647, 2147483647],
        Some(2147483647),
    ),
    (b"x*x", &[2147483647, 2], None),
    (b"x+x", &[2147483647, 1], None),
    (b"x*(x+x)", &[0, 2147483647, 1], None),
    (b"x/x", &[1, 0], None),
    (b"x*x*x/x", &[46341, 46341, 3, 7], None),
    (b"x*x*x/x", &[46340, 46340, 3, 7], Some(920312400)),
    (b"x*x/x*x/x", &[2, 3, 4, 5, 6], Some(2)),
    (b"x*x/x/x", &[7, 3, 2, 2], Some(6)),
    (b"x/x*x", &[7, 2, 3], Some(12)),
    (b"x+x*x", &[2, 3, 4], Some(14)),
    (b"x*(x+x)", &[2, 3, 4], Some(14)),
    (b"(x+x)*x-x", &[2, 3, 4, 5], Some(15)),
    (b"x-x-x", &[1, 2, 3], Some(-4)),
    (b"x-x", &[-2147483647, 1], None),
];

const SCALINGS: &[(&[u8], &[i32], Option<i32>)] = &[
    (b"x/x/x", &[100, 7, 2], Some(7)),
    (b"x/x", &[2147483647, -1], Some(-2147483647)),
    (b"((((x))))", &[7], Some(7)),
    (b"x-(x-(x-(x-x)))", &[1, 2, 3, 4, 5], Some(3)),
    (b"x*x/x", &[3, -5, 2], Some(-8)),
    (b"x*x/x", &[1, 1, 2], Some(1)),
    (b"x*x/x", &[-1, 1, 2], Some(-1)),
    (b"x*x/x*x", &[1000000, 1000000, 1000000, 2], Some(2000000)),
    (b"x*x/x", &[0, 5, 0], None),
    (b"x*x/(x-x)", &[5, 6, 1, 1], None),
    (b"x/x", &[2147483647, 2147483647], Some(1)),
    (b"x*(x/x)", &[3, 5, 2], Some(9)),
    (b"(x*x)/x", &[2147483647, 2, 2], None),
    (b"x*x/x", &[2147483647, 2, 3], Some(1431655765)),
    (b"x*x/x", &[2147483647, 3, 2], None),
];

const DIMENSIONS: &[(&[u8], &[i32], Option<i32>)] = &[
    (b"x", &[1073741823], Some(1073741823)),
    (b"x+x", &[1073741823, 1], None),
    (b"x*x/x", &[1073741823, 2, 2], Some(1073741823)),
    (b"x*x", &[1073741823, 2], None),
    (b"x*x", &[65536, 16384], None),
    (b"x*x/x", &[65536, 2147483647, 2147483647], Some(65536)),
    (b"x/x", &[65536, 3], Some(21845)),
    (b"x/x", &[-65536, 3], Some(-21845)),
    (b"x-x*x", &[655360, 131072, 3], Some(262144)),
    (b"(x-x)*x", &[655360, 131072, 3], Some(1572864)),
    (b"x*(x+x)/x", &[655360, 1, 2, 4], Some(491520)),
    (b"x*x/x", &[1, 1, 2], Some(1)),
    (b"x*x/x", &[-1, 1, 2], Some(-1)),
    (b"x/x", &[3, 2], Some(2)),
    (b"x/x", &[3, -2], Some(-2)),
    (b"x*x/x", &[65536, 0, 0], None),
    (b"(x+x)*x", &[1073676287, 1073676287, 0], None),
    (b"x-x", &[-1073741823, 1], None),
    (b"x*x/x", &[1073741823, 3, 4], Some(805306367)),
];

// A width, a stretch and its order, a shrink and its order.
type Sizes = (i32, i32, u8, i32, u8);

// In the text each `g` stands for the next glue, and each `i` for the next integer.
const GLUE: &[(&[u8], &[Sizes], &[i32], Option<Sizes>)] = &[
    (
        b"g-g",
        &[(0, 0, 0, 0, 0), (0, 65536, 1, 0, 0)],
        &[],
        Some((0, 65536, 1, 0, 0)),
    ),
    (
        b"g-g",
        &[(65536, 131072, 0, 0, 0), (65536, 65536, 1, 196608, 2)],
        &[],
        Some((0, 65536, 1, 196608, 2)),
    ),
    (
        b"g*i+g",
        &[(65536, 65536, 1, 0, 0), (0, 327680, 0, 0, 0)],
        &[0],
        Some((0, 0, 0, 0, 0)),
    ),
    (
        b"(g*i)+g",
        &[(65536, 65536, 1, 0, 0), (0, 327680, 0, 0, 0)],
        &[0],
        Some((0, 327680, 0, 0, 0)),
    ),
    (
        b"g+g",
        &[(65536, 0, 1, 0, 0), (0, 327680, 0, 0, 0)],
        &[],
        Some((65536, 327680, 0, 0, 0)),
    ),
    (
        b"g+g*i",
        &[(0, 327680, 0, 0, 0), (65536, 65536, 1, 0, 0)],
        &[0],
        Some((0, 327680, 0, 0, 0)),
    ),
    (
        b"g-g+g",
        &[
            (65536, 65536, 1, 0, 0),
            (65536, 65536, 1, 0, 0),
            (0, 327680, 0, 0, 0),
        ],
        &[],
        Some((0, 327680, 0, 0, 0)),
    ),
    (
        b"g*i/i",
        &[(65536, 65536, 1, 131072, 1)],
        &[3, 2],
        Some((98304, 98304, 1, 196608, 1)),
    ),
    (
        b"g+g",
        &[(65536, 327680, 1, 0, 0), (0, 131072, 2, 0, 0)],
        &[],
        Some((65536, 131072, 2, 0, 0)),
    ),
    (
        b"g+g",
        &[(65536, 327680, 2, 0, 0), (0, 131072, 1, 65536, 0)],
        &[],
        Some((65536, 327680, 2, 65536, 0)),
    ),
    (
        b"g+g",
        &[(65536, 1073741823, 1, 0, 0), (0, 65536, 1, 0, 0)],
        &[],
        None,
    ),
    (
        b"g*i/i",
        &[(65536, 1073741823, 1, 0, 0)],
        &[2, 2],
        Some((65536, 1073741823, 1, 0, 0)),
    ),
    (
        b"g/i",
        &[(65536, 3, 0, 5, 0)],
        &[2],
        Some((32768, 2, 0, 3, 0)),
    ),
    (
        b"g*i",
        &[(65536, 0, 1, 0, 0)],
        &[2],
        Some((131072, 0, 0, 0, 0)),
    ),
    (
        b"g*i*i+g",
        &[(65536, 65536, 1, 0, 0), (0, 327680, 0, 0, 0)],
        &[0, 3],
        Some((0, 0, 0, 0, 0)),
    ),
    (
        b"(g)+g",
        &[(65536, 0, 1, 0, 0), (0, 327680, 0, 0, 0)],
        &[],
        Some((65536, 327680, 0, 0, 0)),
    ),
    (b"g*i", &[(1073741823, 1, 0, 0, 0)], &[2], None),
    (
        b"g-g-g",
        &[
            (65536, 65536, 3, 65536, 2),
            (65536, 65536, 1, 65536, 3),
            (0, 2, 3, 3, 3),
        ],
        &[],
        Some((0, 65534, 3, 65533, 3)),
    ),
];

// The unit, a number in front of it, the magnification, and the size. `None` is `Dimension too large`.
const SIZES: &[(Unit, i32, i32, i32, Option<i32>)] = &[
    (Unit::In, 1, 0, 1000, Some(4736286)),
    (Unit::Pc, 1, 0, 1000, Some(786432)),
    (Unit::Cm, 1, 0, 1000, Some(1864679)),
    (Unit::Mm, 1, 0, 1000, Some(186467)),
    (Unit::Bp, 1, 0, 1000, Some(65781)),
    (Unit::Dd, 1, 0, 1000, Some(70124)),
    (Unit::Cc, 1, 0, 1000, Some(841489)),
    (Unit::Pt, 16383, 65535, 1000, Some(1073741823)),
    (Unit::Pt, 16383, 65536, 1000, None),
    (Unit::Cm, 575, 54509, 1000, Some(1073741822)),
    (Unit::Sp, 1, 65536, 1000, Some(1)),
    (Unit::TrueSp, 1, 65536, 1000, Some(1)),
    (Unit::Sp, 1073741823, 0, 1000, Some(1073741823)),
    (Unit::Sp, 1073741824, 0, 1000, None),
];

// The same on a page that is magnified.
const MAGNIFIED: &[(Unit, i32, i32, i32, Option<i32>)] = &[
    (Unit::In, 1, 24248, 2000, Some(6488689)),
    (Unit::TrueSp, 3, 32768, 2000, Some(1)),
    (Unit::TrueIn, 1, 24248, 2000, Some(3244344)),
    (Unit::TrueCm, 10, 6554, 2000, Some(9416638)),
    (Unit::TrueCc, 3, 21843, 2000, Some(1402460)),
    (Unit::TruePt, 32767, 65535, 2000, Some(1073741823)),
    (Unit::TrueIn, 10, 6554, 2986, Some(16020235)),
    (Unit::TruePc, 3, 21845, 720, Some(3640872)),
    (Unit::TrueBp, 3, 21845, 720, Some(304543)),
    (Unit::TrueDd, 3, 21845, 720, Some(324647)),
    (Unit::TrueMm, 3, 21845, 720, Some(863273)),
    (Unit::TrueMm, 3, 21845, 32768, Some(18966)),
];

fn sign_of(byte: u8) -> Part {
    match byte {
        b'+' => Part::Plus,
        b'-' => Part::Minus,
        b'*' => Part::Times,
        b'/' => Part::Divide,
        b'(' => Part::Open,
        b')' => Part::Close,
        _ => Part::Other,
    }
}

fn operand(kind: Option<ValueKind>, number: i32) -> Part {
    match kind {
        Some(ValueKind::Dim) => Part::Operand(Value::Dim(number)),
        _ => Part::Operand(Value::Int(number)),
    }
}

// What an expression came to: `None` where it isn't whole.
type Answer = Option<Result<Value, Overflow>>;

fn value_of(expr: &Expr) -> Answer {
    if expr.is_whole() {
        Some(expr.value())
    } else {
        None
    }
}

fn goes_on(expr: &mut Expr, part: Part) -> Result<bool, AllocError> {
    let turn = expr.feed(part)?;
    Ok(turn == Turn::More)
}

// The value, where each part went on and a `\relax` ends the expression.
fn ended(expr: &mut Expr, all_went_on: bool) -> Result<Answer, AllocError> {
    let turn = expr.feed(Part::Relax)?;
    if all_went_on && turn == Turn::Done {
        Ok(value_of(expr))
    } else {
        Ok(None)
    }
}

fn number_of(
    alloc: Global,
    kind: ValueKind,
    text: &[u8],
    numbers: &[i32],
) -> Result<Answer, AllocError> {
    let mut expr = Expr::new(alloc, kind);
    let mut next = 0usize;
    let mut all_went_on = true;
    for byte in text {
        let part = match numbers.get(next) {
            Some(number) if *byte == b'x' => {
                next += 1;
                operand(expr.wanted(), *number)
            }
            _ => sign_of(*byte),
        };
        let went_on = goes_on(&mut expr, part)?;
        all_went_on = all_went_on & went_on;
    }
    ended(&mut expr, all_went_on)
}

fn order_of(order: u8) -> GlueOrder {
    match order {
        0 => GlueOrder::Normal,
        1 => GlueOrder::Fil,
        2 => GlueOrder::Fill,
        _ => GlueOrder::Filll,
    }
}

fn glue_of(sizes: Sizes) -> Glue {
    Glue {
        width: sizes.0,
        stretch: sizes.1,
        shrink: sizes.3,
        stretch_order: order_of(sizes.2),
        shrink_order: order_of(sizes.4),
    }
}

fn glue_kind(is_mu: bool) -> ValueKind {
    if is_mu {
        ValueKind::MuGlue
    } else {
        ValueKind::Glue
    }
}

fn glue_in(is_mu: bool, sizes: Sizes) -> Value {
    if is_mu {
        Value::MuGlue(glue_of(sizes))
    } else {
        Value::Glue(glue_of(sizes))
    }
}

// The value of an expression of glue or, where `is_mu` is true, of glue in mu.
fn glue_value(
    alloc: Global,
    is_mu: bool,
    text: &[u8],
    glues: &[Sizes],
    numbers: &[i32],
) -> Result<Answer, AllocError> {
    let mut expr = Expr::new(alloc, glue_kind(is_mu));
    let mut glues = glues.iter();
    let mut numbers = numbers.iter();
    let mut all_went_on = true;
    for byte in text {
        let part = match *byte {
            b'g' => match glues.next() {
                Some(sizes) => Part::Operand(glue_in(is_mu, *sizes)),
                None => Part::Other,
            },
            b'i' => match numbers.next() {
                Some(number) => Part::Operand(Value::Int(*number)),
                None => Part::Other,
            },
            other => sign_of(other),
        };
        let went_on = goes_on(&mut expr, part)?;
        all_went_on = all_went_on & went_on;
    }
    ended(&mut expr, all_went_on)
}

fn is_number(answer: Answer, number: Option<i32>) -> bool {
    match answer {
        Some(Ok(Value::Int(n))) => number == Some(n),
        Some(Ok(Value::Dim(n))) => number == Some(n),
        Some(Ok(_)) => false,
        Some(Err(_)) => number == None,
        None => false,
    }
}

fn is_glue(answer: Answer, is_mu: bool, sizes: Option<Sizes>) -> bool {
    match answer {
        Some(Ok(value)) => match sizes {
            Some(sizes) => value == glue_in(is_mu, sizes) && value.kind() == glue_kind(is_mu),
            None => false,
        },
        Some(Err(_)) => sizes == None,
        None => false,
    }
}

#[test]
fn integers(rt: HostRuntime) -> Result<(), Fail> {
    for (row, (text, numbers, number)) in INTEGERS.iter().enumerate() {
        let value = number_of(rt.alloc(), ValueKind::Int, text, numbers)?;
        assert!(rt; is_number(value, *number), "row {row}");
    }
    Ok(())
}

#[test]
fn scalings(rt: HostRuntime) -> Result<(), Fail> {
    for (row, (text, numbers, number)) in SCALINGS.iter().enumerate() {
        let value = number_of(rt.alloc(), ValueKind::Int, text, numbers)?;
        assert!(rt; is_number(value, *number), "row {row}");
    }
    Ok(())
}

#[test]
fn dimensions(rt: HostRuntime) -> Result<(), Fail> {
    for (row, (text, numbers, number)) in DIMENSIONS.iter().enumerate() {
        let value = number_of(rt.alloc(), ValueKind::Dim, text, numbers)?;
        assert!(rt; is_number(value, *number), "row {row}");
    }
    Ok(())
}

#[test]
fn glues(rt: HostRuntime) -> Result<(), Fail> {
    for (row, (text, glues, numbers, sizes)) in GLUE.iter().enumerate() {
        let value = glue_value(rt.alloc(), false, text, glues, numbers)?;
        assert!(rt; is_glue(value, false, *sizes), "row {row}");
    }
    Ok(())
}

#[test]
fn glues_in_mu(rt: HostRuntime) -> Result<(), Fail> {
    for (row, (text, glues, numbers, sizes)) in GLUE.iter().enumerate() {
        let value = glue_value(rt.alloc(), true, text, glues, numbers)?;
        assert!(rt; is_glue(value, true, *sizes), "row {row}");
    }
    Ok(())
}

#[test]
fn sizes_in_units(rt: HostRuntime) {
    for (row, (unit, whole, fraction, mag, size)) in SIZES.iter().enumerate() {
        let is_same = convert(*unit, *whole, *fraction, *mag).ok() == *size;
        assert!(rt; is_same, "row {row}");
    }
}

#[test]
fn sizes_on_a_magnified_page(rt: HostRuntime) {
    for (row, (unit, whole, fraction, mag, size)) in MAGNIFIED.iter().enumerate() {
        let is_same = convert(*unit, *whole, *fraction, *mag).ok() == *size;
        assert!(rt; is_same, "row {row}");
    }
}

#[test]
fn a_part_that_cannot_follow_is_not_taken(rt: HostRuntime) -> Result<(), Fail> {
    let mut expr = Expr::new(rt.alloc(), ValueKind::Int);
    assert!(rt; expr.feed(Part::Plus)? == Turn::DoneBack);
    assert!(rt; expr.feed(Part::Open)? == Turn::More);
    assert!(rt; expr.feed(Part::Operand(Value::Dim(7)))? == Turn::DoneBack);
    assert!(rt; expr.feed(Part::Operand(Value::Int(7)))? == Turn::More);
    assert!(rt; expr.depth() == 1 && !expr.is_whole());
    // e-TeX reports `Missing ) inserted for expression` here.
    assert!(rt; expr.feed(Part::Relax)? == Turn::DoneBack);
    assert!(rt; expr.feed(Part::Close)? == Turn::More);
    assert!(rt; expr.feed(Part::Close)? == Turn::DoneBack);
    assert!(rt; expr.feed(Part::Relax)? == Turn::Done);
    assert!(rt; is_number(value_of(&expr), Some(7)));
    Ok(())
}

fn digit(code: u8) -> Token {
    Token::Char { code, cat: 12 }
}

fn constant(base: u8, text: &[u8]) -> Result<i32, TooBig>
    requires { IsBase base }
{
    let mut digits = Digits::new(base);
    for code in text {
        let _turn = digits.feed(digit(*code));
    }
    digits.value()
}

#[test]
fn constants(rt: HostRuntime) {
    assert!(rt; constant(10, b"2147483647") == Ok(2147483647));
    assert!(rt; constant(10, b"2147483648") == Err(TooBig));
    assert!(rt; constant(10, b"99999999999") == Err(TooBig));
    assert!(rt; constant(8, b"17777777777") == Ok(2147483647));
    assert!(rt; constant(8, b"20000000000") == Err(TooBig));
    assert!(rt; constant(8, b"78") == Ok(7));
    assert!(rt; constant(16, b"7FFFFFFF") == Ok(2147483647));
    assert!(rt; constant(16, b"80000000") == Err(TooBig));
    assert!(rt; constant(10, b"A") == Ok(0));
}

#[test]
fn what_ends_a_constant(rt: HostRuntime) {
    let mut digits = Digits::new(16);
    assert!(rt; digits.is_empty());
    assert!(rt;
        digits.feed(Token::Char {
            code: b' ',
            cat: 10
        }) == Turn::DoneBack
    );
    assert!(rt;
        digits.feed(Token::Char {
            code: b'F',
            cat: 11
        }) == Turn::More
    );
    assert!(rt;
        digits.feed(Token::Char {
            code: b'f',
            cat: 11
        }) == Turn::DoneBack
    );
    assert!(rt;
        digits.feed(Token::Char {
            code: b'1',
            cat: 11
        }) == Turn::DoneBack
    );
    assert!(rt; digits.feed(Token::Name(NameId(7))) == Turn::DoneBack);
    assert!(rt;
        digits.feed(Token::Char {
            code: b' ',
            cat: 10
        }) == Turn::Done
    );
    assert!(rt; !digits.is_empty());
    assert!(rt; digits.value() == Ok(15));
}

fn stretch_order(answer: Answer) -> u8 {
    match answer {
        Some(Ok(Value::Glue(glue))) => match glue.stretch_order {
            GlueOrder::Normal => 0,
            _ => 1,
        },
        _ => 2,
    }
}

// `\gluestretchorder` of an expression shows what becomes of a stretch of nothing.
#[test]
fn orders_of_nothing(rt: HostRuntime) -> Result<(), Fail> {
    let one_fil = (65536, 65536, 1, 0, 0);
    let no_fil = (65536, 0, 1, 0, 0);
    let nothing = (0, 0, 0, 0, 0);
    assert!(rt; stretch_order(glue_value(rt.alloc(), false, b"g*i", &[one_fil], &[0])?) == 1);
    assert!(rt; stretch_order(glue_value(rt.alloc(), false, b"g", &[no_fil], &[])?) == 1);
    assert!(rt; stretch_order(glue_value(rt.alloc(), false, b"(g)", &[no_fil], &[])?) == 1);
    assert!(rt; stretch_order(glue_value(rt.alloc(), false, b"g*i", &[no_fil], &[1])?) == 0);
    assert!(rt;
        stretch_order(glue_value(rt.alloc(), false, b"g+g", &[nothing, no_fil], &[])?) == 0
    );
    assert!(rt; stretch_order(glue_value(rt.alloc(), false, b"g/i", &[no_fil], &[1])?) == 0);
    Ok(())
}

// Calls against what TeX makes of them.
use etx_lists::Listed;
use etx_macros::{Fed, MatchFault, Matcher, Pattern, PatternFault, substitute};
use etx_matter::{NameId, PAR, Token, Tokens};
use std::alloc::{AllocError, Global};
use std::test::Fail;

/// A byte as a token, under plain TeX's categories. `!` stands for `\par`, and `~` and `?` for two other names.
fn token_of(byte: u8) -> Token {
    let cat = match byte {
        b'!' => return Token::Name(PAR),
        b'~' => return Token::Name(NameId(1)),
        b'?' => return Token::Name(NameId(2)),
        b'{' => 1,
        b'}' => 2,
        b'$' => 3,
        b'#' => 6,
        b' ' => 10,
        b'a'..=b'z' | b'A'..=b'Z' => 11,
        _ => 12,
    };
    Token::Char { code: byte, cat }
}

fn tokens(alloc: Global, text: &[u8]) -> Result<Tokens, AllocError> {
    let mut tokens = Tokens::new(alloc);
    for byte in text {
        tokens.push(token_of(*byte))?;
    }
    Ok(tokens)
}

/// A call that is complete at its last token, and its arguments.
struct Call {
    params: &'static [u8],
    long: bool,
    call: &'static [u8],
    args: &'static [&'static [u8]],
}

/// A call that goes wrong at its last token.
struct Wrong {
    params: &'static [u8],
    long: bool,
    call: &'static [u8],
    fault: MatchFault,
}

const CALLS: [Call; 44] = [
    Call {
        params: b"#1.{x#}",
        long: false,
        call: b"a.",
        args: &[b"a"],
    },
    Call {
        params: b"#1#2#3#4#5#6#7#8#9#{",
        long: false,
        call: b"abcdefghi{",
        args: &[b"a", b"b", b"c", b"d", b"e", b"f", b"g", b"h", b"i"],
    },
    Call {
        params: b"#1",
        long: false,
        call: b"x",
        args: &[b"x"],
    },
    Call {
        params: b"#1",
        long: false,
        call: b"{xy}",
        args: &[b"xy"],
    },
    Call {
        params: b"#1",
        long: false,
        call: b" x",
        args: &[b"x"],
    },
    Call {
        params: b"#1",
        long: false,
        call: b" {xy}",
        args: &[b"xy"],
    },
    Call {
        params: b"#1",
        long: false,
        call: b"{{xy}}",
        args: &[b"{xy}"],
    },
    Call {
        params: b"#1",
        long: false,
        call: b"{}",
        args: &[b""],
    },
    Call {
        params: b"#1",
        long: false,
        call: b"?",
        args: &[b"?"],
    },
    Call {
        params: b"#1",
        long: false,
        call: b"{a{b}{c}d}",
        args: &[b"a{b}{c}d"],
    },
    Call {
        params: b"#1#2",
        long: false,
        call: b"xy",
        args: &[b"x", b"y"],
    },
    Call {
        params: b"#1#2",
        long: false,
        call: b"{x} y",
        args: &[b"x", b"y"],
    },
    Call {
        params: b"#1#2#3",
        long: false,
        call: b"a{b}c",
        args: &[b"a", b"b", b"c"],
    },
    Call {
        params: b"#1.",
        long: false,
        call: b"x.",
        args: &[b"x"],
    },
    Call {
        params: b"#1.",
        long: false,
        call: b".",
        args: &[b""],
    },
    Call {
        params: b"#1.",
        long: false,
        call: b"{x}.",
        args: &[b"x"],
    },
    Call {
        params: b"#1.",
        long: false,
        call: b"{x}{y}.",
        args: &[b"{x}{y}"],
    },
    Call {
        params: b"#1.",
        long: false,
        call: b"x{y}.",
        args: &[b"x{y}"],
    },
    Call {
        params: b"#1.",
        long: false,
        call: b" x.",
        args: &[b" x"],
    },
    Call {
        params: b"#1.",
        long: false,
        call: b"{x} .",
        args: &[b"{x} "],
    },
    Call {
        params: b"#1.",
        long: false,
        call: b"{a.b}.",
        args: &[b"a.b"],
    },
    Call {
        params: b"#1.",
        long: false,
        call: b"a{.}b.",
        args: &[b"a{.}b"],
    },
    Call {
        params: b"#1.",
        long: false,
        call: b"{{x}}.",
        args: &[b"{x}"],
    },
    Call {
        params: b"#1.",
        long: false,
        call: b"{}.",
        args: &[b""],
    },
    Call {
        params: b"#1aab",
        long: false,
        call: b"aaab",
        args: &[b"a"],
    },
    Call {
        params: b"#1aab",
        long: false,
        call: b"aab",
        args: &[b""],
    },
    Call {
        params: b"#1ab",
        long: false,
        call: b"aaxaab",
        args: &[b"aaxa"],
    },
    Call {
        params: b"#1abab",
        long: false,
        call: b"abaabab",
        args: &[b"aba"],
    },
    Call {
        params: b"#1ab",
        long: false,
        call: b"a{x}bab",
        args: &[b"a{x}b"],
    },
    Call {
        params: b"AB#1#2C$#3~ ",
        long: false,
        call: b"AB {?}C${And~ }{look}~ ",
        args: &[b"?", b"", b"{And~ }{look}"],
    },
    Call {
        params: b"#1#{",
        long: false,
        call: b"xy{",
        args: &[b"xy"],
    },
    Call {
        params: b"#1#{",
        long: false,
        call: b"{",
        args: &[b""],
    },
    Call {
        params: b"ab#{",
        long: false,
        call: b"ab{",
        args: &[],
    },
    Call {
        params: b"#1a#{",
        long: false,
        call: b"{x}a{",
        args: &[b"x"],
    },
    Call {
        params: b"#1a#{",
        long: false,
        call: b"a{",
        args: &[b""],
    },
    Call {
        params: b"#1 to#2.",
        long: false,
        call: b"x to{y}.",
        args: &[b"x", b"y"],
    },
    Call {
        params: b"#1;#2;",
        long: false,
        call: b";;",
        args: &[b"", b""],
    },
    Call {
        params: b"#1,#2,#3.",
        long: false,
        call: b"a,,b,c.",
        args: &[b"a", b"", b"b,c"],
    },
    Call {
        params: b"#1",
        long: true,
        call: b"!",
        args: &[b"!"],
    },
    Call {
        params: b"#1",
        long: true,
        call: b"{a!b}",
        args: &[b"a!b"],
    },
    Call {
        params: b"#1.",
        long: true,
        call: b"a!b.",
        args: &[b"a!b"],
    },
    Call {
        params: b"#1!",
        long: false,
        call: b"abc!",
        args: &[b"abc"],
    },
    Call {
        params: b"#1!x",
        long: false,
        call: b"!y!x",
        args: &[b"!y"],
    },
    Call {
        params: b"a!b",
        long: false,
        call: b"a!b",
        args: &[],
    },
];

const WRONG: [Wrong; 12] = [
    Wrong {
        params: b"#1",
        long: false,
        call: b"!",
        fault: MatchFault::ParagraphEnded,
    },
    Wrong {
        params: b"#1",
        long: false,
        call: b"{a!",
        fault: MatchFault::ParagraphEnded,
    },
    Wrong {
        params: b"#1.",
        long: false,
        call: b"a!",
        fault: MatchFault::ParagraphEnded,
    },
    Wrong {
        params: b"#1!.",
        long: false,
        call: b"a{!",
        fault: MatchFault::ParagraphEnded,
    },
    Wrong {
        params: b"#1",
        long: false,
        call: b"}",
        fault: MatchFault::ExtraBrace,
    },
    Wrong {
        params: b"#1#2",
        long: false,
        call: b"x}",
        fault: MatchFault::ExtraBrace,
    },
    Wrong {
        params: b"#1.",
        long: false,
        call: b"a{b}}",
        fault: MatchFault::ExtraBrace,
    },
    Wrong {
        params: b"#1a#{",
        long: false,
        call: b"x}",
        fault: MatchFault::ExtraBrace,
    },
    Wrong {
        params: b"AB#1",
        long: false,
        call: b"AC",
        fault: MatchFault::DoesNotMatch,
    },
    Wrong {
        params: b"A#1",
        long: false,
        call: b"!",
        fault: MatchFault::DoesNotMatch,
    },
    Wrong {
        params: b"A#1",
        long: false,
        call: b"}",
        fault: MatchFault::DoesNotMatch,
    },
    Wrong {
        params: b"~#1",
        long: false,
        call: b"?",
        fault: MatchFault::DoesNotMatch,
    },
];

/// Whether these are the arguments that are wanted.
fn are(alloc: Global, args: &[Tokens], wanted: &[&[u8]]) -> Result<bool, AllocError> {
    if args.len() != wanted.len() {
        return Ok(false);
    }
    for (arg, text) in args.iter().zip(wanted) {
        if arg.as_slice() != tokens(alloc, text)?.as_slice() {
            return Ok(false);
        }
    }
    Ok(true)
}

/// What is said of the last token of a call, and the matcher then; nothing where the call is over before.
fn fed(
    alloc: Global,
    pattern: &Pattern,
    long: bool,
    call: &[u8],
) -> Result<Option<(Fed, Matcher)>, AllocError> {
    let mut matcher = Matcher::new(alloc, pattern, long)?;
    let mut last = Fed::More;
    for byte in call {
        if !matcher.is_going() {
            return Ok(None);
        }
        last = matcher.feed(token_of(*byte))?;
    }
    Ok(Some((last, matcher)))
}

/// Whether a call is complete at its last token, with the arguments of its row.
fn is_right(alloc: Global, row: &Call) -> Result<bool, Fail> {
    let pattern = Pattern::read(alloc, &tokens(alloc, row.params)?)?;
    let Some((_, matcher)) = fed(alloc, &pattern, row.long, row.call)? else {
        return Ok(false);
    };
    if !matcher.is_done() {
        return Ok(false);
    }
    Ok(are(alloc, matcher.args(), row.args)?)
}

/// Whether a call goes wrong at its last token, as its row says.
fn is_wrong(alloc: Global, row: &Wrong) -> Result<bool, Fail> {
    let pattern = Pattern::read(alloc, &tokens(alloc, row.params)?)?;
    let Some((last, _)) = fed(alloc, &pattern, row.long, row.call)? else {
        return Ok(false);
    };
    Ok(last == Fed::Fault(row.fault))
}

#[test]
fn calls_give_the_arguments_that_tex_finds(rt: HostRuntime) -> Result<(), Fail> {
    for row in &CALLS {
        assert!(rt; is_right(rt.alloc(), row)?);
    }
    Ok(())
}

#[test]
fn calls_go_wrong_at_the_token_at_which_tex_stops(rt: HostRuntime) -> Result<(), Fail> {
    for row in &WRONG {
        assert!(rt; is_wrong(rt.alloc(), row)?);
    }
    Ok(())
}

/// Whether a parameter text is refused with this fault.
fn is_refused(alloc: Global, params: &[u8], fault: PatternFault) -> Result<bool, AllocError> {
    match Pattern::read(alloc, &tokens(alloc, params)?) {
        Ok(_) => Ok(false),
        Err(other) => Ok(other == fault),
    }
}

const BAD_NUMBERS: [&[u8]; 7] = [b"#2", b"#1#3", b"#", b"a#1#", b"#x", b"#}", b"#0"];

const TOO_MANY: [&[u8]; 2] = [b"#1#2#3#4#5#6#7#8#9#1", b"#1#2#3#4#5#6#7#8#9#"];

#[test]
fn parameters_are_numbered_in_order(rt: HostRuntime) -> Result<(), Fail> {
    for wrong in BAD_NUMBERS {
        assert!(rt; is_refused(rt.alloc(), wrong, PatternFault::BadNumber)?);
    }
    for wrong in TOO_MANY {
        assert!(rt; is_refused(rt.alloc(), wrong, PatternFault::TooManyParameters)?);
    }
    Ok(())
}

/// What is said of `}` where an argument was begun with this text, and whether it was known before.
fn said_of_brace(alloc: Global, text: &[u8]) -> Result<Option<(bool, Fed)>, Fail> {
    let pattern = Pattern::read(alloc, &tokens(alloc, b"#1.")?)?;
    let Some((_, mut matcher)) = fed(alloc, &pattern, true, text)? else {
        return Ok(None);
    };
    let brace = token_of(b'}');
    let is_extra = matcher.is_extra(brace);
    Ok(Some((is_extra, matcher.feed(brace)?)))
}

/// What is said of `\par` in an argument of a long macro, once the match goes on as for a short one.
fn said_of_paragraph(alloc: Global) -> Result<Option<Fed>, Fail> {
    let pattern = Pattern::read(alloc, &tokens(alloc, b"#1.")?)?;
    let Some((_, mut matcher)) = fed(alloc, &pattern, true, b"a!")? else {
        return Ok(None);
    };
    matcher.shorten();
    Ok(Some(matcher.feed(Token::Name(PAR))?))
}

#[test]
fn an_extra_brace_is_known_and_a_match_can_be_shortened(rt: HostRuntime) -> Result<(), Fail> {
    let extra = Some((true, Fed::Fault(MatchFault::ExtraBrace)));
    assert!(rt; said_of_brace(rt.alloc(), b"a")? == extra);
    assert!(rt; said_of_brace(rt.alloc(), b"a{b")? == Some((false, Fed::More)));
    assert!(rt; said_of_paragraph(rt.alloc())? == Some(Fed::Fault(MatchFault::ParagraphEnded)));
    Ok(())
}

/// A body, in which a digit stands for a parameter.
fn body(alloc: Global, text: &[u8]) -> Result<Tokens, AllocError> {
    let mut body = Tokens::new(alloc);
    for byte in text {
        match *byte {
            b'0'..=b'9' => body.push(Token::Param(*byte - b'0'))?,
            other => body.push(token_of(other))?,
        }
    }
    Ok(body)
}

/// Whether this body with these arguments is the text that is wanted.
fn gives(alloc: Global, text: &[u8], args: &[&[u8]], wanted: &[u8]) -> Result<bool, AllocError> {
    let mut list = Listed::new(alloc);
    for arg in args {
        list.push(tokens(alloc, arg)?)?;
    }
    let text = substitute(alloc, body(alloc, text)?.as_slice(), list.as_slice())?;
    Ok(text.as_slice() == tokens(alloc, wanted)?.as_slice())
}

#[test]
fn arguments_stand_for_parameters(rt: HostRuntime) -> Result<(), Fail> {
    assert!(rt; gives(rt.alloc(), b"a1b2?1", &[b"xy", b"{!}"], b"axyb{!}?xy")?);
    assert!(rt; gives(rt.alloc(), b"0(1)23", &[b"", b"."], b"().")?);
    Ok(())
}

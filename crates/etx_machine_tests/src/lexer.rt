// Lines against the book's rules, and texts against the rules of lines.
ghost use Rattle.std.specs.Prelude.{◌≡◌, ◌≤◌, min, slice_index};

use etx_lexer::{
    CatOf, Lexed, Line, LinePlace, LineState, end_character, next_line, trimmed_length,
};
use std::alloc::{AllocError, Global};
use std::process::Abort;
use std::test::Fail;

/// A table of categories; what is above 15 counts as 15.
#[derive(Drop)]
struct Categories {
    table: [u8; 256],
}

impl CatOf for Categories {
    ghost category = { λ c code. min (slice_index c.table code) 15 };

    fn cat(&self, code: u8) -> u8 {
        self.table[code as usize].min(15)
    }
}

/// The categories that plain TeX gives, but for the tab and the form feed.
fn plain() -> Categories {
    let mut table = [12; 256];
    for letter in 65..91 {
        table[letter] = 11;
        table[letter + 32] = 11;
    }
    for (code, cat) in [
        (b'\\', 0),
        (b'{', 1),
        (b'}', 2),
        (b'$', 3),
        (b'&', 4),
        (b'\r', 5),
        (b'#', 6),
        (b'^', 7),
        (b'_', 8),
        (0, 9),
        (b' ', 10),
        (b'~', 13),
        (b'%', 14),
        (127, 15),
    ] {
        table[code as usize] = cat;
    }
    Categories { table }
}

/// A line of at most two million bytes, as it is read.
fn line_of(bytes: &[u8], endline: i32) -> Line<'_> {
    let kept = trimmed_length(bytes).min(2_000_000);
    Line::new(&bytes[..kept], end_character(endline))
}

/// All that is lexed of a line: CODE.CATEGORY for a character, a backslash and the name, an exclamation mark and the
/// code of an invalid character, and a dollar sign for the line's end.
fn shown(alloc: Global, bytes: &[u8], endline: i32) -> Result<String, AllocError> {
    let categories = plain();
    let line = line_of(bytes, endline);
    let mut place = LinePlace::start();
    let mut out = String::new(alloc);
    for _ in 0..100 {
        let (lexed, behind) = line.next(alloc, place, &categories)?;
        place = behind;
        match lexed {
            Lexed::Char { code, cat } => write!(out, "{code}.{cat} ")?,
            Lexed::Name(name) => {
                out.push('\\')?;
                for byte in name.as_slice() {
                    out.push(char::from(*byte))?;
                }
                out.push(' ')?;
            }
            Lexed::Invalid(code) => write!(out, "!{code} ")?,
            Lexed::LineEnd => {
                out.push('$')?;
                break;
            }
        }
    }
    Ok(out)
}

/// Each line, with its last character, is lexed as wanted.
fn are_shown(rt: &(impl Abort + AllocGlobal), rows: &[(&[u8], i32, &str)]) -> Result<(), Fail> {
    for (bytes, endline, want) in rows {
        let got = shown(rt.alloc(), *bytes, *endline)?;
        assert_eq!(rt; got.as_str(), *want, "in {bytes:?} with {endline}");
    }
    Ok(())
}

#[test]
fn spaces_and_ends_of_lines(rt: HostRuntime) -> Result<(), Fail> {
    let rows = [
        (b"".as_slice(), 13, "\\par $"),
        (b"".as_slice(), -1, "$"),
        (b"a   ".as_slice(), 13, "97.11 32.10 $"),
        (b"  a".as_slice(), -1, "97.11 $"),
        (b"a".as_slice(), 200, "97.11 200.12 $"),
        (b"a".as_slice(), 255, "97.11 255.12 $"),
        (b"a".as_slice(), 256, "97.11 $"),
        (b"a ".as_slice(), 32, "97.11 32.10 $"),
        (b"a\x0db".as_slice(), 13, "97.11 32.10 $"),
    ];
    are_shown(&rt, rows.as_slice())
}

#[test]
fn names(rt: HostRuntime) -> Result<(), Fail> {
    let rows = [
        (b"\\a b".as_slice(), 13, "\\a 98.11 32.10 $"),
        (b"\\a   b".as_slice(), -1, "\\a 98.11 $"),
        (b"\\1 2".as_slice(), -1, "\\1 32.10 50.12 $"),
        (b"\\  x".as_slice(), -1, "\\  120.11 $"),
        (b"\\".as_slice(), 13, "\\\x0d $"),
        (b"\\".as_slice(), -1, "\\ $"),
        (b"\\a\x00b".as_slice(), -1, "\\a 98.11 $"),
        (b"\\\x00b".as_slice(), -1, "\\\x00 98.11 $"),
        (b"\\\x7fb".as_slice(), -1, "\\\x7f 98.11 $"),
        (b"\\a\xe9".as_slice(), -1, "\\a 233.12 $"),
        (b"\\a".as_slice(), 98, "\\ab $"),
    ];
    are_shown(&rt, rows.as_slice())
}

#[test]
fn other_categories(rt: HostRuntime) -> Result<(), Fail> {
    let rows = [
        (b"a%b".as_slice(), 13, "97.11 $"),
        (b"a %b".as_slice(), 13, "97.11 32.10 $"),
        (b"a\x00b".as_slice(), -1, "97.11 98.11 $"),
        (b" \x7f b".as_slice(), -1, "!127 98.11 $"),
        (b"a \x7f b".as_slice(), -1, "97.11 32.10 !127 98.11 $"),
        (
            b"{}$&#_^~1a".as_slice(),
            -1,
            "123.1 125.2 36.3 38.4 35.6 95.8 94.7 126.13 49.12 97.11 $",
        ),
        (b"\x80\xff".as_slice(), -1, "128.12 255.12 $"),
    ];
    are_shown(&rt, rows.as_slice())
}

#[test]
fn fronts(rt: HostRuntime) -> Result<(), Fail> {
    let rows = [
        (b"a^^Mb".as_slice(), 13, "97.11 32.10 $"),
        (b"^^M".as_slice(), 13, "\\par $"),
        (b"^^41^^4a^^4A".as_slice(), -1, "65.11 74.11 116.11 65.11 $"),
        (
            b"^^5e^^5e41".as_slice(),
            -1,
            "30.12 53.12 101.11 52.12 49.12 $",
        ),
        (b"^^5e^41".as_slice(), -1, "65.11 $"),
        (b"^^5e^5e^41".as_slice(), -1, "65.11 $"),
        (b"a^^".as_slice(), -1, "97.11 94.7 94.7 $"),
        (b"^^".as_slice(), 13, "77.11 $"),
        (b"^^\x80".as_slice(), -1, "94.7 94.7 128.12 $"),
        (b"^^ff^^80".as_slice(), -1, "255.12 128.12 $"),
        (b"^^?^^@^^_".as_slice(), -1, "!127 31.12 $"),
        (b"^^1".as_slice(), -1, "113.11 $"),
        (b"^^a".as_slice(), -1, "33.12 $"),
        (b"^^1g".as_slice(), -1, "113.11 103.11 $"),
    ];
    are_shown(&rt, rows.as_slice())
}

#[test]
fn fronts_in_names(rt: HostRuntime) -> Result<(), Fail> {
    let rows = [
        (b"\\a^^Mb".as_slice(), 13, "\\a $"),
        (b"\\^^Mb".as_slice(), -1, "\\\x0d 98.11 $"),
        (b"\\a^^41b c".as_slice(), -1, "\\aAb 99.11 $"),
        (b"\\^^41b c".as_slice(), -1, "\\Ab 99.11 $"),
        (b"\\a^^20b".as_slice(), -1, "\\a 98.11 $"),
        (b"\\a^^31b".as_slice(), -1, "\\a 49.12 98.11 $"),
        (b"\\a^^5e^41b".as_slice(), -1, "\\aAb $"),
        (b"\\^^5e^^41".as_slice(), -1, "\\\x1e 52.12 49.12 $"),
        (b"\\a^^5c^^62".as_slice(), -1, "\\a \\b $"),
        (b"\\^^".as_slice(), -1, "\\^ 94.7 $"),
        (b"\\^^ b".as_slice(), -1, "\\` 98.11 $"),
        (b"\\^^20 b".as_slice(), -1, "\\  98.11 $"),
    ];
    are_shown(&rt, rows.as_slice())
}

/// The lines of a text, each in brackets.
fn bracketed(alloc: Global, text: &[u8]) -> Result<Vec<u8>, AllocError> {
    let mut out = Vec::new(alloc);
    let mut from = 0;
    for _ in 0..100 {
        let Some(span) = next_line(text, from) else {
            break;
        };
        out.push(b'[')?;
        out.extend_from_slice(&text[span.start..span.end])?;
        out.push(b']')?;
        from = span.next;
    }
    Ok(out)
}

#[test]
fn texts_are_split_into_lines(rt: HostRuntime) -> Result<(), Fail> {
    let rows = [
        (b"".as_slice(), b"".as_slice()),
        (b"\n", b"[]"),
        (b"\n\n", b"[][]"),
        (b"a", b"[a]"),
        (b"a\n", b"[a]"),
        (b"a\nb", b"[a][b]"),
        (b"a\r\nb\r\n", b"[a][b]"),
        (b"a\r\r\n", b"[a\r]"),
        (b"\r\n", b"[]"),
        (b"a\rb\n", b"[a\rb]"),
        (b"a\n\rb", b"[a][\rb]"),
        (b"a\r", b"[a\r]"),
        (b"a\n\r", b"[a][\r]"),
        (b" \xff \x00\n", b"[ \xff \x00]"),
    ];
    for (text, want) in rows {
        let got = bracketed(rt.alloc(), text)?;
        assert_eq!(rt; got.as_slice(), want, "in {text:?}");
    }
    assert_eq!(rt; next_line(b"a\n", 2), None);
    assert_eq!(rt; next_line(b"a\n", 3), None);
    Ok(())
}

#[test]
fn a_place_past_the_end_is_the_end(rt: HostRuntime) -> Result<(), Fail> {
    let line = line_of(b"a", -1);
    let past = LinePlace {
        at: 7,
        head: None,
        state: LineState::Middle,
    };
    let (lexed, _) = line.next(rt.alloc(), past, &plain())?;
    assert!(rt; matches!(lexed, Lexed::LineEnd));
    let headed = LinePlace {
        head: Some(98),
        ..past
    };
    let (lexed, _) = line.next(rt.alloc(), headed, &plain())?;
    assert!(rt; matches!(lexed, Lexed::Char { code: 98, cat: 11 }));
    Ok(())
}

/// How often these bytes fit into a million, so often after one another.
fn repeated(alloc: Global, bytes: &[u8]) -> Result<Vec<u8>, AllocError> {
    let mut out = Vec::new(alloc);
    for _ in 0..250000 {
        out.extend_from_slice(bytes)?;
    }
    Ok(out)
}

#[test]
fn a_long_line_takes_little_time(rt: HostRuntime) -> Result<(), Fail> {
    let bytes = repeated(rt.alloc(), b"^^41")?;
    let mut named = Vec::from_slice(rt.alloc(), b"\\")?;
    named.extend_from_slice(bytes.as_slice())?;
    let categories = plain();
    let line = line_of(named.as_slice(), -1);
    let (lexed, _) = line.next(rt.alloc(), LinePlace::start(), &categories)?;
    let Lexed::Name(name) = lexed else {
        return Err("no name".into());
    };
    assert_eq!(rt; name.len(), 250000);
    let line = line_of(bytes.as_slice(), -1);
    let mut place = LinePlace::start();
    for _ in 0..250000 {
        let (lexed, behind) = line.next(rt.alloc(), place, &categories)?;
        place = behind;
        assert!(rt; matches!(lexed, Lexed::Char { code: 65, cat: 11 }));
    }
    let (lexed, _) = line.next(rt.alloc(), place, &categories)?;
    assert!(rt; matches!(lexed, Lexed::LineEnd));
    Ok(())
}

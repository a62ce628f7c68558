//! What files and lists give, in its order.
ghost use Rattle.std.specs.Prelude.{◌≡◌, ◌≤◌, min, slice_index, OnOk};
ghost use Rattle.etx_input.specs.Marks.{Keeps};

use etx_input::{FileInput, Levels, Next, Origin};
use etx_lexer::{CatOf, Lexed};
use etx_lists::Bytes;
use etx_matter::{SharedTokens, Token, Tokens};
use std::alloc::{AllocError, Global};
use std::test::Fail;

/// A table of categories; what is above 15 counts as 15.
#[derive(Drop)]
struct Categories {
    table: [u8; 256],
}

impl CatOf for Categories {
    ghost category = { λ c code. min (slice_index c.table code) 15 };

    fn cat(&self, code: u8) -> u8 {
        self.table[code as usize].min(15)
    }
}

/// A backslash, a space, the end of a line, and otherwise letters.
fn letters() -> Categories {
    let mut table = [11; 256];
    table[92] = 0;
    table[32] = 10;
    table[13] = 5;
    Categories { table }
}

fn tokens_of(alloc: Global, letters: &[u8]) -> Result<Tokens, AllocError> {
    let mut tokens = Tokens::new(alloc);
    for letter in letters {
        tokens.push(Token::Char {
            code: *letter,
            cat: 11,
        })?;
    }
    Ok(tokens)
}

fn file_of(alloc: Global, text: &[u8]) -> Result<FileInput, AllocError> {
    FileInput::new(alloc, Bytes::from_slice(alloc, text)?)
}

fn mark_of(origin: Origin) -> char {
    match origin {
        Origin::Fresh => '+',
        Origin::Back => '-',
        Origin::Unexpanded => '!',
        Origin::Kept => '=',
    }
}

fn add(out: &mut String, next: Next) -> Result<(), AllocError> {
    match next {
        Next::Listed {
            token: Token::Char { code, cat: _ },
            origin,
        } => {
            out.push(char::from(code))?;
            out.push(mark_of(origin))
        }
        Next::Listed { token: _, origin } => out.push(mark_of(origin)),
        Next::Lexed(Lexed::Char { code, cat: _ }) => out.push(char::from(code)),
        Next::Lexed(_) => out.push('\\'),
        Next::FileEnd => out.push('$'),
        Next::Over => out.push('.'),
    }
}

/// So many times what the input gives: a list's character with a mark of its origin, a file's character, a backslash for
/// a name, a dollar sign for a file's end, and a full stop where nothing is left.
fn give(
    alloc: Global,
    levels: &mut Levels,
    endline: i32,
    times: usize,
) -> Result<String, AllocError>
    ensures { OnOk result (Keeps levels.old levels.new) }
{
    let categories = letters();
    let mut out = String::new(alloc);
    'turns: for _ in 0..times {
        add(&mut out, levels.next(alloc, endline, &categories)?)?;
    }
    Ok(out)
}

#[test]
fn the_innermost_is_read_first(rt: HostRuntime) -> Result<(), Fail> {
    let alloc = rt.alloc();
    let mut levels = Levels::new(alloc);
    levels.push_file(file_of(alloc, b"x\\y\n\nz")?)?;
    levels.push_tokens(alloc, tokens_of(alloc, b"ab")?, Origin::Fresh)?;
    let body = SharedTokens::new(alloc, tokens_of(alloc, b"cd")?)?;
    levels.push_shared(body.share()?, Origin::Unexpanded)?;
    levels.push_file(file_of(alloc, b"w")?)?;
    levels.push_shared(body, Origin::Back)?;
    let again = Token::Char { code: 101, cat: 11 };
    levels.push_token(again, Origin::Back)?;
    let got = give(alloc, &mut levels, 13, 18)?;
    assert!(rt; got.as_str() == "e-c-d-w $c!d!a+b+x\\\\z $..");
    Ok(())
}

#[test]
fn a_line_ends_as_it_is_told(rt: HostRuntime) -> Result<(), Fail> {
    let alloc = rt.alloc();
    for (endline, want) in [(-1, "xy$."), (32, "x y $."), (33, "x!y!$."), (256, "xy$.")] {
        let mut levels = Levels::new(alloc);
        levels.push_file(file_of(alloc, b"x\ny")?)?;
        let got = give(alloc, &mut levels, endline, want.len())?;
        assert!(rt; got.as_str() == want, "with {endline}");
    }
    Ok(())
}

/// Whether there are so many levels, and this line was read last.
fn stands(levels: &Levels, depth: usize, line: u32) -> bool {
    levels.depth() == depth && levels.line() == line
}

#[test]
fn the_line_is_the_innermost_file_s(rt: HostRuntime) -> Result<(), Fail> {
    let alloc = rt.alloc();
    let mut levels = Levels::new(alloc);
    assert!(rt; stands(&levels, 0, 0));
    levels.push_file(file_of(alloc, b"a\nb\nc")?)?;
    give(alloc, &mut levels, 13, 3)?;
    assert!(rt; stands(&levels, 1, 2));
    levels.push_file(file_of(alloc, b"d")?)?;
    assert!(rt; stands(&levels, 2, 0));
    levels.push_tokens(alloc, tokens_of(alloc, b"e")?, Origin::Fresh)?;
    give(alloc, &mut levels, 13, 2)?;
    assert!(rt; stands(&levels, 2, 1));
    give(alloc, &mut levels, 13, 2)?;
    assert!(rt; stands(&levels, 1, 2));
    give(alloc, &mut levels, 13, 4)?;
    assert!(rt; stands(&levels, 0, 3));
    Ok(())
}

#[test]
fn a_list_is_left_with_its_last_token(rt: HostRuntime) -> Result<(), Fail> {
    let alloc = rt.alloc();
    let mut levels = Levels::new(alloc);
    levels.push_tokens(alloc, Tokens::new(alloc), Origin::Fresh)?;
    assert!(rt; levels.depth() == 0);
    levels.push_tokens(alloc, tokens_of(alloc, b"ab")?, Origin::Fresh)?;
    give(alloc, &mut levels, 13, 1)?;
    assert!(rt; levels.depth() == 1);
    give(alloc, &mut levels, 13, 1)?;
    assert!(rt; levels.depth() == 0);
    Ok(())
}

/// A list behind its first token, over a file.
fn begun(alloc: Global) -> Result<Levels, AllocError> {
    let mut levels = Levels::new(alloc);
    levels.push_file(file_of(alloc, b"x\nz")?)?;
    levels.push_tokens(alloc, tokens_of(alloc, b"ab")?, Origin::Fresh)?;
    give(alloc, &mut levels, 13, 1)?;
    Ok(levels)
}

#[test]
#[tactic(auto, using(etx_input::proofs::Marks::kept_live))]
fn going_back_reads_again(rt: HostRuntime) -> Result<(), Fail> {
    let alloc = rt.alloc();
    let mut levels = begun(alloc)?;
    let mark = levels.mark();
    let got = give(alloc, &mut levels, 13, 7)?;
    assert!(rt; got.as_str() == "b+x z $.");
    levels.back_to(mark);
    assert!(rt; stands(&levels, 2, 0));
    let got = give(alloc, &mut levels, 13, 7)?;
    assert!(rt; got.as_str() == "b+x z $.");
    levels.forget();
    assert!(rt; stands(&levels, 0, 2));
    Ok(())
}

#[test]
#[tactic(auto, using(etx_input::proofs::Marks::kept_live))]
fn earlier_marks_stay(rt: HostRuntime) -> Result<(), Fail> {
    let alloc = rt.alloc();
    let mut levels = begun(alloc)?;
    let first = levels.mark();
    levels.push_token(Token::Char { code: 101, cat: 11 }, Origin::Back)?;
    let second = levels.mark();
    give(alloc, &mut levels, 13, 3)?;
    levels.back_to(second);
    let got = give(alloc, &mut levels, 13, 1)?;
    assert!(rt; got.as_str() == "e-");
    levels.back_to(first);
    assert!(rt; stands(&levels, 2, 0));
    Ok(())
}

#[test]
fn many_tokens_are_taken_at_once(rt: HostRuntime) -> Result<(), Fail> {
    let alloc = rt.alloc();
    let mut levels = Levels::new(alloc);
    levels.push_file(file_of(alloc, b"x")?)?;
    assert!(rt; levels.fresh().is_empty());
    levels.push_tokens(alloc, tokens_of(alloc, b"abcd")?, Origin::Fresh)?;
    assert!(rt; levels.fresh().len() == 4);
    levels.skip(3)?;
    let got = give(alloc, &mut levels, 13, 1)?;
    assert!(rt; got.as_str() == "d+" && stands(&levels, 1, 0));
    levels.push_token(Token::Char { code: 101, cat: 11 }, Origin::Fresh)?;
    assert!(rt; levels.fresh().len() == 1);
    levels.skip(1)?;
    assert!(rt; stands(&levels, 1, 0));
    Ok(())
}

#[test]
fn the_first_line_is_read_where_the_file_is_opened(rt: HostRuntime) -> Result<(), Fail> {
    let alloc = rt.alloc();
    for (text, want) in [(&b"x\ny"[..], "x!y "), (&b""[..], "!")] {
        let mut levels = Levels::new(alloc);
        levels.push_file(FileInput::open(alloc, Bytes::from_slice(alloc, text)?, 33)?)?;
        assert!(rt; stands(&levels, 1, 1));
        let got = give(alloc, &mut levels, 32, want.len())?;
        assert!(rt; got.as_str() == want);
    }
    Ok(())
}

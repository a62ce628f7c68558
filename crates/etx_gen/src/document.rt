ghost use Rattle.std.specs.Prelude.{◌≡◌, ◌++◌, IfOk, OnOk};
ghost use Rattle.etx_gen.specs.Document.{document, paragraph, paragraphs, after_paragraph, after_paragraphs, word, after_word, message};

use crate::draws::Draws;
use std::alloc::{AllocError, Global};

/// What stands before the paragraphs.
const OPENING: &[u8] = b"\\catcode`\\{=1 \\catcode`\\}=2 \\catcode`\\#=6 \\font\\f=sf \\f\n\
\\hsize=200pt \\vsize=300pt \\parindent=0pt \\parfillskip=0pt plus 1fil \\baselineskip=12pt \\maxdepth=2pt \\hbadness=10000 \\hfuzz=1000pt\n\
\\output={\\shipout\\vbox{\\box255 }\\global\\advance\\count0 by 1 }\n";

/// A document of `n` paragraphs, drawn from the seed `n`, in the font of [`small_font`](crate::small_font).
///
/// An `Err` comes only where memory is wanting.
#[tactic(auto, unfolding(crate::specs::Document::document, crate::specs::Document::opening, crate::specs::Document::ending))]
pub fn make_document(alloc: Global, n: u32) -> Result<Vec<u8>, AllocError>
    ensures { IfOk result (λ it. it.items ≡ document n) }
{
    let mut out = Vec::new(alloc);
    out.extend_from_slice(OPENING)?;
    push_paragraphs(alloc, n, &mut out)?;
    out.extend_from_slice(b"\\end\n")?;
    Ok(out)
}

fn push_paragraphs(alloc: Global, n: u32, out: &mut Vec<u8>) -> Result<(), AllocError>
    ensures { OnOk result (out.new.items ≡ out.old.items ++ paragraphs n n) }
{
    let mut draws = Draws { seed: n };
    for before in 0..n {
        push_paragraph(alloc, before + 1, &mut draws, out)?;
    }
    Ok(())
}

#[tactic(auto, unfolding(crate::specs::Document::paragraph, crate::specs::Document::after_paragraph))]
fn push_paragraph(
    alloc: Global,
    number: u32,
    draws: &mut Draws,
    out: &mut Vec<u8>,
) -> Result<(), AllocError>
    ensures text { OnOk result (out.new.items ≡ out.old.items ++ paragraph number draws.old.seed) }
    ensures after { OnOk result (draws.new.seed ≡ after_paragraph draws.old.seed) }
{
    let count = 20 + draws.draw() % 40;
    push_words(count, draws, out)?;
    out.extend_from_slice(b"\\par")?;
    push_message(alloc, number, out)?;
    out.push(b'\n')?;
    Ok(())
}

#[tactic(auto, unfolding(crate::specs::Document::message))]
fn push_message(alloc: Global, number: u32, out: &mut Vec<u8>) -> Result<(), AllocError>
    ensures { OnOk result (out.new.items ≡ out.old.items ++ message number) }
{
    if number % 5 != 0 {
        return Ok(());
    }
    let text = format!(in alloc; "\\message{{{number}}}")?;
    out.extend_from_slice(text.as_bytes())
}

ghost use Rattle.std.specs.List.{join_with_byte};
ghost use Rattle.etx_gen.specs.Document.{words, after_words};

/// Words with one space between them.
fn push_words(count: u32, draws: &mut Draws, out: &mut Vec<u8>) -> Result<(), AllocError>
    ensures text { OnOk result (out.new.items ≡ out.old.items ++ join_with_byte 32 (words count draws.old.seed)) }
    ensures after { OnOk result (draws.new.seed ≡ after_words count draws.old.seed) }
{
    for before in 0..count {
        if before > 0 {
            out.push(b' ')?;
        }
        push_word(draws, out)?;
    }
    Ok(())
}

#[tactic(auto, unfolding(crate::specs::Document::word, crate::specs::Document::after_word))]
fn push_word(draws: &mut Draws, out: &mut Vec<u8>) -> Result<(), AllocError>
    ensures text { OnOk result (out.new.items ≡ out.old.items ++ word draws.old.seed) }
    ensures after { OnOk result (draws.new.seed ≡ after_word draws.old.seed) }
{
    let length = 2 + draws.draw() % 7;
    for _letter in 0..length {
        out.push(b'a' + (draws.draw() % 26) as u8)?;
    }
    Ok(())
}

#[cfg(test)]
mod tests {
    use super::*;
    use sha2::{Digest, Sha256};
    use std::test::Fail;

    #[test]
    fn one_paragraph(rt: HostRuntime) -> Result<(), Fail> {
        let document = make_document(rt.alloc(), 1)?;
        assert_eq!(rt; document.len(), 621);
        let text: &[u8] = b"\\catcode`\\{=1 \\catcode`\\}=2 \\catcode`\\#=6 \\font\\f=sf \\f\n";
        assert!(rt; document.as_slice().starts_with(text));
        let digest = Sha256::digest(document.as_slice());
        assert_eq!(rt;
            [digest[0], digest[1], digest[2], digest[3]],
            [0x76, 0x12, 0x2a, 0x9a]
        );
        Ok(())
    }

    #[test]
    fn forty_paragraphs(rt: HostRuntime) -> Result<(), Fail> {
        let document = make_document(rt.alloc(), 40)?;
        assert_eq!(rt; document.len(), 10_105);
        Ok(())
    }
}

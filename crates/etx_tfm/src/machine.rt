//! What is written where the cursor passes an item.
ghost use Rattle.std.specs.Prelude.{◌≡◌, ◌++◌, ◌∷◌, [], List, OnOk, OnErr, IfOk};
ghost use Rattle.etx_matter.specs.declared.node.Node.{Node};
ghost use Rattle.etx_tfm.specs.Machine.{size_by, size_of, number_at, char_of, lig_of, nodes_of, edges_behind, kern_of, kept};

use crate::piece::{Edges, Piece};
use etx_lists::Listed;
use etx_matter::{
    Boxed, CharInfo, CharSize, Dimensions, Font, FontInfo, KernKind, LigParts, Node, Nodes,
};
use std::alloc::{AllocError, Global};

#[inline(always)]
fn number_at(numbers: &Listed<i32>, place: usize) -> i32
    ensures { result ≡ number_at numbers.now place }
{
    numbers.at(place).copied().unwrap_or(0)
}

#[inline(always)]
fn size_by(dimensions: &Dimensions, info: CharInfo) -> CharSize
    ensures { result ≡ size_by dimensions.now info }
{
    CharSize {
        width: number_at(&dimensions.widths, usize::from(info.width)),
        height: number_at(&dimensions.heights, usize::from(info.height)),
        depth: number_at(&dimensions.depths, usize::from(info.depth)),
        italic: number_at(&dimensions.italics, usize::from(info.italic)),
    }
}

#[inline(always)]
fn size_of(font: &FontInfo, code: u8) -> CharSize
    ensures { result ≡ size_of font.now code }
{
    match font.character(code) {
        Some(info) => size_by(&font.dimensions, info),
        None => CharSize {
            width: 0,
            height: 0,
            depth: 0,
            italic: 0,
        },
    }
}

/// The edges of which no node has told when an item is written.
#[inline(always)]
fn edges_behind(edges: Edges, ends: bool, piece: &Piece) -> Edges
    ensures { result ≡ edges_behind edges ends piece.now }
{
    match piece {
        Piece::LeftEdge | Piece::RightEdge | Piece::Beside(_) | Piece::Letter(_) => edges,
        Piece::Made { .. } => Edges {
            left: false,
            right: edges.right && !ends,
        },
    }
}

/// Writes a letter.
#[inline(always)]
pub fn write_letter(font: &Font, code: u8, out: &mut Nodes) -> Result<(), AllocError>
    ensures ok { OnOk result (out.new ≡ out.old ++ char_of font.now code ∷ []) }
    ensures err { OnErr result (out.new ≡ out.old) }
{
    out.push(letter_node(font, code))
}

/// The node of a letter.
#[inline(always)]
fn letter_node(font: &Font, code: u8) -> Node
    ensures { result ≡ char_of font.now code }
{
    Node::Char {
        font: font.number(),
        code,
        size: size_of(font.info(), code),
    }
}

/// Writes a ligature, of which an edge was part or not.
fn write_made(
    alloc: Global,
    font: &Font,
    code: u8,
    parts: LigParts,
    out: &mut Nodes,
) -> Result<(), AllocError>
    ensures ok { OnOk result (out.new ≡ out.old ++ lig_of font.now code parts ∷ []) }
    ensures err { OnErr result (out.new ≡ out.old) }
{
    let parts = Boxed::new(alloc, parts)?;
    out.push(Node::Lig {
        font: font.number(),
        code,
        size: size_of(font.info(), code),
        parts,
    })
}

/// Writes an item, which is the last one of the word if it `ends` it.
#[inline(always)]
fn write_node(
    alloc: Global,
    font: &Font,
    edges: Edges,
    ends: bool,
    piece: Piece,
    out: &mut Nodes,
) -> Result<(), AllocError>
    ensures ok { OnOk result (out.new ≡ out.old ++ nodes_of font.now edges ends piece) }
    ensures err { OnErr result (out.new ≡ out.old) }
{
    match piece {
        Piece::LeftEdge | Piece::RightEdge | Piece::Beside(_) => Ok(()),
        Piece::Letter(code) => write_letter(font, code, out),
        Piece::Made { code, letters } => write_made(
            alloc,
            font,
            code,
            LigParts {
                letters,
                left: edges.left,
                right: edges.right && ends,
            },
            out,
        ),
    }
}

/// Writes the item that the cursor passes.
#[inline(always)]
pub fn write(
    alloc: Global,
    font: &Font,
    ends: bool,
    piece: Piece,
    out: &mut Nodes,
    edges: &mut Edges,
) -> Result<(), AllocError>
    ensures nodes { OnOk result (out.new ≡ out.old ++ nodes_of font.now edges.old ends piece) }
    ensures err { OnErr result (out.new ≡ out.old) }
    ensures edges { edges.new ≡ edges_behind edges.old ends piece }
{
    let told = *edges;
    *edges = edges_behind(told, ends, &piece);
    write_node(alloc, font, told, ends, piece, out)
}

pub fn write_kern(font: &Font, place: u16, out: &mut Nodes) -> Result<(), AllocError>
    ensures ok { OnOk result (out.new ≡ out.old ++ kern_of font.now place ∷ []) }
    ensures err { OnErr result (out.new ≡ out.old) }
{
    out.push(Node::Kern {
        width: number_at(&font.info().kerns, usize::from(place)),
        kind: KernKind::Normal,
    })
}

/// How many of two items stay.
pub fn kept(keeps_current: bool, keeps_next: bool) -> u8
    ensures { result ≡ kept keeps_current keeps_next }
{
    if keeps_current && keeps_next {
        2
    } else if keeps_current || keeps_next {
        1
    } else {
        0
    }
}

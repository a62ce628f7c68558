//! Ligatures and kerns of a run of characters, as a list, added to one, and with the places at which the run can be cut.
ghost use Rattle.std.specs.Prelude.{◌≡◌, ◌+◌, ◌-◌, min, ◌++◌, ◌∷◌, [], length, if◌then◌else◌, true, Some, IsSome, OnOk, OnErr, IfOk};
ghost use Rattle.etx_matter.specs.Ligatures.{action_between};
ghost use Rattle.etx_matter.specs.Soundness.{IsSound};
ghost use Rattle.etx_matter.specs.declared.font.LigItem.TheVariants.{Glyph};
ghost use Rattle.etx_tfm.specs.declared.piece.Piece.TheVariants.{Letter};
ghost use Rattle.etx_tfm.specs.Machine.{no_edges, nodes_of, kept, made_of, place, passed, item_if, item_of, next_item, by_next, Begins, Rewrites, between, edged};
ghost use Rattle.etx_tfm.specs.Cleans.{touched_behind, is_clean, letters_in, place_if, Reads};

use crate::machine::{kept, write, write_kern, write_letter};
use crate::piece::{Edges, Neighbour, Piece, boundary_if, made_of, merged};
use crate::program::action_between;
use crate::reading::{CleanPlace, Reading};
use crate::rest::Rest;
use etx_lists::Listed;
use etx_matter::{Font, LigItem, Nodes, PairAction};
use std::alloc::{AllocError, Global};

/// Moves the cursor over so many items, or over all that there are.
#[tactic(auto, unfolding(crate::specs::Machine::passed))]
fn pass(
    alloc: Global,
    font: &Font,
    count: u8,
    out: &mut Nodes,
    edges: &mut Edges,
    rest: &mut Rest,
) -> Result<(), AllocError>
    ensures ok { OnOk result (place out.new edges.new rest.new.items ≡ passed font.now count out.old edges.old rest.old.items) }
    ensures touched { OnOk result (rest.new.touched ≡ rest.old.touched - count) }
    ensures begins { Begins out.old out.new }
{
    for _ in 0..count {
        match rest.pop() {
            Some(piece) => {
                let ends = rest.is_end();
                write(alloc, font, ends, piece, out, edges)?;
            }
            None => return Ok(()),
        }
    }
    Ok(())
}

/// Puts an item at the cursor, if it stays.
#[inline(always)]
fn put_if(stays: bool, piece: Piece, rest: &mut Rest) -> Result<(), AllocError>
    ensures items { OnOk result (rest.new.items ≡ item_if stays piece ++ rest.old.items) }
    ensures touched { OnOk result (rest.new.touched ≡ rest.old.touched + (if stays then 1 else 0)) }
{
    if stays {
        rest.push(piece)?;
    }
    Ok(())
}

/// What a ligature does with two items.
#[derive(Clone, Copy)]
struct Making {
    code: u8,
    keeps_current: bool,
    keeps_next: bool,
    passes: u8,
}

/// Makes a ligature between an item and the next one.
fn make(
    alloc: Global,
    font: &Font,
    making: Making,
    current: Piece,
    out: &mut Nodes,
    edges: &mut Edges,
    rest: &mut Rest,
) -> Result<(), AllocError>
    requires { IsSome (next_item rest.old.items) }
    ensures ok { OnOk result (place out.new edges.new rest.new.items ≡ by_next font.now out.old edges.old current rest.old.items (Some (PairAction.Ligature making.code making.keeps_current making.keeps_next making.passes))) }
    ensures touched { OnOk result (rest.new.touched ≡ touched_behind rest.old.touched (Some (PairAction.Ligature making.code making.keeps_current making.keeps_next making.passes))) }
    ensures begins { Begins out.old out.new }
{
    let Some(next) = rest.pop() else {
        return Ok(());
    };
    *edges = edges.with_those_of(&current, &next);
    let stay = kept(making.keeps_current, making.keeps_next);
    if stay > 0 {
        make_between(alloc, font, making, current, next, out, edges, rest)
    } else {
        rest.push(merged(alloc, current, &next, making.code)?)
    }
}

/// Makes a ligature between two items, of which one stays or both do.
fn make_between(
    alloc: Global,
    font: &Font,
    making: Making,
    current: Piece,
    next: Piece,
    out: &mut Nodes,
    edges: &mut Edges,
    rest: &mut Rest,
) -> Result<(), AllocError>
    ensures ok { OnOk result (place out.new edges.new rest.new.items ≡ passed font.now (min making.passes (kept making.keeps_current making.keeps_next)) out.old edges.old (item_if making.keeps_current current ++ made_of current next making.code making.keeps_current making.keeps_next ∷ (item_if making.keeps_next next ++ rest.old.items))) }
    ensures touched { OnOk result (rest.new.touched ≡ rest.old.touched + kept making.keeps_current making.keeps_next + 1 - min making.passes (kept making.keeps_current making.keeps_next)) }
    ensures begins { Begins out.old out.new }
{
    let Making {
        code,
        keeps_current,
        keeps_next,
        passes,
    } = making;
    let made = made_of(alloc, &current, &next, code, keeps_current, keeps_next)?;
    put_if(keeps_next, next, rest)?;
    rest.push(made)?;
    put_if(keeps_current, current, rest)?;
    let count = passes.min(kept(keeps_current, keeps_next));
    pass(alloc, font, count, out, edges, rest)
}

/// Does what is to be done between the item at the cursor and the next one.
fn step(
    alloc: Global,
    font: &Font,
    action: Option<PairAction>,
    current: Piece,
    out: &mut Nodes,
    edges: &mut Edges,
    rest: &mut Rest,
) -> Result<(), AllocError>
    requires { IsSome (next_item rest.old.items) }
    ensures ok { OnOk result (place out.new edges.new rest.new.items ≡ by_next font.now out.old edges.old current rest.old.items action) }
    ensures touched { OnOk result (rest.new.touched ≡ touched_behind rest.old.touched action) }
    ensures begins { Begins out.old out.new }
{
    match action {
        None => {
            let ends = rest.is_end();
            write(alloc, font, ends, current, out, edges)
        }
        Some(PairAction::Kern(kern)) => {
            let ends = rest.is_end();
            write(alloc, font, ends, current, out, edges)?;
            write_kern(font, kern, out)
        }
        Some(
            PairAction::Ligature {
                code,
                keeps_current,
                keeps_next,
                passes,
            },
        ) => make(
            alloc,
            font,
            Making {
                code,
                keeps_current,
                keeps_next,
                passes,
            },
            current,
            out,
            edges,
            rest,
        ),
    }
}

/// Does what is to be done between the letter at the cursor and the next item.
#[inline(always)]
fn step_letter(
    alloc: Global,
    font: &Font,
    action: Option<PairAction>,
    code: u8,
    out: &mut Nodes,
    edges: &mut Edges,
    rest: &mut Rest,
) -> Result<(), AllocError>
    requires { IsSome (next_item rest.old.items) }
    ensures ok { OnOk result (place out.new edges.new rest.new.items ≡ by_next font.now out.old edges.old (Letter code) rest.old.items action) }
    ensures begins { Begins out.old out.new }
{
    match action {
        None => write_letter(font, code, out),
        Some(PairAction::Kern(kern)) => {
            write_letter(font, code, out)?;
            write_kern(font, kern, out)
        }
        Some(PairAction::Ligature { .. }) => step(
            alloc,
            font,
            action,
            Piece::Letter(code),
            out,
            edges,
            rest,
        ),
    }
}

/// What is to be done between two letters.
#[inline(always)]
fn action_of(font: &Font, current: u8, next: u8) -> Option<PairAction>
    ensures action { result ≡ action_between font.now.info (Glyph current) (Glyph next) }
    ensures sound { IsSound font.now.info }
{
    action_between(font.info(), LigItem::Glyph(current), LigItem::Glyph(next))
}

/// What is to be done between an item and the next one.
#[inline(always)]
fn action_at(font: &Font, current: &Piece, next: LigItem) -> Option<PairAction>
    ensures action { result ≡ action_between font.now.info (item_of current.now) next }
    ensures sound { IsSound font.now.info }
{
    action_between(font.info(), current.item(), next)
}

/// No edge took part in a ligature yet.
fn no_edges() -> Edges
    ensures { result ≡ no_edges }
{
    Edges {
        left: false,
        right: false,
    }
}

/// Adds the nodes that a run of characters becomes to a list: characters, ligatures and kerns, by the programs of the font.
/// With `left` the run begins at the beginning of a word, with `right` it ends at the end of one.
///
/// A ligature has `left` or `right` where that edge of the word took part in it, whether the edge stayed or not ("TeX: The
/// Program", sections 143 and 1035 to 1040).
///
/// A character that doesn't exist in the font stays as it is, with no program and no size. `Err` comes only where memory
/// is wanting; the list then begins with what it was, and behind that stands what was written up to then.
///
/// It takes memory for the ligatures and for the list; where ligatures are made, once more for the items at the cursor.
pub fn push_ligkern(
    alloc: Global,
    font: &Font,
    chars: &[u8],
    left: bool,
    right: bool,
    out: &mut Nodes,
) -> Result<(), AllocError>
    ensures ok { OnOk result (Rewrites font.now out.old no_edges (edged chars.now left right) out.new) }
    ensures begins { Begins out.old out.new }
{
    let mut rest = Rest::new(alloc, chars, boundary_if(left), boundary_if(right));
    let mut edges = no_edges();
    'steps: loop {
        if let Some((code, behind)) = rest.pop_letter() {
            let paired = action_of(font, code, behind);
            step_letter(alloc, font, paired, code, out, &mut edges, &mut rest)?;
            continue;
        }
        match rest.pop() {
            None => return Ok(()),
            Some(current) => match rest.next_item() {
                None => {
                    write(alloc, font, true, current, out, &mut edges)?;
                    return Ok(());
                }
                Some(next) => {
                    let action = action_at(font, &current, next);
                    step(alloc, font, action, current, out, &mut edges, &mut rest)?;
                }
            },
        }
    }
}

/// The nodes that a run of characters becomes, as [`push_ligkern`] adds them to a list.
pub fn ligkern(
    alloc: Global,
    font: &Font,
    chars: &[u8],
    left: bool,
    right: bool,
) -> Result<Nodes, AllocError>
    ensures { IfOk result (λ nodes. Rewrites font.now [] no_edges (edged chars.now left right) nodes) }
{
    let mut out = Nodes::with_room(alloc, chars.len())?;
    push_ligkern(alloc, font, chars, left, right, &mut out)?;
    Ok(out)
}

fn is_clean(rest: &Rest, current: &Piece, action: Option<PairAction>) -> bool
    ensures { result ≡ is_clean rest.now.touched current.now action }
{
    match action {
        None => rest.is_untouched() && current.holds_end(),
        Some(_) => false,
    }
}

/// Notes the place before the items, if it is clean.
fn note_place(
    clean: bool,
    total: usize,
    rest: &Rest,
    nodes: usize,
    places: &mut Listed<CleanPlace>,
) -> Result<(), AllocError>
    requires { clean ≡ true → rest.now.touched ≡ 0 }
    ensures { OnOk result (places.new ≡ places.old ++ place_if clean (record { letters = total - letters_in rest.now.items; nodes = nodes })) }
{
    if clean {
        places.push(CleanPlace {
            letters: total.saturating_sub(rest.letter_count()),
            nodes,
        })?;
    }
    Ok(())
}

/// The nodes that a run of characters between its neighbours becomes, as [`ligkern`] gives them, and the places at which the
/// run can be cut. A character beside the run is seen by programs, but no node tells of it.
///
/// A place is clean where the cursor passes from the item that ends with the letter before it, or from the left neighbour,
/// to the letter behind it, or the right neighbour, while no ligature has touched that one, and nothing is to be done
/// between the two. The places rise. `Err` comes only where memory is wanting.
pub fn read_run(
    alloc: Global,
    font: &Font,
    chars: &[u8],
    left: Neighbour,
    right: Neighbour,
) -> Result<Reading, AllocError>
    ensures nodes { IfOk result (λ reading. Rewrites font.now [] no_edges (between chars.now left right) reading.nodes) }
    ensures places { IfOk result (λ reading. Reads font.now (length chars.now) 0 [] no_edges (between chars.now left right) [] reading.nodes reading.places) }
{
    let mut rest = Rest::new(alloc, chars, left, right);
    let mut edges = no_edges();
    let mut nodes = Nodes::with_room(alloc, chars.len())?;
    let mut places = Listed::new(alloc);
    'steps: loop {
        match rest.pop() {
            None => return Ok(Reading { nodes, places }),
            Some(current) => match rest.next_item() {
                None => {
                    write(alloc, font, true, current, &mut nodes, &mut edges)?;
                    return Ok(Reading { nodes, places });
                }
                Some(next) => {
                    let action = action_at(font, &current, next);
                    let clean = is_clean(&rest, &current, action);
                    step(
                        alloc, font, action, current, &mut nodes, &mut edges, &mut rest,
                    )?;
                    note_place(clean, chars.len(), &rest, nodes.len(), &mut places)?;
                }
            },
        }
    }
}

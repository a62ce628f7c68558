//! Lines while they are set.
ghost use Rattle.std.specs.Prelude.{◌≡◌, ◌<◌, ◌++◌, ◌∷◌, ◌==◌, ◌^◌, [], IfOk, OnOk, option_to_list};
ghost use Rattle.etx_matter.specs.Nests.{IsNested, AreNested, IsNestedBox};
ghost use Rattle.etx_sealed.specs.Breaks.{item_at as item_of_number};
ghost use Rattle.etx_setlines.specs.Items.{line_items};
ghost use Rattle.etx_setlines.specs.Moves.{moving};
ghost use Rattle.etx_setlines.specs.Additions.{no_lines, with_set, with_line, lines_so};
ghost use Rattle.etx_setlines.specs.Penalties.{interline, penalty_nodes};
ghost use Rattle.etx_setlines.specs.Settings.{ends_in_disc, packed_line, shifted_box};

use crate::between::{push, push_interline, push_penalty};
use crate::items::line_items;
use etx_lists::Listed;
use etx_matter::{BoxNode, Boxed, Goal, Node, Nodes, Report};
use etx_pack::{Packed, hpack};
use etx_sealed::{LineShape, LineSkips, Lines, Sealed, is_hyphen, item_at};
use std::alloc::{AllocError, Global};

/// The lines that are set so far.
#[derive(Drop)]
pub struct Setting {
    pub list: Nodes,
    pub count: usize,
    /// The badness of the last line.
    pub badness: i32,
    /// The depth of the last line, in sp. `None` before the first one.
    pub depth: Option<i32>,
    pub reports: Listed<Report>,
}

/// A line that is packed and moved right by so much, in sp, with what moves out of it.
#[derive(Drop)]
struct PackedLine {
    packed: Packed,
    indent: i32,
    moved: Nodes,
}

/// Whether a line that is broken at a place ends in a discretionary.
fn ends_in_disc(nodes: &[Node], place: usize) -> bool
    ensures { result ≡ ends_in_disc (item_of_number nodes.now place) }
{
    match item_at(nodes, place) {
        None => false,
        Some(node) => is_hyphen(node),
    }
}

/// The line from one place to another in its shape.
#[tactic(auto, unfolding(crate::specs::Settings::packed_line))]
fn pack_line(
    alloc: Global,
    sealed: &Sealed,
    from: usize,
    to: usize,
    shape: LineShape,
) -> Result<PackedLine, AllocError>
    requires { from < 2 ^ 32 }
    ensures packed { IfOk result (λ it. it.packed ≡ packed_line sealed.now from to shape.width) }
    ensures indent { IfOk result (λ it. it.indent ≡ shape.indent) }
    ensures moved { IfOk result (λ it. it.moved ≡ moving (line_items sealed.now from to)) }
    ensures nested { IfOk result (λ it. IsNestedBox it.packed.node × AreNested it.moved) }
{
    let sorted = line_items(alloc, sealed, from, to)?;
    let packed = hpack(
        sorted.line,
        Goal::Exactly(shape.width),
        sealed.params().limits,
    )?;
    Ok(PackedLine {
        packed,
        indent: shape.indent,
        moved: sorted.moved,
    })
}

/// A box that is moved right.
#[tactic(auto, unfolding(etx_matter::specs::Nests::IsNested, etx_matter::specs::Nests::node_depth, etx_matter::specs::Nests::IsNestedBox, etx_matter::specs::Nests::box_depth))]
fn shifted_box(alloc: Global, indent: i32, node: BoxNode) -> Result<Node, AllocError>
    requires { IsNestedBox node }
    ensures value { IfOk result (λ it. it ≡ shifted_box indent node) }
    ensures nested { IfOk result (λ it. IsNested it) }
{
    let shifted = BoxNode {
        shift: indent,
        ..node
    };
    Ok(Node::Box(Boxed::new(alloc, shifted)?))
}

/// Puts a box that is moved right, under a line of this depth, if there is one.
fn push_box(
    alloc: Global,
    list: &mut Nodes,
    skips: LineSkips,
    depth: Option<i32>,
    indent: i32,
    node: BoxNode,
) -> Result<(), AllocError>
    requires { IsNestedBox node }
    ensures value { OnOk result (list.new ≡ list.old ++ interline skips depth node.height ++ (shifted_box indent node ∷ [])) }
    ensures nested { OnOk result (AreNested list.old → AreNested list.new) }
{
    let height = node.height;
    let shifted = shifted_box(alloc, indent, node)?;
    push_interline(list, skips, depth, height)?;
    push(list, shifted)
}

/// Puts what moves out of a line.
fn push_moved(list: &mut Nodes, moved: Nodes) -> Result<(), AllocError>
    requires { AreNested moved }
    ensures value { OnOk result (list.new ≡ list.old ++ moved) }
    ensures nested { OnOk result (AreNested list.old → AreNested list.new) }
{
    list.append(moved)?;
    Ok(())
}

impl Setting {
    pub fn new(alloc: Global) -> Setting
        ensures { result ≡ no_lines }
    {
        Setting {
            list: Nodes::new(alloc),
            count: 0,
            badness: 0,
            depth: None,
            reports: Listed::new(alloc),
        }
    }

    fn report(&mut self, report: Option<Report>) -> Result<(), AllocError>
        ensures { OnOk result (self.new ≡ record self.old { reports = self.old.reports ++ option_to_list report }) }
    {
        match report {
            None => Ok(()),
            Some(report) => self.reports.push(report),
        }
    }

    /// Adds a packed line of this number that ends at a place, and which so many follow.
    #[tactic(auto, unfolding(crate::specs::Additions::with_set))]
    fn add_packed(
        &mut self,
        alloc: Global,
        sealed: &Sealed,
        number: usize,
        to: usize,
        follow: usize,
        line: PackedLine,
    ) -> Result<(), AllocError>
        requires count { self.old.count < 2 ^ 62 }
        requires node { IsNestedBox line.packed.node }
        requires moved { AreNested line.moved }
        ensures value { OnOk result (self.new ≡ with_set sealed.now self.old (record {
          packed = line.packed;
          indent = line.indent;
          moved = line.moved;
          penalty = penalty_nodes sealed.now.params (number == 1) follow (ends_in_disc (item_of_number sealed.now.list to));
        })) }
        ensures nested { OnOk result (AreNested self.old.list → AreNested self.new.list) }
    {
        let params = sealed.params();
        let PackedLine {
            packed,
            indent,
            moved,
        } = line;
        let under = self.depth;
        let depth = packed.node.depth;
        let hyphenated = ends_in_disc(sealed.list().as_slice(), to);
        push_box(
            alloc,
            &mut self.list,
            params.skips,
            under,
            indent,
            packed.node,
        )?;
        push_moved(&mut self.list, moved)?;
        push_penalty(&mut self.list, params, number == 1, follow, hyphenated)?;
        self.depth = Some(depth);
        self.count += 1;
        self.badness = packed.badness;
        self.report(packed.report)
    }

    /// Adds the line from one place to another, which so many follow.
    pub fn add(
        &mut self,
        alloc: Global,
        sealed: &Sealed,
        from: usize,
        to: usize,
        follow: usize,
    ) -> Result<(), AllocError>
        requires from { from < 2 ^ 32 }
        requires count { self.old.count < 2 ^ 62 }
        ensures value { OnOk result (self.new ≡ with_line sealed.now self.old from to follow) }
        ensures nested { OnOk result (AreNested self.old.list → AreNested self.new.list) }
    {
        let number = self.count + 1;
        let line = pack_line(alloc, sealed, from, to, sealed.line_shape(number))?;
        self.add_packed(alloc, sealed, number, to, follow, line)
    }

    /// All lines.
    pub fn finish(self) -> Lines
        ensures { result ≡ lines_so self }
    {
        Lines {
            list: self.list,
            count: self.count.min(2_147_483_647) as i32,
            badness: self.badness,
            depth: self.depth.unwrap_or(0),
            reports: self.reports,
        }
    }
}

//! The places at which a line may end.
ghost use Rattle.std.specs.Prelude.{◌≡◌, ◌≤◌, ◌++◌, length, slice_get, IfOk, OnOk};
ghost use Rattle.etx_sealed.specs.Breaks.{is_empty, is_explicit, disc_penalty, glue_in, is_legal, text_behind, holds_glue, replaces, may_end, scan_behind, scan_start, if_legal, breaks_from, legal_breaks, penalty_of, is_hyphen, penalty_at, is_hyphenated};

use crate::params::BreakParams;
use crate::sealed::Sealed;
use etx_matter::{Discretionary, KernKind, Node};
use std::alloc::{AllocError, Global};

/// The penalty from which on no line may end.
pub(crate) const NEVER: i32 = 10_000;

/// The penalty at the end of a paragraph, at which a line must end.
const FORCED: i32 = -10_000;

fn is_explicit(kind: KernKind) -> bool
    ensures { result ≡ is_explicit kind }
{
    match kind {
        KernKind::Explicit => true,
        KernKind::Normal | KernKind::Accent => false,
    }
}

/// How many items behind an item belong to it.
#[tactic(auto, unfolding(crate::specs::Breaks::replaces))]
pub(crate) fn replaces(node: &Node) -> usize
    ensures value { result ≡ replaces node.now }
    ensures small { result ≤ 65535 }
{
    match node {
        Node::Disc(it) => usize::from(it.get().replaces),
        _ => 0,
    }
}

/// Whether what follows an item stands in no formula.
#[tactic(auto, unfolding(crate::specs::Breaks::text_behind))]
fn text_behind(text: bool, node: &Node) -> bool
    ensures { result ≡ text_behind text node.now }
{
    match node {
        Node::Math { on, .. } => !*on,
        _ => text,
    }
}

/// Whether a break is allowed at glue behind an item.
#[tactic(auto, unfolding(crate::specs::Breaks::holds_glue))]
fn holds_glue(node: &Node) -> bool
    ensures { result ≡ holds_glue node.now }
{
    match node {
        Node::Kern { kind, .. } => !is_explicit(*kind),
        _ => !node.is_discardable(),
    }
}

/// Whether the item at a place, counted from 0, is glue.
fn is_glue_at(nodes: &[Node], place: usize) -> bool
    ensures { result ≡ glue_in (slice_get nodes.now place) }
{
    match nodes.get(place) {
        Some(node) => node.glue().is_some(),
        None => false,
    }
}

impl BreakParams {
    /// The penalty of a break at a discretionary.
    fn disc_penalty(&self, it: &Discretionary) -> i32
        ensures { result ≡ disc_penalty self.now it.now }
    {
        if it.pre.nodes.is_empty() {
            self.ex_hyphen_penalty
        } else {
            self.hyphen_penalty
        }
    }

    /// Whether a line may end at an item: `text` says that it stands in no formula, `holds` that a break is allowed at glue
    /// behind the item before, and `glue` that glue follows.
    #[tactic(auto, unfolding(crate::specs::Breaks::is_legal))]
    fn is_legal(&self, text: bool, holds: bool, glue: bool, node: &Node) -> bool
        ensures { result ≡ is_legal self.now text holds glue node.now }
    {
        match node {
            Node::Glue(_) | Node::Leaders { .. } => text && holds,
            Node::Kern { kind, .. } => text && is_explicit(*kind) && glue,
            Node::Math { on, .. } => !*on && glue,
            Node::Penalty(penalty) => *penalty < NEVER,
            Node::Disc(it) => self.disc_penalty(it.get()) < NEVER,
            _ => false,
        }
    }

    #[tactic(auto, unfolding(crate::specs::Breaks::penalty_of))]
    fn penalty_of(&self, node: &Node) -> i32
        ensures { result ≡ penalty_of self.now node.now }
    {
        match node {
            Node::Penalty(penalty) => *penalty,
            Node::Disc(it) => self.disc_penalty(it.get()),
            _ => 0,
        }
    }
}

/// Whether an item is a discretionary.
#[tactic(auto, unfolding(crate::specs::Breaks::is_hyphen))]
pub fn is_hyphen(node: &Node) -> bool
    ensures { result ≡ is_hyphen node.now }
{
    match node {
        Node::Disc(_) => true,
        _ => false,
    }
}

/// What the breaks from an item on depend on.
#[derive(Clone, Copy)]
pub(crate) struct Scan {
    /// Whether the item stands in no formula.
    pub text: bool,
    /// Whether a break is allowed at glue there.
    pub holds: bool,
    /// How many items from it on belong to a discretionary before them.
    pub passed: usize,
}

impl Scan {
    /// Whether a line may end at this item.
    #[tactic(auto, unfolding(crate::specs::Breaks::may_end))]
    fn may_end(self, params: &BreakParams, glue: bool, node: &Node) -> bool
        ensures { result ≡ may_end params.now self glue node.now }
    {
        if self.passed > 0 {
            false
        } else {
            params.is_legal(self.text, self.holds, glue, node)
        }
    }

    /// Behind this item.
    #[tactic(auto, unfolding(crate::specs::Breaks::scan_behind))]
    fn behind(self, node: &Node) -> Scan
        ensures { result ≡ scan_behind self node.now }
    {
        if self.passed > 0 {
            Scan {
                passed: self.passed - 1,
                ..self
            }
        } else {
            Scan {
                text: text_behind(self.text, node),
                holds: holds_glue(node),
                passed: replaces(node),
            }
        }
    }
}

fn push_if(found: &mut Vec<u32>, legal: bool, number: u32) -> Result<(), AllocError>
    ensures { OnOk result (found.new.items ≡ found.old.items ++ if_legal legal number) }
{
    if legal {
        found.push(number)?;
    }
    Ok(())
}

/// The legal breaks among the items, without the end.
fn breaks_among(alloc: Global, params: &BreakParams, nodes: &[Node]) -> Result<Vec<u32>, AllocError>
    requires { length nodes.now ≤ 1073741824 }
    ensures { IfOk result (λ it. it.items ≡ breaks_from params.now 1 scan_start nodes.now) }
{
    let mut found = Vec::new(alloc);
    let mut scan = Scan {
        text: true,
        holds: false,
        passed: 0,
    };
    for (index, node) in nodes.iter().enumerate() {
        let legal = scan.may_end(params, is_glue_at(nodes, index + 1), node);
        push_if(&mut found, legal, (index + 1) as u32)?;
        scan = scan.behind(node);
    }
    Ok(found)
}

impl Sealed {
    /// The legal breaks, ascending, by the numbers of their items from 1 on. The last one is the end of the paragraph,
    /// which is one more than the list's length. The only error is want of memory.
    #[tactic(auto, unfolding(crate::specs::Breaks::legal_breaks))]
    pub fn legal_breaks(&self, alloc: Global) -> Result<Vec<u32>, AllocError>
        ensures { IfOk result (λ it. it.items ≡ legal_breaks self.now) }
    {
        let nodes = self.list().as_slice();
        let mut found = breaks_among(alloc, &self.params().breaks, nodes)?;
        found.push((nodes.len() + 1) as u32)?;
        Ok(found)
    }

    /// The penalty of the break at a place: without an item it is the end of the paragraph.
    #[tactic(auto, unfolding(crate::specs::Breaks::penalty_at))]
    pub(crate) fn penalty_at(&self, place: usize) -> i32
        ensures { result ≡ penalty_at self.now place }
    {
        if place == 0 {
            return 0;
        }
        match self.list().as_slice().get(place - 1) {
            Some(node) => self.params().breaks.penalty_of(node),
            None => FORCED,
        }
    }

    /// Whether a line that ends at a place counts as hyphenated: at a discretionary, and at the end of the paragraph.
    #[tactic(auto, unfolding(crate::specs::Breaks::is_hyphenated))]
    pub(crate) fn is_hyphenated(&self, place: usize) -> bool
        ensures { result ≡ is_hyphenated self.now place }
    {
        if place == 0 {
            return false;
        }
        match self.list().as_slice().get(place - 1) {
            Some(node) => is_hyphen(node),
            None => true,
        }
    }
}

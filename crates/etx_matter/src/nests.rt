//! How deep lists stand in nodes.
//!
//! Each list in a node carries its nesting. That it is the right one, at every level, is what `IsNested` says of a node;
//! it is kept where lists are taken into nodes by [`InnerList::new`] alone.
#![tactic(auto, unfolding(crate::specs::Nests::list_nesting, crate::specs::Nests::node_nesting, crate::specs::Nests::box_nesting, crate::specs::Nests::list_depth, crate::specs::Nests::node_depth, crate::specs::Nests::box_depth, crate::specs::Nests::leader_depth, crate::specs::Nests::noad_depth, crate::specs::Nests::field_depth, crate::specs::Nests::inner_depth, crate::specs::Nests::IsNested, crate::specs::Nests::AreNested, crate::specs::Nests::IsNestedBox, crate::specs::Nests::IsNestedInner))]

ghost use Rattle.std.specs.Prelude.{◌≡◌, ◌≤◌, ◌+◌, min};
ghost use Rattle.etx_matter.specs.Nests.{list_nesting, node_nesting as nesting_of_node, box_nesting as nesting_of_box, leader_depth, noad_depth, field_depth, inner_depth, IsNested, AreNested, IsNestedBox, IsNestedInner};

use crate::node::{BoxNode, Field, InnerList, Leader, Noad, Node, Nodes};

/// The greatest nesting that is told apart: 2^30. A list that is nested deeper has no place in any memory.
pub const DEEPEST: u32 = 1_073_741_824;

/// How deep lists stand in the items of this one: 0 where no item holds a list, and else one more than the nesting of
/// the deepest of the lists that an item holds. From [`DEEPEST`] on the answer is [`DEEPEST`].
///
/// It looks at the items alone, and not at what stands in them.
pub fn nesting(list: &Nodes) -> u32
    requires { AreNested list.now }
    ensures { result ≡ min (list_nesting list.now) 1073741824 }
{
    let mut most = 0;
    for node in list.as_slice() {
        most = most.max(node.nesting());
    }
    most
}

impl InnerList {
    /// Takes a list into a node. Looks at the items alone, and takes no memory.
    pub fn new(nodes: Nodes) -> InnerList
        requires { AreNested nodes }
        ensures value { result ≡ record { nesting = min (list_nesting nodes) 1073741824; nodes = nodes } }
        ensures nested { IsNestedInner result }
    {
        let nesting = nesting(&nodes);
        InnerList { nesting, nodes }
    }

    /// One more than its nesting. From [`DEEPEST`] on the answer is [`DEEPEST`].
    pub fn around(&self) -> u32
        requires { IsNestedInner self.now }
        ensures { result ≡ min (inner_depth self.now).levels 1073741824 }
    {
        if self.nesting < DEEPEST {
            self.nesting + 1
        } else {
            DEEPEST
        }
    }
}

impl BoxNode {
    /// One more than the nesting of its list. From [`DEEPEST`] on the answer is [`DEEPEST`].
    pub fn nesting(&self) -> u32
        requires { IsNestedBox self.now }
        ensures { result ≡ min (nesting_of_box self.now) 1073741824 }
    {
        self.list.around()
    }
}

impl Leader {
    fn nesting(&self) -> u32
        requires { (leader_depth self.now).wrong ≡ 0 }
        ensures { result ≡ min (leader_depth self.now).levels 1073741824 }
    {
        match self {
            Leader::Ruled(_) => 0,
            Leader::Boxes { item, .. } => item.nesting(),
        }
    }
}

impl Field {
    fn nesting(&self) -> u32
        requires { (field_depth self.now).wrong ≡ 0 }
        ensures { result ≡ min (field_depth self.now).levels 1073741824 }
    {
        match self {
            Field::Empty | Field::Symbol(_) => 0,
            Field::SubBox(it) => it.get().nesting(),
            Field::SubFormula(list) => list.around(),
        }
    }
}

impl Noad {
    fn nesting(&self) -> u32
        requires { (noad_depth self.now).wrong ≡ 0 }
        ensures { result ≡ min (noad_depth self.now).levels 1073741824 }
    {
        match self {
            Noad::Atom {
                nucleus,
                superscript,
                subscript,
                ..
            } => nucleus
                .nesting()
                .max(superscript.nesting())
                .max(subscript.nesting()),
            Noad::Fraction {
                numerator,
                denominator,
                ..
            } => numerator.around().max(denominator.around()),
            Noad::Choice {
                display,
                text,
                script,
                script_script,
            } => display
                .around()
                .max(text.around())
                .max(script.around())
                .max(script_script.around()),
            _ => 0,
        }
    }
}

impl Node {
    /// The nesting of the deepest list that it holds, and one more; 0 where it holds none. From [`DEEPEST`] on the
    /// answer is [`DEEPEST`].
    pub fn nesting(&self) -> u32
        requires { IsNested self.now }
        ensures { result ≡ min (nesting_of_node self.now) 1073741824 }
    {
        match self {
            Node::Box(it) => it.get().nesting(),
            Node::Unset(it) => it.get().list.around(),
            Node::Ins(it) => it.get().list.around(),
            Node::Adjust(list) => list.get().around(),
            Node::Disc(it) => it.get().pre.around().max(it.get().post.around()),
            Node::Leaders { leader, .. } => leader.get().nesting(),
            Node::Noad(noad) => noad.get().nesting(),
            _ => 0,
        }
    }
}

//! What one node is, without what stands in it.
ghost use Rattle.std.specs.Prelude.{◌≡◌};
ghost use Rattle.etx_matter.specs.Sizes.{width_of, height_of, depth_of, glue_of, is_discardable as goes_after_a_break, type_number as number_of_type};

use crate::glue::Glue;
use crate::node::{Noad, Node};

impl Node {
    /// The width in a horizontal list, in sp: glue has its natural width, and a rule whose width runs has none ("TeX: The
    /// Program", sections 651 to 654).
    #[tactic(auto, unfolding(crate::specs::Sizes::width_of))]
    pub fn width(&self) -> i32
        ensures { result ≡ width_of self.now }
    {
        match self {
            Node::Char { size, .. } | Node::Lig { size, .. } => size.width,
            Node::Kern { width, .. } | Node::Math { width, .. } => *width,
            Node::Glue(glue) | Node::Leaders { glue, .. } => glue.width,
            Node::Rule(size) => size.width.unwrap_or(0),
            Node::Box(it) => it.get().width,
            Node::Unset(it) => it.get().width,
            _ => 0,
        }
    }

    /// How far it reaches above its baseline, in sp; a rule whose height runs counts 0 ("TeX: The Program", sections 651 to 654).
    /// The shift of a box isn't counted.
    #[tactic(auto, unfolding(crate::specs::Sizes::height_of))]
    pub fn height(&self) -> i32
        ensures { result ≡ height_of self.now }
    {
        match self {
            Node::Char { size, .. } | Node::Lig { size, .. } => size.height,
            Node::Rule(size) => size.height.unwrap_or(0),
            Node::Box(it) => it.get().height,
            Node::Unset(it) => it.get().height,
            _ => 0,
        }
    }

    /// How far it reaches below its baseline, in sp; a rule whose depth runs counts 0 ("TeX: The Program", sections 651 to 654).
    /// The shift of a box isn't counted.
    #[tactic(auto, unfolding(crate::specs::Sizes::depth_of))]
    pub fn depth(&self) -> i32
        ensures { result ≡ depth_of self.now }
    {
        match self {
            Node::Char { size, .. } | Node::Lig { size, .. } => size.depth,
            Node::Rule(size) => size.depth.unwrap_or(0),
            Node::Box(it) => it.get().depth,
            Node::Unset(it) => it.get().depth,
            _ => 0,
        }
    }

    /// Its glue, where it is glue, with leaders or without.
    #[tactic(auto, unfolding(crate::specs::Sizes::glue_of))]
    pub fn glue(&self) -> Option<Glue>
        ensures { result ≡ glue_of self.now }
    {
        match self {
            Node::Glue(glue) | Node::Leaders { glue, .. } => Some(*glue),
            _ => None,
        }
    }

    /// Whether it goes where it comes first after a break: glue, a kern, a penalty or the edge of a formula ("TeX: The
    /// Program", section 148).
    #[tactic(auto, unfolding(crate::specs::Sizes::is_discardable))]
    pub fn is_discardable(&self) -> bool
        ensures { result ≡ goes_after_a_break self.now }
    {
        matches!(
            self,
            Node::Glue(_)
                | Node::Leaders { .. }
                | Node::Kern { .. }
                | Node::Penalty(_)
                | Node::Math { .. }
        )
    }

    /// The value of `\lastnodetype` where this is the last node of a list (the e-TeX manual): from 0, a
    /// character, to 15, a part of a formula.
    #[tactic(auto, unfolding(crate::specs::Sizes::type_number))]
    pub fn type_number(&self) -> u8
        ensures { result ≡ number_of_type self.now }
    {
        match self {
            Node::Char { .. } => 0,
            Node::Box(it) if it.get().vertical => 2,
            Node::Box(_) => 1,
            Node::Rule(_) => 3,
            Node::Ins(_) => 4,
            Node::Mark(_) => 5,
            Node::Adjust(_) => 6,
            Node::Lig { .. } => 7,
            Node::Disc(_) => 8,
            Node::What(_) => 9,
            Node::Math { .. } => 10,
            Node::Glue(_) | Node::Leaders { .. } => 11,
            Node::Kern { .. } => 12,
            Node::Penalty(_) => 13,
            Node::Unset(_) => 14,
            Node::Noad(noad) => match noad.get() {
                Noad::MuGlue(_) | Noad::NonScript => 11,
                Noad::MuKern(_) => 12,
                _ => 15,
            },
        }
    }
}

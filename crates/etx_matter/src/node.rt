//! Nodes, of which lists, boxes and formulas are made ("TeX: The Program", sections 133 to 161 and 680 to 689).
use crate::boxed::Boxed;
use crate::glue::{Glue, GlueOrder, GlueSet};
use crate::math::{AtomKind, Delim, MathChar, Side, Style};
use crate::shared::SharedTokens;
use crate::sizes::{CharSize, RuleSize};
use crate::whats::What;
use etx_lists::{Bytes, Listed};

/// A list of nodes. One that stands in a node is an [`InnerList`].
pub type Nodes = Listed<Node>;

/// What a kern is for, which decides on breaks at it and on words that go through it.
#[derive(Clone, Copy, Debug, PartialEq, Eq)]
pub enum KernKind {
    /// Of a font's kerning, or of the setting of a formula.
    Normal,
    /// Of `\kern`, or of a command that puts one there on purpose.
    Explicit,
    /// Beside an accent.
    Accent,
}

/// How the boxes of leaders stand.
#[derive(Clone, Copy, Debug, PartialEq, Eq)]
pub enum LeaderKind {
    /// On one grid of the box around them: `\leaders`.
    Aligned,
    /// Side by side, the space that is left over before and behind them: `\cleaders`.
    Centered,
    /// The space that is left over between them as well: `\xleaders`.
    Expanded,
}

/// What a ligature holds besides its character: the letters that it stands for, and whether the boundary of the word
/// was part of it on the left and on the right.
#[derive(Drop)]
pub struct LigParts {
    pub letters: Bytes,
    pub left: bool,
    pub right: bool,
}

/// A mark of a class from 0 to 32767.
#[derive(Drop)]
pub struct Mark {
    pub class: u16,
    pub tokens: SharedTokens,
}

/// An item of a list. All sizes are in sp.
///
/// It takes 32 bytes: what is rare or large stands behind a [`Boxed`].
#[cycle(nodes)]
#[derive(Drop)]
pub enum Node {
    /// A character of a font, by the font's number, with the sizes that the font gives it.
    Char {
        font: u8,
        code: u8,
        size: CharSize,
    },
    /// A ligature: the character that is set, and what it stands for.
    Lig {
        font: u8,
        code: u8,
        size: CharSize,
        parts: Boxed<LigParts>,
    },
    /// A space of a fixed width, or of a fixed height in a vertical list.
    Kern {
        width: i32,
        kind: KernKind,
    },
    /// A space that can stretch and shrink, and is left blank.
    Glue(Glue),
    /// A space that can stretch and shrink, and what fills it. It is glue wherever glue is asked for.
    Leaders {
        glue: Glue,
        leader: Boxed<Leader>,
    },
    /// How bad a break is here: there is none from 10000 on, and at -10000 or below it is forced.
    Penalty(i32),
    /// A black rectangle.
    Rule(RuleSize),
    /// A box whose glue is set.
    Box(Boxed<BoxNode>),
    /// Material that floats to another place of the page.
    Ins(Boxed<Insertion>),
    /// A text that is told of the page on which it comes to stand.
    Mark(Boxed<Mark>),
    /// Vertical material that goes behind the line in which it stands.
    Adjust(Boxed<InnerList>),
    /// A place for a hyphen.
    Disc(Boxed<Discretionary>),
    /// Something that is done when the page is shipped, or that a paragraph's hyphenation goes by.
    What(Boxed<What>),
    /// The start, or the end, of a formula in a paragraph, with the space `\mathsurround` there.
    Math {
        on: bool,
        width: i32,
    },
    /// A row or a cell of an alignment whose columns have no width yet.
    Unset(Boxed<UnsetBox>),
    /// A part of a formula.
    Noad(Boxed<Noad>),
}

/// A list that stands in a node, with its nesting, which is told apart below [`crate::DEEPEST`]. So no list has to be
/// walked to the ground again when a node is put around it: [`InnerList::new`] looks at the items alone.
#[cycle(nodes)]
#[derive(Drop)]
pub struct InnerList {
    /// How deep lists stand in its nodes, as [`crate::nesting`] tells it.
    pub nesting: u32,
    pub nodes: Nodes,
}

/// A box, with its sizes in sp. In a horizontal one the items stand side by side on its baseline, in a vertical one below
/// each other.
#[cycle(nodes)]
#[derive(Drop)]
pub struct BoxNode {
    pub vertical: bool,
    pub width: i32,
    pub height: i32,
    pub depth: i32,
    /// How far the box is moved down in a horizontal list, or right in a vertical one.
    pub shift: i32,
    pub set: GlueSet,
    pub list: InnerList,
}

/// A box of an alignment before its glue is set, with its natural sizes in sp.
#[cycle(nodes)]
#[derive(Drop)]
pub struct UnsetBox {
    pub width: i32,
    pub height: i32,
    pub depth: i32,
    /// How many columns it spans beside its first.
    pub span: u32,
    /// The stretch of its list in its highest order.
    pub stretch: i32,
    pub stretch_order: GlueOrder,
    /// The shrink of its list in its highest order.
    pub shrink: i32,
    pub shrink_order: GlueOrder,
    pub list: InnerList,
}

/// An insertion of a class from 0 to 254 ("TeX: The Program", section 140). The sizes are in sp.
#[cycle(nodes)]
#[derive(Drop)]
pub struct Insertion {
    pub class: u8,
    /// The natural height plus depth of its list.
    pub height: i32,
    /// `\splitmaxdepth` as it was when the insertion was made.
    pub depth: i32,
    /// `\floatingpenalty` as it was then.
    pub cost: i32,
    /// `\splittopskip` as it was then.
    pub top: Glue,
    pub list: InnerList,
}

/// A place for a hyphen. Where a line is broken there, `pre` ends it, `post` begins the next one, and the next
/// `replaces` items are left out ("TeX: The Program", section 145).
#[cycle(nodes)]
#[derive(Drop)]
pub struct Discretionary {
    pub pre: InnerList,
    pub post: InnerList,
    pub replaces: u16,
}

/// What fills the space of a glue ("TeX: The Program", section 149).
#[cycle(nodes)]
#[derive(Drop)]
pub enum Leader {
    /// A rule as long as the space.
    Ruled(RuleSize),
    /// As many copies of a box as the space holds.
    Boxes { kind: LeaderKind, item: BoxNode },
}

/// An item of a math list that becomes other nodes when the formula is set.
#[cycle(nodes)]
#[derive(Drop)]
pub enum Noad {
    /// A nucleus and its scripts.
    Atom {
        kind: AtomKind,
        nucleus: Field,
        superscript: Field,
        subscript: Field,
    },
    /// A numerator over a denominator, between two delimiters. The rule between them has a thickness in sp; `None` is
    /// that of the fonts.
    Fraction {
        thickness: Option<i32>,
        numerator: InnerList,
        denominator: InnerList,
        left: Delim,
        right: Delim,
    },
    /// A delimiter that grows with the formula: `\left`, `\middle` or `\right`.
    Fence {
        side: Side,
        delim: Delim,
    },
    /// From here on the style is this one.
    InStyle(Style),
    /// `\mathchoice`: the list for the style that it is set in.
    Choice {
        display: InnerList,
        text: InnerList,
        script: InnerList,
        script_script: InnerList,
    },
    /// `\mskip`, with sizes in mu.
    MuGlue(Glue),
    /// `\mkern`, in 65536ths of a mu.
    MuKern(i32),
    /// `\nonscript`: in script styles the glue or kern behind it goes.
    NonScript,
}

/// A part of an atom.
#[cycle(nodes)]
#[derive(Drop)]
pub enum Field {
    /// There is none.
    Empty,
    /// A character.
    Symbol(MathChar),
    /// A box that is set already.
    SubBox(Boxed<BoxNode>),
    /// A formula.
    SubFormula(InnerList),
}

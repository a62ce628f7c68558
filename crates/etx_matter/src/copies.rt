//! Copies of nodes and lists. A copy is equal to what it was made of; the only answer beside it is want of memory.
ghost use Rattle.std.specs.Prelude.{◌≡◌, IfOk};

use crate::boxed::Boxed;
use crate::node::{
    BoxNode, Discretionary, Field, InnerList, Insertion, Leader, LigParts, Mark, Noad, Node, Nodes,
    UnsetBox,
};
use crate::whats::What;
use std::alloc::{AllocError, Global};

/// An equal list. Its room is taken once.
#[cycle(copies)]
pub fn copy_nodes(alloc: Global, list: &Nodes) -> Result<Nodes, AllocError>
    ensures { IfOk result (λ copy. copy ≡ list.now) }
{
    let mut copy = Nodes::with_room(alloc, list.len())?;
    for node in list.as_slice() {
        copy.push(node.copy(alloc)?)?;
    }
    Ok(copy)
}

impl What {
    /// An equal one. The tokens of a `\write` are shared.
    pub fn copy(&self) -> Result<What, AllocError>
        ensures { IfOk result (λ copy. copy ≡ self.now) }
    {
        match self {
            What::OpenFile { stream, name } => Ok(What::OpenFile {
                stream: *stream,
                name: name.copy()?,
            }),
            What::Write { stream, tokens } => Ok(What::Write {
                stream: *stream,
                tokens: tokens.share()?,
            }),
            What::CloseFile { stream } => Ok(What::CloseFile { stream: *stream }),
            What::Special(text) => Ok(What::Special(text.copy()?)),
            What::Language {
                language,
                left,
                right,
            } => Ok(What::Language {
                language: *language,
                left: *left,
                right: *right,
            }),
        }
    }
}

impl LigParts {
    /// Equal ones.
    pub fn copy(&self) -> Result<LigParts, AllocError>
        ensures { IfOk result (λ copy. copy ≡ self.now) }
    {
        Ok(LigParts {
            letters: self.letters.copy()?,
            left: self.left,
            right: self.right,
        })
    }
}

impl Mark {
    /// An equal one, which shares the tokens.
    pub fn copy(&self) -> Result<Mark, AllocError>
        ensures { IfOk result (λ copy. copy ≡ self.now) }
    {
        Ok(Mark {
            class: self.class,
            tokens: self.tokens.share()?,
        })
    }
}

impl InnerList {
    /// An equal one.
    #[cycle(copies)]
    pub fn copy(&self, alloc: Global) -> Result<InnerList, AllocError>
        ensures { IfOk result (λ copy. copy ≡ self.now) }
    {
        Ok(InnerList {
            nesting: self.nesting,
            nodes: copy_nodes(alloc, &self.nodes)?,
        })
    }
}

impl BoxNode {
    /// An equal box.
    #[cycle(copies)]
    pub fn copy(&self, alloc: Global) -> Result<BoxNode, AllocError>
        ensures { IfOk result (λ copy. copy ≡ self.now) }
    {
        Ok(BoxNode {
            vertical: self.vertical,
            width: self.width,
            height: self.height,
            depth: self.depth,
            shift: self.shift,
            set: self.set,
            list: self.list.copy(alloc)?,
        })
    }
}

impl UnsetBox {
    /// An equal one.
    #[cycle(copies)]
    pub fn copy(&self, alloc: Global) -> Result<UnsetBox, AllocError>
        ensures { IfOk result (λ copy. copy ≡ self.now) }
    {
        Ok(UnsetBox {
            width: self.width,
            height: self.height,
            depth: self.depth,
            span: self.span,
            stretch: self.stretch,
            stretch_order: self.stretch_order,
            shrink: self.shrink,
            shrink_order: self.shrink_order,
            list: self.list.copy(alloc)?,
        })
    }
}

impl Insertion {
    /// An equal one.
    #[cycle(copies)]
    pub fn copy(&self, alloc: Global) -> Result<Insertion, AllocError>
        ensures { IfOk result (λ copy. copy ≡ self.now) }
    {
        Ok(Insertion {
            class: self.class,
            height: self.height,
            depth: self.depth,
            cost: self.cost,
            top: self.top,
            list: self.list.copy(alloc)?,
        })
    }
}

impl Discretionary {
    /// An equal one.
    #[cycle(copies)]
    pub fn copy(&self, alloc: Global) -> Result<Discretionary, AllocError>
        ensures { IfOk result (λ copy. copy ≡ self.now) }
    {
        Ok(Discretionary {
            pre: self.pre.copy(alloc)?,
            post: self.post.copy(alloc)?,
            replaces: self.replaces,
        })
    }
}

impl Leader {
    /// An equal one.
    #[cycle(copies)]
    pub fn copy(&self, alloc: Global) -> Result<Leader, AllocError>
        ensures { IfOk result (λ copy. copy ≡ self.now) }
    {
        match self {
            Leader::Ruled(size) => Ok(Leader::Ruled(*size)),
            Leader::Boxes { kind, item } => Ok(Leader::Boxes {
                kind: *kind,
                item: item.copy(alloc)?,
            }),
        }
    }
}

impl Field {
    /// An equal one.
    #[cycle(copies)]
    pub fn copy(&self, alloc: Global) -> Result<Field, AllocError>
        ensures { IfOk result (λ copy. copy ≡ self.now) }
    {
        match self {
            Field::Empty => Ok(Field::Empty),
            Field::Symbol(character) => Ok(Field::Symbol(*character)),
            Field::SubBox(it) => Ok(Field::SubBox(Boxed::new(alloc, it.get().copy(alloc)?)?)),
            Field::SubFormula(list) => Ok(Field::SubFormula(list.copy(alloc)?)),
        }
    }
}

impl Noad {
    /// An equal one.
    #[cycle(copies)]
    pub fn copy(&self, alloc: Global) -> Result<Noad, AllocError>
        ensures { IfOk result (λ copy. copy ≡ self.now) }
    {
        match self {
            Noad::Atom {
                kind,
                nucleus,
                superscript,
                subscript,
            } => Ok(Noad::Atom {
                kind: *kind,
                nucleus: nucleus.copy(alloc)?,
                superscript: superscript.copy(alloc)?,
                subscript: subscript.copy(alloc)?,
            }),
            Noad::Fraction {
                thickness,
                numerator,
                denominator,
                left,
                right,
            } => Ok(Noad::Fraction {
                thickness: *thickness,
                numerator: numerator.copy(alloc)?,
                denominator: denominator.copy(alloc)?,
                left: *left,
                right: *right,
            }),
            Noad::Fence { side, delim } => Ok(Noad::Fence {
                side: *side,
                delim: *delim,
            }),
            Noad::InStyle(style) => Ok(Noad::InStyle(*style)),
            Noad::Choice {
                display,
                text,
                script,
                script_script,
            } => Ok(Noad::Choice {
                display: display.copy(alloc)?,
                text: text.copy(alloc)?,
                script: script.copy(alloc)?,
                script_script: script_script.copy(alloc)?,
            }),
            Noad::MuGlue(glue) => Ok(Noad::MuGlue(*glue)),
            Noad::MuKern(width) => Ok(Noad::MuKern(*width)),
            Noad::NonScript => Ok(Noad::NonScript),
        }
    }
}

impl Node {
    /// An equal node.
    #[cycle(copies)]
    pub fn copy(&self, alloc: Global) -> Result<Node, AllocError>
        ensures { IfOk result (λ copy. copy ≡ self.now) }
    {
        match self {
            Node::Char { font, code, size } => Ok(Node::Char {
                font: *font,
                code: *code,
                size: *size,
            }),
            Node::Lig {
                font,
                code,
                size,
                parts,
            } => Ok(Node::Lig {
                font: *font,
                code: *code,
                size: *size,
                parts: Boxed::new(alloc, parts.get().copy()?)?,
            }),
            Node::Kern { width, kind } => Ok(Node::Kern {
                width: *width,
                kind: *kind,
            }),
            Node::Glue(glue) => Ok(Node::Glue(*glue)),
            Node::Leaders { glue, leader } => Ok(Node::Leaders {
                glue: *glue,
                leader: Boxed::new(alloc, leader.get().copy(alloc)?)?,
            }),
            Node::Penalty(penalty) => Ok(Node::Penalty(*penalty)),
            Node::Rule(size) => Ok(Node::Rule(*size)),
            Node::Box(it) => Ok(Node::Box(Boxed::new(alloc, it.get().copy(alloc)?)?)),
            Node::Ins(it) => Ok(Node::Ins(Boxed::new(alloc, it.get().copy(alloc)?)?)),
            Node::Mark(it) => Ok(Node::Mark(Boxed::new(alloc, it.get().copy()?)?)),
            Node::Adjust(list) => Ok(Node::Adjust(Boxed::new(alloc, list.get().copy(alloc)?)?)),
            Node::Disc(it) => Ok(Node::Disc(Boxed::new(alloc, it.get().copy(alloc)?)?)),
            Node::What(what) => Ok(Node::What(Boxed::new(alloc, what.get().copy()?)?)),
            Node::Math { on, width } => Ok(Node::Math {
                on: *on,
                width: *width,
            }),
            Node::Unset(it) => Ok(Node::Unset(Boxed::new(alloc, it.get().copy(alloc)?)?)),
            Node::Noad(noad) => Ok(Node::Noad(Boxed::new(alloc, noad.get().copy(alloc)?)?)),
        }
    }
}

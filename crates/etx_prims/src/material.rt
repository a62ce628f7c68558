ghost use Rattle.std.specs.Prelude.{◌≡◌};
ghost use Rattle.etx_prims.specs.Material.{make_box_name, horizontal_unbox_name, vertical_unbox_name, hmove_name, vmove_name, leaders_name, horizontal_skip_name, vertical_skip_name, remove_item_name, start_par_name, discretionary_name, mark_class_name, insert_name, end_cell_name};

/// Where a box comes from.
#[derive(Clone, Copy, Debug, PartialEq, Eq)]
pub enum MakeBoxKind {
    Box,
    Copy,
    LastBox,
    VSplit,
    HBox,
    VBox,
    VTop,
}

impl MakeBoxKind {
    /// The name of the command, without the escape character.
    #[tactic(auto, unfolding(crate::specs::Material::make_box_name))]
    pub fn name(self) -> &'static [u8]
        ensures { result.now ≡ make_box_name self }
    {
        match self {
            MakeBoxKind::Box => b"box",
            MakeBoxKind::Copy => b"copy",
            MakeBoxKind::LastBox => b"lastbox",
            MakeBoxKind::VSplit => b"vsplit",
            MakeBoxKind::HBox => b"hbox",
            MakeBoxKind::VBox => b"vbox",
            MakeBoxKind::VTop => b"vtop",
        }
    }
}

/// Whether a box that is taken apart stays in its register.
#[derive(Clone, Copy, Debug, PartialEq, Eq)]
pub enum UnboxKind {
    Box,
    Copy,
}

impl UnboxKind {
    /// The name of the command for a horizontal box.
    #[tactic(auto, unfolding(crate::specs::Material::horizontal_unbox_name))]
    pub fn horizontal_name(self) -> &'static [u8]
        ensures { result.now ≡ horizontal_unbox_name self }
    {
        match self {
            UnboxKind::Box => b"unhbox",
            UnboxKind::Copy => b"unhcopy",
        }
    }

    /// The name of the command for a vertical box.
    #[tactic(auto, unfolding(crate::specs::Material::vertical_unbox_name))]
    pub fn vertical_name(self) -> &'static [u8]
        ensures { result.now ≡ vertical_unbox_name self }
    {
        match self {
            UnboxKind::Box => b"unvbox",
            UnboxKind::Copy => b"unvcopy",
        }
    }
}

/// A shift to a side.
#[derive(Clone, Copy, Debug, PartialEq, Eq)]
pub enum HMoveKind {
    Left,
    Right,
}

impl HMoveKind {
    /// The name of the command, without the escape character.
    #[tactic(auto, unfolding(crate::specs::Material::hmove_name))]
    pub fn name(self) -> &'static [u8]
        ensures { result.now ≡ hmove_name self }
    {
        match self {
            HMoveKind::Left => b"moveleft",
            HMoveKind::Right => b"moveright",
        }
    }
}

/// A shift up or down.
#[derive(Clone, Copy, Debug, PartialEq, Eq)]
pub enum VMoveKind {
    Raise,
    Lower,
}

impl VMoveKind {
    /// The name of the command, without the escape character.
    #[tactic(auto, unfolding(crate::specs::Material::vmove_name))]
    pub fn name(self) -> &'static [u8]
        ensures { result.now ≡ vmove_name self }
    {
        match self {
            VMoveKind::Raise => b"raise",
            VMoveKind::Lower => b"lower",
        }
    }
}

/// How leaders are set.
#[derive(Clone, Copy, Debug, PartialEq, Eq)]
pub enum LeadersKind {
    Aligned,
    Centered,
    Expanded,
}

impl LeadersKind {
    /// The name of the command, without the escape character.
    #[tactic(auto, unfolding(crate::specs::Material::leaders_name))]
    pub fn name(self) -> &'static [u8]
        ensures { result.now ≡ leaders_name self }
    {
        match self {
            LeadersKind::Aligned => b"leaders",
            LeadersKind::Centered => b"cleaders",
            LeadersKind::Expanded => b"xleaders",
        }
    }
}

/// The glue of a skip: one that is read, or a fixed one.
#[derive(Clone, Copy, Debug, PartialEq, Eq)]
pub enum SkipKind {
    Skip,
    Fil,
    Fill,
    Ss,
    FilNeg,
}

impl SkipKind {
    /// The name of the command for a horizontal list.
    #[tactic(auto, unfolding(crate::specs::Material::horizontal_skip_name))]
    pub fn horizontal_name(self) -> &'static [u8]
        ensures { result.now ≡ horizontal_skip_name self }
    {
        match self {
            SkipKind::Skip => b"hskip",
            SkipKind::Fil => b"hfil",
            SkipKind::Fill => b"hfill",
            SkipKind::Ss => b"hss",
            SkipKind::FilNeg => b"hfilneg",
        }
    }

    /// The name of the command for a vertical list.
    #[tactic(auto, unfolding(crate::specs::Material::vertical_skip_name))]
    pub fn vertical_name(self) -> &'static [u8]
        ensures { result.now ≡ vertical_skip_name self }
    {
        match self {
            SkipKind::Skip => b"vskip",
            SkipKind::Fil => b"vfil",
            SkipKind::Fill => b"vfill",
            SkipKind::Ss => b"vss",
            SkipKind::FilNeg => b"vfilneg",
        }
    }
}

/// What is removed from the end of a list.
#[derive(Clone, Copy, Debug, PartialEq, Eq)]
pub enum RemoveItemKind {
    Skip,
    Kern,
    Penalty,
}

impl RemoveItemKind {
    /// The name of the command, without the escape character.
    #[tactic(auto, unfolding(crate::specs::Material::remove_item_name))]
    pub fn name(self) -> &'static [u8]
        ensures { result.now ≡ remove_item_name self }
    {
        match self {
            RemoveItemKind::Skip => b"unskip",
            RemoveItemKind::Kern => b"unkern",
            RemoveItemKind::Penalty => b"unpenalty",
        }
    }
}

/// Whether a paragraph begins with an indentation.
#[derive(Clone, Copy, Debug, PartialEq, Eq)]
pub enum StartParKind {
    Indent,
    NoIndent,
}

impl StartParKind {
    /// The name of the command, without the escape character.
    #[tactic(auto, unfolding(crate::specs::Material::start_par_name))]
    pub fn name(self) -> &'static [u8]
        ensures { result.now ≡ start_par_name self }
    {
        match self {
            StartParKind::Indent => b"indent",
            StartParKind::NoIndent => b"noindent",
        }
    }
}

/// A discretionary break with three texts, or with a hyphen.
#[derive(Clone, Copy, Debug, PartialEq, Eq)]
pub enum DiscretionaryKind {
    Texts,
    Hyphen,
}

impl DiscretionaryKind {
    /// The name of the command, without the escape character.
    #[tactic(auto, unfolding(crate::specs::Material::discretionary_name))]
    pub fn name(self) -> &'static [u8]
        ensures { result.now ≡ discretionary_name self }
    {
        match self {
            DiscretionaryKind::Texts => b"discretionary",
            DiscretionaryKind::Hyphen => b"-",
        }
    }
}

/// Whether a mark names its class, or has class 0.
#[derive(Clone, Copy, Debug, PartialEq, Eq)]
pub enum MarkClassKind {
    Zero,
    Named,
}

impl MarkClassKind {
    /// The name of the command, without the escape character.
    #[tactic(auto, unfolding(crate::specs::Material::mark_class_name))]
    pub fn name(self) -> &'static [u8]
        ensures { result.now ≡ mark_class_name self }
    {
        match self {
            MarkClassKind::Zero => b"mark",
            MarkClassKind::Named => b"marks",
        }
    }
}

/// Whether material goes to a class of insertions, or to the list around a paragraph.
#[derive(Clone, Copy, Debug, PartialEq, Eq)]
pub enum InsertKind {
    Insert,
    VAdjust,
}

impl InsertKind {
    /// The name of the command, without the escape character.
    #[tactic(auto, unfolding(crate::specs::Material::insert_name))]
    pub fn name(self) -> &'static [u8]
        ensures { result.now ≡ insert_name self }
    {
        match self {
            InsertKind::Insert => b"insert",
            InsertKind::VAdjust => b"vadjust",
        }
    }
}

/// What ends a cell of an alignment.
#[derive(Clone, Copy, Debug, PartialEq, Eq)]
pub enum EndCellKind {
    Span,
    Cr,
    CrCr,
}

impl EndCellKind {
    /// The name of the command, without the escape character.
    #[tactic(auto, unfolding(crate::specs::Material::end_cell_name))]
    pub fn name(self) -> &'static [u8]
        ensures { result.now ≡ end_cell_name self }
    {
        match self {
            EndCellKind::Span => b"span",
            EndCellKind::Cr => b"cr",
            EndCellKind::CrCr => b"crcr",
        }
    }
}

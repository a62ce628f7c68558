ghost use Rattle.std.specs.Prelude.{◌≡◌};
ghost use Rattle.etx_prims.specs.Math.{math_style_name, math_component_name, limit_switch_name, fraction_name, left_right_name, eq_no_name};

/// A style of math.
#[derive(Clone, Copy, Debug, PartialEq, Eq)]
pub enum MathStyleKind {
    Display,
    Text,
    Script,
    ScriptScript,
}

impl MathStyleKind {
    /// The name of the command, without the escape character.
    #[tactic(auto, unfolding(crate::specs::Math::math_style_name))]
    pub fn name(self) -> &'static [u8]
        ensures { result.now ≡ math_style_name self }
    {
        match self {
            MathStyleKind::Display => b"displaystyle",
            MathStyleKind::Text => b"textstyle",
            MathStyleKind::Script => b"scriptstyle",
            MathStyleKind::ScriptScript => b"scriptscriptstyle",
        }
    }
}

/// What a part of a formula becomes.
#[derive(Clone, Copy, Debug, PartialEq, Eq)]
pub enum MathComponentKind {
    Ord,
    Op,
    Bin,
    Rel,
    Open,
    Close,
    Punct,
    Inner,
    Underline,
    Overline,
}

impl MathComponentKind {
    /// The name of the command, without the escape character.
    #[tactic(auto, unfolding(crate::specs::Math::math_component_name))]
    pub fn name(self) -> &'static [u8]
        ensures { result.now ≡ math_component_name self }
    {
        match self {
            MathComponentKind::Ord => b"mathord",
            MathComponentKind::Op => b"mathop",
            MathComponentKind::Bin => b"mathbin",
            MathComponentKind::Rel => b"mathrel",
            MathComponentKind::Open => b"mathopen",
            MathComponentKind::Close => b"mathclose",
            MathComponentKind::Punct => b"mathpunct",
            MathComponentKind::Inner => b"mathinner",
            MathComponentKind::Underline => b"underline",
            MathComponentKind::Overline => b"overline",
        }
    }
}

/// Where the limits of an operator go.
#[derive(Clone, Copy, Debug, PartialEq, Eq)]
pub enum LimitSwitchKind {
    Limits,
    NoLimits,
    DisplayLimits,
}

impl LimitSwitchKind {
    /// The name of the command, without the escape character.
    #[tactic(auto, unfolding(crate::specs::Math::limit_switch_name))]
    pub fn name(self) -> &'static [u8]
        ensures { result.now ≡ limit_switch_name self }
    {
        match self {
            LimitSwitchKind::Limits => b"limits",
            LimitSwitchKind::NoLimits => b"nolimits",
            LimitSwitchKind::DisplayLimits => b"displaylimits",
        }
    }
}

/// A fraction, with or without delimiters.
#[derive(Clone, Copy, Debug, PartialEq, Eq)]
pub enum FractionKind {
    Above,
    Over,
    Atop,
    AboveWithDelims,
    OverWithDelims,
    AtopWithDelims,
}

impl FractionKind {
    /// The name of the command, without the escape character.
    #[tactic(auto, unfolding(crate::specs::Math::fraction_name))]
    pub fn name(self) -> &'static [u8]
        ensures { result.now ≡ fraction_name self }
    {
        match self {
            FractionKind::Above => b"above",
            FractionKind::Over => b"over",
            FractionKind::Atop => b"atop",
            FractionKind::AboveWithDelims => b"abovewithdelims",
            FractionKind::OverWithDelims => b"overwithdelims",
            FractionKind::AtopWithDelims => b"atopwithdelims",
        }
    }
}

/// A delimiter at an edge of a part of a formula, or within it.
#[derive(Clone, Copy, Debug, PartialEq, Eq)]
pub enum LeftRightKind {
    Left,
    Middle,
    Right,
}

impl LeftRightKind {
    /// The name of the command, without the escape character.
    #[tactic(auto, unfolding(crate::specs::Math::left_right_name))]
    pub fn name(self) -> &'static [u8]
        ensures { result.now ≡ left_right_name self }
    {
        match self {
            LeftRightKind::Left => b"left",
            LeftRightKind::Middle => b"middle",
            LeftRightKind::Right => b"right",
        }
    }
}

/// The side of the number of a display.
#[derive(Clone, Copy, Debug, PartialEq, Eq)]
pub enum EqNoKind {
    Right,
    Left,
}

impl EqNoKind {
    /// The name of the command, without the escape character.
    #[tactic(auto, unfolding(crate::specs::Math::eq_no_name))]
    pub fn name(self) -> &'static [u8]
        ensures { result.now ≡ eq_no_name self }
    {
        match self {
            EqNoKind::Right => b"eqno",
            EqNoKind::Left => b"leqno",
        }
    }
}

ghost use Rattle.std.specs.Prelude.{◌≡◌};
ghost use Rattle.etx_prims.specs.General.{group_edge_name, after_name, case_shift_name, message_name, show_name, in_stream_name, extension_name};

/// An edge of a group.
#[derive(Clone, Copy, Debug, PartialEq, Eq)]
pub enum GroupEdge {
    Begin,
    End,
}

impl GroupEdge {
    /// The name of the command, without the escape character.
    #[tactic(auto, unfolding(crate::specs::General::group_edge_name))]
    pub fn name(self) -> &'static [u8]
        ensures { result.now ≡ group_edge_name self }
    {
        match self {
            GroupEdge::Begin => b"begingroup",
            GroupEdge::End => b"endgroup",
        }
    }
}

/// When a kept token comes back.
#[derive(Clone, Copy, Debug, PartialEq, Eq)]
pub enum AfterKind {
    Group,
    Assignment,
}

impl AfterKind {
    /// The name of the command, without the escape character.
    #[tactic(auto, unfolding(crate::specs::General::after_name))]
    pub fn name(self) -> &'static [u8]
        ensures { result.now ≡ after_name self }
    {
        match self {
            AfterKind::Group => b"aftergroup",
            AfterKind::Assignment => b"afterassignment",
        }
    }
}

/// A change of case.
#[derive(Clone, Copy, Debug, PartialEq, Eq)]
pub enum CaseShiftKind {
    Upper,
    Lower,
}

impl CaseShiftKind {
    /// The name of the command, without the escape character.
    #[tactic(auto, unfolding(crate::specs::General::case_shift_name))]
    pub fn name(self) -> &'static [u8]
        ensures { result.now ≡ case_shift_name self }
    {
        match self {
            CaseShiftKind::Upper => b"uppercase",
            CaseShiftKind::Lower => b"lowercase",
        }
    }
}

/// What a message is.
#[derive(Clone, Copy, Debug, PartialEq, Eq)]
pub enum MessageKind {
    Message,
    Error,
}

impl MessageKind {
    /// The name of the command, without the escape character.
    #[tactic(auto, unfolding(crate::specs::General::message_name))]
    pub fn name(self) -> &'static [u8]
        ensures { result.now ≡ message_name self }
    {
        match self {
            MessageKind::Message => b"message",
            MessageKind::Error => b"errmessage",
        }
    }
}

/// What is shown.
#[derive(Clone, Copy, Debug, PartialEq, Eq)]
pub enum ShowKind {
    Token,
    The,
    Tokens,
}

impl ShowKind {
    /// The name of the command, without the escape character.
    #[tactic(auto, unfolding(crate::specs::General::show_name))]
    pub fn name(self) -> &'static [u8]
        ensures { result.now ≡ show_name self }
    {
        match self {
            ShowKind::Token => b"show",
            ShowKind::The => b"showthe",
            ShowKind::Tokens => b"showtokens",
        }
    }
}

/// What is done with a stream of input.
#[derive(Clone, Copy, Debug, PartialEq, Eq)]
pub enum InStreamKind {
    Open,
    Close,
}

impl InStreamKind {
    /// The name of the command, without the escape character.
    #[tactic(auto, unfolding(crate::specs::General::in_stream_name))]
    pub fn name(self) -> &'static [u8]
        ensures { result.now ≡ in_stream_name self }
    {
        match self {
            InStreamKind::Open => b"openin",
            InStreamKind::Close => b"closein",
        }
    }
}

/// A command of streams of output and of whatsits.
#[derive(Clone, Copy, Debug, PartialEq, Eq)]
pub enum ExtensionKind {
    OpenOut,
    Write,
    CloseOut,
    Special,
    Immediate,
    SetLanguage,
}

impl ExtensionKind {
    /// The name of the command, without the escape character.
    #[tactic(auto, unfolding(crate::specs::General::extension_name))]
    pub fn name(self) -> &'static [u8]
        ensures { result.now ≡ extension_name self }
    {
        match self {
            ExtensionKind::OpenOut => b"openout",
            ExtensionKind::Write => b"write",
            ExtensionKind::CloseOut => b"closeout",
            ExtensionKind::Special => b"special",
            ExtensionKind::Immediate => b"immediate",
            ExtensionKind::SetLanguage => b"setlanguage",
        }
    }
}

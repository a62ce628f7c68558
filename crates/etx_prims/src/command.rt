ghost use Rattle.std.specs.Prelude.{◌≡◌};
ghost use Rattle.etx_prims.specs.Names.{name_of};

use crate::assignments::{
    ArithmeticKind, CharDefKind, DefKind, HyphenDataKind, InteractionKind, LetKind, PrefixKind,
    ReadKind,
};
use crate::expansion::{
    ConvertKind, ExpandKind, FiOrElseKind, IfKind, InputKind, MarkKind, TheKind,
};
use crate::general::{
    AfterKind, CaseShiftKind, ExtensionKind, GroupEdge, InStreamKind, MessageKind, ShowKind,
};
use crate::material::{
    DiscretionaryKind, EndCellKind, HMoveKind, InsertKind, LeadersKind, MakeBoxKind, MarkClassKind,
    RemoveItemKind, SkipKind, StartParKind, UnboxKind, VMoveKind,
};
use crate::math::{
    EqNoKind, FractionKind, LeftRightKind, LimitSwitchKind, MathComponentKind, MathStyleKind,
};
use crate::parameters::{DimenParam, GlueParam, IntParam, MuGlueParam, TokenParam};
use crate::quantities::{
    AuxKind, BoxDimenKind, CodeKind, ExpressionKind, FamilyFontKind, FontCharKind, FontIntKind,
    GlueConversionKind, GluePartKind, LastItemKind, PageDimenKind, PageIntKind, ParShapeItemKind,
    ReadOnlyIntKind, RegisterKind,
};
use std::fmt;

/// A primitive command, by families: names that differ in the quantity that they read or set, in a direction, in an
/// order or in a kind alone are one family, with a payload that says which.
#[derive(Clone, Copy)]
pub enum Primitive {
    /// Expanding past a token, keeping one, reading a name, turning a test round.
    Expand(ExpandKind),
    /// Reading a file, ending one, reading tokens again as text.
    Input(InputKind),
    /// A test.
    Conditional(IfKind),
    /// The end of a branch of a conditional.
    FiOrElse(FiOrElseKind),
    /// Something as characters.
    Convert(ConvertKind),
    /// Tokens of a quantity or a text, put into the input.
    The(TheKind),
    /// The text of a mark of class 0.
    TopBotMark(MarkKind),
    /// The text of a mark of a class that is read.
    TopBotMarks(MarkKind),
    /// An integer parameter.
    IntParam(IntParam),
    /// A dimension parameter.
    DimenParam(DimenParam),
    /// A glue parameter.
    GlueParam(GlueParam),
    /// A parameter of math glue.
    MuGlueParam(MuGlueParam),
    /// A parameter that holds a token list.
    TokenParam(TokenParam),
    /// A register, whose number is read.
    Register(RegisterKind),
    /// A code of a character.
    Code(CodeKind),
    /// A parameter of a font.
    FontDimen,
    /// A number of a font.
    FontInt(FontIntKind),
    /// A font of a math family.
    FamilyFont(FamilyFontKind),
    /// The current font, and the definition of a name of a font.
    Font,
    /// The font without characters.
    NullFont,
    /// The shape of paragraphs.
    ParShape,
    /// A dimension of a box register.
    BoxDimen(BoxDimenKind),
    /// What a list in construction keeps of its end.
    Aux(AuxKind),
    /// The number of lines of the last paragraph.
    PrevGraf,
    /// A number that the page builder keeps.
    PageInt(PageIntKind),
    /// A dimension that the page builder keeps.
    PageDimen(PageDimenKind),
    /// The mode of interaction as a number.
    InteractionMode,
    /// Something of the last node of a list.
    LastItem(LastItemKind),
    /// A number that can be read alone.
    ReadOnlyInt(ReadOnlyIntKind),
    /// A dimension of a character of a font.
    FontChar(FontCharKind),
    /// Something of a line of the shape of paragraphs.
    ParShapeItem(ParShapeItemKind),
    /// Something of a glue.
    GluePart(GluePartKind),
    /// Glue as math glue, or the other way round.
    GlueConversion(GlueConversionKind),
    /// An expression.
    Expression(ExpressionKind),
    /// A definition of a macro.
    Def(DefKind),
    /// An assignment of a meaning.
    Let(LetKind),
    /// The definition of a name of a character or a math character.
    CharDef(CharDefKind),
    /// The definition of a name of a register.
    RegisterDef(RegisterKind),
    /// Reading a line of a stream into a macro.
    Read(ReadKind),
    /// An assignment of a box register.
    SetBox,
    /// Exceptions and patterns of hyphenation.
    HyphenData(HyphenDataKind),
    /// A prefix of an assignment.
    Prefix(PrefixKind),
    /// An arithmetic assignment.
    Arithmetic(ArithmeticKind),
    /// A choice of the mode of interaction.
    Interaction(InteractionKind),
    /// Nothing.
    Relax,
    /// The end of a paragraph.
    Par,
    /// The end of the job.
    End,
    /// The end of a name that `\csname` began.
    EndCsName,
    /// An edge of a semi simple group.
    SemiSimpleGroup(GroupEdge),
    /// A token that comes back later.
    After(AfterKind),
    /// Skipping spaces.
    IgnoreSpaces,
    /// A text in another case.
    CaseShift(CaseShiftKind),
    /// A message.
    Message(MessageKind),
    /// Showing a meaning, a quantity or a text.
    Show(ShowKind),
    /// Opening or closing a stream of input.
    InStream(InStreamKind),
    /// Streams of output and whatsits.
    Extension(ExtensionKind),
    /// A box.
    MakeBox(MakeBoxKind),
    /// The list of a horizontal box.
    UnHBox(UnboxKind),
    /// The list of a vertical box.
    UnVBox(UnboxKind),
    /// A box that is shifted to a side.
    HMove(HMoveKind),
    /// A box that is shifted up or down.
    VMove(VMoveKind),
    /// Shipping a box out.
    ShipOut,
    /// Leaders.
    Leaders(LeadersKind),
    /// A rule in a vertical list.
    HRule,
    /// A rule in a horizontal list.
    VRule,
    /// Glue in a horizontal list.
    HSkip(SkipKind),
    /// Glue in a vertical list.
    VSkip(SkipKind),
    /// Math glue.
    MSkip,
    /// A kern.
    Kern,
    /// A kern in math units.
    MKern,
    /// A penalty.
    Penalty,
    /// Removing the last node of a list.
    RemoveItem(RemoveItemKind),
    /// The beginning of a paragraph.
    StartPar(StartParKind),
    /// A character by its number.
    Char,
    /// An accent over a character.
    Accent,
    /// A discretionary break.
    Discretionary(DiscretionaryKind),
    /// The italic correction of the last character.
    ItalicCorrection,
    /// A mark.
    Mark(MarkClassKind),
    /// Material that goes to another list.
    Insert(InsertKind),
    /// No boundary character at the end of a word.
    NoBoundary,
    /// A space between words, whatever was before: the name that is one space.
    ControlSpace,
    /// An alignment of rows.
    HAlign,
    /// Material between the rows of an alignment.
    NoAlign,
    /// A cell without its template.
    Omit,
    /// The end of a cell of an alignment.
    EndCell(EndCellKind),
    /// A math character by its number.
    MathChar,
    /// A delimiter by its number.
    Delimiter,
    /// A radical sign over a part of a formula.
    Radical,
    /// An accent over a part of a formula.
    MathAccent,
    /// Four texts, one for each style.
    MathChoice,
    /// A style of math.
    MathStyle(MathStyleKind),
    /// A part of a formula as an atom of a class.
    MathComponent(MathComponentKind),
    /// Where the limits of the last operator go.
    LimitSwitch(LimitSwitchKind),
    /// A vertical box that is centered on the axis.
    VCenter,
    /// A fraction.
    Fraction(FractionKind),
    /// Delimiters round a part of a formula.
    LeftRight(LeftRightKind),
    /// The number of a display.
    EqNo(EqNoKind),
    /// No glue or kern behind it in the script styles.
    NonScript,
}

/// The name of a primitive, without the escape character. Takes no memory.
#[tactic(auto, unfolding(crate::specs::Names::name_of))]
pub fn name_of(primitive: Primitive) -> &'static [u8]
    ensures { result.now ≡ name_of primitive }
{
    match primitive {
        Primitive::Expand(kind) => kind.name(),
        Primitive::Input(kind) => kind.name(),
        Primitive::Conditional(kind) => kind.name(),
        Primitive::FiOrElse(kind) => kind.name(),
        Primitive::Convert(kind) => kind.name(),
        Primitive::The(kind) => kind.name(),
        Primitive::TopBotMark(kind) => kind.name(),
        Primitive::TopBotMarks(kind) => kind.class_name(),
        Primitive::IntParam(kind) => kind.name(),
        Primitive::DimenParam(kind) => kind.name(),
        Primitive::GlueParam(kind) => kind.name(),
        Primitive::MuGlueParam(kind) => kind.name(),
        Primitive::TokenParam(kind) => kind.name(),
        Primitive::Register(kind) => kind.name(),
        Primitive::Code(kind) => kind.name(),
        Primitive::FontDimen => b"fontdimen",
        Primitive::FontInt(kind) => kind.name(),
        Primitive::FamilyFont(kind) => kind.name(),
        Primitive::Font => b"font",
        Primitive::NullFont => b"nullfont",
        Primitive::ParShape => b"parshape",
        Primitive::BoxDimen(kind) => kind.name(),
        Primitive::Aux(kind) => kind.name(),
        Primitive::PrevGraf => b"prevgraf",
        Primitive::PageInt(kind) => kind.name(),
        Primitive::PageDimen(kind) => kind.name(),
        Primitive::InteractionMode => b"interactionmode",
        Primitive::LastItem(kind) => kind.name(),
        Primitive::ReadOnlyInt(kind) => kind.name(),
        Primitive::FontChar(kind) => kind.name(),
        Primitive::ParShapeItem(kind) => kind.name(),
        Primitive::GluePart(kind) => kind.name(),
        Primitive::GlueConversion(kind) => kind.name(),
        Primitive::Expression(kind) => kind.name(),
        Primitive::Def(kind) => kind.name(),
        Primitive::Let(kind) => kind.name(),
        Primitive::CharDef(kind) => kind.name(),
        Primitive::RegisterDef(kind) => kind.definer_name(),
        Primitive::Read(kind) => kind.name(),
        Primitive::SetBox => b"setbox",
        Primitive::HyphenData(kind) => kind.name(),
        Primitive::Prefix(kind) => kind.name(),
        Primitive::Arithmetic(kind) => kind.name(),
        Primitive::Interaction(kind) => kind.name(),
        Primitive::Relax => b"relax",
        Primitive::Par => b"par",
        Primitive::End => b"end",
        Primitive::EndCsName => b"endcsname",
        Primitive::SemiSimpleGroup(kind) => kind.name(),
        Primitive::After(kind) => kind.name(),
        Primitive::IgnoreSpaces => b"ignorespaces",
        Primitive::CaseShift(kind) => kind.name(),
        Primitive::Message(kind) => kind.name(),
        Primitive::Show(kind) => kind.name(),
        Primitive::InStream(kind) => kind.name(),
        Primitive::Extension(kind) => kind.name(),
        Primitive::MakeBox(kind) => kind.name(),
        Primitive::UnHBox(kind) => kind.horizontal_name(),
        Primitive::UnVBox(kind) => kind.vertical_name(),
        Primitive::HMove(kind) => kind.name(),
        Primitive::VMove(kind) => kind.name(),
        Primitive::ShipOut => b"shipout",
        Primitive::Leaders(kind) => kind.name(),
        Primitive::HRule => b"hrule",
        Primitive::VRule => b"vrule",
        Primitive::HSkip(kind) => kind.horizontal_name(),
        Primitive::VSkip(kind) => kind.vertical_name(),
        Primitive::MSkip => b"mskip",
        Primitive::Kern => b"kern",
        Primitive::MKern => b"mkern",
        Primitive::Penalty => b"penalty",
        Primitive::RemoveItem(kind) => kind.name(),
        Primitive::StartPar(kind) => kind.name(),
        Primitive::Char => b"char",
        Primitive::Accent => b"accent",
        Primitive::Discretionary(kind) => kind.name(),
        Primitive::ItalicCorrection => b"/",
        Primitive::Mark(kind) => kind.name(),
        Primitive::Insert(kind) => kind.name(),
        Primitive::NoBoundary => b"noboundary",
        Primitive::ControlSpace => b" ",
        Primitive::HAlign => b"halign",
        Primitive::NoAlign => b"noalign",
        Primitive::Omit => b"omit",
        Primitive::EndCell(kind) => kind.name(),
        Primitive::MathChar => b"mathchar",
        Primitive::Delimiter => b"delimiter",
        Primitive::Radical => b"radical",
        Primitive::MathAccent => b"mathaccent",
        Primitive::MathChoice => b"mathchoice",
        Primitive::MathStyle(kind) => kind.name(),
        Primitive::MathComponent(kind) => kind.name(),
        Primitive::LimitSwitch(kind) => kind.name(),
        Primitive::VCenter => b"vcenter",
        Primitive::Fraction(kind) => kind.name(),
        Primitive::LeftRight(kind) => kind.name(),
        Primitive::EqNo(kind) => kind.name(),
        Primitive::NonScript => b"nonscript",
    }
}

/// Two commands are equal exactly where they are the same command, which is where their names are equal.
impl PartialEq for Primitive {
    ghost use Rattle.std.specs.Prelude.{◌↔◌, IsTrue, nat_eq};
    ghost use Rattle.std.specs.Cmp.{partial_equiv_from_equiv};
    ghost use Rattle.std.specs.Cmp.Lexicographic.{pointwise, on_texts_equal};

    ghost eq = { λ p q. pointwise nat_eq (name_of p) (name_of q) };

    ghost laws = { partial_equiv_from_equiv (on_texts_equal name_of) };

    fn eq(&self, other: &Primitive) -> bool
        ensures by_names { result ≡ pointwise nat_eq (name_of self.now) (name_of other.now) }
        ensures same { IsTrue result ↔ (self.now ≡ other.now) }
    {
        name_of(*self) == name_of(*other)
    }
}

impl Eq for Primitive {
    ghost use Rattle.std.specs.Cmp.Lexicographic.{on_texts_equal};

    ghost laws = { on_texts_equal name_of };
}

/// Shows the name.
impl fmt::Debug for Primitive {
    fn fmt<W: fmt::Write>(&self, f: &mut fmt::Formatter<W>) -> fmt::Result {
        f.write_str(str::from_utf8(name_of(*self)).unwrap_or("Primitive"))
    }
}

//! What the mouth is in the middle of. Here it is data; what becomes of a token or a value is said by the crates above.
//!
//! Whatever waits for something stands on a stack of entries. A scan waits for a token; what it gathers is in its payload. A
//! scan of a number or of a text carries what takes its value, its finisher, so that no value comes to nobody or to one that
//! takes another kind. Scans and finishers are parted by their owners, the crates that have their rows.
use crate::definition::Macro;
use crate::key::Meaning;
use crate::taker::{NumberScan, Taker};
use etx_exprs::Value as Quantity;
use etx_keys::Key;
use etx_lists::Bytes;
use etx_macros::{Matcher, OpenPattern};
use etx_matter::{Boxed, GlueOrder, Token, Tokens};
use etx_prims::{ArithmeticKind, CharDefKind, CodeKind, RegisterKind};

/// What stood before a definition or an assignment.
#[derive(Clone, Copy)]
pub struct Prefixes {
    pub is_long: bool,
    pub is_outer: bool,
    pub is_protected: bool,
    pub is_global: bool,
}

/// The call of a macro, whose arguments are being matched.
#[derive(Drop)]
pub struct Call {
    /// The token that called it.
    pub name: Token,
    pub definition: Macro,
    pub matcher: Matcher,
    /// Whether an outer macro or the end of a file cut it off, which was reported.
    pub is_cut: bool,
}

/// A scan of expansion that gives no value.
#[derive(Drop)]
pub enum ExpansionScan {
    /// `\expandafter` waits for the token that it keeps.
    ExpandAfter,
    /// `\noexpand` waits for a token.
    NoExpand,
    /// `\string` waits for a token.
    StringOf,
    /// `\csname`: the name so far.
    CsName(Boxed<Bytes>),
    /// A macro's call.
    Call(Boxed<Call>),
    /// `\meaning` waits for a token.
    MeaningOf,
    /// `\unless` waits for a conditional.
    Unless,
    /// `\if` or `\ifcat` waits for the first of its two tokens.
    FirstCharacter {
        test: Test,
        is_cat: bool,
    },
    /// The same for the second.
    SecondCharacter {
        test: Test,
        is_cat: bool,
        first: Likeness,
    },
    /// `\ifx` waits for the first of its two tokens.
    FirstMeaning(Test),
    /// The same for the second.
    SecondMeaning {
        test: Test,
        first: Boxed<Meaning>,
    },
    /// `\ifnum` or `\ifdim` waits for `<`, `=` or `>` behind this number.
    Relation {
        test: Test,
        is_dimension: bool,
        first: i32,
    },
    /// `\ifdefined` waits for a token.
    Defined(Test),
    /// `\ifcsname`: the name so far.
    IfCsName {
        test: Test,
        name: Boxed<Bytes>,
    },
    /// A text that isn't taken.
    Skip(Skip),
}

/// A test that is being read.
#[derive(Clone, Copy)]
pub struct Test {
    /// Whether `\unless` stood before it.
    pub is_unless: bool,
    /// Which of the open conditionals is its own, counted from the outside, from 1.
    pub number: u32,
}

/// What `\if` and `\ifcat` see of a token ("TeX: The Program", section 506).
#[derive(Clone, Copy)]
pub enum Likeness {
    /// A character, by its code and its category.
    Character { code: u8, cat: u8 },
    /// A control sequence that means no character.
    Command,
}

/// Where a text ends that isn't taken.
#[derive(Clone, Copy)]
pub enum Until {
    /// At `\fi`.
    Fi,
    /// At the `\else` or `\fi` of this conditional.
    Else { number: u32 },
    /// At the `\or` of this conditional behind which `cases` are left out, or at its `\else` or `\fi`. Without a number, at these
    /// alone.
    Or { number: u32, cases: Option<u32> },
}

/// A text that isn't taken, as far as it is read ("TeX: The Program", section 494).
#[derive(Clone, Copy)]
pub struct Skip {
    pub until: Until,
    /// How many conditionals are open in it.
    pub level: u32,
    /// The number of the line in which it began.
    pub line: u32,
}

/// A relation of two numbers.
#[derive(Clone, Copy)]
pub enum Order {
    Less,
    Equal,
    Greater,
}

/// How far a text in braces is read.
#[derive(Clone, Copy)]
pub enum TextPlace {
    /// Before its left brace.
    Before,
    /// Inside it, where `depth` braces more are open.
    Inside { depth: u32 },
}

/// A text in braces that is being read.
#[derive(Drop)]
pub struct OpenText {
    /// The control sequence that reads it.
    pub reader: Token,
    /// Whether its tokens are expanded.
    pub is_expanded: bool,
    pub place: TextPlace,
    pub items: Tokens,
}

/// A character of category 6 in a parameter text or in a body: a parameter, if a number follows.
#[derive(Clone, Copy)]
pub struct ParameterMark {
    /// The token, which may be a control sequence that means such a character.
    pub token: Token,
    /// The character's code.
    pub code: u8,
}

/// The definition of a macro, as far as it is read.
#[derive(Drop)]
pub struct Definition {
    pub prefixes: Prefixes,
    /// Whether the body is expanded, as `\edef` and `\xdef` do.
    pub is_expanded: bool,
    /// The control sequence that is defined.
    pub name: Token,
    /// The parameter text so far.
    pub pattern: OpenPattern,
    /// The codes of the characters that marked its parameters, one for each: at most 9.
    pub marks: Bytes,
    /// How many braces are open in the body.
    pub depth: u32,
    pub body: Tokens,
    /// The character of category 6 that was got last, if it was the last token.
    pub mark: Option<ParameterMark>,
}

/// For what a control sequence is named.
#[derive(Clone, Copy)]
pub enum NameFor {
    /// For the definition of a macro.
    Def {
        prefixes: Prefixes,
        is_expanded: bool,
    },
    /// For `\let`.
    Let {
        is_global: bool,
    },
    /// For `\futurelet`.
    FutureLet {
        is_global: bool,
    },
    /// For `\chardef` or `\mathchardef`.
    CharDef {
        kind: CharDefKind,
        is_global: bool,
    },
    /// For `\countdef` and its kin.
    RegisterDef {
        kind: RegisterKind,
        is_global: bool,
    },
}

/// A scan of assignments that gives no value.
#[derive(Drop)]
pub enum AssignScan {
    /// Prefixes wait for what they are for.
    Prefix(Prefixes),
    /// A definition or `\let` waits for the control sequence to be defined.
    Name(NameFor),
    /// A definition's parameter text.
    Params(Boxed<Definition>),
    /// A definition's body.
    Body(Boxed<Definition>),
    /// `\let` waits for `=`, or for the token whose meaning is taken.
    LetEquals {
        is_global: bool,
        name: Token,
    },
    /// The same behind `=`, where one space is skipped.
    LetSpace {
        is_global: bool,
        name: Token,
    },
    /// The same behind that space.
    LetToken {
        is_global: bool,
        name: Token,
    },
    /// `\futurelet` waits for the first of its two tokens.
    FutureFirst {
        is_global: bool,
        name: Token,
    },
    /// `\aftergroup` waits for a token.
    AfterGroup,
    /// `\afterassignment` waits for a token.
    AfterAssignment,
    /// `\advance`, `\multiply` or `\divide` waits for what it changes.
    Arithmetic {
        kind: ArithmeticKind,
        is_global: bool,
    },
    /// The same behind that: the word `by` may be there.
    By {
        kind: ArithmeticKind,
        is_global: bool,
        key: Key,
    },
    /// A list of tokens for this key, in braces or of another key. `reader`: the control sequence that assigns it.
    List {
        key: Key,
        is_global: bool,
        reader: Token,
        /// Whether an `=` may stand there no more.
        is_behind: bool,
    },
}

/// A scan of main control that gives no value.
#[derive(Clone, Copy)]
pub enum ControlScan {
    /// `\ignorespaces` waits for a token that is no space.
    IgnoreSpaces,
}

/// What assignments do with a number.
#[derive(Clone, Copy)]
pub enum AssignNumber {
    /// It is the number of a register that gets another value. `reader`: the control sequence that assigns it.
    Register {
        kind: RegisterKind,
        is_global: bool,
        reader: Token,
    },
    /// It is the code of a character that gets another code of this kind.
    CodeOf {
        kind: CodeKind,
        is_global: bool,
    },
    /// It is that code.
    Code {
        kind: CodeKind,
        code: u8,
        is_global: bool,
    },
    /// It is the value under this key.
    Value {
        key: Key,
        is_global: bool,
    },
    /// It is the character that a control sequence stands for.
    Character {
        kind: CharDefKind,
        name: Token,
        is_global: bool,
    },
    /// It is the number of the register that a control sequence stands for.
    RegisterName {
        kind: RegisterKind,
        name: Token,
        is_global: bool,
    },
    /// It is the number of a register that `\advance` or its kin change.
    Changed {
        by: ArithmeticKind,
        kind: RegisterKind,
        is_global: bool,
    },
    /// It is what they change the value under this key by.
    Change {
        by: ArithmeticKind,
        key: Key,
        is_global: bool,
    },
    /// It is the number of a token register whose list this key gets.
    ListOf {
        key: Key,
        is_global: bool,
    },
}

/// What expansion does with a number.
#[derive(Clone, Copy)]
pub enum ExpansionNumber {
    /// `\number` writes it in decimal.
    Number,
    /// `\romannumeral` writes it in Roman numerals.
    RomanNumeral,
    /// `\the` writes it; a list of tokens is read as it stands where `is_kept`.
    The {
        is_kept: bool,
    },
    /// It is the first that `\ifnum` or `\ifdim` compares.
    First {
        test: Test,
        is_dimension: bool,
    },
    /// It is the second.
    Second {
        test: Test,
        first: i32,
        order: Order,
    },
    /// `\ifodd`.
    Odd(Test),
    /// `\ifcase`.
    Case(Test),
}

/// What expansion does with a text.
#[derive(Clone, Copy)]
pub enum ExpansionText {
    /// `\unexpanded` reads it, as it stands where `is_kept`.
    Unexpanded { is_kept: bool },
    /// `\detokenize` reads its characters.
    Detokenize,
}

/// What assignments do with a text.
#[derive(Clone, Copy)]
pub enum AssignText {
    /// It is the list under this key.
    List { key: Key, is_global: bool },
}

/// What main control does with a text.
#[derive(Clone, Copy)]
pub enum ControlText {
    /// `\message` says it.
    Message,
}

/// Who takes a number, by owner.
#[derive(Clone, Copy)]
pub enum NumberFinish {
    Expansion(ExpansionNumber),
    Assign(AssignNumber),
}

/// Who takes a text, by owner.
#[derive(Clone, Copy)]
pub enum TextFinish {
    Expansion(ExpansionText),
    Assign(AssignText),
    Control(ControlText),
}

/// A scan in progress, which waits for a token. It keeps no token that is put back later.
#[derive(Drop)]
pub enum Scan {
    Expansion(ExpansionScan),
    /// A number, a dimension or glue, and who takes it.
    Number {
        scan: NumberScan,
        taker: Boxed<Taker>,
    },
    /// A text, and who takes it.
    Text {
        text: Boxed<OpenText>,
        finish: TextFinish,
    },
    Assign(AssignScan),
    Control(ControlScan),
}

/// A value on its way to the one who takes it.
#[derive(Drop)]
pub enum Value {
    /// An amount, which is of this order where it may be infinite.
    Number {
        amount: Quantity,
        order: GlueOrder,
        taker: Boxed<Taker>,
    },
    Text {
        text: Boxed<Tokens>,
        finish: TextFinish,
    },
}

/// For what a token is kept while the next one is got.
#[derive(Clone, Copy)]
pub enum Keeper {
    /// `\expandafter` expands the next one.
    ExpandAfter,
    /// `\futurelet` gives this control sequence the next one's meaning.
    Future { is_global: bool, name: Token },
}

/// What stands on the stack.
#[derive(Drop)]
pub enum Entry {
    /// A scan that waits for a token. `left`: how often its programme may still go on for nothing.
    Scan {
        left: u8,
        scan: Scan,
    },
    /// A value that is taken next.
    Given {
        left: u8,
        value: Value,
    },
    /// A token that is kept while the next one is got.
    Kept {
        token: Token,
        by: Keeper,
    },
    /// A token that is put back next.
    Due(Token),
    /// A text that is said next.
    Say(Bytes),
    /// A scan that reads a word. The letters that it got are kept, since they are put back where they aren't that word.
    Word {
        left: u8,
        letters: Boxed<Tokens>,
        scan: Scan,
    },
}

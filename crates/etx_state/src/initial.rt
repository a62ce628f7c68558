//! The values that INITEX starts with.
ghost use Rattle.std.specs.Prelude.{◌≡◌, None, [], pos, negsuc, IfOk};
ghost use Rattle.etx_prims.specs.declared.command.Primitive.TheVariants as prims;
ghost use Rattle.etx_prims.specs.declared.expansion.FiOrElseKind.TheVariants as ends;
ghost use Rattle.etx_prims.specs.declared.material.EndCellKind.TheVariants as cells;
ghost use Rattle.etx_prims.specs.declared.general.GroupEdge.TheVariants as edges;
ghost use Rattle.etx_prims.specs.declared.math.LeftRightKind.TheVariants as delimiters;
ghost use Rattle.etx_state.specs.declared.key.Meaning.TheVariants as meanings;
ghost use Rattle.etx_state.specs.declared.key.Val.TheVariants as vals;
ghost use Rattle.etx_state.specs.Frozen.{frozen_means, frozen_meaning};
ghost use Rattle.etx_state.specs.Initial.{first_category, first_math_code, first_lower, first_upper, first_space_factor, first_delimiter, first_code, first_int, first_register, first_single, first_of, no_glue, AreNumbers};

use crate::frozen::Frozen;
use crate::key::{Meaning, Val};
use etx_keys::{Key, Single};
use etx_matter::{Glue, GlueOrder, NameId, SharedTokens, Tokens};
use etx_prims::{
    CodeKind, EndCellKind, FiOrElseKind, GroupEdge, IntParam, LeftRightKind, Primitive,
    RegisterKind,
};
use std::alloc::{AllocError, Global};

/// The values under keys before any assignment, and what frozen control sequences mean. They are kept, so that they can be lent: a value that may own memory
/// can't be a constant of the program.
#[derive(Drop)]
pub struct Firsts {
    /// The numbers from 0 to 255.
    numbers: Vec<Val>,
    /// The math code of each character.
    math_codes: Vec<Val>,
    minus_one: Val,
    noon: Val,
    capital: Val,
    thousand: Val,
    year: Val,
    ten_thousand: Val,
    glue: Val,
    tokens: Val,
    par: Val,
    undefined: Val,
    no_token: Val,
    nothing_yet: Val,
    fi: Meaning,
    relax: Meaning,
    end_template: Meaning,
    cr: Meaning,
    end_group: Meaning,
    right_delimiter: Meaning,
    nothing: Meaning,
    ghost right: { AreNumbers (λ n. n) numbers.items
        × AreNumbers first_math_code math_codes.items
        × (minus_one ≡ vals.Int (negsuc 0))
        × (noon ≡ vals.Int (pos 720))
        × (capital ≡ vals.Int (pos 999))
        × (thousand ≡ vals.Int (pos 1000))
        × (year ≡ vals.Int (pos 1776))
        × (ten_thousand ≡ vals.Int (pos 10000))
        × (glue ≡ vals.Glue no_glue)
        × (tokens ≡ vals.Tokens [])
        × (par ≡ vals.Means (meanings.Primitive prims.Par))
        × (undefined ≡ vals.Means meanings.Undefined)
        × (no_token ≡ vals.Kept None)
        × (nothing_yet ≡ vals.Nothing)
        × (fi ≡ meanings.Primitive (prims.FiOrElse ends.Fi))
        × (relax ≡ meanings.Primitive prims.Relax)
        × (end_template ≡ meanings.EndTemplate)
        × (cr ≡ meanings.Primitive (prims.EndCell cells.Cr))
        × (end_group ≡ meanings.Primitive (prims.SemiSimpleGroup edges.End))
        × (right_delimiter ≡ meanings.Primitive (prims.LeftRight delimiters.Right))
        × (nothing ≡ meanings.Undefined) },
}

/// The category of a character.
#[tactic(auto, unfolding(crate::specs::Initial::first_category))]
fn first_category(code: u8) -> u8
    ensures { result ≡ first_category code }
{
    match code {
        b'\\' => 0,
        b'A'..=b'Z' | b'a'..=b'z' => 11,
        b' ' => 10,
        b'\r' => 5,
        b'%' => 14,
        0 => 9,
        127 => 15,
        _ => 12,
    }
}

#[tactic(auto, unfolding(crate::specs::Initial::first_math_code))]
fn first_math_code(code: u8) -> u16
    ensures { result ≡ first_math_code code }
{
    match code {
        b'0'..=b'9' => u16::from(code) + 28_672,
        b'A'..=b'Z' | b'a'..=b'z' => u16::from(code) + 28_928,
        _ => u16::from(code),
    }
}

#[tactic(auto, unfolding(crate::specs::Initial::first_lower))]
fn first_lower(code: u8) -> u8
    ensures { result ≡ first_lower code }
{
    match code {
        b'A'..=b'Z' => code + 32,
        b'a'..=b'z' => code,
        _ => 0,
    }
}

#[tactic(auto, unfolding(crate::specs::Initial::first_upper))]
fn first_upper(code: u8) -> u8
    ensures { result ≡ first_upper code }
{
    match code {
        b'a'..=b'z' => code - 32,
        b'A'..=b'Z' => code,
        _ => 0,
    }
}

/// The numbers from 0 to 255.
fn all_numbers(alloc: Global) -> Result<Vec<Val>, AllocError>
    ensures { IfOk result (λ list. AreNumbers (λ n. n) list.items) }
{
    let mut list = Vec::new(alloc);
    for number in 0..256_u16 {
        list.push(Val::Int(i32::from(number)))?;
    }
    Ok(list)
}

/// The math code of each character.
fn all_math_codes(alloc: Global) -> Result<Vec<Val>, AllocError>
    ensures { IfOk result (λ list. AreNumbers first_math_code list.items) }
{
    let mut list = Vec::new(alloc);
    for code in 0..256_u16 {
        list.push(Val::Int(i32::from(first_math_code(code as u8))))?;
    }
    Ok(list)
}

impl Firsts {
    pub fn new(alloc: Global) -> Result<Firsts, AllocError> {
        let numbers = all_numbers(alloc)?;
        let math_codes = all_math_codes(alloc)?;
        let tokens = SharedTokens::new(alloc, Tokens::new(alloc))?;
        Ok(Firsts {
            numbers,
            math_codes,
            minus_one: Val::Int(-1),
            noon: Val::Int(720),
            capital: Val::Int(999),
            thousand: Val::Int(1000),
            year: Val::Int(1776),
            ten_thousand: Val::Int(10000),
            glue: Val::Glue(Glue {
                width: 0,
                stretch: 0,
                shrink: 0,
                stretch_order: GlueOrder::Normal,
                shrink_order: GlueOrder::Normal,
            }),
            tokens: Val::Tokens(tokens),
            par: Val::Means(Meaning::Primitive(Primitive::Par)),
            undefined: Val::Means(Meaning::Undefined),
            no_token: Val::Kept(None),
            nothing_yet: Val::Nothing,
            fi: Meaning::Primitive(Primitive::FiOrElse(FiOrElseKind::Fi)),
            relax: Meaning::Primitive(Primitive::Relax),
            end_template: Meaning::EndTemplate,
            cr: Meaning::Primitive(Primitive::EndCell(EndCellKind::Cr)),
            end_group: Meaning::Primitive(Primitive::SemiSimpleGroup(GroupEdge::End)),
            right_delimiter: Meaning::Primitive(Primitive::LeftRight(LeftRightKind::Right)),
            nothing: Meaning::Undefined,
        })
    }

    /// The value under the key before any assignment.
    pub fn get(&self, key: Key) -> &Val
        ensures { result.now ≡ first_of key }
    {
        match key {
            Key::Meaning(0) => &self.par,
            Key::Meaning(_) => &self.undefined,
            Key::Active(_) => &self.undefined,
            Key::Int(parameter) => self.int(parameter),
            Key::Dimen(_) => self.number(0),
            Key::Glue(_) => &self.glue,
            Key::MuGlue(_) => &self.glue,
            Key::Tokens(_) => &self.tokens,
            Key::Register { kind, .. } => self.register(kind),
            Key::Box(_) => &self.nothing_yet,
            Key::Code { kind, code } => self.code(kind, code),
            Key::FontInt { .. } => self.number(0),
            Key::FamilyFont { .. } => self.number(0),
            Key::FontDimen { .. } => self.number(0),
            Key::Single(single) => self.single(single),
            Key::Font(_) => &self.nothing_yet,
            Key::InStream(_) => &self.nothing_yet,
            Key::OutStream(_) => &self.nothing_yet,
            Key::Mark { .. } => &self.tokens,
        }
    }

    /// What a control sequence means whose number is above those of all names.
    #[tactic(auto, unfolding(crate::specs::Frozen::frozen_meaning))]
    pub fn frozen(&self, name: NameId) -> &Meaning
        ensures { result.now ≡ frozen_meaning name.0 }
    {
        match Frozen::of(name) {
            Some(it) => self.frozen_means(it),
            None => &self.nothing,
        }
    }

    fn frozen_means(&self, it: Frozen) -> &Meaning
        ensures { result.now ≡ frozen_means it }
    {
        match it {
            Frozen::Fi => &self.fi,
            Frozen::Relax => &self.relax,
            Frozen::EndTemplate => &self.end_template,
            Frozen::Cr => &self.cr,
            Frozen::EndGroup => &self.end_group,
            Frozen::Right => &self.right_delimiter,
        }
    }

    /// A small number.
    fn number(&self, number: u8) -> &Val
        ensures { result.now ≡ vals.Int (pos number) }
    {
        &self.numbers[usize::from(number)]
    }

    fn register(&self, kind: RegisterKind) -> &Val
        ensures { result.now ≡ first_register kind }
    {
        match kind {
            RegisterKind::Count => self.number(0),
            RegisterKind::Dimen => self.number(0),
            RegisterKind::Skip => &self.glue,
            RegisterKind::MuSkip => &self.glue,
            RegisterKind::Toks => &self.tokens,
        }
    }

    fn single(&self, single: Single) -> &Val
        ensures { result.now ≡ first_single single }
    {
        match single {
            Single::CurrentFont => self.number(0),
            Single::ParShape => &self.nothing_yet,
            Single::AfterAssignment => &self.no_token,
            Single::Interaction => self.number(3),
            Single::HyphenTables => &self.nothing_yet,
        }
    }

    #[tactic(auto, unfolding(crate::specs::Initial::first_space_factor))]
    fn space_factor(&self, code: u8) -> &Val
        ensures { result.now ≡ vals.Int (pos (first_space_factor code)) }
    {
        match code {
            b'A'..=b'Z' => &self.capital,
            _ => &self.thousand,
        }
    }

    #[tactic(auto, unfolding(crate::specs::Initial::first_delimiter))]
    fn delimiter(&self, code: u8) -> &Val
        ensures { result.now ≡ vals.Int (first_delimiter code) }
    {
        if code == b'.' {
            self.number(0)
        } else {
            &self.minus_one
        }
    }

    #[tactic(auto, unfolding(crate::specs::Initial::first_code))]
    fn code(&self, kind: CodeKind, code: u8) -> &Val
        ensures { result.now ≡ vals.Int (first_code kind code) }
    {
        match kind {
            CodeKind::Cat => self.number(first_category(code)),
            CodeKind::Math => &self.math_codes[usize::from(code)],
            CodeKind::Lc => self.number(first_lower(code)),
            CodeKind::Uc => self.number(first_upper(code)),
            CodeKind::Sf => self.space_factor(code),
            CodeKind::Del => self.delimiter(code),
        }
    }

    #[tactic(auto, unfolding(crate::specs::Initial::first_int))]
    fn int(&self, parameter: IntParam) -> &Val
        ensures { result.now ≡ vals.Int (first_int parameter) }
    {
        match parameter {
            IntParam::Tolerance => &self.ten_thousand,
            IntParam::Mag => &self.thousand,
            IntParam::MaxDeadCycles => self.number(25),
            IntParam::HangAfter => self.number(1),
            IntParam::EscapeChar => self.number(92),
            IntParam::EndLineChar => self.number(13),
            IntParam::Time => &self.noon,
            IntParam::Day => self.number(4),
            IntParam::Month => self.number(7),
            IntParam::Year => &self.year,
            _ => self.number(0),
        }
    }
}

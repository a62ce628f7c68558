//! `\csname` and `\string`.
ghost use Rattle.std.specs.Prelude.{◌≡◌, ◌++◌, ◌∷◌, [], true, false, MatchOption, OnOk, IfOk};
ghost use Rattle.etx_state.specs.Reading.{meaning_in};
ghost use Rattle.etx_state.specs.Rests.{Keeps, rest_of, number_of, has_room};
ghost use Rattle.etx_answers.specs.Answers.{quiet};
ghost use Rattle.etx_expand.specs.Names.{relaxed, name_made, name_over, name_ended, cs_name_row, string_row};

use etx_answers::{
    Insert, Move, Plan, character_tokens, ends, fails_under, insert_tokens, quiet, spell, used,
};
use etx_groups::assign;
use etx_lists::Bytes;
use etx_matter::{Boxed, End, Limit, NameId, Token};
use etx_prims::Primitive;
use etx_state::{Capacity, ExpansionScan, Key, Meaning, Rest, Scan, Val};
use std::alloc::{AllocError, Global};

/// A name that means nothing becomes `\relax`, in the innermost group.
fn relax(rest: &mut Rest, number: NameId) -> Result<(), AllocError>
    ensures rest { OnOk result (rest_of rest.new ≡ relaxed number.0 (meaning_in (rest_of rest.old).values number.0) (rest_of rest.old)) }
    ensures kept { Keeps rest.old rest.new }
{
    match rest.meaning(number) {
        Meaning::Undefined => assign(
            rest,
            Key::Meaning(number.0),
            Val::Means(Meaning::Primitive(Primitive::Relax)),
        ),
        Meaning::Primitive(_) => Ok(()),
        Meaning::Char { .. } => Ok(()),
        Meaning::Macro(_) => Ok(()),
        Meaning::CharGiven(_) => Ok(()),
        Meaning::MathGiven(_) => Ok(()),
        Meaning::Register { .. } => Ok(()),
        Meaning::Unexpanded => Ok(()),
        Meaning::EndTemplate => Ok(()),
    }
}

/// The control sequence of a name that `\csname` read. `None` exactly where there is no room for its name, and nothing
/// is changed then.
#[tactic(auto, unfolding(crate::specs::Names::name_made))]
fn make_name(rest: &mut Rest, name: &[u8]) -> Result<Option<NameId>, AllocError>
    ensures kept { Keeps rest.old rest.new }
    ensures name { IfOk result (λ o. MatchOption o
        ((has_room name.now (rest_of rest.old) ≡ false) × (rest_of rest.new ≡ rest_of rest.old))
        (λ n. (has_room name.now (rest_of rest.old) ≡ true) × (n.0 ≡ number_of name.now (rest_of rest.old)) × (rest_of rest.new ≡ name_made name.now (rest_of rest.old)))) }
{
    match rest.name(name) {
        Ok(number) => {
            relax(rest, number)?;
            Ok(Some(number))
        }
        Err(Capacity::Full(Limit::Names)) => Ok(None),
        Err(_) => Err(AllocError),
    }
}

/// A name is whole: its control sequence is read. Where `\endcsname` didn't end it, that is an error, and what did is
/// read after it.
fn name_over(alloc: Global, number: NameId, meaning: &Meaning) -> Result<Plan, AllocError>
    ensures { IfOk result (λ p. p ≡ name_over (Token.Name number) meaning.now) }
{
    let name = Token::Name(number);
    match meaning {
        Meaning::Primitive(Primitive::EndCsName) => { Ok(quiet(Move::Used(Insert::Token(name)))) }
        _ => fails_under(alloc, name, b"Missing \\endcsname inserted", used()),
    }
}

/// The end of a name: its control sequence is read.
#[tactic(auto, unfolding(crate::specs::Names::name_ended))]
fn end_name(rest: &mut Rest, name: &[u8], meaning: &Meaning) -> Result<Plan, AllocError>
    ensures rest { OnOk result (rest_of rest.new ≡ (name_ended name.now meaning.now (rest_of rest.old)).rest) }
    ensures plan { IfOk result (λ p. p ≡ (name_ended name.now meaning.now (rest_of rest.old)).plan) }
    ensures kept { Keeps rest.old rest.new }
{
    match make_name(rest, name)? {
        None => Ok(ends(End::Capacity(Limit::Names))),
        Some(number) => name_over(rest.alloc(), number, meaning),
    }
}

/// One character more.
fn go_on(mut name: Boxed<Bytes>, code: u8) -> Result<Plan, AllocError>
    ensures { IfOk result (λ p. p ≡ quiet (Move.Copied (Scan.Expansion (ExpansionScan.CsName (name ++ code ∷ []))))) }
{
    name.get_mut().push(code)?;
    Ok(quiet(Move::Copied(Scan::Expansion(ExpansionScan::CsName(name)))))
}

/// `\csname` gets a token: a character belongs to the name, whatever its category is, unless it is active.
#[tactic(auto, unfolding(crate::specs::Names::cs_name_row))]
pub(crate) fn cs_name_row(
    rest: &mut Rest,
    name: Boxed<Bytes>,
    token: Token,
    meaning: &Meaning,
) -> Result<Plan, AllocError>
    ensures rest { OnOk result (rest_of rest.new ≡ (cs_name_row name token meaning.now (rest_of rest.old)).rest) }
    ensures plan { IfOk result (λ p. p ≡ (cs_name_row name token meaning.now (rest_of rest.old)).plan) }
    ensures kept { Keeps rest.old rest.new }
{
    match token {
        Token::Char { code, cat } => {
            if cat == 13 {
                end_name(rest, name.get().as_slice(), meaning)
            } else {
                go_on(name, code)
            }
        }
        Token::Name(_) => end_name(rest, name.get().as_slice(), meaning),
        Token::Param(_) => end_name(rest, name.get().as_slice(), meaning),
    }
}

/// `\string` gives the characters of a token.
#[tactic(auto, unfolding(crate::specs::Names::string_row))]
pub(crate) fn string_row(rest: &Rest, token: Token) -> Result<Move, AllocError>
    ensures { IfOk result (λ go. go ≡ string_row token (rest_of rest.now)) }
{
    let alloc = rest.alloc();
    let mut text = Bytes::new(alloc);
    spell(rest, &mut text, token)?;
    let tokens = character_tokens(alloc, text.as_slice())?;
    Ok(Move::Used(insert_tokens(alloc, tokens)?))
}

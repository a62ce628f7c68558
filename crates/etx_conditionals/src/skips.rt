//! The text of a conditional that isn't taken, and the ends of its branches.
ghost use Rattle.std.specs.Prelude.{◌≡◌, ◌<◌, ◌+◌, ◌∷◌, [], IfOk, OnOk};
ghost use Rattle.etx_state.specs.Rests.{RestState, Keeps, rest_of};
ghost use Rattle.etx_answers.specs.Answers.{quiet, starting};
ghost use Rattle.etx_conditionals.specs.Conditionals.{skip_on, skip_closed, skip_over, extra_text, inner_end, own_end, case_end, fi_end, skip_ends, deeper_end, part_skipped, primitive_skipped, skipped_of, skip_row, relax, extra, may_follow, part_taken, part_behind, part_begun, fi_or_else_begun};

use crate::conditionals::{begins, skipping};
use etx_answers::{
    Insert, Move, Plan, Push, Start, fails, nothing, push_escaped, quiet, start_fails, starting,
    used,
};
use etx_lists::Bytes;
use etx_matter::{SharedTokens, Token, Tokens};
use etx_prims::{FiOrElseKind, Primitive};
use etx_state::{Branch, ExpansionScan, Frozen, Meaning, Rest, Scan, Skip, Until};
use std::alloc::AllocError;

/// What a token is in a text that isn't taken.
#[derive(Clone, Copy)]
pub enum Skipped {
    /// A conditional begins.
    Opens,
    /// `\fi`, `\else` or `\or`.
    Part(FiOrElseKind),
    Other,
}

fn skip_on(skip: Skip) -> Plan
    ensures { result ≡ quiet (skip_on skip) }
{
    quiet(Move::Stay(Scan::Expansion(ExpansionScan::Skip(skip))))
}

/// The text that isn't taken ends with a `\fi`, and the conditional with it.
fn skip_closed(rest: &mut Rest) -> Result<Plan, AllocError>
    ensures rest { OnOk result (rest_of rest.new ≡ (skip_closed (rest_of rest.old)).rest) }
    ensures plan { IfOk result (λ plan. plan ≡ (skip_closed (rest_of rest.old)).plan) }
    ensures kept { Keeps rest.old rest.new }
{
    rest.close_condition()?;
    Ok(quiet(used()))
}

/// It ends, and this branch begins.
fn skip_over(rest: &mut Rest, number: u32, branch: Branch) -> Result<Plan, AllocError>
    ensures rest { OnOk result (rest_of rest.new ≡ (skip_over number branch (rest_of rest.old)).rest) }
    ensures plan { IfOk result (λ plan. plan ≡ (skip_over number branch (rest_of rest.old)).plan) }
    ensures kept { Keeps rest.old rest.new }
{
    rest.set_branch(number as usize, branch)?;
    Ok(quiet(used()))
}

/// The text of the error that a part of a conditional stands where it doesn't belong.
fn extra_text(rest: &Rest, kind: FiOrElseKind) -> Result<Bytes, AllocError>
    ensures { IfOk result (λ text. text ≡ extra_text kind (rest_of rest.now)) }
{
    let mut text = Bytes::from_slice(rest.alloc(), b"Extra ")?;
    push_escaped(rest, &mut text, kind.name())?;
    Ok(text)
}

/// A `\fi`, `\else` or `\or` of a conditional further inside, whose own text is left out too.
fn inner_end(rest: &mut Rest, skip: Skip, kind: FiOrElseKind) -> Result<Plan, AllocError>
    ensures rest { OnOk result (rest_of rest.new ≡ (inner_end kind skip (rest_of rest.old)).rest) }
    ensures plan { IfOk result (λ plan. plan ≡ (inner_end kind skip (rest_of rest.old)).plan) }
    ensures kept { Keeps rest.old rest.new }
{
    match kind {
        FiOrElseKind::Fi => {
            rest.close_condition()?;
            Ok(skip_on(skip))
        }
        FiOrElseKind::Else => Ok(skip_on(skip)),
        FiOrElseKind::Or => Ok(skip_on(skip)),
    }
}

/// One of the conditional whose `\else` or `\fi` is looked for.
fn own_end(rest: &mut Rest, skip: Skip, number: u32, kind: FiOrElseKind) -> Result<Plan, AllocError>
    ensures rest { OnOk result (rest_of rest.new ≡ (own_end kind number skip (rest_of rest.old)).rest) }
    ensures plan { IfOk result (λ plan. plan ≡ (own_end kind number skip (rest_of rest.old)).plan) }
    ensures kept { Keeps rest.old rest.new }
{
    match kind {
        FiOrElseKind::Fi => skip_closed(rest),
        FiOrElseKind::Else => skip_over(rest, number, Branch::Last),
        FiOrElseKind::Or => {
            let text = extra_text(rest, kind)?;
            let again = Scan::Expansion(ExpansionScan::Skip(skip));
            fails(rest.alloc(), text.as_slice(), Move::Stay(again))
        }
    }
}

/// One of the conditional of which a case is looked for.
fn case_end(
    rest: &mut Rest,
    skip: Skip,
    number: u32,
    cases: Option<u32>,
    kind: FiOrElseKind,
) -> Result<Plan, AllocError>
    ensures rest { OnOk result (rest_of rest.new ≡ (case_end kind cases number skip (rest_of rest.old)).rest) }
    ensures plan { IfOk result (λ plan. plan ≡ (case_end kind cases number skip (rest_of rest.old)).plan) }
    ensures kept { Keeps rest.old rest.new }
{
    match kind {
        FiOrElseKind::Fi => skip_closed(rest),
        FiOrElseKind::Else => skip_over(rest, number, Branch::Last),
        FiOrElseKind::Or => match cases {
            None => Ok(skip_on(skip)),
            Some(left) => {
                if left <= 1 {
                    return skip_over(rest, number, Branch::Case);
                }
                let until = Until::Or {
                    number,
                    cases: Some(left - 1),
                };
                Ok(skip_on(Skip { until, ..skip }))
            }
        },
    }
}

/// A part of a conditional, where `\fi` is looked for.
fn fi_end(rest: &mut Rest, skip: Skip, kind: FiOrElseKind) -> Result<Plan, AllocError>
    ensures rest { OnOk result (rest_of rest.new ≡ (fi_end kind skip (rest_of rest.old)).rest) }
    ensures plan { IfOk result (λ plan. plan ≡ (fi_end kind skip (rest_of rest.old)).plan) }
    ensures kept { Keeps rest.old rest.new }
{
    match kind {
        FiOrElseKind::Fi => skip_closed(rest),
        FiOrElseKind::Else => Ok(skip_on(skip)),
        FiOrElseKind::Or => Ok(skip_on(skip)),
    }
}

/// A part of a conditional, where none is open in the text.
fn skip_ends(rest: &mut Rest, line: u32, skip: Skip, kind: FiOrElseKind) -> Result<Plan, AllocError>
    ensures rest { OnOk result (rest_of rest.new ≡ (skip_ends skip.until kind (record skip { line = line }) (rest_of rest.old)).rest) }
    ensures plan { IfOk result (λ plan. plan ≡ (skip_ends skip.until kind (record skip { line = line }) (rest_of rest.old)).plan) }
    ensures kept { Keeps rest.old rest.new }
{
    // What is left out from here on is a text of its own: errors say that it began in this line.
    let skip = Skip { line, ..skip };
    match skip.until {
        Until::Fi => fi_end(rest, skip, kind),
        Until::Else { number } => {
            if rest.conditions() == number as usize {
                own_end(rest, skip, number, kind)
            } else {
                inner_end(rest, skip, kind)
            }
        }
        Until::Or { number, cases } => {
            if rest.conditions() == number as usize {
                case_end(rest, skip, number, cases, kind)
            } else {
                inner_end(rest, skip, kind)
            }
        }
    }
}

/// A part of a conditional that is open in the text.
fn deeper_end(skip: Skip, kind: FiOrElseKind) -> Plan
    requires { 0 < skip.level }
    ensures { (r : RestState) → result ≡ (deeper_end kind skip r).plan }
{
    match kind {
        FiOrElseKind::Fi => skip_on(Skip {
            level: skip.level - 1,
            ..skip
        }),
        FiOrElseKind::Else => skip_on(skip),
        FiOrElseKind::Or => skip_on(skip),
    }
}

/// A part of a conditional in a text that isn't taken.
fn part_skipped(
    rest: &mut Rest,
    line: u32,
    skip: Skip,
    kind: FiOrElseKind,
) -> Result<Plan, AllocError>
    ensures rest { OnOk result (rest_of rest.new ≡ (part_skipped kind skip line (rest_of rest.old)).rest) }
    ensures plan { IfOk result (λ plan. plan ≡ (part_skipped kind skip line (rest_of rest.old)).plan) }
    ensures kept { Keeps rest.old rest.new }
{
    if skip.level == 0 {
        return skip_ends(rest, line, skip, kind);
    }
    Ok(deeper_end(skip, kind))
}

/// A conditional in a text that isn't taken. More than 32 bits count have no room in any memory.
fn one_deeper(skip: Skip) -> Result<Plan, AllocError>
    ensures { IfOk result (λ plan. plan ≡ quiet (skip_on (record skip { level = skip.level + 1 }))) }
{
    match skip.level.checked_add(1) {
        Some(level) => Ok(skip_on(Skip { level, ..skip })),
        None => Err(AllocError),
    }
}

/// A token of a text that isn't taken.
#[tactic(auto, unfolding(crate::specs::Conditionals::skip_row))]
pub fn skip_row(
    rest: &mut Rest,
    line: u32,
    skip: Skip,
    meaning: &Meaning,
) -> Result<Plan, AllocError>
    ensures rest { OnOk result (rest_of rest.new ≡ (skip_row skip meaning.now line (rest_of rest.old)).rest) }
    ensures plan { IfOk result (λ plan. plan ≡ (skip_row skip meaning.now line (rest_of rest.old)).plan) }
    ensures kept { Keeps rest.old rest.new }
{
    match skipped_of(meaning) {
        Skipped::Opens => one_deeper(skip),
        Skipped::Part(kind) => part_skipped(rest, line, skip, kind),
        Skipped::Other => Ok(skip_on(skip)),
    }
}

fn skipped_of(meaning: &Meaning) -> Skipped
    ensures { result ≡ skipped_of meaning.now }
{
    match meaning {
        Meaning::Primitive(primitive) => primitive_skipped(*primitive),
        _ => Skipped::Other,
    }
}

fn primitive_skipped(primitive: Primitive) -> Skipped
    ensures { result ≡ primitive_skipped primitive }
{
    match primitive {
        Primitive::Conditional(_) => Skipped::Opens,
        Primitive::FiOrElse(kind) => Skipped::Part(kind),
        _ => Skipped::Other,
    }
}

/// `\relax` ends a test that is still being read, and then the token comes again.
fn relax_before(rest: &Rest, token: Token) -> Result<Start, AllocError>
    ensures { IfOk result (λ start. start ≡ starting (Push.Insert (Insert.Text (relax ∷ token ∷ [])))) }
{
    let alloc = rest.alloc();
    let mut tokens = Tokens::new(alloc);
    tokens.push(Token::Name(Frozen::Relax.name()))?;
    tokens.push(token)?;
    let text = SharedTokens::new(alloc, tokens)?;
    Ok(starting(Push::Insert(Insert::Text(text))))
}

fn extra(rest: &Rest, kind: FiOrElseKind) -> Result<Start, AllocError>
    ensures { IfOk result (λ start. start ≡ (extra kind (rest_of rest.now)).start) }
{
    let text = extra_text(rest, kind)?;
    start_fails(rest.alloc(), text.as_slice(), nothing())
}

fn may_else_follow(branch: Branch) -> bool
    ensures { result ≡ may_follow branch FiOrElseKind.Else }
{
    match branch {
        Branch::Test => false,
        Branch::First => true,
        Branch::Last => false,
        Branch::Case => true,
    }
}

fn may_or_follow(branch: Branch) -> bool
    ensures { result ≡ may_follow branch FiOrElseKind.Or }
{
    match branch {
        Branch::Test => false,
        Branch::First => false,
        Branch::Last => false,
        Branch::Case => true,
    }
}

/// Whether a part may follow in this branch.
fn may_follow(branch: Branch, kind: FiOrElseKind) -> bool
    ensures { result ≡ may_follow branch kind }
{
    match kind {
        FiOrElseKind::Fi => true,
        FiOrElseKind::Else => may_else_follow(branch),
        FiOrElseKind::Or => may_or_follow(branch),
    }
}

/// A part that belongs where it stands.
fn part_taken(rest: &mut Rest, line: u32, kind: FiOrElseKind) -> Result<Start, AllocError>
    ensures rest { OnOk result (rest_of rest.new ≡ (part_taken kind line (rest_of rest.old)).rest) }
    ensures start { IfOk result (λ start. start ≡ (part_taken kind line (rest_of rest.old)).start) }
    ensures kept { Keeps rest.old rest.new }
{
    match kind {
        FiOrElseKind::Fi => {
            rest.close_condition()?;
            Ok(starting(nothing()))
        }
        FiOrElseKind::Else => Ok(begins(skipping(Until::Fi, line))),
        FiOrElseKind::Or => Ok(begins(skipping(Until::Fi, line))),
    }
}

/// A part behind the test: it belongs there, or it is an error.
fn part_behind(
    rest: &mut Rest,
    line: u32,
    branch: Branch,
    kind: FiOrElseKind,
) -> Result<Start, AllocError>
    ensures rest { OnOk result (rest_of rest.new ≡ (part_behind branch kind line (rest_of rest.old)).rest) }
    ensures start { IfOk result (λ start. start ≡ (part_behind branch kind line (rest_of rest.old)).start) }
    ensures kept { Keeps rest.old rest.new }
{
    if may_follow(branch, kind) {
        part_taken(rest, line, kind)
    } else {
        extra(rest, kind)
    }
}

/// A part of the innermost conditional.
fn part_begun(
    rest: &mut Rest,
    line: u32,
    branch: Branch,
    kind: FiOrElseKind,
    token: Token,
) -> Result<Start, AllocError>
    ensures rest { OnOk result (rest_of rest.new ≡ (part_begun branch kind token line (rest_of rest.old)).rest) }
    ensures start { IfOk result (λ start. start ≡ (part_begun branch kind token line (rest_of rest.old)).start) }
    ensures kept { Keeps rest.old rest.new }
{
    match branch {
        Branch::Test => relax_before(rest, token),
        Branch::First => part_behind(rest, line, branch, kind),
        Branch::Last => part_behind(rest, line, branch, kind),
        Branch::Case => part_behind(rest, line, branch, kind),
    }
}

/// `\fi`, `\else` and `\or`.
#[tactic(auto, unfolding(crate::specs::Conditionals::fi_or_else_begun))]
pub fn fi_or_else_begun(
    rest: &mut Rest,
    line: u32,
    kind: FiOrElseKind,
    token: Token,
) -> Result<Start, AllocError>
    ensures rest { OnOk result (rest_of rest.new ≡ (fi_or_else_begun kind token line (rest_of rest.old)).rest) }
    ensures start { IfOk result (λ start. start ≡ (fi_or_else_begun kind token line (rest_of rest.old)).start) }
    ensures kept { Keeps rest.old rest.new }
{
    match rest.condition() {
        None => extra(rest, kind),
        Some(condition) => part_begun(rest, line, condition.branch, kind, token),
    }
}

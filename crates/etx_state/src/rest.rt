//! The rest of the state: all that is not scanning.
ghost use Rattle.std.specs.Prelude.{◌≡◌, false, ◌↔◌, ◌≤◌, ◌++◌, ◌∷◌, length, reverse, slice_get, Err, OnOk, OnErr, IfOk};
ghost use Rattle.std.specs.Option.{option_map};
ghost use Rattle.etx_undo.specs.declared.state_mark.RestMark.{RestMark};
ghost use Rattle.etx_prims.specs.Lookup.{primitive_named};
ghost use Rattle.etx_state.specs.declared.rest.Rest.{Rest};
ghost use Rattle.etx_stack.specs.Undoing as undoing;
ghost use Rattle.etx_state.specs.Fits.{Fits};
ghost use Rattle.etx_state.specs.Naming.{IsApart, IsFresh};
ghost use Rattle.etx_state.specs.Conditions.{top_condition, without_top, with_branch};
ghost use Rattle.etx_state.specs.Initial.{no_glue};
ghost use Rattle.etx_state.specs.Reading.{number_at, glue_at, tokens_at, category_in, meaning_in, active_in, int_in, kept_in, token_meaning};
ghost use Rattle.etx_state.specs.Values.{get, assign, assign_global, change, begin, ended, after, kind, noted, level};
ghost use Rattle.etx_state.specs.Rests.{
  rest_of,
  rest_at,
  first_rest,
  with_values,
  with_conditions,
  with_mag,
  is_undefined,
  is_defined_name,
  OnlyValues,
  number_of,
  has_room,
  named,
  with_name,
  IsKept,
  IsBefore,
  Keeps,
};

use crate::condition::{Branch, Condition};
use crate::key::{GroupKind, Meaning, Val};
use crate::limit::{Capacity, MOST_NAMES};
use crate::names::Names;
use crate::noted::Noted;
use crate::scopes::Scopes;
use etx_keys::{Key, Single};
use etx_lexer::CatOf;
use etx_lists::Bytes;
use etx_matter::{Glue, GlueOrder, Limit, NameId, SharedTokens, Token, Tokens};
use etx_prims::{IntParam, lookup};
use etx_stack::Stack;
use etx_undo::RestMark;
use std::alloc::{AllocError, Global};

/// What the end of a group leaves.
#[derive(Drop)]
pub struct Ended {
    /// The kind of the group. `None` exactly where no group was open.
    pub kind: Option<GroupKind>,
    /// The tokens that were noted in it, in the order in which they were noted.
    pub tokens: Tokens,
}

/// All of the state that is not scanning: values under keys, in groups, the names of control sequences, the conditionals that
/// are open, the name of the job, and the magnification once it is fixed.
///
/// Contracts see it as a plain record (`rest_of`). Its values are a list of maps, one for each open group and an outermost
/// one that has every key; its names are a list in which each has its number as its place. Every value fits its key. It
/// goes back to marks, and every call keeps what it was at the marks that were taken before (`Keeps`), whatever it answers.
///
/// The limit of open groups is kept by the calls of `etx_groups`.
#[derive(Drop)]
pub struct Rest {
    alloc: Global,
    scopes: Scopes,
    names: Names,
    conditions: Stack<Condition>,
    job: Bytes,
    mag: u16,
}

/// No glue.
fn no_glue() -> Glue
    ensures { result ≡ no_glue }
{
    Glue {
        width: 0,
        stretch: 0,
        shrink: 0,
        stretch_order: GlueOrder::Normal,
        shrink_order: GlueOrder::Normal,
    }
}

/// Whether it is no meaning.
fn is_undefined(meaning: &Meaning) -> bool
    ensures { result ≡ is_undefined meaning.now }
{
    match meaning {
        Meaning::Undefined => true,
        _ => false,
    }
}

/// Those inside the one that changes are taken off, and put on again.
fn change_branch(
    conditions: &mut Stack<Condition>,
    number: usize,
    branch: Branch,
) -> Result<(), AllocError>
    ensures ok { OnOk result (reverse conditions.new.items ≡ with_branch number branch (reverse conditions.old.items)) }
    ensures kept { undoing.Keeps conditions.old conditions.new }
{
    let len = conditions.len();
    let Some(condition) = conditions.pop()? else {
        return Ok(());
    };
    if len == number {
        return conditions.push(Condition {
            branch,
            ..condition
        });
    }
    change_branch(conditions, number, branch)?;
    conditions.push(condition)
}

impl Rest {
    /// That of INITEX at the start of a job: no group is open, and `par` alone has a number, which is `PAR`.
    pub fn open(alloc: Global, job: &[u8]) -> Result<Rest, AllocError>
        ensures { IfOk result (λ r. rest_of r ≡ first_rest job.now) }
    {
        let mut names = Names::new(alloc);
        names.add(alloc, b"par")?;
        let scopes = Scopes::new(alloc)?;
        let job = Bytes::from_slice(alloc, job)?;
        Ok(Rest {
            alloc,
            scopes,
            names,
            conditions: Stack::new(alloc),
            job,
            mag: 0,
        })
    }

    /// The allocator that it takes memory from.
    pub fn alloc(&self) -> Global
        ensures { result ≡ self.now.alloc }
    {
        self.alloc
    }

    /// The value under the key: that of the innermost map that has it.
    pub fn get(&self, key: Key) -> &Val
        ensures value { result.now ≡ get (rest_of self.now).values key }
        ensures fits { Fits key result.now }
    {
        self.scopes.get(key)
    }

    /// The category of a character, at most 15.
    pub fn category(&self, code: u8) -> u8
        ensures value { result ≡ category_in (rest_of self.now).values code }
        ensures small { result ≤ 15 }
    {
        self.scopes.category(code)
    }

    /// The meaning of a control sequence. Those of frozen ones ([`Frozen`](crate::Frozen)) are fixed.
    #[tactic(auto, unfolding(crate::specs::Reading::meaning_in))]
    pub fn meaning(&self, name: NameId) -> &Meaning
        ensures { result.now ≡ meaning_in (rest_of self.now).values name.0 }
    {
        if name.0 >= MOST_NAMES {
            return self.scopes.frozen(name);
        }
        match self.get(Key::Meaning(name.0)) {
            Val::Means(meaning) => meaning,
            _ => unreachable!(),
        }
    }

    /// The meaning of an active character.
    #[tactic(auto, unfolding(crate::specs::Reading::active_in))]
    pub fn active(&self, code: u8) -> &Meaning
        ensures { result.now ≡ active_in (rest_of self.now).values code }
    {
        match self.get(Key::Active(code)) {
            Val::Means(meaning) => meaning,
            _ => unreachable!(),
        }
    }

    /// What a token means: an active character (category 13) and a control sequence what was given to them, every other
    /// character itself, and a parameter nothing. A macro is shared, and not copied.
    #[tactic(auto, unfolding(crate::specs::Reading::token_meaning))]
    pub fn meaning_of(&self, token: Token) -> Result<Meaning, AllocError>
        ensures { IfOk result (λ meaning. meaning ≡ token_meaning (rest_of self.now).values token) }
    {
        match token {
            Token::Char { code, cat: 13 } => self.active(code).share(),
            Token::Char { code, cat } => Ok(Meaning::Char { code, cat }),
            Token::Name(name) => self.meaning(name).share(),
            Token::Param(_) => Ok(Meaning::Undefined),
        }
    }

    /// The value of an integer parameter.
    #[tactic(auto, unfolding(crate::specs::Reading::int_in))]
    pub fn int(&self, parameter: IntParam) -> i32
        ensures { result ≡ int_in (rest_of self.now).values parameter }
    {
        match self.get(Key::Int(parameter)) {
            Val::Int(number) => *number,
            _ => unreachable!(),
        }
    }

    /// The number under a key, which may be a dimension. 0 where no number stands under it.
    #[tactic(auto, unfolding(crate::specs::Reading::number_at))]
    pub fn number(&self, key: Key) -> i32
        ensures { result ≡ number_at (rest_of self.now).values key }
    {
        match self.get(key) {
            Val::Int(number) => *number,
            _ => 0,
        }
    }

    /// The glue under a key, which may be math glue. None where no glue stands under it.
    #[tactic(auto, unfolding(crate::specs::Reading::glue_at))]
    pub fn glue(&self, key: Key) -> Glue
        ensures { result ≡ glue_at (rest_of self.now).values key }
    {
        match self.get(key) {
            Val::Glue(glue) => *glue,
            _ => no_glue(),
        }
    }

    /// The tokens under a key, which are shared. None where no tokens stand under it.
    #[tactic(auto, unfolding(crate::specs::Reading::tokens_at))]
    pub fn tokens(&self, key: Key) -> Result<SharedTokens, AllocError>
        ensures { IfOk result (λ tokens. tokens ≡ tokens_at (rest_of self.now).values key) }
    {
        match self.get(key) {
            Val::Tokens(tokens) => tokens.share(),
            _ => SharedTokens::new(self.alloc, Tokens::new(self.alloc)),
        }
    }

    /// The name of the job.
    pub fn job(&self) -> &[u8]
        ensures { result.now ≡ (rest_of self.now).job }
    {
        self.job.as_slice()
    }

    /// The magnification that was fixed at its first use, or 0.
    pub fn fixed_mag(&self) -> u16
        ensures { result ≡ (rest_of self.now).mag }
    {
        self.mag
    }

    /// Fixes the magnification.
    #[tactic(auto, using(crate::proofs::Marks::keeps_scopes))]
    pub fn fix_mag(&mut self, mag: u16)
        ensures rest { rest_of self.new ≡ with_mag mag (rest_of self.old) }
        ensures kept { Keeps self.old self.new }
    {
        self.mag = mag;
    }

    /// The number of conditionals that are open.
    pub fn conditions(&self) -> usize
        ensures { result ≡ length (rest_of self.now).conditions }
    {
        self.conditions.len()
    }

    /// The innermost conditional. `None` exactly where none is open.
    #[tactic(auto, using(crate::proofs::Conditions::condition_top))]
    pub fn condition(&self) -> Option<Condition>
        ensures { result ≡ top_condition (rest_of self.now).conditions }
    {
        self.conditions.last().copied()
    }

    /// One conditional more. After an `Err` the rest is what it was.
    #[tactic(auto, using(crate::proofs::Conditions::condition_more, crate::proofs::Marks::keeps_conditions))]
    pub fn open_condition(&mut self, condition: Condition) -> Result<(), AllocError>
        ensures ok { OnOk result (rest_of self.new ≡ with_conditions (condition ∷ (rest_of self.old).conditions) (rest_of self.old)) }
        ensures err { OnErr result (self.new ≡ self.old) }
        ensures kept { Keeps self.old self.new }
    {
        self.conditions.push(condition)
    }

    /// The innermost conditional is over. After an `Err` the rest is what it was.
    #[tactic(auto, using(crate::proofs::Conditions::condition_fewer, crate::proofs::Marks::keeps_conditions))]
    pub fn close_condition(&mut self) -> Result<(), AllocError>
        ensures ok { OnOk result (rest_of self.new ≡ with_conditions (without_top (rest_of self.old).conditions) (rest_of self.old)) }
        ensures kept { Keeps self.old self.new }
    {
        self.conditions.drop_last()
    }

    /// The n-th conditional from the outside has come to a branch. After an `Err` the rest is only dropped.
    #[tactic(auto, using(crate::proofs::Marks::keeps_conditions))]
    pub fn set_branch(&mut self, number: usize, branch: Branch) -> Result<(), AllocError>
        ensures ok { OnOk result (rest_of self.new ≡ with_conditions (with_branch number branch (rest_of self.old).conditions) (rest_of self.old)) }
        ensures kept { Keeps self.old self.new }
    {
        change_branch(&mut self.conditions, number, branch)
    }

    /// Whether a name means something. It gets no number by this.
    pub fn is_defined_name(&self, name: &[u8]) -> bool
        ensures { result ≡ is_defined_name name.now (rest_of self.now) }
    {
        match self.names.find(name) {
            Some(number) => !is_undefined(self.meaning(number)),
            None => lookup(name).is_some(),
        }
    }

    /// The token that `\afterassignment` keeps, if there is one.
    #[tactic(auto, unfolding(crate::specs::Reading::kept_in))]
    pub fn after_assignment(&self) -> Option<Token>
        ensures { result ≡ kept_in (rest_of self.now).values }
    {
        match self.get(Key::Single(Single::AfterAssignment)) {
            Val::Kept(token) => *token,
            _ => unreachable!(),
        }
    }

    /// The number of open groups.
    pub fn level(&self) -> u32
        ensures { result ≡ level (rest_of self.now).values }
    {
        self.scopes.level()
    }

    /// The kind of the innermost group. `None` exactly where no group is open.
    pub fn kind(&self) -> Option<GroupKind>
        ensures { result ≡ kind (rest_of self.now).values }
    {
        self.scopes.kind()
    }

    /// Changes the value in place: in the innermost map that has the key. After an `Err` the rest is what it was.
    #[tactic(auto, using(crate::proofs::Marks::keeps_scopes))]
    pub fn set(&mut self, key: Key, value: Val) -> Result<(), AllocError>
        requires { Fits key value }
        ensures ok { OnOk result (rest_of self.new ≡ with_values (change (rest_of self.old).values key value) (rest_of self.old)) }
        ensures err { OnErr result (self.new ≡ self.old) }
        ensures rest { OnlyValues (rest_of self.old) (rest_of self.new) }
        ensures kept { Keeps self.old self.new }
    {
        self.scopes.change(key, value)
    }

    /// A local assignment: the innermost map has the key with this value. After an `Err` the values may have changed.
    #[tactic(auto, using(crate::proofs::Marks::keeps_scopes))]
    pub fn assign(&mut self, key: Key, value: Val) -> Result<(), AllocError>
        requires { Fits key value }
        ensures ok { OnOk result (rest_of self.new ≡ with_values (assign (rest_of self.old).values key value) (rest_of self.old)) }
        ensures rest { OnlyValues (rest_of self.old) (rest_of self.new) }
        ensures kept { Keeps self.old self.new }
    {
        self.scopes.assign(key, value)
    }

    /// A global assignment: the outermost map has the key with this value, and no other map has the key. After an `Err` the
    /// rest is what it was.
    #[tactic(auto, using(crate::proofs::Marks::keeps_scopes))]
    pub fn assign_global(&mut self, key: Key, value: Val) -> Result<(), AllocError>
        requires { Fits key value }
        ensures ok { OnOk result (rest_of self.new ≡ with_values (assign_global (rest_of self.old).values key value) (rest_of self.old)) }
        ensures err { OnErr result (self.new ≡ self.old) }
        ensures rest { OnlyValues (rest_of self.old) (rest_of self.new) }
        ensures kept { Keeps self.old self.new }
    {
        self.scopes.assign_global(key, value)
    }

    /// One more group: a map that has no key. After an `Err` the rest is what it was.
    ///
    /// The limit of open groups is kept by `etx_groups::begin`.
    #[tactic(auto, using(crate::proofs::Marks::keeps_scopes))]
    pub fn begin(&mut self, kind: GroupKind) -> Result<(), AllocError>
        ensures ok { OnOk result (rest_of self.new ≡ with_values (begin (rest_of self.old).values kind) (rest_of self.old)) }
        ensures err { OnErr result (self.new ≡ self.old) }
        ensures rest { OnlyValues (rest_of self.old) (rest_of self.new) }
        ensures kept { Keeps self.old self.new }
    {
        self.scopes.begin(kind)
    }

    /// The end of the innermost group: its map is gone. Where no group is open, nothing is changed. After an `Err` the values
    /// may have changed.
    #[tactic(auto, using(crate::proofs::Marks::keeps_scopes))]
    pub fn end(&mut self) -> Result<Ended, AllocError>
        ensures kind { IfOk result (λ ended. ended.kind ≡ kind (rest_of self.old).values) }
        ensures tokens { IfOk result (λ ended. ended.tokens ≡ after (rest_of self.old).values) }
        ensures ok { OnOk result (rest_of self.new ≡ with_values (ended (rest_of self.old).values) (rest_of self.old)) }
        ensures rest { OnlyValues (rest_of self.old) (rest_of self.new) }
        ensures kept { Keeps self.old self.new }
    {
        let mut noted = Noted::new(self.alloc);
        let kind = self.scopes.end(&mut noted)?;
        let tokens = noted.into_tokens()?;
        Ok(Ended { kind, tokens })
    }

    /// Notes a token, to be read behind the end of the innermost group. Where no group is open, nothing is noted. After an
    /// `Err` the rest is what it was.
    #[tactic(auto, using(crate::proofs::Marks::keeps_scopes))]
    pub fn after(&mut self, token: Token) -> Result<(), AllocError>
        ensures ok { OnOk result (rest_of self.new ≡ with_values (noted (rest_of self.old).values token) (rest_of self.old)) }
        ensures err { OnErr result (self.new ≡ self.old) }
        ensures rest { OnlyValues (rest_of self.old) (rest_of self.new) }
        ensures kept { Keeps self.old self.new }
    {
        self.scopes.after(token)
    }

    /// The number of a name. A name has one number for good; a new one gets the next, and, where a primitive has this name,
    /// that meaning in the outermost map. Another new name means nothing, unless its number's key (`Key::Meaning`) was
    /// written before: only the keys of numbers that were answered here are to be written.
    ///
    /// `Full` comes exactly where a new name would be one more than 2^20, so that its number would be 2^20. After an `Err`
    /// the rest is what it was.
    #[tactic(auto, unfolding(crate::specs::Rests::with_name, crate::specs::Rests::number_of, crate::specs::Rests::has_room))]
    pub fn name(&mut self, bytes: &[u8]) -> Result<NameId, Capacity>
        ensures number { IfOk result (λ n. n.0 ≡ number_of bytes.now (rest_of self.old)) }
        ensures ok { OnOk result (rest_of self.new ≡ with_name bytes.now (rest_of self.old)) }
        ensures full { (result ≡ Err (Capacity.Full Limit.Names)) ↔ (has_room bytes.now (rest_of self.old) ≡ false) }
        ensures only { (limit : Limit) → result ≡ Err (Capacity.Full limit) → limit ≡ Limit.Names }
        ensures err { OnErr result (self.new ≡ self.old) }
        ensures apart { IsApart (rest_of self.new).names }
        ensures kept { Keeps self.old self.new }
    {
        match self.names.find(bytes) {
            Some(number) => Ok(number),
            None => self.add_name(bytes),
        }
    }

    /// Gives a new name the next number.
    fn add_name(&mut self, bytes: &[u8]) -> Result<NameId, Capacity>
        requires { IsFresh (rest_of self.old).names bytes.now }
        ensures number { IfOk result (λ n. n.0 ≡ length (rest_of self.old).names) }
        ensures ok { OnOk result (rest_of self.new ≡ named (primitive_named bytes.now) bytes.now (rest_of self.old)) }
        ensures full { (result ≡ Err (Capacity.Full Limit.Names)) ↔ (length (rest_of self.old).names ≡ 1048576) }
        ensures only { (limit : Limit) → result ≡ Err (Capacity.Full limit) → limit ≡ Limit.Names }
        ensures err { OnErr result (self.new ≡ self.old) }
        ensures apart { IsApart (rest_of self.new).names }
        ensures kept { Keeps self.old self.new }
    {
        let number = self.names.len();
        if number == MOST_NAMES {
            return Err(Capacity::Full(Limit::Names));
        }
        self.names.add(self.alloc, bytes)?;
        let Some(primitive) = lookup(bytes) else {
            return Ok(NameId(number));
        };
        let meaning = Val::Means(Meaning::Primitive(primitive));
        match self.scopes.assign_global(Key::Meaning(number), meaning) {
            Ok(()) => Ok(NameId(number)),
            Err(_) => {
                self.names.truncate(number);
                Err(Capacity::OutOfMemory)
            }
        }
    }

    /// The name with this number. `None` exactly where no name has it.
    pub fn name_text(&self, number: NameId) -> Option<&[u8]>
        ensures { option_map (λ text. text.now) result ≡ slice_get (rest_of self.now).names number.0 }
    {
        self.names.text(number)
    }

    /// The value under the key at the mark: that of the innermost map that had it then. Takes time by the number of changes
    /// since the mark, and no memory.
    pub fn value_at(&self, mark: RestMark, key: Key) -> &Val
        requires { IsKept mark self.now self.now }
        ensures value { result.now ≡ get (rest_at self.now mark).values key }
        ensures fits { Fits key result.now }
    {
        self.scopes.value_at(mark, key)
    }

    /// A mark of this time. Takes no memory.
    #[tactic(auto, using(crate::proofs::Marks::keeps_scopes))]
    pub fn mark(&mut self) -> RestMark
        ensures same { rest_of self.new ≡ rest_of self.old }
        ensures live { IsKept result self.new self.new }
        ensures rest { rest_at self.new result ≡ rest_of self.new }
        ensures kept { Keeps self.old self.new }
        ensures before { (m : RestMark) (first : Rest) → IsKept m first self.old → IsBefore m result }
    {
        let names = self.names.len();
        let conditions = self.conditions.mark();
        self.scopes.mark(names, conditions, self.mag)
    }

    /// Makes the rest what it was at the mark: each value, and each open group, and a name that was made after it is gone.
    /// Marks that were taken before it keep what they stand for. Takes no memory.
    pub fn back_to(&mut self, mark: RestMark)
        requires { IsKept mark self.old self.old }
        ensures rest { rest_of self.new ≡ rest_at self.old mark }
        ensures first { (first : Rest) → IsKept mark first self.old → rest_of self.new ≡ rest_at first mark }
        ensures kept { (m : RestMark) (first : Rest) → IsBefore m mark → IsKept m first self.old → IsKept m first self.new }
    {
        self.scopes.back_to(mark);
        self.names.truncate(mark.names);
        self.conditions.back_to(mark.conditions);
        self.mag = mark.mag;
    }

    /// The rest stays, and what it was before is forgotten: earlier marks no longer stand for anything. Takes no memory.
    pub fn forget(&mut self)
        ensures { rest_of self.new ≡ rest_of self.old }
    {
        self.scopes.forget();
        self.conditions.forget();
    }
}

impl CatOf for Rest {
    ghost category = { λ rest code. category_in (rest_of rest).values code };

    fn cat(&self, code: u8) -> u8 {
        self.category(code)
    }
}

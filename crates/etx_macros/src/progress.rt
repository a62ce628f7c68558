// How far the match of a call has come.
ghost use Rattle.std.specs.Prelude.{◌≤◌, length, All};
ghost use Rattle.etx_macros.specs.Marks.{IsDelimiter};

use crate::argument::{
    Turn, delimited_turn, has_at, longest_end, said, undelimited_turn, unwrapped,
};
use crate::fault::{Fed, MatchFault};
use crate::mark::is_space;
use crate::pattern::Pattern;
use etx_lists::Listed;
use etx_matter::{Token, Tokens};
use std::alloc::{AllocError, Global};

/// The match of a call against a pattern.
#[derive(Drop)]
pub(crate) struct Progress {
    alloc: Global,
    pub(crate) pattern: Pattern,
    pub(crate) long: bool,
    /// The arguments that are complete.
    pub(crate) args: Listed<Tokens>,
    /// The part of the pattern that is being matched.
    pub(crate) part: usize,
    /// What was read of this part, without the spaces before an undelimited argument.
    read: Tokens,
    /// How many braces are open in what was read.
    pub(crate) depth: usize,
    /// How many tokens of the delimiter end what was read, where no brace is open.
    matched: usize,
    failed: bool,
    ghost shallow: { depth ≤ length read },
    ghost short: { matched ≤ length read },
    ghost flat: { All IsDelimiter pattern },
}

impl Progress {
    ghost use Rattle.std.specs.Prelude.{◌≡◌, ◌<◌, ◌≤◌, ◌++◌, ◌∷◌, [], ◌-◌, IfOk, OnErr, List, take, slice_get, true};
    ghost use Rattle.etx_matter.specs.declared.token.Token.{Token};
    ghost use Rattle.etx_macros.specs.Feeding.{matched_in, part_of, ended, refused, text_fed, argument_fed, part_fed, fed_of, argument_of, is_going, is_done, is_delimited, is_skipped, started, Makes};
    ghost use Rattle.etx_macros.specs.Progress.{IsGoing, KeepsPattern};
    ghost use Rattle.etx_macros.specs.Seen.{state_of};

    /// Ends a part.
    fn end_part(&mut self) -> Fed
        requires { self.old.part < length self.old.pattern }
        ensures { Makes (ended (state_of self.old) self.old.args) result (state_of self.new) }
    {
        let count = self.pattern.parts().len();
        self.part += 1;
        self.read = Tokens::new(self.alloc);
        self.depth = 0;
        self.matched = 0;
        said(self.part, count)
    }

    /// Ends an argument, the last `delimiter` tokens of which are its delimiter.
    fn end_argument(&mut self, delimiter: usize) -> Result<Fed, AllocError>
        requires long_enough { delimiter ≤ length self.old.read }
        requires in_parts { self.old.part < length self.old.pattern }
        ensures makes { IfOk result (λ fed. Makes (ended (state_of self.old) (self.old.args ++ argument_of (take (length self.old.read - delimiter) self.old.read) ∷ [])) fed (state_of self.new)) }
        ensures keeps { KeepsPattern (state_of self.old) (state_of self.new) }
    {
        let read = self.read.as_slice();
        let arg = unwrapped(self.alloc, &read[..read.len() - delimiter])?;
        self.args.push(arg)?;
        Ok(self.end_part())
    }

    /// Refuses a token. What was read of the part is given up.
    fn refuse(&mut self, fault: MatchFault) -> Fed
        ensures { Makes (refused fault (state_of self.old)) result (state_of self.new) }
    {
        self.read = Tokens::new(self.alloc);
        self.depth = 0;
        self.matched = 0;
        self.failed = true;
        Fed::Fault(fault)
    }

    /// How many braces are open: no more than tokens were read.
    fn open_braces(&self) -> usize
        ensures depth { result ≡ self.now.depth }
        ensures small { result ≤ 1073741824 }
    {
        self.depth.min(self.read.len())
    }

    /// The text of the part that is being matched: a delimiter, or the text before the first parameter.
    fn delimiter(&self) -> &[Token]
        requires { IsGoing (state_of self.now) }
        ensures same { result.now ≡ part_of (state_of self.now) }
        ensures small { length result.now ≤ 1073741824 }
    {
        self.pattern.parts()[self.part].as_slice()
    }

    /// How many tokens of the delimiter ended what was read before the last token: no more than were read.
    fn matched_before(&self) -> usize
        ensures matched { result ≡ self.now.matched }
        ensures small { result ≤ 1073741824 }
    {
        self.matched.min(self.read.len())
    }

    /// How many tokens of the delimiter end what was read, the last token included: none inside braces, where it isn't
    /// looked for. A token lengthens what is matched by one at most, and each test but the last shortens it: so there
    /// are no more than two tests a token, over a whole argument.
    fn matched_now(&self) -> usize
        requires { IsGoing (state_of self.now) }
        ensures matched { result ≡ matched_in self.now.depth self.now.matched self.now.read (part_of (state_of self.now)) }
        ensures short { result ≤ length self.now.read }
    {
        if self.depth > 0 {
            return 0;
        }
        let delimiter = self.delimiter();
        let most = (self.matched_before() + 1).min(delimiter.len());
        longest_end(self.read.as_slice(), delimiter, most)
    }

    /// What was matched of the delimiter belongs to the argument.
    pub(crate) fn unmatch(&mut self)
        ensures { state_of self.new ≡ record (state_of self.old) { matched = 0 } }
    {
        self.matched = 0;
    }

    /// Whether the argument that is being read has a delimiter.
    fn is_delimited(&self) -> bool
        ensures { result ≡ is_delimited (slice_get self.now.pattern self.now.part) }
    {
        match self.pattern.parts().get(self.part) {
            None => false,
            Some(text) => !text.is_empty(),
        }
    }

    /// Whether a token is a space that is skipped before an undelimited argument.
    pub(crate) fn is_skipped(&self, token: Token) -> bool
        ensures { result ≡ is_skipped (state_of self.now) token }
    {
        if self.is_delimited() {
            return false;
        }
        self.depth == 0 && is_space(token)
    }

    /// A token of the text before the first parameter.
    fn go_text(&mut self, token: Token) -> Result<Fed, AllocError>
        requires { IsGoing (state_of self.old) }
        ensures makes { IfOk result (λ fed. Makes (text_fed (state_of self.old) (part_of (state_of self.old)) token) fed (state_of self.new)) }
        ensures keeps { KeepsPattern (state_of self.old) (state_of self.new) }
    {
        let at = self.read.len();
        let text = self.delimiter();
        if !has_at(text, at, token) {
            return Ok(self.refuse(MatchFault::DoesNotMatch));
        }
        if at + 1 == text.len() {
            return Ok(self.end_part());
        }
        self.read.push(token)?;
        Ok(Fed::More)
    }

    /// A token of an undelimited argument.
    fn go_undelimited(&mut self, token: Token) -> Result<Fed, AllocError>
        requires going { IsGoing (state_of self.old) }
        requires bare { part_of (state_of self.old) ≡ [] }
        ensures makes { IfOk result (λ fed. Makes (argument_fed (state_of self.old) (part_of (state_of self.old)) token) fed (state_of self.new)) }
        ensures keeps { KeepsPattern (state_of self.old) (state_of self.new) }
    {
        match undelimited_turn(self.open_braces(), self.long, token) {
            Turn::Skip => Ok(Fed::More),
            Turn::Fault(fault) => Ok(self.refuse(fault)),
            Turn::Keep(depth) => {
                self.read.push(token)?;
                self.depth = depth;
                Ok(Fed::More)
            }
            Turn::Found => {
                self.read.push(token)?;
                self.end_argument(0)
            }
        }
    }

    /// A token of a delimited argument.
    fn go_delimited(&mut self, token: Token) -> Result<Fed, AllocError>
        requires going { IsGoing (state_of self.old) }
        requires delimited { part_of (state_of self.old) ≡ [] → ⊥ }
        ensures makes { IfOk result (λ fed. Makes (argument_fed (state_of self.old) (part_of (state_of self.old)) token) fed (state_of self.new)) }
        ensures keeps { KeepsPattern (state_of self.old) (state_of self.new) }
    {
        self.read.push(token)?;
        let matched = self.matched_now();
        if matched == self.delimiter().len() {
            return self.end_argument(matched);
        }
        match delimited_turn(matched > 0, self.open_braces(), self.long, token) {
            Ok(depth) => {
                self.depth = depth;
                self.matched = matched;
                Ok(Fed::More)
            }
            Err(fault) => Ok(self.refuse(fault)),
        }
    }

    /// A token of any part.
    fn go(&mut self, token: Token) -> Result<Fed, AllocError>
        requires { IsGoing (state_of self.old) }
        ensures makes { IfOk result (λ fed. Makes (part_fed (state_of self.old) token) fed (state_of self.new)) }
        ensures keeps { KeepsPattern (state_of self.old) (state_of self.new) }
    {
        if self.part == 0 {
            return self.go_text(token);
        }
        if self.pattern.parts()[self.part].is_empty() {
            self.go_undelimited(token)
        } else {
            self.go_delimited(token)
        }
    }

    /// A match that no token was fed to.
    #[tactic(auto, unfolding(crate::specs::Feeding::started))]
    pub(crate) fn new(alloc: Global, pattern: Pattern, long: bool) -> Progress
        ensures state { state_of result ≡ started pattern long }
        ensures some { 0 < length result.pattern }
    {
        let part = if pattern.parts()[0].is_empty() { 1 } else { 0 };
        Progress {
            alloc,
            pattern,
            long,
            args: Listed::new(alloc),
            part,
            read: Tokens::new(alloc),
            depth: 0,
            matched: 0,
            failed: false,
        }
    }

    /// Whether more tokens are wanted.
    pub(crate) fn is_going(&self) -> bool
        ensures { result ≡ is_going (state_of self.now) }
    {
        !self.failed && self.part < self.pattern.parts().len()
    }

    /// Whether the call is complete.
    pub(crate) fn is_done(&self) -> bool
        ensures { result ≡ is_done (state_of self.now) }
    {
        !self.failed && self.part == self.pattern.parts().len()
    }

    /// Takes the next token of the call.
    #[tactic(auto, unfolding(crate::specs::Feeding::fed_of))]
    pub(crate) fn feed(&mut self, token: Token) -> Result<Fed, AllocError>
        ensures makes { IfOk result (λ fed. Makes (fed_of (state_of self.old) token) fed (state_of self.new)) }
        ensures keeps { KeepsPattern (state_of self.old) (state_of self.new) }
        ensures err { OnErr result (self.new.failed ≡ true) }
    {
        if !self.is_going() {
            return Ok(self.refuse(MatchFault::DoesNotMatch));
        }
        match self.go(token) {
            Ok(fed) => Ok(fed),
            Err(error) => {
                self.failed = true;
                Err(error)
            }
        }
    }
}

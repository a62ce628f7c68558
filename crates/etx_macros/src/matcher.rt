// The match of a call, token by token.
ghost use Rattle.std.specs.Prelude.{◌≡◌, ◌++◌, ◌∷◌, [], ◌⊎◌, IfOk, OnOk, OnErr, MatchBool, List, true};
ghost use Rattle.etx_matter.specs.declared.token.Token.{Token};
ghost use Rattle.etx_macros.specs.Feeding.{fed_of, started, is_going, is_done, is_extra, is_copied, short, unmatched};
ghost use Rattle.etx_macros.specs.Progress.{IsGoing, IsDone, IsAfter, Means, Stands, KeepsPattern};
ghost use Rattle.etx_macros.specs.declared.fault.Fed.TheVariants.{More, Done};

use crate::fault::Fed;
use crate::mark::has_category;
use crate::pattern::Pattern;
use crate::progress::Progress;
use etx_matter::{Token, Tokens};
use std::alloc::{AllocError, Global};
use std::marker::Model;

/// The match of a call against a pattern.
#[derive(Drop)]
pub struct Matcher {
    /// Behind a `Box`, so that a matcher is cheap to move: a scan that holds one is moved with each token that it gets.
    progress: Box<Progress>,
}

impl Model for Matcher {
    ghost use Rattle.etx_macros.specs.State.{MatcherState};

    ghost Value = { MatcherState };

    ghost use Rattle.etx_macros.specs.Seen.{state_of};

    ghost view = { λ it. state_of it.progress.value };
}

impl Matcher {
    /// A matcher that nothing was fed to. A pattern with no token and no parameter is a complete call at once. It shares
    /// the pattern.
    #[tactic(auto, unfolding(crate::specs::Feeding::started))]
    pub fn new(alloc: Global, pattern: &Pattern, long: bool) -> Result<Matcher, AllocError>
        ensures state { IfOk result (λ m. m ≡ started pattern.now long) }
        ensures starts { IfOk result (λ m. Means More m [] ⊎ Means Done m []) }
        ensures parts { IfOk result (λ m. m.parts ≡ pattern.now) }
        ensures long { IfOk result (λ m. m.long ≡ long) }
    {
        let progress = Progress::new(alloc, pattern.share()?, long);
        Ok(Matcher {
            progress: Box::new(alloc, progress)?,
        })
    }

    /// Whether more tokens are wanted.
    pub fn is_going(&self) -> bool
        ensures value { result ≡ is_going self.now }
        ensures going { MatchBool result (IsGoing self.now) (IsGoing self.now → ⊥) }
    {
        self.progress.is_going()
    }

    /// Whether the call is complete.
    pub fn is_done(&self) -> bool
        ensures value { result ≡ is_done self.now }
        ensures done { MatchBool result (IsDone self.now) (IsDone self.now → ⊥) }
    {
        self.progress.is_done()
    }

    /// Takes the next token of the call, and says what the tokens that were fed so far are: `More` where they are the
    /// beginning of a call and not all of it, `Done` where they are a call, and a fault where no call begins with them;
    /// so it comes at the first such token. Each is said exactly there. A matcher has failed after a fault or want of
    /// memory. One that has said anything but `More` refuses every token.
    ///
    /// Outside braces a token costs two tests for the delimiter at most, on average, and inside them none.
    pub fn feed(&mut self, token: Token) -> Result<Fed, AllocError>
        ensures fed { IfOk result (λ fed. fed ≡ (fed_of self.old token).fed) }
        ensures matcher { OnOk result (self.new ≡ (fed_of self.old token).matcher) }
        ensures means { IfOk result (λ fed. (call : List Token) → IsAfter self.old call → Means fed self.new (call ++ token ∷ [])) }
        ensures stands { IfOk result (λ fed. Stands fed self.new) }
        ensures keeps { KeepsPattern self.old self.new }
        ensures err { OnErr result (self.new.failed ≡ true) }
    {
        self.progress.feed(token)
    }

    /// Whether a token is a right brace that no left brace of an argument opens. Fed to this matcher, it would be refused.
    #[tactic(auto, unfolding(crate::specs::Feeding::is_extra))]
    pub fn is_extra(&self, token: Token) -> bool
        ensures { result ≡ is_extra self.now token }
    {
        self.progress.part > 0 && self.progress.depth == 0 && has_category(token, 2)
    }

    /// Whether a token, where it is fed and taken, is copied to what is read of an argument. The tokens of its delimiter are,
    /// the last one too, and are taken off again. The text before the first parameter isn't copied, nor are spaces before an
    /// undelimited argument.
    #[tactic(auto, unfolding(crate::specs::Feeding::is_copied))]
    pub fn is_copied(&self, token: Token) -> bool
        ensures { result ≡ is_copied self.now token }
    {
        if self.progress.part == 0 {
            return false;
        }
        !self.progress.is_skipped(token)
    }

    /// Goes on as if the macro weren't long.
    #[tactic(auto, unfolding(crate::specs::Feeding::short))]
    pub fn shorten(&mut self)
        ensures { self.new ≡ short self.old }
    {
        self.progress.long = false;
    }

    /// Goes on behind an extra right brace: as if the macro weren't long, and what was matched of the delimiter belongs to
    /// the argument.
    #[tactic(auto, unfolding(crate::specs::Feeding::unmatched))]
    pub fn break_off(&mut self)
        ensures { self.new ≡ unmatched self.old }
    {
        self.progress.unmatch();
        self.progress.long = false;
    }

    /// The arguments that are complete, in order: all of them once the call is. Takes no memory.
    pub fn args(&self) -> &[Tokens]
        ensures { result.now ≡ self.now.args }
    {
        self.progress.args.as_slice()
    }
}

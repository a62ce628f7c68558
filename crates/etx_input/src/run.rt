//! Many tokens of a level at once.
ghost use Rattle.std.specs.Prelude.{◌≡◌, ◌≤◌, length};
ghost use Rattle.etx_input.specs.Runs.{fresh_at, level_skipped, level_is_over};

use crate::level::Level;
use etx_matter::Token;

impl Level {
    /// The tokens to come, where the level is a list of tokens that count as steps.
    pub(crate) fn fresh(&self) -> &[Token]
        ensures { result.now ≡ fresh_at self.now }
    {
        match self {
            Level::File(_) => &[],
            Level::List(list) => list.fresh(),
        }
    }

    /// Passes over some of these tokens. Says whether the level is a list of which nothing is left.
    pub(crate) fn skip(&mut self, count: usize) -> bool
        requires { count ≤ length (fresh_at self.old) }
        ensures behind { self.new ≡ level_skipped count self.old }
        ensures over { result ≡ level_is_over self.new }
    {
        match self {
            Level::File(_) => false,
            Level::List(list) => {
                list.skip(count);
                list.is_over()
            }
        }
    }
}

// The categories of characters.
ghost use Rattle.std.specs.Prelude.{◌≡◌, ◌≤◌, ℕ};
ghost use Rattle.etx_lexer.specs.Classes.{class_of};

/// What gives each character its category.
pub trait CatOf {
    /// The category of each code.
    ghost category: { Self → ℕ → ℕ };

    /// The category of a code, at most 15.
    fn cat(&self, code: u8) -> u8
        ensures value { result ≡ category self.now code }
        ensures small { result ≤ 15 };
}

/// How the lexer treats a character.
#[derive(Clone, Copy, Debug, PartialEq, Eq)]
pub(crate) enum Class {
    Escape,
    Return,
    Ignored,
    Space,
    Comment,
    Invalid,
    /// Every other category: the character stands for itself.
    Plain,
}

/// The class of a category.
#[tactic(auto, unfolding(crate::specs::Classes::class_of))]
pub(crate) fn class_in(cat: u8) -> Class
    ensures { result ≡ class_of cat }
{
    match cat {
        0 => Class::Escape,
        5 => Class::Return,
        9 => Class::Ignored,
        10 => Class::Space,
        14 => Class::Comment,
        15 => Class::Invalid,
        _ => Class::Plain,
    }
}

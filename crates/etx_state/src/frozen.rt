//! Control sequences that the machine itself inserts.
ghost use Rattle.std.specs.Prelude.{◌≡◌, None, Some};
ghost use Rattle.std.specs.Option.{option_map};
ghost use Rattle.etx_state.specs.Frozen.{frozen_number, frozen_of, frozen_text};

use etx_matter::NameId;

/// A control sequence that the machine itself inserts ("TeX: The Program", section 222). Its number is above those of all
/// names, so no text can name it, and its meaning is fixed: no assignment changes it.
///
/// The `\par` that the machine inserts is none of these: it is the name `par` (section 334), which a job may redefine.
#[derive(Clone, Copy, Debug, PartialEq, Eq)]
pub enum Frozen {
    /// `\fi`, where the file ends inside a skipped text.
    Fi,
    /// `\relax`, where a number or a test ends at a command that is no part of it.
    Relax,
    /// The end of an alignment's template.
    EndTemplate,
    /// `\cr`, where an alignment's row ends without one.
    Cr,
    /// `\endgroup`, where another group ends first.
    EndGroup,
    /// `\right`, likewise.
    Right,
}

impl Frozen {
    /// Its number.
    #[tactic(auto, unfolding(crate::specs::Frozen::frozen_of))]
    pub fn name(self) -> NameId
        ensures number { result.0 ≡ frozen_number self }
        ensures known { frozen_of result.0 ≡ Some self }
    {
        match self {
            Frozen::Fi => NameId(1_048_577),
            Frozen::Relax => NameId(1_048_578),
            Frozen::EndTemplate => NameId(1_048_579),
            Frozen::Cr => NameId(1_048_580),
            Frozen::EndGroup => NameId(1_048_581),
            Frozen::Right => NameId(1_048_582),
        }
    }

    /// What is printed of it behind the escape character.
    #[tactic(auto, unfolding(crate::specs::Frozen::frozen_text))]
    pub fn text(self) -> &'static [u8]
        ensures { result.now ≡ frozen_text self }
    {
        match self {
            Frozen::Fi => b"fi",
            Frozen::Relax => b"relax",
            Frozen::EndTemplate => b"endtemplate",
            Frozen::Cr => b"cr",
            Frozen::EndGroup => b"endgroup",
            Frozen::Right => b"right",
        }
    }

    /// The frozen control sequence with this number. `None` exactly where the number is none of theirs.
    #[tactic(auto, unfolding(crate::specs::Frozen::frozen_of))]
    pub fn of(name: NameId) -> Option<Frozen>
        ensures { result ≡ frozen_of name.0 }
    {
        match name.0 {
            1_048_577 => Some(Frozen::Fi),
            1_048_578 => Some(Frozen::Relax),
            1_048_579 => Some(Frozen::EndTemplate),
            1_048_580 => Some(Frozen::Cr),
            1_048_581 => Some(Frozen::EndGroup),
            1_048_582 => Some(Frozen::Right),
            _ => None,
        }
    }
}

//! Why a font isn't read.
ghost use Rattle.std.specs.Prelude.{◌≡◌};
ghost use Rattle.etx_tfm.specs.declared.fault.FontFault.TheVariants.{OutOfMemory};

use std::alloc::{AllocError, AllocFailed};
use thiserror::Error;

/// What is wrong with a TFM file: the first of these kinds that holds.
#[derive(Clone, Copy, Debug, PartialEq, Eq)]
pub enum Damage {
    /// There are fewer bytes than the lengths at the front take, or than the file's length says.
    Short,
    /// A length is 32768 or more, the codes aren't a range of codes up to 255, the lengths don't add up to the file's, or a
    /// table of dimensions is empty.
    Sizes,
    /// The header is shorter than two words, the design size is below 1pt, or the size that was asked for as a multiple
    /// of it is 2048pt or more.
    Header,
    /// A character's word leads to nothing, or a list of greater and greater characters comes round.
    Char,
    /// A dimension is 16 times the size or more, or the first width, height, depth or italic correction doesn't come to
    /// 0sp at the size.
    Dimension,
    /// A step of the programs of ligatures and kerns leads to nothing.
    LigKern,
    /// A part of an extensible character doesn't exist.
    Exten,
    /// A parameter behind the first is 16 times the size or more.
    Param,
}

/// Why a font isn't read.
#[derive(Clone, Copy, Debug, Drop, PartialEq, Eq, Error)]
pub enum FontFault {
    /// The file is no metric file that TeX takes.
    #[error("bad metric file")]
    BadMetric(Damage),
    /// There was no memory left.
    #[error("out of memory")]
    OutOfMemory,
}

impl From<AllocError> for FontFault {
    ghost from_gives = { λ _ e. e ≡ OutOfMemory };

    fn from(_: AllocError) -> Self {
        FontFault::OutOfMemory
    }
}

impl<T: Drop> From<AllocFailed<T>> for FontFault {
    ghost from_gives = { λ _ e. e ≡ OutOfMemory };

    fn from(_: AllocFailed<T>) -> Self {
        FontFault::OutOfMemory
    }
}

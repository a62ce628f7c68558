//! What holds of words with hyphens.
ghost use Rattle.etx_hyphen.specs.Laws.{StaysUnbroken};

use etx_sealed::ParParams;

/// A paragraph whose words stand as their fonts set them stays as it is where no line is broken at a hyphen: without its
/// discretionaries the list with hyphens is the list that was given, without its own.
pub fn hyphens_change_nothing(params: &ParParams)
    ensures { StaysUnbroken params.now }
{
    let _tables = &params.tables;
}

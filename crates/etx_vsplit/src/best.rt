//! The best of the breaks that are tried.
ghost use Rattle.std.specs.Prelude.{◌≡◌};
ghost use Rattle.etx_vsplit.specs.Splits.{cheaper, cheaper_of, ends_search};

use crate::trial::Trial;

/// The cheaper of two breaks, and the later one if they cost the same.
fn cheaper(earlier: Trial, later: Trial) -> Trial
    ensures { result ≡ cheaper earlier later }
{
    if earlier.cost < later.cost {
        earlier
    } else {
        later
    }
}

/// The cheaper of two breaks that there may be.
pub(crate) fn cheaper_of(earlier: Option<Trial>, later: Option<Trial>) -> Option<Trial>
    ensures { result ≡ cheaper_of earlier later }
{
    match earlier {
        None => later,
        Some(first) => match later {
            None => Some(first),
            Some(second) => Some(cheaper(first, second)),
        },
    }
}

/// Whether no break behind this one is looked at.
pub(crate) fn ends_search(trial: Option<Trial>) -> bool
    ensures { result ≡ ends_search trial }
{
    match trial {
        None => false,
        Some(trial) => trial.is_last,
    }
}

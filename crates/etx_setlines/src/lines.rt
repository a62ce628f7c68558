//! The lines between chosen breaks.
ghost use Rattle.std.specs.Prelude.{◌≡◌, IfOk};
ghost use Rattle.etx_matter.specs.Nests.{AreNested};
ghost use Rattle.etx_setlines.specs.Settings.{lines_of};

use crate::setting::Setting;
use etx_sealed::{Lines, Sealed};
use std::alloc::{AllocError, Global};

/// The lines of a paragraph that end at these breaks, of which the last is the end.
///
/// A break is named by the number of its item, from 1 on; the end is the list's length plus 1. Breaks are legal breaks of
/// the paragraph, and ascend.
///
/// The list begins with the box of the first line. Behind each line stands what moves out of it, and then a penalty, unless
/// that is 0; none stands behind the last line. Before each line but the first stands the glue between lines. That before the
/// first line depends on `\prevdepth`, which a sealed paragraph doesn't know: whoever takes the lines puts it there, by
/// [`crate::interline_glue`], and sets `\prevdepth` to `depth`.
///
/// `Err` comes only where memory is wanting.
pub fn set_lines(alloc: Global, sealed: &Sealed, breaks: &[u32]) -> Result<Lines, AllocError>
    ensures lines { IfOk result (λ it. it ≡ lines_of sealed.now breaks.now) }
    ensures nested { IfOk result (λ it. AreNested it.list) }
{
    let mut setting = Setting::new(alloc);
    let mut from = 0;
    let mut rest = breaks;
    while let Some((to, behind)) = rest.split_first() {
        let to = *to as usize;
        setting.add(alloc, sealed, from, to, behind.len())?;
        from = to;
        rest = behind;
    }
    Ok(setting.finish())
}

//! The texts of deeds.
ghost use Rattle.std.specs.Prelude.{◌≡◌, IfOk};
ghost use Rattle.etx_settle.specs.Deeds.{inside_line, error_text, is_shown_to, start_after};

use etx_lists::Bytes;
use etx_matter::Audience;
use std::alloc::{AllocError, Global};

pub fn is_shown(audience: Audience) -> bool
    ensures { result ≡ is_shown_to audience }
{
    match audience {
        Audience::Log => false,
        Audience::LogAndTerminal => true,
    }
}

/// These bytes, unless a line is at its start.
pub fn inside_line(at_start: bool, bytes: &[u8]) -> &[u8]
    ensures { result.now ≡ inside_line at_start bytes.now }
{
    if at_start { b"" } else { bytes }
}

/// The lines that an error prints.
pub fn error_text(
    alloc: Global,
    at_start: bool,
    text: &[u8],
    line: u32,
) -> Result<Bytes, AllocError>
    ensures { IfOk result (λ bytes. bytes ≡ error_text at_start text.now line) }
{
    let number = line.to_string(alloc)?;
    let mut bytes = Bytes::from_slice(alloc, inside_line(at_start, b"\n"))?;
    bytes.extend_from_slice(b"! ")?;
    bytes.extend_from_slice(text)?;
    bytes.extend_from_slice(b".\nl.")?;
    bytes.extend_from_slice(number.as_bytes())?;
    bytes.extend_from_slice(b"\n")?;
    Ok(bytes)
}

/// Whether a line is at its start after these bytes.
pub fn is_at_start(at_start: bool, bytes: &[u8]) -> bool
    ensures { result ≡ start_after at_start bytes.now }
{
    match bytes.last() {
        Some(last) => *last == 10,
        None => at_start,
    }
}

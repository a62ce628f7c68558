//! Names of files.
ghost use Rattle.std.specs.Prelude.{◌≡◌, ◌↔◌, IsTrue, IfOk, All};
ghost use Rattle.std.specs.List.{list_all};
ghost use Rattle.etx_outside.specs.Names.{IsGood, IsGoodByte, is_good_byte, is_folder, is_good_name, has_full_stop, name_with_extension, job_name_of};

use etx_lists::Bytes;
use std::alloc::{AllocError, Global};

/// The most bytes of a good name.
const LONGEST: usize = 200;

fn is_good_byte(byte: u8) -> bool
    ensures value { result ≡ is_good_byte byte }
    ensures good { IsTrue result ↔ IsGoodByte byte }
{
    byte >= 33 && byte <= 126 && byte != b'/'
}

fn has_good_bytes(name: &[u8]) -> bool
    ensures value { result ≡ list_all is_good_byte name.now }
    ensures good { IsTrue result ↔ All IsGoodByte name.now }
{
    name.iter().all(|byte| is_good_byte(*byte))
}

/// Whether this is the name of the folder itself, or of the one above it.
fn is_folder(name: &[u8]) -> bool
    ensures { result ≡ is_folder name.now }
{
    name == b".".as_slice() || name == b"..".as_slice()
}

fn has_full_stop(name: &[u8]) -> bool
    ensures { result ≡ has_full_stop name.now }
{
    name.iter().any(|byte| *byte == b'.')
}

/// Whether a file of this name is looked for at all: 1 to 200 bytes from 33 to 126, none of them a slash, and not `.`
/// or `..`.
pub fn is_good(name: &[u8]) -> bool
    ensures value { result ≡ is_good_name name.now }
    ensures good { IsTrue result ↔ IsGood name.now }
{
    name.len() >= 1 && name.len() <= LONGEST && has_good_bytes(name) && !is_folder(name)
}

/// The name, with the extension if it has no full stop. An extension begins with its full stop, as `.tex`.
pub fn with_extension(alloc: Global, name: &[u8], extension: &[u8]) -> Result<Bytes, AllocError>
    ensures { IfOk result (λ whole. whole ≡ name_with_extension name.now extension.now) }
{
    let mut whole = Bytes::from_slice(alloc, name)?;
    if !has_full_stop(name) {
        whole.extend_from_slice(extension)?;
    }
    Ok(whole)
}

/// The name of a job, from that of its main file: the part before the last full stop, or all where there is none.
pub fn job_name(name: &[u8]) -> &[u8]
    ensures { result.now ≡ job_name_of name.now }
{
    let mut end = name.len();
    while end > 0 {
        end -= 1;
        if name[end] == b'.' {
            return &name[..end];
        }
    }
    name
}

// The steps of the forms in memory.
ghost use Rattle.std.specs.Prelude.{◌≡◌, ◌+◌, ◌≤◌, ◌++◌, ◌∷◌, [], ℕ, List, IfOk, OnOk, OnErr, take, if◌then◌else◌};
ghost use Rattle.std.specs.Option.{option_copied};
ghost use Rattle.arz_world.specs.Memory.{found, times, is_due as due_at};

use crate::NamedBytes;
use arz_json::{Many, Text};
use std::alloc::{AllocError, Global};

/// Whether the call with this number is one that fails.
pub(crate) fn is_due(failing: &[u32], call: u64) -> bool
    ensures { result ≡ due_at failing.now call }
{
    failing.iter().any(|n| u64::from(*n) == call)
}

fn bytes_at<'a>(files: &'a [NamedBytes], path: &str) -> Option<&'a [u8]>
    ensures { option_copied result ≡ found files.now path.now }
{
    match files.iter().find(|f| f.path.as_str() == path) {
        Some(file) => Some(file.bytes.as_slice()),
        None => None,
    }
}

/// The bytes of the file at `path`, where this call doesn't fail.
pub(crate) fn readable<'a>(
    files: &'a [NamedBytes],
    failing: &[u32],
    call: u64,
    path: &str,
) -> Option<&'a [u8]>
    ensures { option_copied result ≡ (if due_at failing.now call then None else found files.now path.now) }
{
    if is_due(failing, call) {
        return None;
    }
    bytes_at(files, path)
}

/// The bytes, or the first `limit + 1` of them.
pub(crate) fn start_of(alloc: Global, bytes: &[u8], limit: u64) -> Result<Vec<u8>, AllocError>
    ensures { IfOk result (λ v. v.items ≡ take (limit + 1) bytes.now) }
{
    if (bytes.len() as u64) <= limit {
        return bytes.to_vec(alloc);
    }
    bytes[..limit as usize + 1].to_vec(alloc)
}

/// Notes in a list of the reads that failed that one of `path` did. Where there is no room for it
/// the list stays as it was.
pub fn note_fault(alloc: Global, failed: &mut Many<Text>, path: &str) -> Result<(), AllocError>
    ensures noted { OnOk result (failed.new ≡ failed.old ++ path.now ∷ []) }
    ensures kept { OnErr result (failed.new ≡ failed.old) }
    ensures counted { OnOk result (times failed.new path.now ≡ times failed.old path.now + 1) }
    ensures others { (p : List ℕ) → times failed.old p ≤ times failed.new p }
{
    failed.push(Text::from_std(String::from_str(alloc, path)?))?;
    Ok(())
}

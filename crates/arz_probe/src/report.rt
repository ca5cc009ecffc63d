//! What is printed of a file's bytes, and the status that the program ends with.

ghost use Rattle.std.specs.Prelude.{◌≡◌, ◌++◌, ℕ, Result, codes, IfOk, IfSome, decimal};
ghost use Rattle.hex.specs.Hex.{encode_lower};
ghost use Rattle.arz_json.specs.declared.tree.Json.{Json};
ghost use Rattle.arz_json.specs.Tree.{IsWellFormed};
ghost use Rattle.arz_wire.specs.declared.fault.WireFault.{WireFault};
ghost use Rattle.arz_json.specs.Answer.{Fails};
ghost use Rattle.arz_wire.specs.Reading.{told};
ghost use Rattle.arz_probe.specs.Reports.{line, good, refused as refusal, placed, tree_in, wire_form, unwire_of, unwire_form, words_form, file_form};

use arz_json::{Bytes, CompactFault, Json, JsonFault, compact, read as read_json};
use arz_wire::{WireFault, read, write};
use std::alloc::{AllocError, Global};

/// What is printed, and the exit status.
#[derive(Debug, Drop)]
pub struct Report {
    /// The bytes that are printed.
    pub text: Bytes,
    /// The exit status.
    pub status: u8,
}

/// The wire form of a file's JSON text (RFC 8259), as a line of lower-case hexadecimal digits; or
/// `NotJson` and status 3.
pub fn wire_report(alloc: Global, bytes: &[u8]) -> Result<Report, AllocError>
    ensures { IfOk result (λ r. r ≡ wire_form bytes.now) }
{
    match tree_of_text(alloc, bytes)? {
        Some(tree) => hex_line(alloc, write(alloc, &tree)?.as_slice()),
        None => refused(alloc, "NotJson"),
    }
}

/// The tree whose wire form stands at the front of a file, as a line: its compact JSON text, a space,
/// and how many bytes the form has. Or the fault and its place, or `FractionUsed` where the tree has
/// no text, and status 3.
pub fn unwire_report(alloc: Global, bytes: &[u8]) -> Result<Report, AllocError>
    ensures { IfOk result (λ r. r ≡ unwire_form bytes.now) }
{
    match read(alloc, bytes) {
        Ok((tree, taken)) => match compact(alloc, &tree) {
            Ok(text) => counted_line(text, taken),
            Err(CompactFault::FractionUsed) => refused(alloc, "FractionUsed"),
            Err(CompactFault::Memory) => Err(AllocError),
        },
        Err(fault) => fault_report(alloc, fault),
    }
}

/// What is printed where the words are not taken, and status 2.
pub fn words_report(alloc: Global) -> Result<Report, AllocError>
    ensures { IfOk result (λ r. r ≡ words_form) }
{
    let text = Bytes::from_std(Vec::from_slice(alloc, b"words\n")?);
    Ok(Report { text, status: 2 })
}

/// What is printed where a file could not be read, and status 13.
pub fn file_report(alloc: Global, path: &str) -> Result<Report, AllocError>
    ensures { IfOk result (λ r. r ≡ file_form path.now) }
{
    let text = format!(in alloc; "file {path}\n")?;
    let text = Bytes::from_std(text.into_bytes());
    Ok(Report { text, status: 13 })
}

/// The tree of a JSON text, or none where the bytes are no such text.
pub fn tree_of_text(alloc: Global, bytes: &[u8]) -> Result<Option<Json>, AllocError>
    ensures tree { IfOk result (λ t. t ≡ tree_in bytes.now) }
    ensures well_formed { IfOk result (λ t. IfSome t IsWellFormed) }
{
    match read_json(alloc, bytes, bytes.len() as u64) {
        Ok(tree) => Ok(Some(tree)),
        Err(JsonFault::NotJson) => Ok(None),
        Err(JsonFault::TooLarge) => unreachable!(),
        Err(JsonFault::Memory) => Err(AllocError),
    }
}

// Two digits a byte.
fn hex_line(alloc: Global, bytes: &[u8]) -> Result<Report, AllocError>
    ensures { IfOk result (λ r. r ≡ good (encode_lower bytes.now)) }
{
    let mut text = hex::encode(alloc, bytes)?.into_bytes();
    text.push(b'\n')?;
    let text = Bytes::from_std(text);
    Ok(Report { text, status: 0 })
}

fn counted_line(text: Bytes, taken: usize) -> Result<Report, AllocError>
    ensures { IfOk result (λ r. r ≡ good (text ++ codes " " ++ decimal taken)) }
{
    let mut text = text.into_std();
    let mut digits = itoa::Buffer::new();
    text.push(b' ')?;
    text.extend_from_slice(digits.format(taken).as_bytes())?;
    text.push(b'\n')?;
    let text = Bytes::from_std(text);
    Ok(Report { text, status: 0 })
}

// The line of a fault, whichever bytes give it. Want of memory is told as such.
fn fault_report(alloc: Global, fault: WireFault) -> Result<Report, AllocError>
    ensures { IfOk result (λ r. (given : Result (Json × ℕ) WireFault) → Fails (told fault) given
        → r ≡ unwire_of given) }
{
    match fault {
        WireFault::Short => refused(alloc, "Short"),
        WireFault::BadTag(at) => refused_at(alloc, "BadTag", at),
        WireFault::NotCanonical(at) => refused_at(alloc, "NotCanonical", at),
        WireFault::TooDeep(at) => refused_at(alloc, "TooDeep", at),
        WireFault::Memory => Err(AllocError),
    }
}

/// The line of a kind of fault with its place, and status 3.
pub fn refused_at(alloc: Global, kind: &str, at: u64) -> Result<Report, AllocError>
    ensures { IfOk result (λ r. r ≡ refusal (placed kind.now at)) }
{
    let text = format!(in alloc; "{kind} {at}\n")?;
    let text = Bytes::from_std(text.into_bytes());
    Ok(Report { text, status: 3 })
}

/// A line of a refusal, and status 3.
pub fn refused(alloc: Global, what: &str) -> Result<Report, AllocError>
    ensures { IfOk result (λ r. r ≡ refusal what.now) }
{
    let text = format!(in alloc; "{what}\n")?;
    let text = Bytes::from_std(text.into_bytes());
    Ok(Report { text, status: 3 })
}

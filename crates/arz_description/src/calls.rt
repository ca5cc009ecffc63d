// What a step calls.
ghost use Rattle.std.specs.Prelude.{◌≡◌, ◌||◌, ◌==◌, IfOk, option_map};
ghost use Rattle.std.specs.List.{list_all};
ghost use Rattle.arz_expr.specs.Grammar.{is_name_byte as name_byte, is_name as name, is_pointer_byte as pointer_byte, is_rooted as rooted, escapes_tildes as escapes, begins_with_digit_of_escape};
ghost use Rattle.arz_description.specs.Calls.{dotted as dotted_text, source_and_id as id_parts, source_and_pointer as path_parts, is_path_pointer as path_pointer, operation_with, operation_at, call_of};

use arz_components::{after, text_of};
use arz_json::{Json, Text, split_once};
use arz_operation::Call;
use std::alloc::{AllocError, Global};

fn is_name_byte(byte: u8) -> bool
    ensures { result ≡ name_byte byte }
{
    byte.is_ascii_alphanumeric() || byte == b'_' || byte == b'-'
}

fn are_name_bytes(bytes: &[u8]) -> bool
    ensures { result ≡ list_all name_byte bytes.now }
{
    bytes.iter().all(|b| is_name_byte(*b))
}

fn is_name(text: &str) -> bool
    ensures { result ≡ name text.now }
{
    !text.is_empty() && are_name_bytes(text.as_bytes())
}

fn dotted(text: &str) -> Option<(&str, &str)>
    ensures { option_map (λ p. (p.0.now, p.1.now)) result ≡ dotted_text text.now }
{
    let (name, rest) = split_once(text, '.')?;
    if !is_name(name) {
        return None;
    }
    Some((name, rest))
}

/// Of an operationId `$sourceDescriptions.NAME.ID` the source's name and the operation's (Arazzo 1.0.1, section
/// 4.6.5).
pub fn source_and_id(text: &str) -> Option<(&str, &str)>
    ensures { option_map (λ p. (p.0.now, p.1.now)) result ≡ id_parts text.now }
{
    dotted(after(text, "$sourceDescriptions.")?)
}

fn is_rooted(bytes: &[u8]) -> bool
    ensures { result ≡ rooted bytes.now }
{
    match bytes.split_first() {
        Some((first, _)) => *first == b'/',
        None => true,
    }
}

fn is_pointer_byte(byte: u8) -> bool
    ensures { result ≡ pointer_byte byte }
{
    32 < byte && byte != 127 && !b"{}()!=<>&|'".contains(&byte)
}

fn are_pointer_bytes(bytes: &[u8]) -> bool
    ensures { result ≡ list_all (λ b. pointer_byte b || b == 123 || b == 125) bytes.now }
{
    bytes
        .iter()
        .all(|b| is_pointer_byte(*b) || *b == b'{' || *b == b'}')
}

fn escapes_tildes(bytes: &[u8]) -> bool
    ensures { result ≡ escapes bytes.now }
{
    let mut rest = bytes;
    'bytes: while let Some((byte, more)) = rest.split_first() {
        if *byte == b'~' && !begins_escape(more) {
            return false;
        }
        rest = more;
    }
    true
}

fn begins_escape(bytes: &[u8]) -> bool
    ensures { result ≡ begins_with_digit_of_escape bytes.now }
{
    match bytes.split_first() {
        Some((first, _)) => *first == b'0' || *first == b'1',
        None => false,
    }
}

fn is_path_pointer(bytes: &[u8]) -> bool
    ensures { result ≡ path_pointer bytes.now }
{
    is_rooted(bytes) && are_pointer_bytes(bytes) && escapes_tildes(bytes)
}

/// Of an operationPath `{$sourceDescriptions.NAME.url}#POINTER` the source's name and the pointer, as it is written
/// (Arazzo 1.0.1, section 4.6.5).
pub fn source_and_pointer(text: &str) -> Option<(&str, &str)>
    ensures { option_map (λ p. (p.0.now, p.1.now)) result ≡ path_parts text.now }
{
    let (name, rest) = dotted(after(text, "{$sourceDescriptions.")?)?;
    let pointer = after(rest, "url}#")?;
    if !is_path_pointer(pointer.as_bytes()) {
        return None;
    }
    Some((name, pointer))
}

fn read_id(alloc: Global, text: &str) -> Result<Call, AllocError>
    ensures { IfOk result (λ call. call ≡ operation_with text.now) }
{
    match source_and_id(text) {
        Some((source, id)) => {
            let source = Text::from_str(alloc, source)?;
            Ok(Call::Id(Some(source), Text::from_str(alloc, id)?))
        }
        None => Ok(Call::Id(None, Text::from_str(alloc, text)?)),
    }
}

fn read_path(alloc: Global, text: &str) -> Result<Call, AllocError>
    ensures { IfOk result (λ call. call ≡ operation_at text.now) }
{
    let (source, pointer) = source_and_pointer(text).unwrap_or(("", text));
    let source = Text::from_str(alloc, source)?;
    Ok(Call::At(source, Text::from_str(alloc, pointer)?))
}

/// What a step calls.
pub fn read_call(alloc: Global, step: &Json) -> Result<Call, AllocError>
    ensures { IfOk result (λ call. call ≡ call_of step.now) }
{
    if let Some(id) = text_of(step, "operationId") {
        return read_id(alloc, id);
    }
    if let Some(path) = text_of(step, "operationPath") {
        return read_path(alloc, path);
    }
    let id = text_of(step, "workflowId").unwrap_or("");
    Ok(Call::Flow(Text::from_str(alloc, id)?))
}

// The mapping of I-Regexps.
ghost use Rattle.std.specs.Prelude.{◌≡◌, IfOk, string_bytes, true, false};
ghost use Rattle.arz_rx.specs.Mapping.{mapped, mapped_from, is_any as is_any_at, escapes as escapes_next, opens as opens_next};

use std::alloc::{AllocError, Global};

/// The pattern to search for in place of an I-Regexp (RFC 9485, sections 5.3 and 5.4): each `.` that
/// isn't escaped and stands outside brackets becomes `[^\n\r]`, written as seven characters. With
/// `whole` the pattern matches whole texts alone, as `match` of JSONPath wants (RFC 9535, 2.4.6); without
/// it any part of a text, as `search` does (2.4.7). Nothing is said of texts that are no I-Regexp.
#[tactic(auto, unfolding(crate::specs::Mapping::mapped))]
pub fn i_regexp(alloc: Global, text: &str, whole: bool) -> Result<String, AllocError>
    ensures { IfOk result (λ pattern. string_bytes pattern ≡ mapped whole text.now) }
{
    let pattern = with_dots_written_out(alloc, text)?;
    if whole {
        return format!(in alloc; "\\A(?:{pattern})\\z");
    }
    Ok(pattern)
}

fn with_dots_written_out(alloc: Global, text: &str) -> Result<String, AllocError>
    ensures { IfOk result (λ pattern. string_bytes pattern ≡ mapped_from false false text.now) }
{
    let mut pattern = String::new(alloc);
    let mut escaped = false;
    let mut inside = false;
    for c in text.chars() {
        if is_any(escaped, inside, c) {
            pattern.push_str("[^\\n\\r]")?;
        } else {
            pattern.push(c)?;
        }
        inside = opens(escaped, inside, c);
        escaped = escapes(escaped, c);
    }
    Ok(pattern)
}

fn is_any(escaped: bool, inside: bool, c: char) -> bool
    ensures { result ≡ is_any_at escaped inside c }
{
    !escaped && !inside && c == '.'
}

fn opens(escaped: bool, inside: bool, c: char) -> bool
    ensures { result ≡ opens_next escaped inside c }
{
    if escaped {
        return inside;
    }
    c == '[' || (inside && c != ']')
}

fn escapes(escaped: bool, c: char) -> bool
    ensures { result ≡ escapes_next escaped c }
{
    !escaped && c == '\\'
}

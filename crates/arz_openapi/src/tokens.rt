// The tokens of JSON Pointers (RFC 6901).
ghost use Rattle.std.specs.Prelude.{◌≡◌, ◌∷◌, ◌++◌, ◌<◌, ◌==◌, length, IfOk, IfSome, MatchOption, None, option_map, string_bytes, IsUtf8, slice_index};
ghost use Rattle.serde_json.specs.Find.{index_of};
ghost use Rattle.arz_json.specs.Pointer.{decoded};

use arz_json::Text;
use fast_float::Numeral;
use std::alloc::{AllocError, Global};

/// What an escape stands for, behind its `~`, and what follows it.
fn escaped(text: &str) -> Option<(&'static str, &str)>
    ensures value { MatchOption result (decoded (126 ∷ text.now) ≡ None)
        (λ p. decoded (126 ∷ text.now) ≡ option_map (λ name. p.0.now ++ name) (decoded p.1.now)) }
    ensures smaller { IfSome result (λ p. (length p.1.now < length text.now) × IsUtf8 p.1.now) }
{
    if let Some(rest) = text.strip_prefix('1') {
        return Some(("/", rest));
    }
    match text.strip_prefix('0') {
        Some(rest) => Some(("~", rest)),
        None => None,
    }
}

/// The name that a token spells (RFC 6901, section 4): `~1` stands for `/`, and `~0` for `~`; with another `~` it
/// spells none.
pub(crate) fn decode(alloc: Global, token: &str) -> Result<Option<Text>, AllocError>
    ensures { IfOk result (λ t. t ≡ decoded token.now) }
{
    let mut out = String::new(alloc);
    let mut rest = token;
    'tildes: while let Some((plain, behind)) = rest.split_once('~') {
        let Some((letter, more)) = escaped(behind) else {
            return Ok(None);
        };
        out.push_str(plain)?;
        out.push_str(letter)?;
        rest = more;
    }
    out.push_str(rest)?;
    Ok(Some(Text::from_std(out)))
}

/// The number that a token spells as an index of a list: `0`, or digits without a leading zero, below 2^64 (RFC 6901,
/// section 4). Every other token spells none.
pub(crate) fn index(text: &str) -> Option<usize>
    ensures { result ≡ index_of text.now }
{
    let bytes = text.as_bytes();
    let numeral = Numeral::scan(bytes);
    let index = numeral.to_u64()?;
    if (numeral.len() == bytes.len()) & ((bytes.len() == 1) | !starts_with_zero(bytes)) {
        Some(index as usize)
    } else {
        None
    }
}

fn starts_with_zero(bytes: &[u8]) -> bool
    ensures { result ≡ (slice_index bytes.now 0 == 48) }
{
    !bytes.is_empty() && bytes[0] == b'0'
}

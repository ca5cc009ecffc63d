// Texts with their bytes percent-encoded.
ghost use Rattle.std.specs.Prelude.{◌≡◌, IfOk};
ghost use Rattle.arz_style.specs.Escapes.{escaped, spelt};

use arz_json::Text;
use percent_encoding::{AsciiSet, NON_ALPHANUMERIC, ascii_set, utf8_percent_encode};
use std::alloc::{AllocError, Global};

/// Every ASCII byte but the unreserved ones (RFC 3986, section 2.3).
const RESERVED: AsciiSet = ascii_set!(
    NON_ALPHANUMERIC
        .remove(b'-')
        .remove(b'.')
        .remove(b'_')
        .remove(b'~')
);

fn escape_text(alloc: Global, text: &str) -> Result<Text, AllocError>
    ensures { IfOk result (λ t. t ≡ escaped text.now) }
{
    let mut out = String::new(alloc);
    utf8_percent_encode(text, RESERVED).append_to(&mut out)?;
    Ok(Text::from_std(out))
}

/// The text as it is, or with each byte that isn't unreserved percent-encoded.
pub(crate) fn spell(alloc: Global, escape: bool, text: &str) -> Result<Text, AllocError>
    ensures { IfOk result (λ t. t ≡ spelt escape text.now) }
{
    if escape {
        escape_text(alloc, text)
    } else {
        Text::from_str(alloc, text)
    }
}

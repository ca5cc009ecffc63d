// The bytes of a path that stand for themselves.
ghost use Rattle.std.specs.Prelude.{◌≡◌, ◌++◌, OnOk, string_bytes};
ghost use Rattle.std.specs.List.{flat_map};
ghost use Rattle.arz_target.specs.Templates.{path_byte};

use percent_encoding::{AsciiSet, NON_ALPHANUMERIC, ascii_set, utf8_percent_encode};
use std::alloc::AllocError;

/// Every ASCII byte that may not stand in a path (RFC 3986, section 3.3).
const OUTSIDE_PATHS: AsciiSet = ascii_set!(
    NON_ALPHANUMERIC
        .remove(b'-')
        .remove(b'.')
        .remove(b'_')
        .remove(b'~')
        .remove(b'!')
        .remove(b'$')
        .remove(b'&')
        .remove(b'\'')
        .remove(b'(')
        .remove(b')')
        .remove(b'*')
        .remove(b'+')
        .remove(b',')
        .remove(b';')
        .remove(b'=')
        .remove(b':')
        .remove(b'@')
        .remove(b'/')
        .remove(b'%')
);

/// Puts bytes of a path that stand for themselves behind a text: those that may not stand in a path, and those past
/// ASCII, are percent-encoded (RFC 3986, section 3.3).
pub fn push_plain(out: &mut String, text: &str) -> Result<(), AllocError>
    ensures { OnOk result (string_bytes out.new ≡ string_bytes out.old ++ flat_map path_byte text.now) }
{
    utf8_percent_encode(text, OUTSIDE_PATHS).append_to(out)
}

// A head a byte at a time (RFC 9112, 4 and 5), so that one that comes in small pieces isn't parsed
// again with each.
ghost use Rattle.std.specs.Prelude.{◌≡◌, ◌≤◌, if◌then◌else◌, length, IfSome, Some, None};
ghost use Rattle.arz_http.specs.Heads.{IsFollowed, IsOpenHead};
ghost use Rattle.arz_http.specs.HeadSteps.{behind_text, head_next, followed};

use crate::heads::HEAD_LIMIT;
use crate::slices::behind;
use httparse::{is_header_name_token, is_header_value_token};

/// Where in a head the bytes stand.
#[derive(Clone, Copy)]
pub enum HeadAt {
    /// Behind the empty lines before the head.
    Start,
    /// Behind the CR of such a line.
    StartReturn,
    /// Behind so many bytes of the version.
    Version(u8),
    /// Behind the version.
    Minor,
    /// Behind so many digits of the status code.
    Code(u8),
    /// At the beginning of a header line.
    Line,
    /// In the name of a header line.
    Name,
    /// In the reason phrase, or in the value of a header line.
    Text,
    /// Behind the CR of a line.
    Return,
    /// Behind the CR of the empty line that ends the head.
    EndReturn,
}

fn after_text(byte: u8) -> Option<HeadAt>
    ensures { result ≡ behind_text byte }
{
    match byte {
        b'\r' => Some(HeadAt::Return),
        b'\n' => Some(HeadAt::Line),
        _ => None,
    }
}

fn when(holds: bool, at: HeadAt) -> Option<HeadAt>
    ensures { result ≡ (if holds then Some at else None) }
{
    if holds { Some(at) } else { None }
}

fn in_version(n: u8, byte: u8) -> Option<HeadAt>
    ensures { result ≡ head_next (HeadAt.Version n) byte }
{
    let version = b"HTTP/1.";
    if n < 7 {
        when(byte == version[n as usize], HeadAt::Version(n + 1))
    } else {
        when(byte == b'0' || byte == b'1', HeadAt::Minor)
    }
}

fn in_code(n: u8, byte: u8) -> Option<HeadAt>
    ensures { result ≡ head_next (HeadAt.Code n) byte }
{
    if n < 3 {
        when(byte.is_ascii_digit(), HeadAt::Code(n + 1))
    } else if byte == b' ' {
        Some(HeadAt::Text)
    } else {
        after_text(byte)
    }
}

fn in_line(byte: u8) -> Option<HeadAt>
    ensures { result ≡ head_next HeadAt.Line byte }
{
    if is_header_name_token(byte) {
        Some(HeadAt::Name)
    } else {
        when(byte == b'\r', HeadAt::EndReturn)
    }
}

fn in_name(byte: u8) -> Option<HeadAt>
    ensures { result ≡ head_next HeadAt.Name byte }
{
    if is_header_name_token(byte) {
        Some(HeadAt::Name)
    } else {
        when(byte == b':', HeadAt::Text)
    }
}

fn in_start(byte: u8) -> Option<HeadAt>
    ensures { result ≡ head_next HeadAt.Start byte }
{
    match byte {
        b'\n' => Some(HeadAt::Start),
        b'\r' => Some(HeadAt::StartReturn),
        b'H' => Some(HeadAt::Version(1)),
        _ => None,
    }
}

/// Behind one byte more. `None` where the head has ended with it, or can't go on with it.
fn step(at: HeadAt, byte: u8) -> Option<HeadAt>
    ensures { result ≡ head_next at byte }
{
    match at {
        HeadAt::Start => in_start(byte),
        HeadAt::StartReturn => when(byte == b'\n', HeadAt::Start),
        HeadAt::Version(n) => in_version(n, byte),
        HeadAt::Minor => when(byte == b' ', HeadAt::Code(0)),
        HeadAt::Code(n) => in_code(n, byte),
        HeadAt::Line => in_line(byte),
        HeadAt::Name => in_name(byte),
        HeadAt::Text => {
            if is_header_value_token(byte) {
                Some(HeadAt::Text)
            } else {
                after_text(byte)
            }
        }
        HeadAt::Return => when(byte == b'\n', HeadAt::Line),
        HeadAt::EndReturn => None,
    }
}

/// Behind these bytes. `None` where the head has ended among them, or can't go on.
pub(crate) fn follow(at: HeadAt, bytes: &[u8]) -> Option<HeadAt>
    ensures { result ≡ followed at bytes.now }
{
    let mut at = at;
    for byte in bytes {
        at = step(at, *byte)?;
    }
    Some(at)
}

/// How far a head was followed.
#[derive(Clone, Copy)]
pub struct Followed {
    /// The place up to which the bytes were followed.
    pub upto: usize,
    /// Where they stand there.
    pub at: HeadAt,
}

/// Follows all bytes of the head that begins at a place. `None` where it has ended, can't go on, or
/// may be too long.
pub(crate) fn follow_on(bytes: &[u8], from: usize, followed_to: Followed) -> Option<Followed>
    requires within { from ≤ length bytes.now }
    requires followed_is { IsFollowed bytes.now from followed_to }
    ensures { IfSome result (IsOpenHead bytes.now from) }
{
    if HEAD_LIMIT < bytes.len() {
        return None;
    }
    let at = follow(followed_to.at, behind(bytes, followed_to.upto))?;
    Some(Followed {
        upto: bytes.len(),
        at,
    })
}

/// How far the head that begins at a place can be followed in these bytes.
pub(crate) fn follow_from(bytes: &[u8], from: usize) -> Followed
    requires { from ≤ length bytes.now }
    ensures { IsFollowed bytes.now from result }
{
    match follow(HeadAt::Start, behind(bytes, from)) {
        Some(at) => Followed {
            upto: bytes.len(),
            at,
        },
        None => Followed {
            upto: from,
            at: HeadAt::Start,
        },
    }
}

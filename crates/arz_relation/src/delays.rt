// How many seconds pass before a retry (Arazzo 1.0.1, 4.6.8: retryAfter; RFC 9110, 10.2.3).
ghost use Rattle.std.specs.Prelude.{◌≡◌, find, unwrap_or};
ghost use Rattle.std.specs.Option.{option_copied};
ghost use Rattle.arz_relation.specs.Retries.{told_delay as delay_told, seconds_in as seconds_of, is_retry_after as is_delay};

use arz_world::{Header, Reply};

// A day.
const LONGEST: u32 = 86400;

/// The seconds before a retry that says so many, after an attempt with this reply: what its first Retry-After says in
/// digits alone, at most a day, goes first.
pub fn delay(seconds: u32, reply: &Reply) -> u32
    ensures { result ≡ unwrap_or (delay_told reply.now) seconds }
{
    told_delay(reply).unwrap_or(seconds)
}

// The seconds that the first Retry-After of a reply says.
fn told_delay(reply: &Reply) -> Option<u32>
    ensures { result ≡ delay_told reply.now }
{
    match retry_after(reply.headers.as_slice()) {
        Some(header) => seconds_in(header.value.as_slice()),
        None => None,
    }
}

fn retry_after(headers: &[Header]) -> Option<&Header>
    ensures { option_copied result ≡ find is_delay headers.now }
{
    headers.iter().find(|header| is_retry_after(header))
}

fn is_retry_after(header: &Header) -> bool
    ensures { result ≡ is_delay header.now }
{
    header.name.as_str().eq_ignore_ascii_case("retry-after")
}

// The seconds that a text of digits alone says, at most a day.
fn seconds_in(text: &[u8]) -> Option<u32>
    ensures { result ≡ seconds_of text.now }
{
    if text.is_empty() {
        return None;
    }
    let mut seconds = 0;
    for digit in text {
        if !digit.is_ascii_digit() {
            return None;
        }
        seconds = (seconds * 10 + u32::from(*digit - b'0')).min(LONGEST);
    }
    Some(seconds)
}

// Numbers, texts and names at the front of bytes.
ghost use Rattle.std.specs.Prelude.{◌≡◌, ◌≤◌, ◌<◌, option_map, IfSome};
ghost use Rattle.arz_json.specs.Answer.{Gives};
ghost use Rattle.arz_wire.specs.Reading.{number_front as front_of_number, number_at, text_at, place as place_of, told};
ghost use Rattle.arz_wire.specs.Bounds.{bound};

use crate::fault::WireFault;
use arz_json::Text;
use std::alloc::Global;

// How many bytes stand before these, of so many in all.
pub fn place(total: usize, bytes: &[u8]) -> u64
    ensures { result ≡ place_of total bytes.now }
{
    total.saturating_sub(bytes.len()) as u64
}

// The number's value, whether it is in its shortest form, and the bytes after it.
#[tactic(auto, unfolding(crate::specs::Reading::number_front))]
fn number_front(more: u8, bytes: &[u8]) -> Option<(u128, bool, &[u8])>
    requires { more ≤ 9 }
    ensures number { option_map (λ x. ((x.0, x.1), x.2.now)) result ≡ front_of_number more bytes.now }
    ensures below { IfSome result (λ x. x.0 < bound more) }
{
    let (b, rest) = bytes.split_first()?;
    if more == 0 || *b < 128 {
        return Some((*b as u128, *b < 128, rest));
    }
    let (high, shortest, rest) = number_front(more - 1, rest)?;
    Some(((*b % 128) as u128 + 128 * high, shortest && 0 < high, rest))
}

pub fn number_of(total: usize, most: u64, bytes: &[u8]) -> Result<(u64, &[u8]), WireFault>
    ensures { Gives (λ x. (x.0, x.1.now)) told result (number_at total most bytes.now) }
{
    let Some((n, shortest, rest)) = number_front(9, bytes) else {
        return Err(WireFault::Short);
    };
    if shortest && n <= most as u128 {
        Ok((n as u64, rest))
    } else {
        Err(WireFault::NotCanonical(place(total, bytes)))
    }
}

#[tactic(auto, unfolding(crate::specs::Reading::text_at))]
pub fn text_of(alloc: Global, total: usize, bytes: &[u8]) -> Result<(Text, &[u8]), WireFault>
    ensures { Gives (λ x. (x.0, x.1.now)) told result (text_at total bytes.now) }
{
    let (len, rest) = number_of(total, u64::MAX, bytes)?;
    if (rest.len() as u64) < len {
        return Err(WireFault::Short);
    }
    let (front, after) = rest.split_at(len as usize);
    match str::from_utf8(front) {
        Ok(text) => Ok((Text::from_str(alloc, text)?, after)),
        Err(_) => Err(WireFault::NotCanonical(place(total, rest))),
    }
}

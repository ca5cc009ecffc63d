// Numbers of a JSON text.
ghost use Rattle.std.specs.Prelude.{◌≡◌, ◌<◌, ◌==◌, length, option_map, slice_index, true, false, IsTrue};
ghost use Rattle.serde_json.specs.Read.{number_of, number_from, float_of};
ghost use Rattle.arz_json.specs.Reading.{number_tree};

use crate::tree::Json;
use fast_float::Numeral;

/// The tree of a number as a JSON text spells it (RFC 8259, section 6): an integer of 64 bits, and
/// else `Opaque`. None where no finite float holds it.
pub(crate) fn number(text: &str) -> Option<Json>
    ensures { result ≡ option_map number_tree (number_of text.now) }
{
    let bytes = text.as_bytes();
    if has_minus(bytes) {
        negative(&Numeral::scan(&bytes[1..]))
    } else {
        unsigned(&Numeral::scan(bytes))
    }
}

fn has_minus(bytes: &[u8]) -> bool
    ensures value { result ≡ (slice_index bytes.now 0 == 45) }
    ensures len { IsTrue result → 0 < length bytes.now }
{
    !bytes.is_empty() && bytes[0] == b'-'
}

fn unsigned(numeral: &Numeral<'_>) -> Option<Json>
    ensures { result ≡ option_map number_tree (number_from false numeral.now) }
{
    match numeral.to_u64() {
        Some(n) => Some(Json::Int(i128::from(n))),
        None => fraction(false, numeral),
    }
}

fn negative(numeral: &Numeral<'_>) -> Option<Json>
    ensures { result ≡ option_map number_tree (number_from true numeral.now) }
{
    match numeral.to_i64(true) {
        Some(n) => if n < 0 {
            Some(Json::Int(i128::from(n)))
        } else {
            fraction(true, numeral)
        },
        None => fraction(true, numeral),
    }
}

fn fraction(negative: bool, numeral: &Numeral<'_>) -> Option<Json>
    ensures { result ≡ option_map number_tree (float_of negative numeral.now) }
{
    if numeral.to_float::<f64>(negative).is_finite() {
        Some(Json::Opaque)
    } else {
        None
    }
}

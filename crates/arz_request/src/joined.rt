// The texts of parameters in one place.
ghost use Rattle.std.specs.Prelude.{◌≡◌, ◌++◌, ◌&&◌, map, IfOk, OnOk, string_bytes};
ghost use Rattle.std.specs.List.{flat_map};
ghost use Rattle.arz_json.specs.Texts.{joined as joined_by};
ghost use Rattle.arz_request.specs.Parameters.{is_at as stands_at, is_filled, texts_at as texts_of};

use crate::parameters::Written;
use crate::places::is_same;
use arz_json::Location;
use std::alloc::{AllocError, Global};

/// Whether a parameter stands in this place.
pub(crate) fn is_at(parameter: &Written, place: Location) -> bool
    ensures { result ≡ stands_at place parameter.now }
{
    is_same(parameter.place(), place)
}

/// Whether a parameter stands in this place, with a text that isn't empty.
pub(crate) fn is_filled_at(parameter: &Written, place: Location) -> bool
    ensures { result ≡ (stands_at place parameter.now && is_filled parameter.now.text) }
{
    is_at(parameter, place) && !parameter.text().is_empty()
}

/// The texts that aren't empty of the parameters in this place, in order.
pub(crate) fn texts_at<'a>(
    alloc: Global,
    place: Location,
    written: &'a [Written],
) -> Result<Vec<&'a str>, AllocError>
    ensures { IfOk result (λ texts. map (λ t. t.now) texts.items ≡ texts_of place written.now) }
{
    let mut texts = Vec::new(alloc);
    for parameter in written {
        if is_filled_at(parameter, place) {
            texts.push(parameter.text())?;
        }
    }
    Ok(texts)
}

fn push_others(out: &mut String, separator: &str, texts: &[&str]) -> Result<(), AllocError>
    ensures { OnOk result (string_bytes out.new ≡ string_bytes out.old ++ flat_map (λ t. separator.now ++ t) (map (λ t. t.now) texts.now)) }
{
    for text in texts {
        out.push_str(separator)?;
        out.push_str(text)?;
    }
    Ok(())
}

/// The texts, with a separator between each two.
pub(crate) fn joined(alloc: Global, separator: &str, texts: &[&str]) -> Result<String, AllocError>
    ensures { IfOk result (λ t. string_bytes t ≡ joined_by separator.now (map (λ t. t.now) texts.now)) }
{
    match texts {
        [] => Ok(String::new(alloc)),
        [first, rest @ ..] => {
            let mut out = String::from_str(alloc, first)?;
            push_others(&mut out, separator, rest)?;
            Ok(out)
        }
    }
}

// Texts with a separator between each two.
ghost use Rattle.std.specs.Prelude.{◌≡◌, ◌++◌, IfOk, OnOk, string_bytes};
ghost use Rattle.std.specs.List.{flat_map};
ghost use Rattle.arz_json.specs.Texts.{joined as joined_by};

use arz_json::Text;
use std::alloc::{AllocError, Global};

fn push_others(out: &mut String, separator: &str, texts: &[Text]) -> Result<(), AllocError>
    ensures { OnOk result (string_bytes out.new ≡ string_bytes out.old ++ flat_map (λ t. separator.now ++ t) texts.now) }
{
    for text in texts {
        out.push_str(separator)?;
        out.push_str(text.as_str())?;
    }
    Ok(())
}

/// Pushes the texts, with a separator between each two.
pub(crate) fn push_joined(
    out: &mut String,
    separator: &str,
    texts: &[Text],
) -> Result<(), AllocError>
    ensures { OnOk result (string_bytes out.new ≡ string_bytes out.old ++ joined_by separator.now texts.now) }
{
    match texts {
        [] => Ok(()),
        [first, rest @ ..] => {
            out.push_str(first.as_str())?;
            push_others(out, separator, rest)
        }
    }
}

/// The texts, with a separator between each two.
pub(crate) fn joined(alloc: Global, separator: &str, texts: &[Text]) -> Result<Text, AllocError>
    ensures { IfOk result (λ t. t ≡ joined_by separator.now texts.now) }
{
    let mut out = String::new(alloc);
    push_joined(&mut out, separator, texts)?;
    Ok(Text::from_std(out))
}

// Texts that name components.
ghost use Rattle.std.specs.Prelude.{◌≡◌, option_map};
ghost use Rattle.std.specs.Option.{option_copied};
ghost use Rattle.arz_components.specs.Texts.{after as after_key, text_named, referred as referred_name, input_name as name_of_input};

use arz_json::Json;

/// What follows a key, where the text begins with it.
pub fn after<'a>(text: &'a str, key: &str) -> Option<&'a str>
    ensures { option_copied result ≡ after_key key.now text.now }
{
    text.strip_prefix(key)
}

/// The text under a member's name.
pub fn text_of<'a>(tree: &'a Json, name: &str) -> Option<&'a str>
    ensures { option_map (λ t. t.now) result ≡ text_named name.now tree.now }
{
    tree.get(name)?.as_text()
}

/// Of a reference `$components.PART.NAME` to this part the name (Arazzo 1.0.1, section 4.6.10).
pub(crate) fn referred<'a>(part: &str, text: &'a str) -> Option<&'a str>
    ensures { option_copied result ≡ referred_name part.now text.now }
{
    let rest = after(text, "$components.")?;
    let rest = after(rest, part)?;
    after(rest, ".")
}

/// Of a `$ref` `#/components/inputs/NAME` the name (Arazzo 1.0.1, section 4.6.9).
pub fn input_name(text: &str) -> Option<&str>
    ensures { option_copied result ≡ name_of_input text.now }
{
    after(text, "#/components/inputs/")
}

// URLs of servers.
ghost use Rattle.std.specs.Prelude.{◌≡◌, ◌++◌, ◌<◌, List, IfOk, OnOk, IfSome, MatchOption, length, option_map, string_bytes, IsUtf8};
ghost use Rattle.arz_json.specs.declared.tree.Member.{Member};
ghost use Rattle.arz_operation.specs.Servers.{default_of, value_of, filled};

use arz_json::{Member, Text, value_named};
use std::alloc::{AllocError, Global};

fn default_text<'a>(variables: &'a [Member], name: &str) -> Option<&'a str>
    ensures { option_map (λ t. t.now) result ≡ default_of variables.now name.now }
{
    value_named(variables, name)?.get("default")?.as_text()
}

fn push_value(out: &mut String, variables: &[Member], name: &str) -> Result<(), AllocError>
    ensures { OnOk result (string_bytes out.new ≡ string_bytes out.old ++ value_of variables.now name.now) }
{
    match default_text(variables, name) {
        Some(text) => out.push_str(text),
        None => {
            out.push_str("{")?;
            out.push_str(name)?;
            out.push_str("}")
        }
    }
}

/// What stands before the first `{name}` of a text, the name, and what stands behind it.
#[derive(Clone, Copy)]
struct Cut<'a> {
    before: &'a str,
    name: &'a str,
    rest: &'a str,
}

fn next_cut(text: &str) -> Option<Cut<'_>>
    ensures parts { (variables : List Member) → MatchOption result (filled variables text.now ≡ text.now)
        (λ c. filled variables text.now ≡ c.before.now ++ (value_of variables c.name.now ++ filled variables c.rest.now)) }
    ensures smaller { IfSome result (λ c. (length c.rest.now < length text.now) × IsUtf8 c.rest.now) }
{
    match text.split_once('{') {
        None => None,
        Some((before, inside)) => match inside.split_once('}') {
            None => None,
            Some((name, rest)) => Some(Cut { before, name, rest }),
        },
    }
}

fn push_filled(out: &mut String, url: &str, variables: &[Member]) -> Result<(), AllocError>
    ensures { OnOk result (string_bytes out.new ≡ string_bytes out.old ++ filled variables.now url.now) }
{
    let mut rest = url;
    'cuts: while let Some(cut) = next_cut(rest) {
        out.push_str(cut.before)?;
        push_value(out, variables, cut.name)?;
        rest = cut.rest;
    }
    out.push_str(rest)
}

/// A server's URL with the defaults of its variables (OpenAPI 3.1.0, section 4.8.5): `{name}` is replaced once; a name
/// without a variable stays.
pub fn fill(alloc: Global, url: &str, variables: &[Member]) -> Result<Text, AllocError>
    ensures { IfOk result (λ t. t ≡ filled variables.now url.now) }
{
    let mut out = String::new(alloc);
    push_filled(&mut out, url, variables)?;
    Ok(Text::from_std(out))
}

// The parts of a path: `{name}`s, and what stands for itself.
ghost use Rattle.std.specs.Prelude.{◌≡◌, ◌++◌, ◌∷◌, ◌<◌, length, map, None, Some, MatchOption, IfOk, IfSome, IsUtf8, OnOk, []};
ghost use Rattle.std.specs.List.{prefix_len, filter_map};
ghost use Rattle.std.specs.Option.{option_copied};
ghost use Rattle.arz_json.specs.Texts.{split_once};
ghost use Rattle.arz_target.specs.Templates.{Byte, parts, name_before, name_in, names as names_of, is_inside as is_byte_inside};
ghost use Rattle.arz_target.specs.Cut.{opened, parts_to};

use std::alloc::{AllocError, Global};

/// What stands in a path up to the end of its first `{name}`, or up to a `{` that begins none.
#[derive(Clone, Copy)]
pub struct Cut<'a> {
    /// What stands before the `{`.
    pub plain: &'a str,
    /// The name, if one stands there.
    pub name: Option<&'a str>,
    /// What is left.
    pub rest: &'a str,
}

/// Cuts a path at its first `{`, if it has one (OpenAPI 3.1.1, section 4.8.8.2). All cuts of a path, each of what the
/// one before left, take time linear in it.
pub fn next_cut(path: &str) -> Option<Cut<'_>>
    ensures parts { MatchOption result (parts path.now ≡ map Byte path.now)
        (λ c. (parts path.now ≡ parts_to c ++ parts c.rest.now) × (length c.rest.now < length path.now)) }
    ensures text { IfSome result (λ c. IsUtf8 c.rest.now) }
{
    match path.split_once('{') {
        None => None,
        Some((plain, tail)) => match name_of(tail) {
            Some((name, rest)) => Some(Cut {
                plain,
                name: Some(name),
                rest,
            }),
            None => Some(Cut {
                plain,
                name: None,
                rest: tail,
            }),
        },
    }
}

// The name before a `}`, and what stands behind that. No byte behind the first that is in no name is looked at.
fn name_of(tail: &str) -> Option<(&str, &str)>
    ensures name { MatchOption result (name_before (split_once 125 tail.now) ≡ None)
        (λ p. (name_before (split_once 125 tail.now) ≡ Some p.0.now) × (tail.now ≡ p.0.now ++ 125 ∷ p.1.now)) }
    ensures text { IfSome result (λ p. IsUtf8 p.1.now) }
{
    let (name, behind) = tail.split_at(inside_len(tail.as_bytes()));
    if name.is_empty() {
        return None;
    }
    match behind.strip_prefix('}') {
        Some(rest) => Some((name, rest)),
        None => None,
    }
}

// How many bytes at the front may stand in a name.
fn inside_len(bytes: &[u8]) -> usize
    ensures { result ≡ prefix_len is_byte_inside bytes.now }
{
    bytes.iter().take_while(|b| is_inside(**b)).count()
}

fn is_inside(byte: u8) -> bool
    ensures { result ≡ is_byte_inside byte }
{
    !(byte == b'{' || byte == b'}' || byte == b'/')
}

/// The names of a path, in order, each as often as it stands there (OpenAPI 3.1.1, section 4.8.8.2).
pub fn names<'a>(alloc: Global, path: &'a str) -> Result<Vec<&'a str>, AllocError>
    ensures { IfOk result (λ v. map (λ t. t.now) v.items ≡ names_of path.now) }
{
    let mut found = Vec::new(alloc);
    let mut rest = path;
    'cuts: while let Some(cut) = next_cut(rest) {
        push_name(&mut found, cut.name)?;
        rest = cut.rest;
    }
    Ok(found)
}

fn push_name<'a>(found: &mut Vec<&'a str>, name: Option<&'a str>) -> Result<(), AllocError>
    ensures { OnOk result (map (λ t. t.now) found.new.items ≡ map (λ t. t.now) found.old.items ++ filter_map name_in (opened (option_copied name.entry) ∷ [])) }
{
    if let Some(name) = name {
        found.push(name)?;
    }
    Ok(())
}

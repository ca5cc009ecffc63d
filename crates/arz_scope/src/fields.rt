// The header fields of a reply, joined by name (RFC 9110, 5.2 and 5.3).
ghost use Rattle.std.specs.Prelude.{◌≡◌, ℕ, List, [], ◌∷◌, IfOk, map, filter, find, codes};
ghost use Rattle.std.specs.Option.{option_copied, option_map_or};
ghost use Rattle.std.specs.Str.{bytes_eq, str_to_ascii_lowercase};
ghost use Rattle.std.specs.BTreeMap as tree;
ghost use Rattle.arz_scope.specs.Bodies.{field_of, header_field, text_of as text_in};
ghost use Rattle.arz_json.specs.Texts.{joined as joined_by};
ghost use Rattle.arz_scope.specs.Fields.{field_named, field_from};

use arz_json::{Bytes, Json, Many, Text};
use arz_world::{Header, Reply};
use std::alloc::{AllocError, Global};
use std::collections::BTreeMap;

/// The values of all header lines with one name, as one text.
#[derive(Debug, Drop)]
pub struct Field {
    /// The name, in ASCII lower case.
    pub name: Text,
    /// The values, joined by `, `, or `None` where they are no text.
    pub value: Option<Json>,
}

/// The bytes as a text, where they are UTF-8.
pub fn text_of(alloc: Global, bytes: &[u8]) -> Result<Option<Json>, AllocError>
    ensures { IfOk result (λ value. value ≡ text_in bytes.now) }
{
    match str::from_utf8(bytes) {
        Ok(text) => Ok(Some(Json::Text(Text::from_str(alloc, text)?))),
        Err(_) => Ok(None),
    }
}

/// The values of the lines by their name in lower case, in order.
fn grouped<'a>(
    alloc: Global,
    headers: &'a [Header],
) -> Result<BTreeMap<String, Vec<&'a Bytes>>, AllocError>
    ensures { IfOk result (λ groups. (name : List ℕ) →
        option_map_or (λ g. map (λ v. v.now) g.items) (tree.get_by_text groups name) []
        ≡ map (λ h. h.value) (filter (λ h. bytes_eq name (str_to_ascii_lowercase h.name)) headers.now)) }
{
    let mut groups: BTreeMap<String, Vec<&'a Bytes>> = BTreeMap::new(alloc);
    for header in headers {
        let mut name = String::from_str(alloc, header.name.as_str())?;
        name.make_ascii_lowercase();
        groups.entry(name)?.or_default().push(&header.value)?;
    }
    Ok(groups)
}

/// The header fields of a reply, joined by name.
pub fn fields_of(alloc: Global, reply: &Reply) -> Result<Many<Field>, AllocError>
    ensures { IfOk result (λ fields. (name : List ℕ) → field_named fields name ≡ header_field reply.now name) }
{
    let groups = grouped(alloc, reply.headers.as_slice())?;
    let fields = fields_from(alloc, groups)?;
    Ok(Many::from_std(fields))
}

// A field for each group.
fn fields_from(
    alloc: Global,
    groups: BTreeMap<String, Vec<&Bytes>>,
) -> Result<Vec<Field>, AllocError>
    ensures { IfOk result (λ fields. fields.items ≡ map field_from groups.entry.entries) }
{
    let mut fields = Vec::with_capacity(alloc, groups.len())?;
    for (name, values) in groups {
        let name = Text::from_std(name);
        let value = value_of(alloc, values.as_slice())?;
        fields.push(Field { name, value })?;
    }
    Ok(fields)
}

// The values joined by `, `, where there are ones and the whole is a text.
fn value_of(alloc: Global, values: &[&Bytes]) -> Result<Option<Json>, AllocError>
    ensures { IfOk result (λ value. value ≡ field_of (map (λ v. v.now) values.now)) }
{
    match values {
        [] => Ok(None),
        [first, rest @ ..] => {
            let bytes = joined(alloc, first, rest)?;
            text_of(alloc, bytes.as_slice())
        }
    }
}

fn joined(alloc: Global, first: &Bytes, rest: &[&Bytes]) -> Result<Vec<u8>, AllocError>
    ensures { IfOk result (λ bytes. bytes.items
        ≡ joined_by (codes ", ") (first.now ∷ map (λ v. v.now) rest.now)) }
{
    let mut bytes = first.as_slice().to_vec(alloc)?;
    for value in rest {
        bytes.extend_from_slice(b", ")?;
        bytes.extend_from_slice(value.as_slice())?;
    }
    Ok(bytes)
}

/// The value of the field with this name, in any ASCII case. It takes no memory.
pub fn field_value<'a>(fields: &'a [Field], name: &str) -> Option<&'a Json>
    ensures { option_copied result ≡ field_named fields.now name.now }
{
    find_field(fields, name)?.value.as_ref()
}

fn find_field<'a>(fields: &'a [Field], name: &str) -> Option<&'a Field>
    ensures { option_copied result ≡ find (λ f. bytes_eq (str_to_ascii_lowercase name.now) f.name) fields.now }
{
    fields.iter().find(|field| is_lower_case_of(field.name.as_str().as_bytes(), name.as_bytes()))
}

// Whether `text` is `other` in ASCII lower case.
fn is_lower_case_of(text: &[u8], other: &[u8]) -> bool
    ensures { result ≡ bytes_eq (str_to_ascii_lowercase other.now) text.now }
{
    if text.len() != other.len() {
        return false;
    }
    for i in 0..text.len() {
        if other[i].to_ascii_lowercase() != text[i] {
            return false;
        }
    }
    true
}

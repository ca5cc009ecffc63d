// The body of a form.
ghost use Rattle.std.specs.Prelude.{◌≡◌, ◌++◌, IfOk, [], fold, string_bytes};
ghost use Rattle.arz_json.specs.Answer.{Gives};
ghost use Rattle.arz_style.specs.Texts.{told};
ghost use Rattle.arz_style.specs.Forms.{Pushes, fields_of, item_fields, field_of, member_fields, add_pair, form_of};

use crate::fault::StyleFault;
use crate::texts::{Pair, scalar_text};
use arz_json::{Bytes, Json, Member, Text};
use form_urlencoded::Serializer;
use std::alloc::{AllocError, Global};

// One pair, or none for a null.
fn push_scalar(
    alloc: Global,
    pairs: &mut Vec<Pair>,
    name: &str,
    value: &Json,
) -> Result<(), StyleFault>
    ensures { Pushes pairs.old.items pairs.new.items result (field_of name.now value.now) }
{
    if let Some(text) = scalar_text(alloc, false, value)? {
        let name = Text::from_str(alloc, name)?;
        pairs.push(Pair { name, text })?;
    }
    Ok(())
}

fn push_items(
    alloc: Global,
    pairs: &mut Vec<Pair>,
    name: &str,
    items: &[Json],
) -> Result<(), StyleFault>
    ensures { Pushes pairs.old.items pairs.new.items result (item_fields name.now items.now) }
{
    for item in items {
        push_scalar(alloc, pairs, name, item)?;
    }
    Ok(())
}

fn push_member(alloc: Global, pairs: &mut Vec<Pair>, member: &Member) -> Result<(), StyleFault>
    ensures { Pushes pairs.old.items pairs.new.items result (member_fields member.now) }
{
    let name = member.name.as_str();
    match &member.value {
        Json::List(items) => push_items(alloc, pairs, name, items.as_slice()),
        value => push_scalar(alloc, pairs, name, value),
    }
}

// The pairs of an object's members, in order.
fn fields(alloc: Global, members: &[Member]) -> Result<Vec<Pair>, StyleFault>
    ensures { Gives (λ v. v.items) told result (fields_of members.now) }
{
    let mut pairs = Vec::new(alloc);
    for member in members {
        push_member(alloc, &mut pairs, member)?;
    }
    Ok(pairs)
}

fn serialize(alloc: Global, pairs: &[Pair]) -> Result<Bytes, AllocError>
    ensures { IfOk result (λ b. b ≡ fold add_pair [] pairs.now) }
{
    let mut form = Serializer::new(String::new(alloc));
    for pair in pairs {
        form.append_pair(pair.name.as_str(), pair.text.as_str())?;
    }
    Ok(Bytes::from_std(form.finish().into_bytes()))
}

/// The body of a request of type `application/x-www-form-urlencoded` (OpenAPI 3.1.1, section 4.8.14.4; WHATWG
/// URL, section 5.2): a text as its bytes; of an object the members in order, a list as one pair for each of
/// its items, without nulls.
///
/// Errors: `NotSerializable` for a value that is neither a text nor an object, and where a list or an object
/// stands where a text is wanted; `FractionUsed` where a number without its value would be written, or stands
/// alone; of several members the first decides.
pub fn form(alloc: Global, value: &Json) -> Result<Bytes, StyleFault>
    ensures { Gives (λ b. b) told result (form_of value.now) }
{
    match value {
        Json::Text(text) => Ok(Bytes::from_std(text.as_str().as_bytes().to_vec(alloc)?)),
        Json::Object(members) => {
            let pairs = fields(alloc, members.as_slice())?;
            Ok(serialize(alloc, pairs.as_slice())?)
        }
        Json::Opaque => Err(StyleFault::FractionUsed),
        _ => Err(StyleFault::NotSerializable),
    }
}

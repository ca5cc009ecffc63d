// The texts of values inside a list or an object.
ghost use Rattle.std.specs.Prelude.{◌≡◌, IfOk, OnOk, ◌++◌};
ghost use Rattle.std.specs.Fmt.{signed_decimal};
ghost use Rattle.arz_json.specs.Answer.{Gives};
ghost use Rattle.arz_style.specs.Texts.{told, flag_text as text_of_flag, text_of, texts_of, pair_of, pairs_of};

use crate::escapes::spell;
use crate::fault::StyleFault;
use arz_json::{Json, Member, Text};
use std::alloc::{AllocError, Global};

/// A name and a text.
#[derive(Debug, Drop)]
pub(crate) struct Pair {
    pub(crate) name: Text,
    pub(crate) text: Text,
}

fn flag_text(alloc: Global, flag: bool) -> Result<Text, AllocError>
    ensures { IfOk result (λ t. t ≡ text_of_flag flag) }
{
    Text::from_str(alloc, if flag { "true" } else { "false" })
}

fn int_text(alloc: Global, n: i128) -> Result<Text, AllocError>
    ensures { IfOk result (λ t. t ≡ signed_decimal n) }
{
    Ok(Text::from_std(format!(in alloc; "{n}")?))
}

/// The text of a flag, an integer or a text; a null has none.
pub(crate) fn scalar_text(
    alloc: Global,
    escape: bool,
    value: &Json,
) -> Result<Option<Text>, StyleFault>
    ensures { Gives (λ t. t) told result (text_of escape value.now) }
{
    match value {
        Json::Null => Ok(None),
        Json::Flag(flag) => Ok(Some(flag_text(alloc, *flag)?)),
        Json::Int(n) => Ok(Some(int_text(alloc, *n)?)),
        Json::Text(text) => Ok(Some(spell(alloc, escape, text.as_str())?)),
        Json::List(_) | Json::Object(_) => Err(StyleFault::NotSerializable),
        Json::Opaque => Err(StyleFault::FractionUsed),
    }
}

/// The texts of items, without the nulls among them.
pub(crate) fn item_texts(
    alloc: Global,
    escape: bool,
    items: &[Json],
) -> Result<Vec<Text>, StyleFault>
    ensures { Gives (λ v. v.items) told result (texts_of escape items.now) }
{
    let mut texts = Vec::new(alloc);
    for item in items {
        if let Some(text) = scalar_text(alloc, escape, item)? {
            texts.push(text)?;
        }
    }
    Ok(texts)
}

fn member_pair(alloc: Global, escape: bool, member: &Member) -> Result<Option<Pair>, StyleFault>
    ensures { Gives (λ p. p) told result (pair_of escape member.now) }
{
    match scalar_text(alloc, escape, &member.value)? {
        Some(text) => {
            let name = spell(alloc, escape, member.name.as_str())?;
            Ok(Some(Pair { name, text }))
        }
        None => Ok(None),
    }
}

/// The names and the texts of members, without those that are null.
pub(crate) fn member_pairs(
    alloc: Global,
    escape: bool,
    members: &[Member],
) -> Result<Vec<Pair>, StyleFault>
    ensures { Gives (λ v. v.items) told result (pairs_of escape members.now) }
{
    let mut pairs = Vec::new(alloc);
    for member in members {
        if let Some(pair) = member_pair(alloc, escape, member)? {
            pairs.push(pair)?;
        }
    }
    Ok(pairs)
}

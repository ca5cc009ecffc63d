// JSON trees, and places in them.
use arz_cases::{Case, CaseFault, Outcome, brief, flag_word, text_of};
use arz_json::{
    Bytes, CompactFault, JsonFault, Many, PutFault, Text, at as value_at, compact, copy, is_deeper,
    put as put_at, read, same as are_same,
};
use std::alloc::Global;

/// The compact text of `document`, which is read with a `limit`, or as many bytes as it has.
pub fn json(alloc: Global, case: &Case<'_>) -> Result<Outcome, CaseFault> {
    let bytes = case.bytes(alloc, "document")?;
    let limit = case.number("limit").unwrap_or(bytes.len() as u64);
    let tree = match read(alloc, &bytes, limit) {
        Ok(tree) => tree,
        Err(JsonFault::NotJson) => return Ok(Outcome::words(alloc, "NotJson")?),
        Err(JsonFault::TooLarge) => return Ok(Outcome::words(alloc, "TooLarge")?),
        Err(JsonFault::Memory) => return Err(CaseFault::Memory),
    };
    match compact(alloc, &tree) {
        Ok(text) => Ok(Outcome {
            text: text.into_std(),
            status: None,
        }),
        Err(CompactFault::FractionUsed) => Ok(Outcome::words(alloc, "FractionUsed")?),
        Err(CompactFault::Memory) => Err(CaseFault::Memory),
    }
}

/// The text of a copy of `document`, and whether both are one tree.
pub fn copied(alloc: Global, case: &Case<'_>) -> Result<Outcome, CaseFault> {
    let tree = case.json(alloc, "document")?;
    let other = copy(alloc, &tree)?;
    let text = text_of(alloc, &other)?;
    let word = flag_word(are_same(&tree, &other));
    Ok(Outcome::text(format!(in alloc; "{text} {word}")?))
}

/// Whether `document` and `other` are one tree.
pub fn same(alloc: Global, case: &Case<'_>) -> Result<Outcome, CaseFault> {
    let left = case.json(alloc, "document")?;
    let right = case.json(alloc, "other")?;
    Ok(Outcome::words(alloc, flag_word(are_same(&left, &right)))?)
}

/// Whether `document` nests deeper than `limit`.
pub fn deeper(alloc: Global, case: &Case<'_>) -> Result<Outcome, CaseFault> {
    let tree = case.json(alloc, "document")?;
    let limit = case.number("limit").ok_or(CaseFault::Malformed("limit"))?;
    Ok(Outcome::words(alloc, flag_word(is_deeper(&tree, limit as usize)))?)
}

/// What `pointer` names in `document`.
pub fn at(alloc: Global, case: &Case<'_>) -> Result<Outcome, CaseFault> {
    let tree = case.json(alloc, "document")?;
    let pointer = case.text(alloc, "pointer")?;
    match value_at(&tree, pointer.as_str()) {
        Some(found) => Ok(Outcome::text(brief(alloc, found)?)),
        None => Ok(Outcome::words(alloc, "none")?),
    }
}

/// The member `member` of `document`.
pub fn get(alloc: Global, case: &Case<'_>) -> Result<Outcome, CaseFault> {
    let tree = case.json(alloc, "document")?;
    match tree.get(case.word("member")) {
        Some(found) => Ok(Outcome::text(brief(alloc, found)?)),
        None => Ok(Outcome::words(alloc, "none")?),
    }
}

/// What `document` is after `value` was put at `pointer`; a fault stands before it, with the value
/// that it hands back.
pub fn put(alloc: Global, case: &Case<'_>) -> Result<Outcome, CaseFault> {
    let mut tree = case.json(alloc, "document")?;
    let pointer = case.text(alloc, "pointer")?;
    let value = case.json(alloc, "value")?;
    let fault = match put_at(&mut tree, pointer.as_str(), value) {
        Ok(()) => String::new(alloc),
        Err(PutFault::NoPlace(value)) => {
            format!(in alloc; "NoPlace {} ", brief(alloc, &value)?)?
        }
        Err(PutFault::TooNested(value)) => {
            format!(in alloc; "TooNested {} ", brief(alloc, &value)?)?
        }
    };
    let text = text_of(alloc, &tree)?;
    Ok(Outcome::text(format!(in alloc; "{fault}{text}")?))
}

/// `text` as it comes back from each of the small types: copied as a text, as bytes, and one by one
/// from the end of a list.
pub fn types(alloc: Global, case: &Case<'_>) -> Result<Outcome, CaseFault> {
    let given = Text::from_std(case.text(alloc, "text")?);
    let mut text = given.copy(alloc)?.into_std();
    let bytes = Bytes::from_std(given.as_str().as_bytes().to_vec(alloc)?);
    let mut list = Many::new(alloc);
    for byte in bytes.as_slice() {
        list.push(*byte)?;
    }
    let length = list.len();
    let mut items = Many::from_std(list.into_std());
    for _ in 0..length {
        if let Some(byte) = items.pop() {
            text.push_str(format!(in alloc; " {byte}")?.as_str())?;
        }
    }
    if items.is_empty() && items.get(0).is_none() {
        text.push_str(" empty")?;
    }
    Ok(Outcome::text(text))
}

// Cases, as the files of data describe them.
ghost use Rattle.std.specs.Prelude.{IfOk};
ghost use Rattle.arz_json.specs.Tree.{IsWellFormed, IsWithin};

use crate::fault::CaseFault;
use arz_json::{Json, read};
use serde_json::Value;
use std::alloc::Global;

/// How deep parts may stand in one another.
const MOST_LEVELS: u8 = 8;

/// A case of a file, with what the file's cases share.
#[derive(Clone, Copy)]
pub struct Case<'a> {
    tree: &'a Value,
    shared: Option<&'a Value>,
}

impl<'a> Case<'a> {
    /// The case that this tree describes.
    pub fn new(tree: &'a Value, shared: Option<&'a Value>) -> Case<'a> {
        Case { tree, shared }
    }

    /// The member with this name, where there is one. `{"shared": NAME}` stands for what the file's
    /// cases share by that name.
    pub fn member(&self, name: &str) -> Option<&'a Value> {
        Some(self.resolved(self.tree.get(name)?))
    }

    /// What a value stands for.
    pub fn resolved(&self, value: &'a Value) -> &'a Value {
        self.shared_by(value).unwrap_or(value)
    }

    fn shared_by(&self, value: &'a Value) -> Option<&'a Value> {
        self.shared?.get(value.get("shared")?.as_str()?)
    }

    /// The plain text of a member, empty where there is none.
    pub fn word(&self, name: &str) -> &'a str {
        self.member(name).and_then(Value::as_str).unwrap_or("")
    }

    /// The number of a member, where there is one.
    pub fn number(&self, name: &str) -> Option<u64> {
        self.member(name).and_then(Value::as_u64)
    }

    /// Whether a member is there and `true`.
    pub fn flag(&self, name: &str) -> bool {
        self.member(name).and_then(Value::as_bool).unwrap_or(false)
    }

    /// A number of 32 bits.
    pub fn count(&self, name: &'static str) -> Result<u32, CaseFault> {
        let number = self.number(name).and_then(|n| u32::try_from(n).ok());
        number.ok_or(CaseFault::Malformed(name))
    }

    /// A part of the case that is described as a case is.
    pub fn inner(&self, tree: &'a Value) -> Case<'a> {
        Case::new(self.resolved(tree), self.shared)
    }

    /// The items of a member, none where there is no such list.
    pub fn items(&self, name: &str) -> &'a [Value] {
        match self.member(name).and_then(Value::as_array) {
            Some(items) => items.as_slice(),
            None => &[],
        }
    }

    /// The numbers of a list, as those of calls that fail.
    pub fn numbers(&self, alloc: Global, name: &str) -> Result<Vec<u32>, CaseFault> {
        let mut numbers = Vec::new(alloc);
        for item in self.items(name) {
            let number = item.as_u64().and_then(|n| u32::try_from(n).ok());
            numbers.push(number.ok_or(CaseFault::Malformed("a list of numbers"))?)?;
        }
        Ok(numbers)
    }

    /// The bytes that a member describes.
    pub fn bytes(&self, alloc: Global, name: &'static str) -> Result<Vec<u8>, CaseFault> {
        let value = self.member(name).ok_or(CaseFault::Malformed(name))?;
        self.bytes_of(alloc, value)
    }

    /// The text that a member describes.
    pub fn text(&self, alloc: Global, name: &'static str) -> Result<String, CaseFault> {
        let bytes = self.bytes(alloc, name)?;
        String::from_utf8(bytes).map_err(|_| CaseFault::Malformed(name))
    }

    /// The tree of the JSON text that a member describes.
    pub fn json(&self, alloc: Global, name: &'static str) -> Result<Json, CaseFault>
        ensures well_formed { IfOk result IsWellFormed }
        ensures nests { IfOk result (IsWithin 127) }
    {
        let bytes = self.bytes(alloc, name)?;
        Ok(read(alloc, &bytes, bytes.len() as u64)?)
    }

    /// The bytes that a value describes: a text is its own bytes, a list its parts one after another,
    /// `{"hex": TEXT}` the bytes of hexadecimal digits, `{"json": TREE}` the tree's compact text, and
    /// `{"times": NUMBER, "of": PART}` a part so many times.
    pub fn bytes_of(&self, alloc: Global, value: &'a Value) -> Result<Vec<u8>, CaseFault> {
        let mut bytes = Vec::new(alloc);
        self.add_part(alloc, value, MOST_LEVELS, &mut bytes)?;
        Ok(bytes)
    }

    #[cycle(part)]
    fn add_part(
        &self,
        alloc: Global,
        part: &'a Value,
        levels: u8,
        out: &mut Vec<u8>,
    ) -> Result<(), CaseFault> {
        if levels == 0 {
            return Err(CaseFault::Malformed("parts nest too deep"));
        }
        let part = self.resolved(part);
        match part {
            Value::String(text) => Ok(out.extend_from_slice(text.as_bytes())?),
            Value::Array(parts) => self.add_parts(alloc, parts.as_slice(), levels - 1, out),
            _ => self.add_described(alloc, part, levels - 1, out),
        }
    }

    #[cycle(part)]
    fn add_parts(
        &self,
        alloc: Global,
        parts: &'a [Value],
        levels: u8,
        out: &mut Vec<u8>,
    ) -> Result<(), CaseFault> {
        for part in parts {
            self.add_part(alloc, part, levels, out)?;
        }
        Ok(())
    }

    #[cycle(part)]
    fn add_described(
        &self,
        alloc: Global,
        part: &'a Value,
        levels: u8,
        out: &mut Vec<u8>,
    ) -> Result<(), CaseFault> {
        if let Some(tree) = part.get("json") {
            return Ok(out.extend_from_slice(tree.to_string(alloc)?.as_bytes())?);
        }
        if let Some(digits) = part.get("hex").and_then(Value::as_str) {
            return add_hex(alloc, digits, out);
        }
        let times = part.get("times").and_then(Value::as_u64);
        let times = times.ok_or(CaseFault::Malformed("a part"))?;
        let repeated = part.get("of").ok_or(CaseFault::Malformed("a part"))?;
        let mut bytes = Vec::new(alloc);
        self.add_part(alloc, repeated, levels, &mut bytes)?;
        for _ in 0..times {
            out.extend_from_slice(&bytes)?;
        }
        Ok(())
    }
}

fn add_hex(alloc: Global, digits: &str, out: &mut Vec<u8>) -> Result<(), CaseFault> {
    let bytes = hex::decode(alloc, digits).map_err(|_| CaseFault::Malformed("hexadecimal digits"))?;
    Ok(out.extend_from_slice(&bytes)?)
}

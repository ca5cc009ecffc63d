// What a call came to, as text.
ghost use Rattle.arz_json.specs.Tree.{IsWellFormed};

use crate::fault::CaseFault;
use arz_json::{CompactFault, Json, compact_string};
use std::alloc::{AllocError, Global};

/// What a call came to.
#[derive(Debug, Drop)]
pub struct Outcome {
    /// What was printed, or the value or fault in words.
    pub text: Vec<u8>,
    /// The status, of a call that answers one.
    pub status: Option<u8>,
}

impl Outcome {
    /// A value or fault in words.
    pub fn text(text: String) -> Outcome {
        Outcome {
            text: text.into_bytes(),
            status: None,
        }
    }

    /// A value or fault in words that are known.
    pub fn words(alloc: Global, words: &str) -> Result<Outcome, AllocError> {
        Ok(Outcome::text(String::from_str(alloc, words)?))
    }
}

/// A flag in words.
pub fn flag_word(flag: bool) -> &'static str {
    if flag { "true" } else { "false" }
}

/// A tree's kind, and its value where it holds no other.
pub fn brief(alloc: Global, tree: &Json) -> Result<String, AllocError> {
    match tree {
        Json::Null => String::from_str(alloc, "null"),
        Json::Flag(flag) => String::from_str(alloc, flag_word(*flag)),
        Json::Int(number) => format!(in alloc; "{number}"),
        Json::Text(text) => format!(in alloc; "text {}", text.as_str()),
        Json::List(items) => format!(in alloc; "list of {}", items.len()),
        Json::Object(members) => format!(in alloc; "object of {}", members.len()),
        Json::Opaque => String::from_str(alloc, "opaque"),
    }
}

/// The compact text of a tree, or that it has none.
pub fn text_of(alloc: Global, tree: &Json) -> Result<String, CaseFault>
    requires { IsWellFormed tree.now }
{
    match compact_string(alloc, tree) {
        Ok(text) => Ok(text),
        Err(CompactFault::FractionUsed) => Ok(String::from_str(alloc, "FractionUsed")?),
        Err(CompactFault::Memory) => Err(CaseFault::Memory),
    }
}

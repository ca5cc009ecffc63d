//! Regular expressions: the mapping of I-Regexps (RFC 9485) to the patterns that are searched for,
//! and the trait of what searches for them, with a table in memory that has it.
#![tactic(auto)]

mod mapping;
mod patterns;
mod table;

pub use mapping::i_regexp;
pub use patterns::{Patterns, SearchFault};
pub use table::TablePatterns;

//! OpenAPI 3.1 documents: the rules that one must keep, and the operation that a name means in it.
//!
//! | number | fails where |
//! |---|---|
//! | 3 | a member is missing or of another kind, in the document, in a path item behind a reference, or in the parameters and the body of the operation that is named |
//! | 4 | the version isn't one of OpenAPI 3.1 |
//! | 6 | an operationId stands a second time |
//! | 8 | a reference of the operation that is named names nothing |
//! | 18 | such a reference names something outside of the document |
//! | 19 | a chain of such references is longer than 32 |
#![tactic(auto)]

mod behind;
mod document;
mod finding;
mod ids;
mod joined;
mod operations;
mod parts;
mod reading;
mod sites;
mod tokens;

pub use document::check;
pub use finding::{find_id, find_path};
pub use joined::Names;
pub use operations::Operations;

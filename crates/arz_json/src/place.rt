// Places in trees.
use crate::many::Many;
use crate::text::Text;

/// A step from a list or an object to what stands in it (RFC 9535, section 2.7).
#[derive(Debug, Drop)]
pub enum Token {
    /// To the member with this name.
    Name(Text),
    /// To the item at this index, which counts from 0.
    Index(u64),
}

/// Where a value stands in a tree: the steps from the root.
#[derive(Debug, Drop)]
pub struct Place {
    pub tokens: Many<Token>,
}

// A query, which contracts see as its text.
ghost use Rattle.std.specs.Prelude.{◌≡◌, Ok};
ghost use Rattle.arz_query.specs.Answers.{Answers, Spells};

use crate::answers::answered;
use crate::fault::PathFault;
use crate::query::Segment;
use crate::text::Text;
use sqlite_items::Items;
use std::alloc::Global;
use std::marker::Model;

/// A query (RFC 9535, section 2.1), which contracts see as the text that was read. The segments are those
/// that the grammar derives from the text.
#[derive(Debug, Drop)]
pub struct Query {
    text: Text,
    segments: Items<Segment>,
}

impl Model for Query {
    ghost use Rattle.std.specs.Prelude.{List, ℕ};
    ghost use Rattle.arz_query.specs.Answers.{Spells};

    ghost Value = { List ℕ };

    ghost view = { λ q. q.text };

    ghost invariant = { λ q. Spells q.text q.segments };
}

fn kept(alloc: Global, text: &str, segments: Items<Segment>) -> Result<Query, PathFault>
    requires { Spells text.now segments }
    ensures { Answers result (Ok text.now) }
{
    Ok(Query {
        text: Text::from_str(alloc, text)?,
        segments,
    })
}

impl Query {
    ghost use Rattle.std.specs.Prelude.{◌≡◌, ℕ, List, IfOk, IfErr, Some, Err};
    ghost use Rattle.arz_query.specs.Nesting.{too_nested as nested_too_deep};
    ghost use Rattle.arz_query.specs.Answers.{Answers, IsRead, Spells, IsSpelled, Faults, due};
    ghost use Rattle.arz_query.specs.declared.pieces.Marks.{Marks};
    ghost use Rattle.arz_query.specs.declared.query.Segment.{Segment};
    ghost use Rattle.arz_query.specs.declared.fault.PathFault.TheVariants.{TooNested};

    /// The query that a text is (RFC 9535), or the fault that it has. Where a number of the text is past
    /// its range or has a fraction, or a part isn't well-typed, the fault is that of the flaw with the least
    /// offset.
    pub fn read(alloc: Global, text: &str) -> Result<Query, PathFault>
        // What is read is the text, which spells a query; and each fault is one of the text.
        ensures text { IfOk result (λ q. q ≡ text.now) }
        ensures spelled { IfOk result IsSpelled }
        ensures fault { IfErr result (Faults text.now) }

        // Unless memory ran out, a text of the grammar is read, or has the fault of its first flaw.
        ensures complete { (vs : List Segment) (m : Marks) → IsRead text.now vs m → Answers result (due text.now m) }
        ensures too_nested { (at : ℕ) → nested_too_deep text.now ≡ Some at → Answers result (Err (TooNested at)) }
    {
        let segments = answered(alloc, text.as_bytes())?;
        kept(alloc, text, segments)
    }

    /// The text.
    pub fn as_str(&self) -> &str
        ensures { result.now ≡ self.now }
    {
        self.text.as_str()
    }

    /// The segments after `$`, which the text spells.
    pub fn segments(&self) -> &Items<Segment>
        ensures { Spells self.now result.now }
    {
        &self.segments
    }
}

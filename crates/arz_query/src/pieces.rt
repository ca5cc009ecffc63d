// What reading gives.
ghost use Rattle.std.specs.Prelude.{◌≡◌, Some, OnOk};
ghost use Rattle.arz_query.specs.Words.{Gives, as_read, first_flaw, list_of_one, with_item};
ghost use Rattle.arz_query.specs.declared.pieces.ReadFault.TheVariants.{Memory};

use sqlite_items::Items;
use std::alloc::{AllocError, Global};

/// Which flaw a text of the grammar has.
#[derive(Clone, Copy, Debug, PartialEq, Eq)]
pub enum FlawKind {
    /// A part isn't well-typed (RFC 9535, section 2.4.3).
    IllTyped,
    /// A number has a fraction or an exponent.
    Fraction,
    /// A number is past its range.
    IntegerRange,
}

/// A flaw of a text of the grammar, for contracts.
#[derive(Clone, Copy, Debug, PartialEq, Eq)]
pub struct Flaw {
    /// Which one.
    pub kind: FlawKind,
    /// How many bytes of the text are left where it begins.
    pub left: usize,
}

/// What is to be told of a part of a text, for contracts.
#[derive(Clone, Copy, Debug, PartialEq, Eq)]
pub struct Marks {
    /// The flaw with the least offset.
    pub flaw: Option<Flaw>,
    /// Whether each part of it may stand in a singular query (RFC 9535, section 2.3.5.1).
    pub single: bool,
}

/// What was read, what is to be told of it, and the rest.
#[derive(Drop)]
pub(crate) struct Part<'a, T> {
    pub value: T,
    pub marks: Marks,
    pub rest: &'a [u8],
}

/// Why nothing was read.
#[derive(Clone, Copy)]
pub(crate) enum ReadFault {
    Syntax,
    Memory,
}

impl From<AllocError> for ReadFault {
    ghost from_gives = { λ _ e. e ≡ Memory };

    fn from(_e: AllocError) -> ReadFault {
        ReadFault::Memory
    }
}

fn earlier(first: Option<Flaw>, later: Option<Flaw>) -> Option<Flaw>
    ensures { result ≡ first_flaw first later }
{
    let Some(one) = first else {
        return later;
    };
    let Some(other) = later else {
        return first;
    };
    if one.left < other.left {
        Some(other)
    } else {
        Some(one)
    }
}

impl Marks {
    ghost use Rattle.arz_query.specs.Words.{fine, flawed as flawed_marks, joined as joined_marks, plural as plural_marks, first_flaw};

    /// No flaw, and nothing that isn't singular.
    pub(crate) fn fine() -> Marks
        ensures { result ≡ fine }
    {
        Marks {
            flaw: None,
            single: true,
        }
    }

    /// A flaw that begins where so many bytes are left.
    pub(crate) fn flawed(kind: FlawKind, left: usize) -> Marks
        ensures { result ≡ flawed_marks kind left }
    {
        Marks {
            flaw: Some(Flaw { kind, left }),
            single: true,
        }
    }

    /// Those of this part and of one that stands further on.
    pub(crate) fn joined(self, later: Marks) -> Marks
        ensures { result ≡ joined_marks self later }
    {
        Marks {
            flaw: earlier(self.flaw, later.flaw),
            single: self.single && later.single,
        }
    }

    /// Those of something that isn't singular.
    pub(crate) fn plural(self) -> Marks
        ensures { result ≡ plural_marks self }
    {
        Marks {
            flaw: self.flaw,
            single: false,
        }
    }
}

/// A list of the one item that was read.
pub(crate) fn first_of<T: Drop>(
    alloc: Global,
    one: Part<'_, T>,
) -> Result<Part<'_, Items<T>>, ReadFault>
    ensures { Gives as_read result (Some (list_of_one (as_read one.entry))) }
{
    let Part { value, marks, rest } = one;
    let mut items = Items::new(alloc);
    items.push(value)?;
    Ok(Part {
        value: items,
        marks,
        rest,
    })
}

/// One item more, which was read where the list ended.
pub(crate) fn add<'a, T: Drop>(
    all: &mut Part<'a, Items<T>>,
    one: Part<'a, T>,
) -> Result<(), AllocError>
    ensures { OnOk result (as_read all.new ≡ with_item (as_read all.old) (as_read one.entry)) }
{
    let Part { value, marks, rest } = one;
    all.value.push(value)?;
    all.marks = all.marks.joined(marks);
    all.rest = rest;
    Ok(())
}

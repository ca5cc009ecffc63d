// What reading gives.
ghost use Rattle.std.specs.Prelude.{◌≡◌, Some, OnOk};
ghost use Rattle.arz_cond.specs.Words.{Gives, as_read, list_of_one, with_item};
ghost use Rattle.arz_cond.specs.declared.pieces.ReadFault.TheVariants.{Memory};

use sqlite_items::Items;
use std::alloc::{AllocError, Global};

/// What was read, and what follows it.
#[derive(Drop)]
pub(crate) struct Part<'a, T> {
    pub value: T,
    pub rest: &'a [u8],
}

/// Why nothing was read.
#[derive(Clone, Copy)]
pub(crate) enum ReadFault {
    Syntax,
    Memory,
}

impl From<AllocError> for ReadFault {
    ghost from_gives = { λ _ e. e ≡ Memory };

    fn from(_e: AllocError) -> ReadFault {
        ReadFault::Memory
    }
}

/// A list of the one item that was read.
pub(crate) fn first_of<T: Drop>(
    alloc: Global,
    one: Part<'_, T>,
) -> Result<Part<'_, Items<T>>, ReadFault>
    ensures { Gives as_read result (Some (list_of_one (as_read one.entry))) }
{
    let Part { value, rest } = one;
    let mut items = Items::new(alloc);
    items.push(value)?;
    Ok(Part { value: items, rest })
}

/// One item more, which was read where the list ended.
pub(crate) fn add<'a, T: Drop>(
    all: &mut Part<'a, Items<T>>,
    one: Part<'a, T>,
) -> Result<(), AllocError>
    ensures { OnOk result (as_read all.new ≡ with_item (as_read all.old) (as_read one.entry)) }
{
    let Part { value, rest } = one;
    all.value.push(value)?;
    all.rest = rest;
    Ok(())
}

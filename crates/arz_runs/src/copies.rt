// Parts that are written once and used by many runs, in memory of their own.
ghost use Rattle.std.specs.Prelude.{◌≡◌, IfOk};

use arz_description::First;
use arz_json::{Many, Member, Members, copy};
use std::alloc::{AllocError, Global};

/// The same inputs.
pub(crate) fn copied_inputs(alloc: Global, inputs: &Members) -> Result<Members, AllocError>
    ensures { IfOk result (λ copies. copies ≡ inputs.now) }
{
    let mut copies = Many::new(alloc);
    for input in inputs.as_slice() {
        copies.push(copied_input(alloc, input)?)?;
    }
    Ok(copies)
}

fn copied_input(alloc: Global, input: &Member) -> Result<Member, AllocError>
    ensures { IfOk result (λ copy. copy ≡ input.now) }
{
    Ok(Member {
        name: input.name.copy(alloc)?,
        value: copy(alloc, &input.value)?,
    })
}

/// The same step or workflow that goes first.
pub(crate) fn copied_first(alloc: Global, first: &First) -> Result<First, AllocError>
    ensures { IfOk result (λ copy. copy ≡ first.now) }
{
    Ok(match first {
        First::Nothing => First::Nothing,
        First::Step(id) => First::Step(id.copy(alloc)?),
        First::Flow(id) => First::Flow(id.copy(alloc)?),
    })
}

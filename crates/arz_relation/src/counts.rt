// How often retries were made since their step was entered.
ghost use Rattle.std.specs.Prelude.{◌≡◌, ◌<◌, ℕ, IfOk, not, filter, find};
ghost use Rattle.std.specs.Option.{option_copied};
ghost use Rattle.std.specs.Str.{bytes_eq};
ghost use Rattle.arz_relation.specs.Retries.{made_of, once_more as one_more};

use crate::retries::Count;
use arz_json::{Many, Text};
use std::alloc::{AllocError, Global};

/// How often the retry of this name was made.
pub fn made(counts: &[Count], name: &str) -> u32
    ensures { result ≡ made_of name.now counts.now }
{
    match count_of(counts, name) {
        Some(count) => count.made,
        None => 0,
    }
}

fn count_of<'c>(counts: &'c [Count], name: &str) -> Option<&'c Count>
    ensures { option_copied result ≡ find (λ c. bytes_eq c.name name.now) counts.now }
{
    counts.iter().find(|count| count.name.as_str() == name)
}

/// The counts after the retry of this name was made once more.
pub fn once_more(alloc: Global, counts: &[Count], name: &str) -> Result<Many<Count>, AllocError>
    requires { made_of name.now counts.now < 4294967295 }
    ensures { IfOk result (λ more. more ≡ one_more name.now counts.now) }
{
    let mut more = others(alloc, counts, name)?;
    let made = made(counts, name) + 1;
    let name = Text::from_str(alloc, name)?;
    more.push(Count { name, made })?;
    Ok(more)
}

// The counts of the retries of other names.
fn others(alloc: Global, counts: &[Count], name: &str) -> Result<Many<Count>, AllocError>
    ensures { IfOk result (λ others. others ≡ filter (λ c. not (bytes_eq c.name name.now)) counts.now) }
{
    let mut others = Many::new(alloc);
    for count in counts {
        if count.name.as_str() != name {
            others.push(copy(alloc, count)?)?;
        }
    }
    Ok(others)
}

/// The same counts, in memory of their own.
pub fn copied(alloc: Global, counts: &[Count]) -> Result<Many<Count>, AllocError>
    ensures { IfOk result (λ copy. copy ≡ counts.now) }
{
    let mut copies = Many::new(alloc);
    for count in counts {
        copies.push(copy(alloc, count)?)?;
    }
    Ok(copies)
}

fn copy(alloc: Global, count: &Count) -> Result<Count, AllocError>
    ensures { IfOk result (λ copy. copy ≡ count.now) }
{
    Ok(Count {
        name: count.name.copy(alloc)?,
        made: count.made,
    })
}

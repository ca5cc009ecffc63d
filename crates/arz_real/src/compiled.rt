// Patterns as `regex` compiles them.
ghost use Rattle.std.specs.Prelude.{ℕ, List, IfOk};
ghost use Rattle.arz_real.specs.Kept.{IsCompiled};
ghost use Rattle.arz_real.specs.Meaning.{Finds};

use arz_rx::SearchFault;
use regex::{Error, Regex};
use std::alloc::{AllocError, Global};

/// What compiling a pattern gives.
#[derive(Drop)]
pub enum Compiled {
    /// What is searched with.
    Program(Regex),
    /// The pattern isn't well formed, or it nests deeper than is read.
    NoReading,
    /// The pattern is refused for its size.
    TooBig,
}

/// Compiles the pattern.
pub(crate) fn compile(alloc: Global, pattern: &str) -> Result<Compiled, AllocError>
    ensures { IfOk result (IsCompiled pattern.now) }
{
    match Regex::new(alloc, pattern) {
        Ok(regex) => Ok(Compiled::Program(regex)),
        Err(Error::Syntax(_)) => Ok(Compiled::NoReading),
        Err(Error::OutOfMemory) => Err(AllocError),
        Err(Error::CompiledTooBig) => Ok(Compiled::TooBig),
        Err(Error::Internal) => unreachable!(),
    }
}

/// Searches in the text. The fault TooBig says that the pattern was refused for its size.
pub(crate) fn search(
    alloc: Global,
    compiled: &Compiled,
    text: &str,
) -> Result<Option<bool>, SearchFault>
    ensures { (pattern : List ℕ) → IsCompiled pattern compiled.now → Finds pattern text.now result }
{
    match compiled {
        Compiled::Program(regex) => {
            let mut matcher = regex.matcher(alloc)?;
            Ok(Some(matcher.is_match(text)))
        }
        Compiled::NoReading => Ok(None),
        Compiled::TooBig => Err(SearchFault::TooBig),
    }
}

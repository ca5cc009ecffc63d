// The patterns of a run, compiled once.
ghost use Rattle.arz_real.specs.Kept.{AreCompiled, AreCompiled-prop};

use crate::compiled::{Compiled, compile, search};
use arz_rx::SearchFault;
use std::alloc::Global;
use std::collections::BTreeMap;

/// The patterns that were compiled so far, by their texts.
#[derive(Drop)]
pub(crate) struct Kept {
    patterns: BTreeMap<String, Compiled>,
    ghost are_compiled: { AreCompiled patterns } by { AreCompiled-prop patterns },
}

impl Kept {
    ghost use Rattle.std.specs.Prelude.{IfSome};
    ghost use Rattle.arz_real.specs.Kept.{IsCompiled};
    ghost use Rattle.arz_real.specs.Meaning.{Finds};

    pub(crate) fn new(alloc: Global) -> Kept {
        Kept {
            patterns: BTreeMap::new(alloc),
        }
    }

    /// Searches for a pattern in the text. It is compiled where it isn't kept yet.
    pub(crate) fn search(
        &mut self,
        alloc: Global,
        pattern: &str,
        text: &str,
    ) -> Result<Option<bool>, SearchFault>
        ensures { Finds pattern.now text.now result }
    {
        match self.get(pattern) {
            Some(compiled) => search(alloc, compiled, text),
            None => self.first_search(alloc, pattern, text),
        }
    }

    // Compiles a pattern, searches for it and keeps it.
    fn first_search(
        &mut self,
        alloc: Global,
        pattern: &str,
        text: &str,
    ) -> Result<Option<bool>, SearchFault>
        ensures { Finds pattern.now text.now result }
    {
        let compiled = compile(alloc, pattern)?;
        let answer = search(alloc, &compiled, text);
        self.keep(alloc, pattern, compiled);
        answer
    }

    // What is kept of a pattern.
    fn get(&self, pattern: &str) -> Option<&Compiled>
        ensures { IfSome result (λ compiled. IsCompiled pattern.now compiled.now) }
    {
        self.patterns.get(pattern)
    }

    // Keeps what compiling a pattern gave, where there is memory for it.
    fn keep(&mut self, alloc: Global, pattern: &str, compiled: Compiled)
        requires { IsCompiled pattern.now compiled }
    {
        if let Ok(key) = String::from_str(alloc, pattern) {
            let _ = self.patterns.insert(key, compiled);
        }
    }
}

// Patterns without reading.
ghost use Rattle.std.specs.Prelude.{◌≡◌, ◌≢◌, [], true, ◌∷◌, IfOk, IsErrOf, OnOk, List, ℕ, Some, if◌then◌else◌};
ghost use Rattle.std.specs.Str.{bytes_eq};
ghost use Rattle.arz_json.specs.Tree.{has_form};
ghost use Rattle.arz_path.specs.Results.{Asked};
ghost use Rattle.arz_rules.specs.Place.{least, tokens_in};
ghost use Rattle.arz_rx.specs.Patterns.{Rose};
ghost use Rattle.arz_criteria.specs.Rules.{bad_patterns, patterns_in, TellsReadings};
ghost use Rattle.arz_criteria.specs.Taken.{answer_in, refuses, texts_of, Notes};

use crate::conditions::condition_if;
use crate::patterns::{is_regex, patterns_at_sites};
use arz_json::{Json, Place, text_at};
use arz_rules::Check;
use arz_rx::{Patterns, SearchFault};
use arz_sites::first_in_criteria;
use std::alloc::{AllocError, Global};
use std::collections::BTreeMap;

/// Which patterns of a description's criteria have no reading: the search of such a pattern in the empty text says so.
/// Each pattern is searched for once.
#[derive(Drop)]
pub struct Readings<'a> {
    refused: BTreeMap<&'a str, bool>,
}

impl<'a> Readings<'a> {
    /// Those of a description. `TooBig` comes only where the count of patterns too big has risen, and only where a
    /// criterion has a pattern.
    pub fn of<P: Patterns>(
        alloc: Global,
        root: &'a Json,
        rx: &mut P,
    ) -> Result<Readings<'a>, SearchFault>
        requires { has_form root.now ≡ true }
        ensures tells { IfOk result (λ r. TellsReadings (P.patterns rx.old).told root.now (refuses r)) }
        ensures pattern { IsErrOf result SearchFault.TooBig → Rose (P.patterns rx.old).too_big (P.patterns rx.new).too_big }
        ensures asks { IsErrOf result SearchFault.TooBig → patterns_in root.now ≢ [] }
        ensures asked { Asked (P.patterns rx.old) (P.patterns rx.new) }
    {
        let patterns = patterns_at_sites(alloc, root)?;
        let mut readings = Readings {
            refused: BTreeMap::new(alloc),
        };
        readings.ask_each(patterns.as_slice(), rx)?;
        Ok(readings)
    }

    fn ask_each<P: Patterns>(&mut self, patterns: &[&'a str], rx: &mut P) -> Result<(), SearchFault>
        ensures notes { OnOk result (Notes (P.patterns rx.old).told (texts_of patterns.now) self.old self.new) }
        ensures pattern { IsErrOf result SearchFault.TooBig → Rose (P.patterns rx.old).too_big (P.patterns rx.new).too_big }
        ensures asks { IsErrOf result SearchFault.TooBig → texts_of patterns.now ≢ [] }
        ensures asked { Asked (P.patterns rx.old) (P.patterns rx.new) }
    {
        for pattern in patterns {
            self.ask(pattern, rx)?;
        }
        Ok(())
    }

    fn ask<P: Patterns>(&mut self, pattern: &'a str, rx: &mut P) -> Result<(), SearchFault>
        ensures notes { OnOk result (Notes (P.patterns rx.old).told (pattern.now ∷ []) self.old self.new) }
        ensures pattern { IsErrOf result SearchFault.TooBig → Rose (P.patterns rx.old).too_big (P.patterns rx.new).too_big }
        ensures asked { Asked (P.patterns rx.old) (P.patterns rx.new) }
    {
        if self.refused.contains_key(pattern) {
            return Ok(());
        }
        let answer = rx.search(pattern, "")?;
        self.note(pattern, answer.is_none())?;
        Ok(())
    }

    fn note(&mut self, pattern: &'a str, refused: bool) -> Result<(), AllocError>
        ensures { OnOk result ((q : List ℕ) → answer_in self.new q ≡ (if bytes_eq pattern.now q then Some refused else answer_in self.old q)) }
    {
        self.refused.insert(pattern, refused)?;
        Ok(())
    }

    fn refuses(&self, pattern: &str) -> bool
        ensures { result ≡ refuses self.now pattern.now }
    {
        match self.refused.get(pattern) {
            Some(refused) => *refused,
            None => false,
        }
    }
}

/// The check that the pattern of a criterion has a reading.
#[derive(Drop)]
struct HasReading<'r, 'a> {
    readings: &'r Readings<'a>,
}

impl<'r, 'a> Check for HasReading<'r, 'a> {
    ghost use Rattle.arz_criteria.specs.Rules.{bad_pattern};
    ghost use Rattle.arz_criteria.specs.Taken.{refuses};

    ghost places = { λ c. bad_pattern (refuses c.readings.now) };

    fn first(&self, alloc: Global, tree: &Json) -> Result<Option<Place>, AllocError> {
        let fails = is_regex(tree) && self.readings.refuses(text_at(tree, "condition"));
        condition_if(alloc, fails)
    }
}

/// The least place of a pattern without reading.
pub fn first_bad_pattern(
    alloc: Global,
    readings: &Readings,
    root: &Json,
) -> Result<Option<Place>, AllocError>
    requires { has_form root.now ≡ true }
    ensures { IfOk result (λ p. tokens_in p ≡ least (bad_patterns (refuses readings.now) root.now)) }
{
    first_in_criteria(alloc, &HasReading { readings }, root)
}

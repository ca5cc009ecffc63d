// What the absolute queries of a filter find.
ghost use Rattle.std.specs.Prelude.{◌≡◌, [], ◌∷◌, ◌++◌, OnOk};
ghost use Rattle.std.specs.Option.{MatchOption};
ghost use Rattle.arz_path.specs.Seen.{found_seen};
ghost use Rattle.arz_path.specs.Absolute.{telling};

use crate::nodes::Found;
use std::alloc::{AllocError, Global};

/// What the absolute queries of a filter found, in the order in which they are evaluated. It doesn't depend on the
/// child that the filter is tried at (RFC 9535, section 2.3.5), so it is found once, at the first one.
#[derive(Drop)]
pub struct Known<'a> {
    found: Vec<Found<'a>>,
    next: usize,
}

impl<'a> Known<'a> {
    /// Nothing yet.
    #[tactic(auto, unfolding(crate::specs::Absolute::telling))]
    pub fn nothing(alloc: Global) -> Known<'a>
        ensures { telling result ≡ ([], []) }
    {
        Known {
            found: Vec::new(alloc),
            next: 0,
        }
    }

    /// Begins again with the first query.
    #[tactic(auto, unfolding(crate::specs::Absolute::telling))]
    pub fn rewind(&mut self)
        ensures { telling self.new ≡ ([], (telling self.old).0 ++ (telling self.old).1) }
    {
        self.next = 0;
    }

    /// What the next query found, where that is known.
    #[tactic(auto, unfolding(crate::specs::Absolute::telling))]
    pub fn recall(&mut self) -> Option<Found<'a>>
        ensures { MatchOption result (((telling self.old).1 ≡ []) × (telling self.new ≡ telling self.old))
            (λ found. ((telling self.old).1 ≡ found_seen found ∷ (telling self.new).1) × ((telling self.new).0 ≡ (telling self.old).0 ++ found_seen found ∷ [])) }
    {
        let found = *self.found.get(self.next)?;
        self.next += 1;
        Some(found)
    }

    /// Adds what the next query found, of which nothing was known.
    #[tactic(auto, unfolding(crate::specs::Absolute::telling))]
    pub fn add(&mut self, found: Found<'a>) -> Result<(), AllocError>
        requires { (telling self.old).1 ≡ [] }
        ensures { OnOk result (telling self.new ≡ ((telling self.old).0 ++ found_seen found.entry ∷ [], [])) }
    {
        self.found.push(found)?;
        self.next = self.found.len();
        Ok(())
    }
}

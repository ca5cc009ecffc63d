// The runs that are open while more are made.
ghost use Rattle.std.specs.Prelude.{◌≤◌, All, length};
ghost use Rattle.arz_relation.specs.Cases.{deepest};
ghost use Rattle.std.specs.Option.{option_copied, ForSome};
ghost use Rattle.arz_scope.specs.Shallow.{AreShallow, AreDoneShallow};
ghost use Rattle.arz_runs.specs.ShallowRuns.{IsShallowFrame};

use crate::frames::Frame;
use crate::ground::Ground;
use arz_flow::Fact;
use arz_scope::Completion;

/// The runs that are open while more are made.
#[derive(Drop)]
pub(crate) struct Front<'m, 'a> {
    pub ground: &'m Ground<'a>,
    /// Those that were open before, the innermost last.
    pub frames: &'m [Frame],
    /// A fact of the innermost of those.
    pub fact: Option<&'m Fact>,
    pub done: &'m [Completion],
    /// Completions that come after them.
    pub newly: &'m [Completion],
    /// How many requests were sent.
    pub sends: u32,
    ghost shallow: { All IsShallowFrame frames.now },
    ghost done_shallow: { AreDoneShallow done.now },
    ghost newly_shallow: { AreDoneShallow newly.now },
    ghost fact_shallow: { ForSome (option_copied fact) (λ f. AreShallow f.outputs) },
    ghost few: { length frames.now ≤ deepest },
    ghost within: { sends ≤ ground.now.bundle.now.max_attempts },
}

// A run as it is looked at while an answer is taken.
ghost use Rattle.std.specs.Coded.{codes};
ghost use Rattle.arz_json.specs.contracts.tree.Json as json;
ghost use Rattle.std.specs.Option.{option_copied};
ghost use Rattle.arz_runs.specs.Planned.{IsPlan};
ghost use Rattle.arz_runs.specs.ShallowRuns.{IsShallowLook};

use crate::frames::Frame;
use crate::ground::Ground;
use crate::plans::Plan;
use arz_flow::Fact;
use arz_scope::Completion;

/// A run that is open, with what comes after what it remembers.
#[derive(Drop)]
pub(crate) struct Look<'m, 'a> {
    pub ground: &'m Ground<'a>,
    pub plan: &'m Plan<'a>,
    pub frame: &'m Frame,
    /// How many runs are open, with it.
    pub depth: usize,
    /// A fact that comes after its own.
    pub fact: Option<&'m Fact>,
    pub done: &'m [Completion],
    /// Completions that come after them.
    pub newly: &'m [Completion],
    ghost planned: { IsPlan ground.now.bundle.now frame.now.workflow plan.now } by { Prim.hlevel (codes, json.the_row.coded) },
    ghost shallow: { IsShallowLook frame.now (option_copied fact) done.now newly.now },
}

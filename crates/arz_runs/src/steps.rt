// A step of an open run, as it is looked at.
ghost use Rattle.std.specs.Prelude.{◌≡◌, IfSome, IfNone, None};
ghost use Rattle.std.specs.Option.{option_copied};
ghost use Rattle.arz_scope.specs.Speaking.{completions_after};
ghost use Rattle.arz_runs.specs.Fronts.{IsLookedAt};
ghost use Rattle.arz_runs.specs.Runs.{step_at};
ghost use Rattle.arz_runs.specs.ShallowRuns.{IsShallowLook};

use crate::frames::Frame;
use crate::ground::Ground;
use crate::look::Look;
use crate::plans::Planned;
use arz_flow::Fact;
use arz_scope::Completion;

/// A run as it is looked at, which is so deep, where this fact and these completions come after what it remembers; and its
/// step at this index.
pub(crate) fn step_of<'m, 'a>(
    ground: &'m Ground<'a>,
    frame: &'m Frame,
    depth: usize,
    fact: Option<&'m Fact>,
    done: &'m [Completion],
    newly: &'m [Completion],
    index: usize,
) -> Option<(Look<'m, 'a>, &'m Planned<'a>)>
    requires { IsShallowLook frame.now (option_copied fact) done.now newly.now }
    ensures there { IfSome result (λ p. IsLookedAt ground.now.bundle.now frame.now depth (option_copied fact.entry) (completions_after newly.now done.now) index p.0 p.1.now) }
    ensures absent { IfNone result (step_at ground.now.bundle.now frame.now.workflow index ≡ None) }
{
    let plan = ground.plan(frame.workflow.as_str())?;
    let look = Look {
        ground,
        plan,
        frame,
        depth,
        fact,
        done,
        newly,
    };
    let planned = look.step(index)?;
    Some((look, planned))
}

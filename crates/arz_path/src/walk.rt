// A walk through a tree in preorder, which holds one path (RFC 9535, section 2.5.2.2).
ghost use Rattle.std.specs.Prelude.{◌≡◌, [], ◌∷◌, if◌then◌else◌, IfOk, OnOk};
ghost use Rattle.arz_path.specs.Seen.{place_in, seen, rows, end_of, way, ahead};

use crate::children::Children;
use crate::nodes::{Held, Step, Trail, further};
use arz_json::Json;
use bumpalo::Bump;
use std::alloc::{AllocError, Global};

/// How a node on the path stands: by a step from the one before, until its trail was made.
#[derive(Clone, Copy)]
pub enum Mark<'t, 'a> {
    Step(Step<'a>),
    Made(Option<&'t Trail<'t, 'a>>),
}

/// A step of the path: the child that it goes to, and the children that come after that one.
#[derive(Clone, Copy)]
struct Level<'t, 'a> {
    mark: Mark<'t, 'a>,
    children: Children<'a>,
}

/// A walk: the node where it stands, and the path to that from the node where it began.
#[derive(Drop)]
pub struct Walk<'t, 'a> {
    start: Option<&'t Trail<'t, 'a>>,
    path: Vec<Level<'t, 'a>>,
    value: &'a Json,
}

impl<'t, 'a> Walk<'t, 'a> {
    /// A walk that begins at a node.
    #[tactic(auto, unfolding(crate::specs::Seen::way))]
    pub fn at(alloc: Global, node: Held<'t, 'a>) -> Walk<'t, 'a>
        ensures { way result ≡ (seen node.entry, []) }
    {
        Walk {
            start: node.trail,
            path: Vec::new(alloc),
            value: node.value,
        }
    }

    /// The value of the node where it stands.
    #[tactic(auto, unfolding(crate::specs::Seen::way))]
    pub fn value(&self) -> &'a Json
        ensures { result.now ≡ (way self.now).0.1 }
    {
        self.value
    }

    /// The trail of the node where it stands, where one is kept. It is made once, with those before it.
    #[tactic(auto, unfolding(crate::specs::Seen::way))]
    pub fn trail(&mut self, bump: &'t Bump) -> Result<Option<&'t Trail<'t, 'a>>, AllocError>
        ensures made { IfOk result (λ trail. place_in trail ≡ (way self.old).0.0) }
        ensures same { OnOk result (way self.new ≡ way self.old) }
    {
        trail_of(bump, self.start, &mut self.path)
    }

    /// Goes on to the next node, where one is left.
    pub fn advance(&mut self) -> Result<bool, AllocError>
        ensures { IfOk result (λ moved. ahead (way self.old) ≡ (way self.old).0 ∷ (if moved then ahead (way self.new) else [])) }
    {
        let mut children = Children::of(self.value);
        'levels: loop {
            if let Some(child) = children.next() {
                let mark = Mark::Step(child.step);
                self.path.push(Level { mark, children })?;
                self.value = child.value;
                return Ok(true);
            }
            let Some(level) = self.path.pop() else {
                return Ok(false);
            };
            children = level.children;
        }
    }
}

/// The trail of the node at the end of a path.
fn trail_of<'t, 'a>(
    bump: &'t Bump,
    start: Option<&'t Trail<'t, 'a>>,
    path: &mut Vec<Level<'t, 'a>>,
) -> Result<Option<&'t Trail<'t, 'a>>, AllocError>
    ensures made { IfOk result (λ trail. place_in trail ≡ end_of (place_in start.entry) (rows (place_in start.entry) path.old.items)) }
    ensures same { OnOk result (rows (place_in start.entry) path.new.items ≡ rows (place_in start.entry) path.old.items) }
{
    let Some(level) = path.pop() else {
        return Ok(start);
    };
    match level.mark {
        Mark::Made(trail) => {
            path.push(level)?;
            Ok(trail)
        }
        Mark::Step(step) => {
            let before = trail_of(bump, start, path)?;
            let trail = further(bump, before, step)?;
            let mark = Mark::Made(trail);
            let children = level.children;
            path.push(Level { mark, children })?;
            Ok(trail)
        }
    }
}

// The children of a value, one after the other.
ghost use Rattle.std.specs.Prelude.{◌≡◌, [], ◌∷◌};
ghost use Rattle.std.specs.Option.{MatchOption};
ghost use Rattle.arz_path.specs.Tree.{children};
ghost use Rattle.arz_path.specs.Seen.{branch_of, coming};

use crate::nodes::{Branch, Step, items_of, members_of};
use arz_json::{Json, Member};

/// The children of a value that are still to come, in order.
#[derive(Clone, Copy)]
pub struct Children<'a> {
    items: &'a [Json],
    next: usize,
    members: &'a [Member],
}

impl<'a> Children<'a> {
    /// All children of a value.
    pub fn of(value: &'a Json) -> Children<'a>
        ensures { coming result ≡ children value.now }
    {
        Children {
            items: items_of(value),
            next: 0,
            members: members_of(value),
        }
    }

    /// The next child, where one is left.
    pub fn next(&mut self) -> Option<Branch<'a>>
        ensures { MatchOption result (coming self.old ≡ []) (λ child. coming self.old ≡ branch_of child ∷ coming self.new) }
    {
        if self.next < self.items.len() {
            let step = Step::Index(self.next as u64);
            let value = &self.items[self.next];
            self.next += 1;
            return Some(Branch { step, value });
        }
        let (member, more) = self.members.split_first()?;
        self.members = more;
        let step = Step::Name(&member.name);
        let value = &member.value;
        Some(Branch { step, value })
    }
}

// Parameters of a path item and of an operation together.
ghost use Rattle.std.specs.Prelude.{◌≡◌, ◌++◌, ◌∷◌, [], ◌&&◌, ◌||◌, ℕ, List, false, IfOk, OnOk, if◌then◌else◌};
ghost use Rattle.arz_json.specs.declared.tree.Location.{Location};
ghost use Rattle.arz_json.specs.declared.tree.Location.TheVariants.{Path, Query, Header, Cookie};
ghost use Rattle.std.specs.Str.{bytes_eq};
ghost use Rattle.arz_rules.specs.Sets.{has};
ghost use Rattle.arz_operation.specs.Named.{is_same, taking_all, untaken, none_taken, joined as joined_lists};
ghost use Rattle.arz_openapi.specs.Names.{taken_in};

use arz_json::{Location, Many};
use arz_operation::Described;
use arz_rules::TextSet;
use std::alloc::{AllocError, Global};

/// Names of parameters, by their places (OpenAPI 3.1.0, section 4.8.12.1).
#[derive(Drop)]
pub struct Names<'a> {
    path: TextSet<'a>,
    query: TextSet<'a>,
    header: TextSet<'a>,
    cookie: TextSet<'a>,
}

impl<'a> Names<'a> {
    /// No name. It takes no memory.
    pub fn new(alloc: Global) -> Names<'a>
        ensures { (place : Location) (q : List ℕ) → taken_in result place q ≡ false }
    {
        Names {
            path: TextSet::new(alloc),
            query: TextSet::new(alloc),
            header: TextSet::new(alloc),
            cookie: TextSet::new(alloc),
        }
    }

    /// Puts a name into a place, and says whether it was there. Where memory runs out, it may be there or not.
    pub fn put(&mut self, place: Location, name: &'a str) -> Result<bool, AllocError>
        ensures was { IfOk result (λ was. was ≡ taken_in self.old place name.now) }
        ensures path { OnOk result ((q : List ℕ) → has self.new.path q ≡ (is_same place Path && bytes_eq name.now q) || has self.old.path q) }
        ensures query { OnOk result ((q : List ℕ) → has self.new.query q ≡ (is_same place Query && bytes_eq name.now q) || has self.old.query q) }
        ensures header { OnOk result ((q : List ℕ) → has self.new.header q ≡ (is_same place Header && bytes_eq name.now q) || has self.old.header q) }
        ensures cookie { OnOk result ((q : List ℕ) → has self.new.cookie q ≡ (is_same place Cookie && bytes_eq name.now q) || has self.old.cookie q) }
    {
        match place {
            Location::Path => self.path.put(name),
            Location::Query => self.query.put(name),
            Location::Header => self.header.put(name),
            Location::Cookie => self.cookie.put(name),
        }
    }

    /// Whether the name is in the place.
    pub fn has(&self, place: Location, name: &str) -> bool
        ensures { result ≡ taken_in self.now place name.now }
    {
        match place {
            Location::Path => self.path.has(name),
            Location::Query => self.query.has(name),
            Location::Header => self.header.has(name),
            Location::Cookie => self.cookie.has(name),
        }
    }
}

fn copied(alloc: Global, described: &Described) -> Result<Described, AllocError>
    ensures { IfOk result (λ d. d ≡ described.now) }
{
    let name = described.name.copy(alloc)?;
    Ok(Described {
        name,
        place: described.place,
        style: described.style,
        explode: described.explode,
    })
}

fn push_unless(
    alloc: Global,
    out: &mut Vec<Described>,
    is_taken: bool,
    described: &Described,
) -> Result<(), AllocError>
    ensures { OnOk result (out.new.items ≡ out.old.items ++ (if is_taken then [] else described.now ∷ [])) }
{
    if !is_taken {
        out.push(copied(alloc, described)?)?;
    }
    Ok(())
}

// Puts those of a list behind others whose names aren't taken in their places.
fn push_untaken<'a>(
    alloc: Global,
    out: &mut Vec<Described>,
    taken: &mut Names<'a>,
    list: &'a [Described],
) -> Result<(), AllocError>
    ensures kept { OnOk result (out.new.items ≡ out.old.items ++ untaken (taken_in taken.old) list.now) }
    ensures taken { OnOk result (taken_in taken.new ≡ taking_all list.now (taken_in taken.old)) }
{
    for described in list {
        let is_taken = taken.put(described.place, described.name.as_str())?;
        push_unless(alloc, out, is_taken, described)?;
    }
    Ok(())
}

fn push_all(out: &mut Vec<Described>, more: Vec<Described>) -> Result<(), AllocError>
    ensures { OnOk result (out.new.items ≡ out.old.items ++ more.items) }
{
    for described in more {
        out.push(described)?;
    }
    Ok(())
}

/// The parameters of a path item, and then those of the operation, which replace those of the item with the same name
/// and place (OpenAPI 3.1.0, section 4.8.9); of several in one list the first.
pub(crate) fn joined(
    alloc: Global,
    item: &[Described],
    own: &[Described],
) -> Result<Many<Described>, AllocError>
    ensures { IfOk result (λ ds. ds ≡ joined_lists item.now own.now) }
{
    let mut taken = Names::new(alloc);
    let mut last = Vec::new(alloc);
    push_untaken(alloc, &mut last, &mut taken, own)?;
    let mut out = Vec::new(alloc);
    push_untaken(alloc, &mut out, &mut taken, item)?;
    push_all(&mut out, last)?;
    Ok(Many::from_std(out))
}

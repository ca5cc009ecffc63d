// The parameters that an operation describes, by place and name.
ghost use Rattle.std.specs.Prelude.{◌≡◌, ◌&&◌, IfOk, find};
ghost use Rattle.std.specs.Option.{option_copied};
ghost use Rattle.std.specs.Str.{bytes_eq};
ghost use Rattle.arz_operation.specs.Named.{is_same as same_place};
ghost use Rattle.arz_request.specs.Named.{HoldsDescribed};

use crate::places::is_same;
use arz_json::Location;
use arz_operation::Described;
use std::alloc::{AllocError, Global};
use std::collections::BTreeMap;
use std::marker::Model;

/// The first parameter with each name.
type Names<'a> = BTreeMap<&'a str, &'a Described>;

/// Described parameters, by place and name. Contracts see the parameters.
#[derive(Drop)]
pub(crate) struct ByPlace<'a> {
    parameters: &'a [Described],
    path: Names<'a>,
    query: Names<'a>,
    header: Names<'a>,
    cookie: Names<'a>,
}

impl<'a> Model for ByPlace<'a> {
    ghost use Rattle.std.specs.Prelude.{List};
    ghost use Rattle.std.specs.Coded.{codes};
    ghost use Rattle.arz_json.specs.declared.Location.TheVariants as place;
    ghost use Rattle.arz_operation.specs.declared.types.Described as described;
    ghost use Rattle.arz_request.specs.Named.{HoldsDescribed};

    ghost Value = { List described.Described };

    ghost coded = { Prim.hlevel codes };

    ghost view = { λ p. p.parameters.now };

    ghost invariant = { λ p. HoldsDescribed place.Path p.path p.parameters.now
        × HoldsDescribed place.Query p.query p.parameters.now
        × HoldsDescribed place.Header p.header p.parameters.now
        × HoldsDescribed place.Cookie p.cookie p.parameters.now };
}

// The parameters in a place.
fn named_at<'a>(
    alloc: Global,
    place: Location,
    parameters: &'a [Described],
) -> Result<Names<'a>, AllocError>
    ensures { IfOk result (λ names. HoldsDescribed place names parameters.now) }
{
    let mut names = BTreeMap::new(alloc);
    for k in (0..parameters.len()).rev() {
        let parameter = &parameters[k];
        if is_same(parameter.place, place) {
            names.insert(parameter.name.as_str(), parameter)?;
        }
    }
    Ok(names)
}

impl<'a> ByPlace<'a> {
    /// These parameters, found by place and name in logarithmic time.
    pub fn of(alloc: Global, parameters: &'a [Described]) -> Result<ByPlace<'a>, AllocError>
        ensures { IfOk result (λ p. p ≡ parameters.now) }
    {
        let path = named_at(alloc, Location::Path, parameters)?;
        let query = named_at(alloc, Location::Query, parameters)?;
        let header = named_at(alloc, Location::Header, parameters)?;
        let cookie = named_at(alloc, Location::Cookie, parameters)?;
        Ok(ByPlace {
            parameters,
            path,
            query,
            header,
            cookie,
        })
    }

    /// The first parameter with this place and name.
    pub fn find(&self, place: Location, name: &str) -> Option<&'a Described>
        ensures { option_copied result ≡ find (λ d. same_place d.place place && bytes_eq d.name name.now) self.now }
    {
        match place {
            Location::Path => self.path.get(name).copied(),
            Location::Query => self.query.get(name).copied(),
            Location::Header => self.header.get(name).copied(),
            Location::Cookie => self.cookie.get(name).copied(),
        }
    }
}

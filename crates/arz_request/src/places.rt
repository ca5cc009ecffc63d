// Places of parameters.
ghost use Rattle.std.specs.Prelude.{◌≡◌};
ghost use Rattle.arz_operation.specs.Named.{is_same as same_place};

use arz_json::Location;

/// Whether two places are the same.
pub(crate) fn is_same(one: Location, other: Location) -> bool
    ensures { result ≡ same_place one other }
{
    match one {
        Location::Path => matches!(other, Location::Path),
        Location::Query => matches!(other, Location::Query),
        Location::Header => matches!(other, Location::Header),
        Location::Cookie => matches!(other, Location::Cookie),
    }
}

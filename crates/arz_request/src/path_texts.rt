// The texts of the parameters in the path, by name.
ghost use Rattle.std.specs.Prelude.{◌≡◌, IfOk, find};
ghost use Rattle.std.specs.Option.{option_copied};
ghost use Rattle.arz_request.specs.Named.{HoldsWritten};
ghost use Rattle.arz_request.specs.Parameters.{is_named, path_text};

use crate::joined::is_at;
use crate::parameters::Written;
use arz_json::Location;
use std::alloc::{AllocError, Global};
use std::collections::BTreeMap;
use std::marker::Model;

/// The first parameter with each name.
type Names<'a> = BTreeMap<&'a str, &'a Written>;

/// Parameters in the path, by name. Contracts see all parameters.
#[derive(Drop)]
pub(crate) struct PathTexts<'a> {
    written: &'a [Written],
    names: Names<'a>,
}

impl<'a> Model for PathTexts<'a> {
    ghost use Rattle.std.specs.Prelude.{List};
    ghost use Rattle.std.specs.Coded.{codes};
    ghost use Rattle.arz_json.specs.contracts.tree.Json as json;
    ghost use Rattle.arz_request.specs.Named.{HoldsWritten};
    ghost use Rattle.arz_request.specs.Parameters as parameters;

    ghost Value = { List parameters.Written };

    ghost coded = { Prim.hlevel (codes, json.the_row.coded) };

    ghost view = { λ p. p.written.now };

    ghost invariant = { λ p. HoldsWritten p.names p.written.now };
}

fn names_of<'a>(alloc: Global, written: &'a [Written]) -> Result<Names<'a>, AllocError>
    ensures { IfOk result (λ names. HoldsWritten names written.now) }
{
    let mut names = BTreeMap::new(alloc);
    for k in (0..written.len()).rev() {
        let parameter = &written[k];
        if is_at(parameter, Location::Path) {
            names.insert(parameter.name(), parameter)?;
        }
    }
    Ok(names)
}

impl<'a> PathTexts<'a> {
    /// The texts of these parameters, found by name in logarithmic time.
    pub fn of(alloc: Global, written: &'a [Written]) -> Result<PathTexts<'a>, AllocError>
        ensures { IfOk result (λ p. p ≡ written.now) }
    {
        let names = names_of(alloc, written)?;
        Ok(PathTexts { written, names })
    }

    // The first parameter in the path with this name.
    fn find(&self, name: &str) -> Option<&'a Written>
        ensures { option_copied result ≡ find (is_named Location.Path name.now) self.now }
    {
        self.names.get(name).copied()
    }

    /// The text of the first parameter in the path with this name; empty where there is none.
    pub fn text(&self, name: &str) -> &'a str
        ensures { result.now ≡ path_text self.now name.now }
    {
        match self.find(name) {
            Some(parameter) => parameter.text(),
            None => "",
        }
    }
}

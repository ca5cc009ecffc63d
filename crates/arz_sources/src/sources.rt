// Source documents, found by their names.
ghost use Rattle.std.specs.Prelude.{◌≡◌, IfOk, List, ℕ, map, option_map};
ghost use Rattle.arz_json.specs.declared.tree.Named.{Named};
ghost use Rattle.arz_json.specs.declared.tree.NamedText.{NamedText};
ghost use Rattle.arz_openapi.specs.Targets.{given_server, targets};
ghost use Rattle.arz_sources.specs.Served.{served, seen_source, source_in_map, named_in, found_in};

use arz_json::{Named, NamedText};
use arz_openapi::Operations;
use std::alloc::{AllocError, Global};
use std::collections::BTreeMap;

/// A source document.
#[derive(Drop)]
pub struct Source<'a> {
    /// Its name.
    pub name: &'a str,
    /// Its operations.
    pub operations: Operations<'a>,
    /// The URL of its server, where the setup gives one.
    pub server: Option<&'a str>,
}

fn server_text<'a>(servers: &'a [NamedText], name: &str) -> Option<&'a str>
    ensures { option_map (λ t. t.now) result ≡ given_server servers.now name.now }
{
    let server = servers.iter().find(|given| given.name.as_str() == name)?;
    Some(server.text.as_str())
}

fn read_source<'a>(
    alloc: Global,
    named: &'a Named,
    servers: &'a [NamedText],
) -> Result<Source<'a>, AllocError>
    ensures { IfOk result (λ s. seen_source s ≡ served servers.now named.now) }
{
    let name = named.name.as_str();
    let operations = Operations::of(alloc, &named.root)?;
    let server = server_text(servers, name);
    Ok(Source {
        name,
        operations,
        server,
    })
}

/// The sources that stand under their names in the description (Arazzo 1.0.1, section 4.6.3), each with its operations
/// and the URL that `servers` gives for it.
pub fn read_sources<'a>(
    alloc: Global,
    sources: &'a [Named],
    servers: &'a [NamedText],
) -> Result<Vec<Source<'a>>, AllocError>
    ensures { IfOk result (λ ss. map seen_source ss.items ≡ map (served servers.now) sources.now) }
{
    let mut out = Vec::with_capacity(alloc, sources.len())?;
    for named in sources {
        out.push(read_source(alloc, named, servers)?)?;
    }
    Ok(out)
}

/// The first source with each name.
fn index<'s, 'a>(
    alloc: Global,
    list: &'s [Source<'a>],
) -> Result<BTreeMap<&'s str, &'s Source<'a>>, AllocError>
    ensures { IfOk result (λ m. (q : List ℕ) → source_in_map m q ≡ named_in (map seen_source list.now) q) }
{
    let mut names = BTreeMap::new(alloc);
    for k in (0..list.len()).rev() {
        let source = &list[k];
        names.insert(source.name, source)?;
    }
    Ok(names)
}

/// Sources in order, and by their names.
#[derive(Drop)]
pub struct Sources<'s, 'a> {
    pub list: &'s [Source<'a>],
    names: BTreeMap<&'s str, &'s Source<'a>>,
}

impl<'s, 'a> Sources<'s, 'a> {
    /// The sources, found by name in logarithmic time.
    pub fn of(alloc: Global, list: &'s [Source<'a>]) -> Result<Sources<'s, 'a>, AllocError>
        ensures list { IfOk result (λ s. map seen_source s.list.now ≡ map seen_source list.now) }
        ensures names { IfOk result (λ s. (q : List ℕ) → source_in_map s.names q ≡ named_in (map seen_source list.now) q) }
        ensures found { IfOk result (λ s. (sources : List Named) (servers : List NamedText) → map seen_source list.now ≡ map (served servers) sources → found_in s ≡ targets sources servers) }
    {
        let names = index(alloc, list)?;
        Ok(Sources { list, names })
    }

    /// The source with this name.
    pub(crate) fn find(&self, name: &str) -> Option<&'s Source<'a>>
        ensures { option_map (λ s. seen_source s.now) result ≡ source_in_map self.now.names name.now }
    {
        self.names.get(name).copied()
    }
}

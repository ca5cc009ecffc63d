// The bundle that the files of a run give.
ghost use Rattle.std.specs.Prelude.{◌≡◌, ◌≤◌, ℕ, List, IfOk, None, codes};
ghost use Rattle.arz_json.specs.Tree.{IsWithin};
ghost use Rattle.arz_json.specs.Look.{members_at as members_under};
ghost use Rattle.arz_flow.specs.Valid.{IsValid};
ghost use Rattle.arz_path.specs.Results.{Asked};
ghost use Rattle.arz_bundle.specs.FileTree.{OrMemory};
ghost use Rattle.arz_bundle.specs.Loading.{AfterBuilt, FromDescription, Loads};
ghost use Rattle.arz_bundle.specs.Phases.{IsDescribed};
ghost use Rattle.arz_bundle.specs.Setup.{bundle_of, servers_of};

use crate::fault::LoadFault;
use crate::files::read_tree;
use crate::overlays::read_overlaid;
use crate::phases::{check_built, check_calls, check_description, check_size};
use crate::rules::check_setup;
use crate::setup::{journal_limit, max_attempts, read_servers, skips_delay, workflow_run};
use crate::sources::read_sources;
use arz_flow::Bundle;
use arz_json::{Json, Many, Members, Named, NamedText, Text, items_at, text_at};
use arz_rx::Patterns;
use arz_world::Files;
use std::alloc::{AllocError, Global};

/// Reads the setup at a path, and the description and the sources that it leads to, each with its overlays. The
/// files are read one by one, each is judged by its rules, and at last the steps against the sources that they
/// call; the first that can't be read or fails a rule decides. A refusal has the document's label: `setup`, `arazzo`, `source NAME` or `overlay K`, with the
/// overlay's number in the setup's whole list. `rx` searches for the patterns of overlays' targets and of criteria; `Pattern`
/// comes only where the count of patterns too big has risen.
pub fn load<F: Files, P: Patterns>(
    alloc: Global,
    path: &str,
    files: &mut F,
    rx: &mut P,
) -> Result<Bundle, LoadFault>
    ensures loads { Loads (F.files files.old) (F.files files.new) (P.patterns rx.old) (P.patterns rx.new) path.now result }
    ensures valid { IfOk result IsValid }
    ensures told { (F.files files.new).told ≡ (F.files files.old).told }
    ensures counts { (p : List ℕ) → (F.files files.old).faults p ≤ (F.files files.new).faults p }
    ensures asked { Asked (P.patterns rx.old) (P.patterns rx.new) }
{
    let setup = read_tree(alloc, path, "setup", files)?;
    check_setup(alloc, &setup)?;
    from_description(alloc, setup, files, rx)
}

fn from_description<F: Files, P: Patterns>(
    alloc: Global,
    setup: Json,
    files: &mut F,
    rx: &mut P,
) -> Result<Bundle, LoadFault>
    requires { IsWithin 127 setup }
    ensures loads { FromDescription (F.files files.old) (F.files files.new) (P.patterns rx.old) (P.patterns rx.new) setup result }
    ensures valid { IfOk result IsValid }
    ensures told { (F.files files.new).told ≡ (F.files files.old).told }
    ensures counts { (p : List ℕ) → (F.files files.old).faults p ≤ (F.files files.new).faults p }
    ensures asked { Asked (P.patterns rx.old) (P.patterns rx.new) }
{
    let path = text_at(&setup, "arazzo");
    let description = read_overlaid(alloc, &setup, None, path, "arazzo", files, rx)?;
    check_description(alloc, &setup, &description, rx)?;
    check_built(alloc, &description)?;
    from_sources(alloc, setup, description, files, rx)
}

fn from_sources<F: Files, P: Patterns>(
    alloc: Global,
    setup: Json,
    description: Json,
    files: &mut F,
    rx: &mut P,
) -> Result<Bundle, LoadFault>
    requires described { IsDescribed (P.patterns rx.old).told setup description None }
    requires setup_nests { IsWithin 127 setup }
    requires description_nests { IsWithin 127 description }
    ensures loads { OrMemory (AfterBuilt (F.files files.old) (F.files files.new) (P.patterns rx.old) (P.patterns rx.new) setup description) result }
    ensures valid { IfOk result IsValid }
    ensures told { (F.files files.new).told ≡ (F.files files.old).told }
    ensures counts { (p : List ℕ) → (F.files files.old).faults p ≤ (F.files files.new).faults p }
    ensures asked { Asked (P.patterns rx.old) (P.patterns rx.new) }
{
    let described = items_at(&description, "sourceDescriptions");
    let sources = read_sources(alloc, &setup, described, files, rx)?;
    let servers = read_servers(alloc, &setup)?;
    check_calls(alloc, &description, sources.as_slice(), servers.as_slice())?;
    let bundle = make_bundle(alloc, setup, description, sources, servers)?;
    check_size(alloc, &bundle)?;
    Ok(bundle)
}

// What is executed.
fn make_bundle(
    alloc: Global,
    setup: Json,
    description: Json,
    sources: Many<Named>,
    servers: Many<NamedText>,
) -> Result<Bundle, AllocError>
    requires { servers ≡ servers_of setup }
    ensures { IfOk result (λ bundle. bundle ≡ bundle_of setup description sources) }
{
    let workflow = Text::from_str(alloc, workflow_run(&setup, &description))?;
    let max_attempts = max_attempts(&setup);
    let skip_delay = skips_delay(&setup);
    let journal_limit = journal_limit(&setup);
    Ok(Bundle {
        arazzo: description,
        sources,
        servers,
        workflow,
        inputs: into_inputs(alloc, setup),
        max_attempts,
        skip_delay,
        journal_limit,
    })
}

// The inputs that the setup gives.
fn into_inputs(alloc: Global, setup: Json) -> Members
    ensures { result ≡ members_under (codes "inputs") setup }
{
    match setup.into_member("inputs") {
        Some(Json::Object(members)) => members,
        _ => Many::new(alloc),
    }
}

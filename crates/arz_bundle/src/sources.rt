// The source documents of a description (Arazzo 1.0.1, 4.6.3).
ghost use Rattle.std.specs.Prelude.{◌≡◌, ◌≤◌, ℕ, List, All, IfOk, string_bytes};
ghost use Rattle.arz_json.specs.Tree.{IsWithin};
ghost use Rattle.arz_path.specs.Results.{Asked};
ghost use Rattle.arz_bundle.specs.FileTree.{GivenSource, GivenSources};
ghost use Rattle.arz_bundle.specs.Loading.{OneSource, FromSources};
ghost use Rattle.arz_bundle.specs.Phases.{source_label as label_of};

use crate::fault::LoadFault;
use crate::overlays::read_overlaid;
use crate::rules::check_source;
use crate::setup::source_path;
use arz_json::{Json, Many, Named, Text, text_at};
use arz_rx::Patterns;
use arz_world::Files;
use std::alloc::{AllocError, Global};

/// Reads the sources of a description one by one, in order, each with its overlays and by its rules.
pub(crate) fn read_sources<F: Files, P: Patterns>(
    alloc: Global,
    setup: &Json,
    described: &[Json],
    files: &mut F,
    rx: &mut P,
) -> Result<Many<Named>, LoadFault>
    ensures reads { FromSources (F.files files.old) (F.files files.new) (P.patterns rx.old) (P.patterns rx.new) setup.now described.now GivenSources result }
    ensures nests { IfOk result (All (λ s. IsWithin 127 s.root)) }
    ensures told { (F.files files.new).told ≡ (F.files files.old).told }
    ensures counts { (p : List ℕ) → (F.files files.old).faults p ≤ (F.files files.new).faults p }
    ensures asked { Asked (P.patterns rx.old) (P.patterns rx.new) }
{
    let mut sources = Vec::new(alloc);
    for source in described {
        sources.push(read_source(alloc, setup, source, files, rx)?)?;
    }
    Ok(Many::from_std(sources))
}

fn read_source<F: Files, P: Patterns>(
    alloc: Global,
    setup: &Json,
    source: &Json,
    files: &mut F,
    rx: &mut P,
) -> Result<Named, LoadFault>
    ensures reads { OneSource (F.files files.old) (F.files files.new) (P.patterns rx.old) (P.patterns rx.new) setup.now source.now GivenSource result }
    ensures nests { IfOk result (λ s. IsWithin 127 s.root) }
    ensures told { (F.files files.new).told ≡ (F.files files.old).told }
    ensures counts { (p : List ℕ) → (F.files files.old).faults p ≤ (F.files files.new).faults p }
    ensures asked { Asked (P.patterns rx.old) (P.patterns rx.new) }
{
    let name = text_at(source, "name");
    let label = source_label(alloc, name)?;
    let path = source_path(setup, source);
    let root = read_overlaid(alloc, setup, Some(name), path, label.as_str(), files, rx)?;
    check_source(alloc, label.as_str(), &root)?;
    let name = Text::from_str(alloc, name)?;
    Ok(Named { name, root })
}

/// The label of a source in refusals.
pub(crate) fn source_label(alloc: Global, name: &str) -> Result<String, AllocError>
    ensures { IfOk result (λ label. string_bytes label ≡ label_of name.now) }
{
    let mut label = String::from_str(alloc, "source ")?;
    label.push_str(name)?;
    Ok(label)
}

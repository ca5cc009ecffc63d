// The overlays of a setup, applied to its documents (Overlay 1.0.0).
ghost use Rattle.std.specs.Prelude.{◌≡◌, ◌≤◌, ℕ, List, IfOk, map, string_bytes, codes};
ghost use Rattle.std.specs.Option.{option_copied};
ghost use Rattle.arz_json.specs.Tree.{IsWithin};
ghost use Rattle.arz_path.specs.Results.{Asked};
ghost use Rattle.arz_rules.specs.Sites.{text_named};
ghost use Rattle.arz_bundle.specs.FileTree.{Given};
ghost use Rattle.arz_bundle.specs.Loading.{ReadingOverlaid, Overlaid, OneOverlay};
ghost use Rattle.arz_bundle.specs.Overlays.{seen, overlays_for as listed_for, is_same as same_owner, is_for as item_is_for, overlay_label as label_of};

use crate::fault::LoadFault;
use crate::files::read_tree;
use arz_json::{Json, items_at, text_at};
use arz_overlay::{Overlay, apply};
use arz_rx::Patterns;
use arz_world::Files;
use std::alloc::{AllocError, Global};

/// An overlay of a setup: its number in the setup's whole list, and the path of its file.
#[derive(Clone, Copy, Debug)]
struct Listed<'s> {
    index: usize,
    path: &'s str,
}

/// Reads the file of a document, which refusals name by its label, and applies those overlays of a setup to its
/// tree that are for the source with this name, or for the description.
pub(crate) fn read_overlaid<F: Files, P: Patterns>(
    alloc: Global,
    setup: &Json,
    whose: Option<&str>,
    path: &str,
    label: &str,
    files: &mut F,
    rx: &mut P,
) -> Result<Json, LoadFault>
    ensures reads { ReadingOverlaid (F.files files.old) (F.files files.new) (P.patterns rx.old) (P.patterns rx.new) path.now label.now
        (listed_for (option_copied whose.entry) setup.now) Given result }
    ensures nests { IfOk result (IsWithin 127) }
    ensures told { (F.files files.new).told ≡ (F.files files.old).told }
    ensures counts { (p : List ℕ) → (F.files files.old).faults p ≤ (F.files files.new).faults p }
    ensures asked { Asked (P.patterns rx.old) (P.patterns rx.new) }
{
    let tree = read_tree(alloc, path, label, files)?;
    let overlays = overlays_for(alloc, setup, whose)?;
    with_overlays(alloc, overlays.as_slice(), tree, files, rx)
}

// The overlays of a setup for a source, or for the description.
fn overlays_for<'s>(
    alloc: Global,
    setup: &'s Json,
    whose: Option<&str>,
) -> Result<Vec<Listed<'s>>, AllocError>
    ensures { IfOk result (λ overlays. map seen overlays.items ≡ listed_for (option_copied whose.entry) setup.now) }
{
    let items = items_at(setup, "overlays");
    let mut overlays = Vec::new(alloc);
    for (index, item) in items.iter().enumerate() {
        if is_for(whose, item) {
            overlays.push(Listed {
                index,
                path: text_at(item, "path"),
            })?;
        }
    }
    Ok(overlays)
}

fn is_for(whose: Option<&str>, item: &Json) -> bool
    ensures { result ≡ item_is_for (option_copied whose.entry) item.now }
{
    is_same(whose, source_named(item))
}

fn is_same(whose: Option<&str>, named: Option<&str>) -> bool
    ensures { result ≡ same_owner (option_copied whose.entry) (option_copied named.entry) }
{
    match (whose, named) {
        (None, None) => true,
        (Some(whose), Some(named)) => whose == named,
        _ => false,
    }
}

fn source_named(item: &Json) -> Option<&str>
    ensures { option_copied result ≡ text_named (codes "source") item.now }
{
    item.get("source")?.as_text()
}

// What overlays make of a tree, one after another.
fn with_overlays<F: Files, P: Patterns>(
    alloc: Global,
    overlays: &[Listed<'_>],
    tree: Json,
    files: &mut F,
    rx: &mut P,
) -> Result<Json, LoadFault>
    requires { IsWithin 127 tree }
    ensures overlaid { Overlaid (F.files files.old) (F.files files.new) (P.patterns rx.old) (P.patterns rx.new) (map seen overlays.now) tree Given result }
    ensures nests { IfOk result (IsWithin 127) }
    ensures told { (F.files files.new).told ≡ (F.files files.old).told }
    ensures counts { (p : List ℕ) → (F.files files.old).faults p ≤ (F.files files.new).faults p }
    ensures asked { Asked (P.patterns rx.old) (P.patterns rx.new) }
{
    let mut tree = tree;
    for overlay in overlays {
        tree = with_overlay(alloc, overlay, &tree, files, rx)?;
    }
    Ok(tree)
}

// What one overlay makes of a tree.
fn with_overlay<F: Files, P: Patterns>(
    alloc: Global,
    overlay: &Listed<'_>,
    tree: &Json,
    files: &mut F,
    rx: &mut P,
) -> Result<Json, LoadFault>
    requires { IsWithin 127 tree.now }
    ensures overlay { OneOverlay (F.files files.old) (F.files files.new) (P.patterns rx.old) (P.patterns rx.new) (seen overlay.now) tree.now Given result }
    ensures nests { IfOk result (IsWithin 127) }
    ensures told { (F.files files.new).told ≡ (F.files files.old).told }
    ensures counts { (p : List ℕ) → (F.files files.old).faults p ≤ (F.files files.new).faults p }
    ensures asked { Asked (P.patterns rx.old) (P.patterns rx.new) }
{
    let label = overlay_label(alloc, overlay.index)?;
    let root = read_tree(alloc, overlay.path, label.as_str(), files)?;
    let document = Overlay::read(alloc, &root, label.as_str())?;
    Ok(apply(alloc, &document, tree, rx)?)
}

fn overlay_label(alloc: Global, index: usize) -> Result<String, AllocError>
    ensures { IfOk result (λ label. string_bytes label ≡ label_of index) }
{
    format!(in alloc; "overlay {index}")
}

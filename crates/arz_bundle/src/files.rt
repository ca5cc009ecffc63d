// One file of a run: its tree, or why there is none.
ghost use Rattle.std.specs.Prelude.{◌≡◌, ◌≤◌, ℕ, List, IfOk, [], Err};
ghost use Rattle.arz_json.specs.Tree.{IsWithin};
ghost use Rattle.arz_rules.specs.Phases.{refusal};
ghost use Rattle.arz_bundle.specs.FileTree.{HasTree, load_fault, FailsAt};

use crate::fault::LoadFault;
use arz_json::{Json, JsonFault, Text, read};
use arz_rules::{refuse, root_place};
use arz_world::{FileFault, Files};
use std::alloc::Global;

/// The most bytes that a file may have.
const FILE_LIMIT: u64 = 4_194_304;

/// Reads a file, which refusals name by its label, and the tree of its JSON text. A file of more than
/// 4,194,304 bytes fails rule 1, and one without a JSON text rule 2.
pub(crate) fn read_tree<F: Files>(
    alloc: Global,
    path: &str,
    label: &str,
    files: &mut F,
) -> Result<Json, LoadFault>
    ensures tree { HasTree (F.files files.old) (F.files files.new) path.now label.now result }
    ensures nests { IfOk result (IsWithin 127) }
    ensures told { (F.files files.new).told ≡ (F.files files.old).told }
    ensures counts { (p : List ℕ) → (F.files files.old).faults p ≤ (F.files files.new).faults p }
{
    let bytes = match files.read(path, FILE_LIMIT) {
        Ok(bytes) => bytes,
        Err(FileFault::Failed) => return Err(LoadFault::File(Text::from_str(alloc, path)?)),
        Err(FileFault::Memory) => return Err(LoadFault::Memory),
    };
    match read(alloc, bytes.as_slice(), FILE_LIMIT) {
        Ok(tree) => Ok(tree),
        Err(JsonFault::TooLarge) => Err(refuse_file(alloc, 1, label)),
        Err(JsonFault::NotJson) => Err(refuse_file(alloc, 2, label)),
        Err(JsonFault::Memory) => Err(LoadFault::Memory),
    }
}

// A rule of all files, failed by a file as a whole.
fn refuse_file(alloc: Global, rule: u8, label: &str) -> LoadFault
    ensures { FailsAt label.now rule result }
{
    LoadFault::from(refuse(alloc, rule, label, &root_place(alloc)))
}

// What references name.
ghost use Rattle.std.specs.Prelude.{◌≡◌};
ghost use Rattle.std.specs.Option.{is_some};
ghost use Rattle.arz_operation.specs.References.{reference_of, named_by, target as target_of, followed, meant, seen};

use arz_json::{Json, at};

/// Why a reference can't be followed.
#[derive(Clone, Copy, Debug, PartialEq, Eq)]
pub enum Lost {
    /// It isn't a text.
    NotText,
    /// Nothing stands at the place that it names.
    Unknown,
    /// It names something outside of the document.
    Outer,
    /// The chain of references is too long.
    TooLong,
}

/// The longest chain of references that is followed.
const LONGEST: u8 = 32;

/// Whether a tree is a reference (OpenAPI 3.1.0, section 4.8.23): it has a `$ref`.
pub fn is_reference(tree: &Json) -> bool
    ensures { result ≡ is_some (reference_of tree.now) }
{
    tree.get("$ref").is_some()
}

fn named_from<'a>(root: &'a Json, text: &str) -> Result<&'a Json, Lost>
    ensures { seen result ≡ named_by root.now text.now }
{
    let Some(pointer) = text.strip_prefix('#') else {
        return Err(Lost::Outer);
    };
    match at(root, pointer) {
        Some(tree) => Ok(tree),
        None => Err(Lost::Unknown),
    }
}

fn target<'a>(root: &'a Json, reference: &Json) -> Result<&'a Json, Lost>
    ensures { seen result ≡ target_of root.now reference.now }
{
    match reference.as_text() {
        Some(text) => named_from(root, text),
        None => Err(Lost::NotText),
    }
}

fn follow_within<'a>(left: u8, root: &'a Json, tree: &'a Json) -> Result<&'a Json, Lost>
    ensures { seen result ≡ followed left root.now tree.now }
{
    let Some(reference) = tree.get("$ref") else {
        return Ok(tree);
    };
    if left == 0 {
        return Err(Lost::TooLong);
    }
    follow_within(left - 1, root, target(root, reference)?)
}

/// What stands for a tree of a document: the tree itself, or what stands for the one that its `$ref` names in the
/// document (OpenAPI 3.1.0, section 4.8.23). At most 32 references are followed. It takes no memory.
pub fn follow<'a>(root: &'a Json, tree: &'a Json) -> Result<&'a Json, Lost>
    ensures { seen result ≡ meant root.now tree.now }
{
    follow_within(LONGEST, root, tree)
}

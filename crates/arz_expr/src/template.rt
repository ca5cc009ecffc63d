// Templates, and the parts of a request that hold them.
ghost use Rattle.std.specs.Prelude.{◌≡◌, IfOk};
ghost use Rattle.arz_json.specs.Tree.{IsWellFormed};

use arz_json::{Json, Location, Many, Text, copy};
use std::alloc::{AllocError, Global};
use std::marker::Model;

/// A value of a description whose texts may be expressions or hold them in braces (Arazzo 1.0.1, section
/// 4.7). Contracts see the tree that was read. It is well-formed.
#[derive(Debug, Drop)]
pub struct Template {
    tree: Json,
}

impl Model for Template {
    ghost use Rattle.arz_json.specs.declared.tree.Json.{Json};
    ghost use Rattle.arz_json.specs.contracts.tree.Json as json;

    ghost Value = { Json };

    ghost coded = { json.the_row.coded };

    ghost use Rattle.arz_json.specs.Tree.{IsWellFormed};

    ghost view = { λ t. t.tree };

    ghost invariant = { λ t. IsWellFormed t.tree };
}

impl Template {
    /// The template that a tree is.
    pub fn read(alloc: Global, value: &Json) -> Result<Template, AllocError>
        requires { IsWellFormed value.now }
        ensures { IfOk result (λ t. t ≡ value.now) }
    {
        let tree = copy(alloc, value)?;
        Ok(Template { tree })
    }

    /// The tree that was read.
    pub fn tree(&self) -> &Json
        ensures tree { result.now ≡ self.now }
        ensures well_formed { IsWellFormed self.now }
    {
        &self.tree
    }
}

/// A parameter as a description gives it (Arazzo 1.0.1, section 4.6.6).
#[derive(Debug, Drop)]
pub struct Given {
    pub name: Text,
    pub place: Location,
    pub value: Template,
}

/// A value to be put into a payload, at the place that a JSON Pointer names (RFC 6901; Arazzo 1.0.1,
/// section 4.6.14).
#[derive(Debug, Drop)]
pub struct Replacement {
    pub target: Text,
    pub value: Template,
}

/// The body of a request (Arazzo 1.0.1, section 4.6.13): the media type where one is written, the
/// payload, and what is put into it, in order.
#[derive(Debug, Drop)]
pub struct Body {
    pub kind: Option<Text>,
    pub payload: Template,
    pub replacements: Many<Replacement>,
}

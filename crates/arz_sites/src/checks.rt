// Checks of single members.
ghost use Rattle.std.specs.Prelude.{◌≡◌, IfOk};
ghost use Rattle.arz_sites.specs.Wants.{fits as fits_text};

use crate::texts::{is_expression, is_header, is_media_type, is_operation_path};
use arz_json::{Json, Place};
use arz_rules::{Check, is_version, root_unless};
use std::alloc::{AllocError, Global};

/// What a text may be asked to be.
#[derive(Clone, Copy, Debug)]
pub enum Wanted {
    /// A version of Arazzo 1.0.
    Version,
    /// Another word than `arazzo`.
    NotArazzo,
    /// Another word than `xpath`.
    NotXpath,
    /// A runtime expression.
    Expression,
    /// `{$sourceDescriptions.NAME.url}#POINTER`.
    OperationPath,
    /// The name of a header field that a parameter may give.
    Header,
    /// A media type that can be sent.
    MediaType,
}

fn fits(alloc: Global, wanted: Wanted, text: &str) -> Result<bool, AllocError>
    ensures { IfOk result (λ b. b ≡ fits_text wanted text.now) }
{
    Ok(match wanted {
        Wanted::Version => is_version("1.0.", text),
        Wanted::NotArazzo => text != "arazzo",
        Wanted::NotXpath => text != "xpath",
        Wanted::Expression => return is_expression(alloc, text),
        Wanted::OperationPath => is_operation_path(text),
        Wanted::Header => is_header(text),
        Wanted::MediaType => is_media_type(text),
    })
}

impl Check for Wanted {
    ghost use Rattle.arz_rules.specs.Sets.{bad_text};
    ghost use Rattle.arz_sites.specs.Wants.{fits};

    ghost places = { λ wanted. bad_text (fits wanted) };

    fn first(&self, alloc: Global, tree: &Json) -> Result<Option<Place>, AllocError> {
        let Json::Text(text) = tree else {
            return Ok(None);
        };
        Ok(root_unless(alloc, fits(alloc, *self, text.as_str())?))
    }
}

// The target of a request (RFC 9112, section 3.2.1).
ghost use Rattle.std.specs.Prelude.{◌≡◌, ◌++◌, IfOk, OnOk, string_bytes};
ghost use Rattle.std.specs.List.{flat_map};
ghost use Rattle.std.specs.Option.{option_copied};
ghost use Rattle.arz_target.specs.Cut.{opened};
ghost use Rattle.arz_target.specs.Templates.{path_byte, expanded_part, expanded};
ghost use Rattle.arz_request.specs.Fits.{Fits, FitsIn};
ghost use Rattle.arz_request.specs.Parameters.{path_text};
ghost use Rattle.arz_request.specs.Requests.{query_of, with_query as queried, or_root as rooted, target_of};

use crate::cause::{BuildFault, Cause};
use crate::joined::{joined, texts_at};
use crate::parameters::Written;
use crate::path_texts::PathTexts;
use crate::size::LIMIT;
use arz_json::{Location, Text};
use arz_operation::Operation;
use arz_target::{Cut, next_cut, push_plain};
use arz_world::Server;
use std::alloc::{AllocError, Global};

/// The base, the path with the texts of parameters in place of its names, and the query; unless it is too large for any
/// request.
pub(crate) fn target(
    alloc: Global,
    server: &Server,
    operation: &Operation,
    written: &[Written],
) -> Result<Text, BuildFault>
    ensures { FitsIn result (target_of server.now operation.now written.now) }
{
    let path = path(alloc, server, operation, written)?;
    Ok(with_query(alloc, path, written)?)
}

fn path(
    alloc: Global,
    server: &Server,
    operation: &Operation,
    written: &[Written],
) -> Result<Text, BuildFault>
    ensures { FitsIn result (server.now.base ++ expanded (path_text written.now) operation.now.path) }
{
    let texts = PathTexts::of(alloc, written)?;
    let mut path = String::from_str(alloc, server.base.as_str())?;
    push_path(&mut path, operation.path.as_str(), &texts)?;
    Ok(Text::from_std(path))
}

// Puts a path behind a text, with the text of the parameter in place of each name (OpenAPI 3.1.1, section 4.8.8.2). It
// ends where both together are too large for any request.
fn push_path(out: &mut String, path: &str, texts: &PathTexts) -> Result<(), BuildFault>
    ensures { Fits (string_bytes out.old) (string_bytes out.new) result (expanded (path_text texts.now) path.now) }
{
    let mut rest = path;
    'cuts: while let Some(cut) = next_cut(rest) {
        push_cut(out, &cut, texts)?;
        if out.len() > LIMIT {
            return Err(BuildFault::Stuck(Cause::RequestTooLarge));
        }
        rest = cut.rest;
    }
    push_plain(out, rest)?;
    Ok(())
}

fn push_cut(out: &mut String, cut: &Cut, texts: &PathTexts) -> Result<(), AllocError>
    ensures { OnOk result (string_bytes out.new ≡ string_bytes out.old ++ (flat_map path_byte cut.now.plain.now ++ expanded_part (path_text texts.now) (opened (option_copied cut.now.name)))) }
{
    push_plain(out, cut.plain)?;
    match cut.name {
        Some(name) => out.push_str(texts.text(name)),
        None => push_plain(out, "{"),
    }
}

// ---- the query

fn with_query(alloc: Global, path: Text, written: &[Written]) -> Result<Text, AllocError>
    ensures { IfOk result (λ target. target ≡ rooted (queried path (query_of written.now))) }
{
    let texts = texts_at(alloc, Location::Query, written)?;
    let query = joined(alloc, "&", texts.as_slice())?;
    let mut target = path.into_std();
    push_query(&mut target, query.as_str())?;
    push_root(&mut target)?;
    Ok(Text::from_std(target))
}

fn push_query(out: &mut String, query: &str) -> Result<(), AllocError>
    ensures { OnOk result (string_bytes out.new ≡ queried (string_bytes out.old) query.now) }
{
    if query.is_empty() {
        return Ok(());
    }
    out.push('?')?;
    out.push_str(query)
}

// An empty target is `/`.
fn push_root(out: &mut String) -> Result<(), AllocError>
    ensures { OnOk result (string_bytes out.new ≡ rooted (string_bytes out.old)) }
{
    if out.is_empty() {
        out.push('/')
    } else {
        Ok(())
    }
}

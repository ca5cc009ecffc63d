// Selecting places.
ghost use Rattle.std.specs.Prelude.{◌≡◌, ◌++◌, map, OnOk, IfOk};
ghost use Rattle.arz_path.specs.Results.{Asked, Selects, SaysAny, tokens_in};
ghost use Rattle.arz_path.specs.Seen.{seen, token_of, tokens_of, place_in, place_told, places_told, some_spot};

use crate::evaluate::nodes_after;
use crate::nodes::{Held, Step, Trail};
use crate::{Place, SelectFault, Token};
use arz_json::{Json, Many};
use arz_query::Query;
use arz_rx::Patterns;
use bumpalo::Bump;
use std::alloc::{AllocError, Global};

/// The places that a query selects in a tree, in the order of RFC 9535. `rx` searches for the patterns of
/// `match` and `search`; nothing is said where a pattern is needed of which nothing is told.
///
/// `TooWide` comes where a list of places after a segment, of the query or of one in its filters, has over
/// 1,000,000; `Pattern` only where the count of patterns too big has risen.
pub fn select<P: Patterns>(
    alloc: Global,
    query: &Query,
    root: &Json,
    rx: &mut P,
) -> Result<Many<Place>, SelectFault>
    ensures selects { Selects query.now root.now result (P.patterns rx.old) (P.patterns rx.new) }
    ensures asked { Asked (P.patterns rx.old) (P.patterns rx.new) }
{
    let bump = Bump::new(alloc);
    let trail = Trail::Start;
    let origin = Held {
        trail: Some(&trail),
        value: root,
    };
    let nodes = nodes_after(query.segments(), alloc, &bump, root, origin, rx)?;
    Ok(places_of(alloc, nodes.as_slice())?)
}

/// Whether a query selects anything. It is refused as `select` refuses it.
pub fn any<P: Patterns>(
    alloc: Global,
    query: &Query,
    root: &Json,
    rx: &mut P,
) -> Result<bool, SelectFault>
    ensures says { SaysAny query.now root.now result (P.patterns rx.old) (P.patterns rx.new) }
    ensures asked { Asked (P.patterns rx.old) (P.patterns rx.new) }
{
    let bump = Bump::new(alloc);
    let origin = Held {
        trail: None,
        value: root,
    };
    let nodes = nodes_after(query.segments(), alloc, &bump, root, origin, rx)?;
    Ok(has_any(nodes.as_slice()))
}

fn has_any(nodes: &[Held]) -> bool
    ensures { result ≡ some_spot (map seen nodes.now) }
{
    !nodes.is_empty()
}

/// The places of nodes.
fn places_of(alloc: Global, nodes: &[Held]) -> Result<Many<Place>, AllocError>
    ensures { IfOk result (λ places. map tokens_in places ≡ places_told (map seen nodes.now)) }
{
    let mut places = Vec::with_capacity(alloc, nodes.len())?;
    for node in nodes {
        let place = place_from(alloc, node.trail)?;
        places.push(place)?;
    }
    Ok(Many::from_std(places))
}

/// The place of a node, with no step where none is kept.
fn place_from(alloc: Global, trail: Option<&Trail>) -> Result<Place, AllocError>
    ensures { IfOk result (λ place. place.tokens ≡ place_told (place_in trail.entry)) }
{
    let mut tokens = Vec::new(alloc);
    let Some(trail) = trail else {
        let tokens = Many::from_std(tokens);
        return Ok(Place { tokens });
    };
    add_tokens(alloc, trail, &mut tokens)?;
    let tokens = Many::from_std(tokens);
    Ok(Place { tokens })
}

fn add_tokens(alloc: Global, trail: &Trail, out: &mut Vec<Token>) -> Result<(), AllocError>
    ensures { OnOk result (out.new.items ≡ out.old.items ++ tokens_of trail.now) }
{
    match trail {
        Trail::Start => Ok(()),
        Trail::Child(before, step) => {
            add_tokens(alloc, before, out)?;
            out.push(token_from(alloc, *step)?)?;
            Ok(())
        }
    }
}

fn token_from(alloc: Global, step: Step) -> Result<Token, AllocError>
    ensures { IfOk result (λ token. token ≡ token_of step.entry) }
{
    match step {
        Step::Name(name) => Ok(Token::Name(name.copy(alloc)?)),
        Step::Index(i) => Ok(Token::Index(i)),
    }
}

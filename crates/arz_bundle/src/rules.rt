// The rules of the setup, the replies and a source by themselves: the first that fails.
ghost use Rattle.std.specs.Prelude.{◌≡◌, IfOk};
ghost use Rattle.arz_json.specs.Tree.{IsWithin};
ghost use Rattle.arz_rules.specs.Place.{least, tokens_in};
ghost use Rattle.arz_bundle.specs.FileRules.{bad_servers, setup_limits, is_at_most as at_most, is_server_url as server_url};
ghost use Rattle.arz_bundle.specs.FileTree.{Checks, IsRelabelled};
ghost use Rattle.arz_bundle.specs.Phases.{setup_told, replies_told, source_told};

use arz_json::{Json, Place, Refusal, Text};
use arz_rules::{
    Check, Kind, RuleFault, Way, first_at, first_miss, lesser, refuse_if, root_unless,
};
use std::alloc::{AllocError, Global};

/// Looks at the rules of a setup.
pub(crate) fn check_setup(alloc: Global, setup: &Json) -> Result<(), RuleFault>
    requires { IsWithin 127 setup.now }
    ensures { Checks (setup_told setup.now) result }
{
    refuse_if(alloc, 3, "setup", first_miss(alloc, setup, Kind::Setup)?)?;
    refuse_if(
        alloc,
        12,
        "setup",
        first_at(alloc, &[Way::Member("inputs")], &Fractions {}, setup)?,
    )?;
    refuse_if(alloc, 20, "setup", first_bad_server(alloc, setup)?)?;
    refuse_if(alloc, 24, "setup", first_past_limit(alloc, setup)?)
}

fn first_bad_server(alloc: Global, setup: &Json) -> Result<Option<Place>, AllocError>
    requires { IsWithin 127 setup.now }
    ensures { IfOk result (λ p. tokens_in p ≡ least (bad_servers setup.now)) }
{
    let servers = [Way::Member("servers"), Way::EachMember];
    first_at(alloc, &servers, &ServerUrl {}, setup)
}

fn first_past_limit(alloc: Global, setup: &Json) -> Result<Option<Place>, AllocError>
    requires { IsWithin 127 setup.now }
    ensures { IfOk result (λ p. tokens_in p ≡ least (setup_limits setup.now)) }
{
    let attempts = first_at(
        alloc,
        &[Way::Member("maxAttempts")],
        &Past { limit: 10_000 },
        setup,
    )?;
    let journal = Past {
        limit: 1_073_741_824,
    };
    Ok(lesser(
        attempts,
        first_at(alloc, &[Way::Member("journalLimit")], &journal, setup)?,
    ))
}

/// Looks at the rules of replies.
pub(crate) fn check_replies(alloc: Global, replies: &Json) -> Result<(), RuleFault>
    requires { IsWithin 127 replies.now }
    ensures { Checks (replies_told replies.now) result }
{
    let bodies = [Way::EachItem, Way::Member("body")];
    refuse_if(
        alloc,
        3,
        "replies",
        first_miss(alloc, replies, Kind::Replies)?,
    )?;
    refuse_if(
        alloc,
        12,
        "replies",
        first_at(alloc, &bodies, &Fractions {}, replies)?,
    )
}

/// Looks at the rules of a source by itself (OpenAPI 3.1.1, 4.8), which refusals name by its label.
pub(crate) fn check_source(alloc: Global, label: &str, source: &Json) -> Result<(), RuleFault>
    requires { IsWithin 127 source.now }
    ensures { Checks (source_told label.now source.now) result }
{
    match arz_openapi::check(alloc, source) {
        Ok(()) => Ok(()),
        Err(fault) => Err(relabel(alloc, label, fault)),
    }
}

// The same fault under another label, or memory ran out.
fn relabel(alloc: Global, label: &str, fault: RuleFault) -> RuleFault
    ensures { IsRelabelled label.now fault result }
{
    match fault {
        RuleFault::Refused(refusal) => match Text::from_str(alloc, label) {
            Ok(label) => RuleFault::Refused(Refusal {
                rule: refusal.rule,
                label,
                pointer: refusal.pointer,
            }),
            Err(_) => RuleFault::Memory,
        },
        RuleFault::Memory => RuleFault::Memory,
    }
}

// ---- checks

/// The check that no number is kept without its value.
#[derive(Clone, Copy, Debug)]
struct Fractions {}

impl Check for Fractions {
    ghost use Rattle.arz_bundle.specs.FileRules.{fractions};

    ghost places = { λ _. fractions };

    fn first(&self, alloc: Global, tree: &Json) -> Result<Option<Place>, AllocError> {
        first_miss(alloc, tree, Kind::Solid)
    }
}

/// The check that an integer doesn't pass a limit.
#[derive(Clone, Copy, Debug)]
struct Past {
    limit: u32,
}

impl Check for Past {
    ghost use Rattle.arz_bundle.specs.FileRules.{past};

    ghost places = { λ c. past c.limit };

    fn first(&self, alloc: Global, tree: &Json) -> Result<Option<Place>, AllocError> {
        Ok(root_unless(alloc, is_at_most(self.limit, tree.as_int())))
    }
}

/// The check that a text is a URL that a server may have.
#[derive(Clone, Copy, Debug)]
struct ServerUrl {}

impl Check for ServerUrl {
    ghost use Rattle.arz_rules.specs.Sets.{bad_text};
    ghost use Rattle.arz_bundle.specs.FileRules.{is_server_url};

    ghost places = { λ _. bad_text is_server_url };

    fn first(&self, alloc: Global, tree: &Json) -> Result<Option<Place>, AllocError> {
        Ok(match tree.as_text() {
            Some(url) => root_unless(alloc, is_server(url)),
            None => None,
        })
    }
}

fn is_server(url: &str) -> bool
    ensures { result ≡ server_url url.now }
{
    arz_target::server_url(url).is_some()
}

fn is_at_most(limit: u32, number: Option<i128>) -> bool
    ensures { result ≡ at_most limit number }
{
    match number {
        Some(n) => n <= i128::from(limit),
        None => true,
    }
}

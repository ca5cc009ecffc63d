// Evaluating the parts of a query.
ghost use Rattle.std.specs.Prelude.{◌≡◌, ◌≤◌, [], ◌∷◌, length, map, OnOk};
ghost use Rattle.std.specs.List.{list_any, list_all};
ghost use Rattle.arz_path.specs.Outcome.{outcome_map};
ghost use Rattle.arz_path.specs.Tree.{children};
ghost use Rattle.arz_path.specs.Selected.{widest, test_meaning, operand_meaning};
ghost use Rattle.arz_path.specs.Absolute.{telling, absolute, queries_of_test, queries_of_tests, queries_of_operand, found_at, Fits, Passed};
ghost use Rattle.arz_path.specs.Spots.{grown, sifted, picked_at, chosen_at, chosen_each, reached, spots_after, spots_after_all};
ghost use Rattle.arz_path.specs.Seen.{seen, all_seen, bits_seen, worth_seen, found_seen, found_in, found_all, tested_all, way, ahead};
ghost use Rattle.arz_path.specs.Results.{Asked, Answers, bit_seen, setting_of};

use crate::SelectFault;
use crate::children::Children;
use crate::known::Known;
use crate::nodes::{Found, Held, found_among};
use crate::push::{add_child, add_children, add_item, add_named, add_slice};
use crate::search::is_match;
use crate::values::{Worth, compare, length_of, worth_of, worth_of_count};
use crate::walk::Walk;
use arz_json::Json;
use arz_query::{Operand, Segment, Selector, Start, Test};
use arz_rx::Patterns;
use bumpalo::Bump;
use sqlite_items::Items;
use std::alloc::Global;

/// The nodes after some segments.
#[cycle(evaluate)]
pub fn nodes_after<'t, 'a, P: Patterns>(
    segments: &'a Items<Segment>,
    alloc: Global,
    bump: &'t Bump,
    root: &'a Json,
    origin: Held<'t, 'a>,
    rx: &mut P,
) -> Result<Vec<Held<'t, 'a>>, SelectFault>
    ensures gives { Answers all_seen result (spots_after_all (setting_of (P.patterns rx.old) root.now) segments.now (seen origin.entry ∷ []))
        (P.patterns rx.old) (P.patterns rx.new) }
    ensures asked { Asked (P.patterns rx.old) (P.patterns rx.new) }
{
    let mut nodes = Vec::new(alloc);
    nodes.push(origin)?;
    for segment in segments.as_slice() {
        nodes = after_segment(segment, alloc, bump, root, nodes.as_slice(), rx)?;
    }
    Ok(nodes)
}

#[cycle(evaluate)]
fn after_segment<'t, 'a, P: Patterns>(
    segment: &'a Segment,
    alloc: Global,
    bump: &'t Bump,
    root: &'a Json,
    nodes: &[Held<'t, 'a>],
    rx: &mut P,
) -> Result<Vec<Held<'t, 'a>>, SelectFault>
    ensures gives { Answers all_seen result (spots_after (setting_of (P.patterns rx.old) root.now) segment.now (map seen nodes.now))
        (P.patterns rx.old) (P.patterns rx.new) }
    ensures asked { Asked (P.patterns rx.old) (P.patterns rx.new) }
{
    let mut out = Vec::new(alloc);
    for node in nodes {
        reach(segment, alloc, bump, root, *node, &mut out, rx)?;
    }
    Ok(out)
}

/// What a segment selects from a node.
#[cycle(evaluate)]
fn reach<'t, 'a, P: Patterns>(
    segment: &'a Segment,
    alloc: Global,
    bump: &'t Bump,
    root: &'a Json,
    node: Held<'t, 'a>,
    out: &mut Vec<Held<'t, 'a>>,
    rx: &mut P,
) -> Result<(), SelectFault>
    requires { length out.old.items ≤ widest }
    ensures gives { Answers (λ _. map seen out.new.items) result (grown (map seen out.old.items) (reached (setting_of (P.patterns rx.old) root.now) segment.now (seen node.entry)))
        (P.patterns rx.old) (P.patterns rx.new) }
    ensures asked { Asked (P.patterns rx.old) (P.patterns rx.new) }
    ensures room { length out.new.items ≤ widest }
{
    let mut walk = Walk::at(alloc, node);
    match segment {
        Segment::Child(selectors) => { choose(selectors, alloc, bump, root, &mut walk, out, rx) }
        Segment::Descendant(selectors) => {
            choose_below(selectors, alloc, bump, root, &mut walk, out, rx)
        }
    }
}

/// What selectors select at the node where a walk stands and at each that comes after it.
#[cycle(evaluate)]
fn choose_below<'t, 'a, P: Patterns>(
    selectors: &'a Items<Selector>,
    alloc: Global,
    bump: &'t Bump,
    root: &'a Json,
    walk: &mut Walk<'t, 'a>,
    out: &mut Vec<Held<'t, 'a>>,
    rx: &mut P,
) -> Result<(), SelectFault>
    requires { length out.old.items ≤ widest }
    ensures gives { Answers (λ _. map seen out.new.items) result (grown (map seen out.old.items) (chosen_each (setting_of (P.patterns rx.old) root.now) selectors.now (ahead (way walk.old))))
        (P.patterns rx.old) (P.patterns rx.new) }
    ensures asked { Asked (P.patterns rx.old) (P.patterns rx.new) }
    ensures room { length out.new.items ≤ widest }
{
    'nodes: loop {
        choose(selectors, alloc, bump, root, walk, out, rx)?;
        if !walk.advance()? {
            return Ok(());
        }
    }
}

/// What selectors select at the node where a walk stands.
#[cycle(evaluate)]
fn choose<'t, 'a, P: Patterns>(
    selectors: &'a Items<Selector>,
    alloc: Global,
    bump: &'t Bump,
    root: &'a Json,
    walk: &mut Walk<'t, 'a>,
    out: &mut Vec<Held<'t, 'a>>,
    rx: &mut P,
) -> Result<(), SelectFault>
    requires { length out.old.items ≤ widest }
    ensures gives { Answers (λ _. map seen out.new.items) result (grown (map seen out.old.items) (chosen_at (setting_of (P.patterns rx.old) root.now) selectors.now (way walk.old).0))
        (P.patterns rx.old) (P.patterns rx.new) }
    ensures asked { Asked (P.patterns rx.old) (P.patterns rx.new) }
    ensures same { OnOk result (way walk.new ≡ way walk.old) }
    ensures room { length out.new.items ≤ widest }
{
    for selector in selectors.as_slice() {
        pick(selector, alloc, bump, root, walk, out, rx)?;
    }
    Ok(())
}

/// What a selector selects at the node where a walk stands.
#[cycle(evaluate)]
fn pick<'t, 'a, P: Patterns>(
    selector: &'a Selector,
    alloc: Global,
    bump: &'t Bump,
    root: &'a Json,
    walk: &mut Walk<'t, 'a>,
    out: &mut Vec<Held<'t, 'a>>,
    rx: &mut P,
) -> Result<(), SelectFault>
    requires { length out.old.items ≤ widest }
    ensures gives { Answers (λ _. map seen out.new.items) result (grown (map seen out.old.items) (picked_at (setting_of (P.patterns rx.old) root.now) (way walk.old).0 selector.now))
        (P.patterns rx.old) (P.patterns rx.new) }
    ensures asked { Asked (P.patterns rx.old) (P.patterns rx.new) }
    ensures same { OnOk result (way walk.new ≡ way walk.old) }
    ensures room { length out.new.items ≤ widest }
{
    match selector {
        Selector::Name(name) => add_named(name.as_str(), bump, walk, out),
        Selector::Wildcard => add_children(bump, walk, out),
        Selector::Index(i) => add_item(*i, bump, walk, out),
        Selector::Slice(slice) => add_slice(slice, alloc, bump, walk, out),
        Selector::Filter(test) => sift(test, alloc, bump, root, walk, out, rx),
    }
}

/// The children that pass a test, of the node where a walk stands.
#[cycle(evaluate)]
fn sift<'t, 'a, P: Patterns>(
    test: &'a Test,
    alloc: Global,
    bump: &'t Bump,
    root: &'a Json,
    walk: &mut Walk<'t, 'a>,
    out: &mut Vec<Held<'t, 'a>>,
    rx: &mut P,
) -> Result<(), SelectFault>
    requires { length out.old.items ≤ widest }
    ensures gives { Answers (λ _. map seen out.new.items) result (grown (map seen out.old.items) (sifted (setting_of (P.patterns rx.old) root.now) test.now (way walk.old).0 (children (way walk.old).0.1)))
        (P.patterns rx.old) (P.patterns rx.new) }
    ensures asked { Asked (P.patterns rx.old) (P.patterns rx.new) }
    ensures same { OnOk result (way walk.new ≡ way walk.old) }
    ensures room { length out.new.items ≤ widest }
{
    let mut children = Children::of(walk.value());
    let mut known = Known::nothing(alloc);
    'children: while let Some(child) = children.next() {
        known.rewind();
        if !holds(test, alloc, root, child.value, &mut known, rx)? {
            continue;
        }
        add_child(bump, walk, child, out)?;
    }
    Ok(())
}

/// Whether an expression holds at a current node.
#[cycle(evaluate)]
fn holds<'a, P: Patterns>(
    test: &'a Test,
    alloc: Global,
    root: &'a Json,
    current: &'a Json,
    known: &mut Known<'a>,
    rx: &mut P,
) -> Result<bool, SelectFault>
    requires { Fits (setting_of (P.patterns rx.old) root.now) (queries_of_test test.now) (telling known.old).1 }
    ensures gives { Answers bit_seen result (test_meaning test.now (setting_of (P.patterns rx.old) root.now) current.now)
        (P.patterns rx.old) (P.patterns rx.new) }
    ensures asked { Asked (P.patterns rx.old) (P.patterns rx.new) }
    ensures passed { OnOk result (Passed (setting_of (P.patterns rx.old) root.now) (queries_of_test test.now) (telling known.old) (telling known.new)) }
{
    match test {
        Test::Any(tests) => Ok(any_of(hold_each(tests, alloc, root, current, known, rx)?)),
        Test::All(tests) => Ok(all_of(hold_each(tests, alloc, root, current, known, rx)?)),
        Test::Not(test) => Ok(!holds(test.get(), alloc, root, current, known, rx)?),
        Test::Exists(start, segments) => {
            let found = found_from(segments, *start, alloc, root, current, known, rx)?;
            Ok(found.count > 0)
        }
        Test::Compare(left, comparison, right) => {
            let left = value_of(left, alloc, root, current, known, rx)?;
            let right = value_of(right, alloc, root, current, known, rx)?;
            Ok(compare(left, *comparison, right))
        }
        Test::Match(text, pattern) => {
            let text = value_of(text, alloc, root, current, known, rx)?;
            let pattern = value_of(pattern, alloc, root, current, known, rx)?;
            is_match(alloc, true, text, pattern, rx)
        }
        Test::Search(text, pattern) => {
            let text = value_of(text, alloc, root, current, known, rx)?;
            let pattern = value_of(pattern, alloc, root, current, known, rx)?;
            is_match(alloc, false, text, pattern, rx)
        }
    }
}

fn any_of(bits: Vec<bool>) -> bool
    ensures { result ≡ list_any (λ b. b) bits.items }
{
    bits.iter().any(|b| *b)
}

fn all_of(bits: Vec<bool>) -> bool
    ensures { result ≡ list_all (λ b. b) bits.items }
{
    bits.iter().all(|b| *b)
}

/// What each expression says at a current node.
#[cycle(evaluate)]
fn hold_each<'a, P: Patterns>(
    tests: &'a Items<Test>,
    alloc: Global,
    root: &'a Json,
    current: &'a Json,
    known: &mut Known<'a>,
    rx: &mut P,
) -> Result<Vec<bool>, SelectFault>
    requires { Fits (setting_of (P.patterns rx.old) root.now) (queries_of_tests tests.now) (telling known.old).1 }
    ensures gives { Answers bits_seen result (tested_all (setting_of (P.patterns rx.old) root.now) current.now tests.now)
        (P.patterns rx.old) (P.patterns rx.new) }
    ensures asked { Asked (P.patterns rx.old) (P.patterns rx.new) }
    ensures passed { OnOk result (Passed (setting_of (P.patterns rx.old) root.now) (queries_of_tests tests.now) (telling known.old) (telling known.new)) }
{
    let mut all = Vec::new(alloc);
    for test in tests.as_slice() {
        let bit = holds(test, alloc, root, current, known, rx)?;
        all.push(bit)?;
    }
    Ok(all)
}

/// The value of an operand at a current node.
#[cycle(evaluate)]
fn value_of<'a, P: Patterns>(
    operand: &'a Operand,
    alloc: Global,
    root: &'a Json,
    current: &'a Json,
    known: &mut Known<'a>,
    rx: &mut P,
) -> Result<Worth<'a>, SelectFault>
    requires { Fits (setting_of (P.patterns rx.old) root.now) (queries_of_operand operand.now) (telling known.old).1 }
    ensures gives { Answers worth_seen result (operand_meaning operand.now (setting_of (P.patterns rx.old) root.now) current.now)
        (P.patterns rx.old) (P.patterns rx.new) }
    ensures asked { Asked (P.patterns rx.old) (P.patterns rx.new) }
    ensures passed { OnOk result (Passed (setting_of (P.patterns rx.old) root.now) (queries_of_operand operand.now) (telling known.old) (telling known.new)) }
{
    match operand {
        Operand::Null => Ok(Worth::Null),
        Operand::Flag(b) => Ok(Worth::Flag(*b)),
        Operand::Int(n) => Ok(Worth::Int(*n)),
        Operand::Text(text) => Ok(Worth::Text(text.as_str())),
        Operand::Query(start, segments) => {
            let found = found_from(segments, *start, alloc, root, current, known, rx)?;
            Ok(worth_of(found.only))
        }
        Operand::Length(operand) => {
            let worth = value_of(operand.get(), alloc, root, current, known, rx)?;
            Ok(length_of(worth))
        }
        Operand::Count(start, segments) => {
            let found = found_from(segments, *start, alloc, root, current, known, rx)?;
            Ok(worth_of_count(found.count))
        }
        Operand::Value(start, segments) => {
            let found = found_from(segments, *start, alloc, root, current, known, rx)?;
            Ok(worth_of(found.only))
        }
    }
}

/// What a query inside a filter finds. One that begins at the root is evaluated where nothing is known of it.
#[cycle(evaluate)]
fn found_from<'a, P: Patterns>(
    segments: &'a Items<Segment>,
    start: Start,
    alloc: Global,
    root: &'a Json,
    current: &'a Json,
    known: &mut Known<'a>,
    rx: &mut P,
) -> Result<Found<'a>, SelectFault>
    requires { Fits (setting_of (P.patterns rx.old) root.now) (absolute start segments.now) (telling known.old).1 }
    ensures gives { Answers found_seen result (outcome_map found_in (found_all (setting_of (P.patterns rx.old) root.now) current.now start segments.now))
        (P.patterns rx.old) (P.patterns rx.new) }
    ensures asked { Asked (P.patterns rx.old) (P.patterns rx.new) }
    ensures passed { OnOk result (Passed (setting_of (P.patterns rx.old) root.now) (absolute start segments.now) (telling known.old) (telling known.new)) }
{
    match start {
        Start::Current => find(segments, alloc, root, current, rx),
        Start::Root => {
            if let Some(found) = known.recall() {
                return Ok(found);
            }
            let found = find(segments, alloc, root, root, rx)?;
            known.add(found)?;
            Ok(found)
        }
    }
}

/// What a query finds from a value.
#[cycle(evaluate)]
fn find<'a, P: Patterns>(
    segments: &'a Items<Segment>,
    alloc: Global,
    root: &'a Json,
    value: &'a Json,
    rx: &mut P,
) -> Result<Found<'a>, SelectFault>
    ensures gives { Answers found_seen result (found_at (setting_of (P.patterns rx.old) root.now) segments.now value.now)
        (P.patterns rx.old) (P.patterns rx.new) }
    ensures asked { Asked (P.patterns rx.old) (P.patterns rx.new) }
{
    let bump = Bump::new(alloc);
    let origin = Held { trail: None, value };
    let nodes = nodes_after(segments, alloc, &bump, root, origin, rx)?;
    Ok(found_among(nodes.as_slice()))
}

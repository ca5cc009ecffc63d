// Workflows that depend on themselves (Arazzo 1.0.1, section 4.6.4).
ghost use Rattle.std.specs.Option.{option_to_list};
ghost use Rattle.std.specs.Prelude.{◌≡◌, ◌∷◌, ◌++◌, [], ℕ, List, map, IfOk, OnOk, codes, Some, None, if◌then◌else◌, option_map, option_and_then};
ghost use Rattle.arz_json.specs.Look.{text_in};
ghost use Rattle.arz_json.specs.declared.place.Token.TheVariants.{Name};
ghost use Rattle.arz_rules.specs.Place.{least, tokens_in};
ghost use Rattle.arz_rules.specs.Sets.{is_text};
ghost use Rattle.arz_rules.specs.Sites.{text_named};
ghost use Rattle.arz_doc.specs.Cycles.{number_from, number_in, named_by, TellsCycles, tells as tells_of, circular};

use arz_graph::on_cycles;
use arz_json::{Json, Place, items_at};
use arz_rules::{below_index, below_name, lesser, root_place};
use std::alloc::{AllocError, Global};
use std::collections::BTreeMap;

fn id_of(workflow: &Json) -> Option<&str>
    ensures { option_map (λ t. t.now) result ≡ text_named (codes "workflowId") workflow.now }
{
    workflow.get("workflowId")?.as_text()
}

fn put_number<'a>(
    numbers: &mut BTreeMap<&'a str, usize>,
    id: Option<&'a str>,
    number: usize,
) -> Result<(), AllocError>
    ensures { OnOk result ((q : List ℕ) → number_in numbers.new q ≡ (if is_text (option_map (λ t. t.now) id.entry) q then Some number else number_in numbers.old q)) }
{
    if let Some(id) = id {
        numbers.insert(id, number)?;
    }
    Ok(())
}

/// The numbers of the workflows by their ids. Of two with one id it is the first.
fn numbers_of<'a>(
    alloc: Global,
    workflows: &'a [Json],
) -> Result<BTreeMap<&'a str, usize>, AllocError>
    ensures { IfOk result (λ m. (q : List ℕ) → number_in m q ≡ number_from 0 workflows.now q) }
{
    let mut numbers = BTreeMap::new(alloc);
    for k in (0..workflows.len()).rev() {
        put_number(&mut numbers, id_of(&workflows[k]), k)?;
    }
    Ok(numbers)
}

fn number_named(numbers: &BTreeMap<&str, usize>, item: &Json) -> Option<usize>
    ensures { result ≡ option_and_then (number_in numbers.now) (text_in item.now) }
{
    numbers.get(item.as_text()?).copied()
}

fn put_found(found: &mut Vec<usize>, number: Option<usize>) -> Result<(), AllocError>
    ensures { OnOk result (found.new.items ≡ found.old.items ++ option_to_list number) }
{
    if let Some(number) = number {
        found.push(number)?;
    }
    Ok(())
}

fn dependencies(
    alloc: Global,
    numbers: &BTreeMap<&str, usize>,
    workflow: &Json,
) -> Result<Vec<usize>, AllocError>
    ensures { IfOk result (λ v. v.items ≡ named_by (number_in numbers.now) workflow.now) }
{
    let mut found = Vec::new(alloc);
    for item in items_at(workflow, "dependsOn") {
        put_found(&mut found, number_named(numbers, item))?;
    }
    Ok(found)
}

fn graph_of(
    alloc: Global,
    numbers: &BTreeMap<&str, usize>,
    workflows: &[Json],
) -> Result<Vec<Vec<usize>>, AllocError>
    ensures { IfOk result (λ g. map (λ v. v.items) g.items ≡ map (named_by (number_in numbers.now)) workflows.now) }
{
    let mut graph = Vec::new(alloc);
    for workflow in workflows {
        graph.push(dependencies(alloc, numbers, workflow)?)?;
    }
    Ok(graph)
}

/// Which workflows depend on themselves, by their numbers.
#[derive(Drop)]
pub struct Cycles {
    flags: Vec<bool>,
}

impl Cycles {
    /// Those of a description, in time linear in workflows and dependencies, but for the look-ups by id.
    pub fn of(alloc: Global, root: &Json) -> Result<Cycles, AllocError>
        ensures { IfOk result (λ c. TellsCycles root.now (tells_of c)) }
    {
        let workflows = items_at(root, "workflows");
        let numbers = numbers_of(alloc, workflows)?;
        let graph = graph_of(alloc, &numbers, workflows)?;
        let flags = on_cycles(alloc, graph.as_slice())?;
        Ok(Cycles { flags })
    }

    fn tells(&self, number: usize) -> bool
        ensures { result ≡ tells_of self.now number }
    {
        match self.flags.get(number) {
            Some(flag) => *flag,
            None => false,
        }
    }
}

fn place_if(alloc: Global, is_cyclic: bool) -> Result<Option<Place>, AllocError>
    ensures { IfOk result (λ p. tokens_in p ≡ (if is_cyclic then Some (Name (codes "dependsOn") ∷ []) else None)) }
{
    if !is_cyclic {
        return Ok(None);
    }
    below_name(alloc, "dependsOn", Some(root_place(alloc)))
}

/// The first `dependsOn` of a workflow that depends on itself.
pub fn first_circular(
    alloc: Global,
    cycles: &Cycles,
    root: &Json,
) -> Result<Option<Place>, AllocError>
    ensures { IfOk result (λ p. tokens_in p ≡ least (circular (tells_of cycles.now) root.now)) }
{
    let mut best = None;
    for number in 0..items_at(root, "workflows").len() {
        let found = place_if(alloc, cycles.tells(number))?;
        best = lesser(best, below_index(number, found)?);
    }
    below_name(alloc, "workflows", best)
}

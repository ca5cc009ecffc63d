// A path-based search for strong components (Gabow, "Path-based depth-first search for strong and biconnected
// components", 2000), with the pending edges of the path on a stack of their own, so that nothing recurses.
ghost use Rattle.std.specs.Prelude.{◌≡◌, ◌≢◌, ◌<◌, ◌≤◌, ◌+◌, ◌++◌, ◌∷◌, ℕ, [], true, false, length, OnOk, IfOk, IfSome, IfNone, map, IsTrue, ◌↔◌, slice_set, slice_index_or, take, vec_len};
ghost use Rattle.arz_graph.specs.Search.{seen, bound, Holds, HoldsBut, Enters, Takes, IsSpent, IsPlaced, Leaves, Merges, work, Sees, IsBegun, is_cyclic_mark};
ghost use Rattle.arz_graph.specs.Reaches.{Graph};
ghost use Rattle.arz_graph.specs.declared.search.Mark.TheVariants.{Unseen, OnPath, Done};

use std::alloc::{AllocError, Global};

/// What is known of a node.
#[derive(Clone, Copy, Debug)]
pub enum Mark {
    Unseen,
    /// On the path, at this place.
    OnPath(usize),
    /// Whether it lies on a cycle.
    Done(bool),
}

/// A part of the path that is contracted to one: its nodes and their pending edges begin here, and end where those
/// of the next one begin.
#[derive(Clone, Copy, Debug)]
pub struct Component {
    pub nodes: usize,
    pub edges: usize,
    pub cyclic: bool,
}

/// Where a search stands.
#[derive(Drop)]
pub struct Search {
    pub marks: Vec<Mark>,
    pub nodes: Vec<usize>,
    pub edges: Vec<usize>,
    pub components: Vec<Component>,
}

/// Whether a node is done and lies on a cycle.
fn is_cyclic(mark: Mark) -> bool
    ensures { result ≡ is_cyclic_mark mark }
{
    matches!(mark, Mark::Done(true))
}

impl Search {
    /// A search that has seen none of these many nodes.
    pub fn new(alloc: Global, count: usize) -> Result<Self, AllocError>
        ensures { IfOk result (IsBegun count) }
    {
        Ok(Search {
            marks: vec![in alloc; Mark::Unseen; count]?,
            nodes: Vec::new(alloc),
            edges: Vec::new(alloc),
            components: Vec::new(alloc),
        })
    }

    /// For each node, whether it lies on a cycle, once all are done.
    pub fn flags(&self, alloc: Global) -> Result<Vec<bool>, AllocError>
        ensures { IfOk result (λ flags. flags.items ≡ map is_cyclic_mark self.now.marks.items) }
    {
        self.marks
            .iter()
            .map(|mark| is_cyclic(*mark))
            .collect(alloc)
    }

    /// Puts a node at the end of the path.
    fn enter(&mut self, graph: &[Vec<usize>], node: usize) -> Result<(), AllocError>
        requires node { node < length graph.now }
        requires marks { length self.old.marks.items ≡ length graph.now }
        ensures { OnOk result (Enters graph.now node self.old self.new) }
    {
        let place = self.nodes.len();
        self.components.push(Component {
            nodes: place,
            edges: self.edges.len(),
            cyclic: false,
        })?;
        self.nodes.push(node)?;
        self.edges.extend_from_slice(&graph[node])?;
        self.marks[node] = Mark::OnPath(place);
        Ok(())
    }

    /// The next pending target of the last component.
    fn take(&mut self) -> Option<usize>
        ensures some { IfSome result (Takes self.old self.new) }
        ensures none { IfNone result (self.new ≡ self.old) }
        ensures spent { IfNone result (IsSpent self.new) }
    {
        let start = self.components.last()?.edges;
        if self.edges.len() <= start {
            return None;
        }
        self.edges.pop()
    }

    /// Contracts the last two components to one.
    fn merge(&mut self)
        requires { 1 < vec_len self.old.components }
        ensures { Merges self.old self.new }
    {
        let last = self.components.len() - 1;
        self.components.truncate(last);
        self.components[last - 1].cyclic = true;
    }

    /// Takes the last component from the path.
    fn leave(&mut self)
        requires some { 0 < vec_len self.old.components }
        requires start { (f : ℕ) → f + 1 ≡ vec_len self.old.components → bound (seen self.old) f ≤ vec_len self.old.nodes }
        requires path { IsPlaced (seen self.old) }
        ensures { Leaves self.old self.new }
    {
        let last = self.components.len() - 1;
        let component = self.components[last];
        for place in component.nodes..self.nodes.len() {
            self.marks[self.nodes[place]] = Mark::Done(component.cyclic);
        }
        self.nodes.truncate(component.nodes);
        self.components.truncate(last);
    }

    /// Contracts the path from this place on to one component.
    fn close(&mut self, place: usize)
        requires { 0 < vec_len self.old.components }
        ensures sound { (graph : Graph) (v : ℕ) → HoldsBut graph self.old v → (seen self.old).mark v ≡ Mark.OnPath place → Holds graph self.new }
        ensures marks { self.new.marks ≡ self.old.marks }
        ensures edges { self.new.edges ≡ self.old.edges }
        ensures fewer { length self.new.components.items ≤ length self.old.components.items }
    {
        let mut last = self.components.len() - 1;
        while last > 0 && self.components[last].nodes > place {
            self.merge();
            last -= 1;
        }
        self.components[last].cyclic = true;
    }

    /// The mark of a node. A number that is no node is done, since it leads nowhere.
    fn mark(&self, node: usize) -> Mark
        ensures { result ≡ (seen self.now).mark node }
    {
        match self.marks.get(node) {
            Some(mark) => *mark,
            None => Mark::Done(false),
        }
    }

    /// Follows an edge to a node from the last component, or begins a path at the node.
    fn follow(&mut self, graph: &[Vec<usize>], node: usize) -> Result<(), AllocError>
        requires { HoldsBut graph.now self.old node }
        ensures sound { OnOk result (Holds graph.now self.new) }
        ensures seen { OnOk result ((seen self.new).mark node ≢ Mark.Unseen) }
        ensures sees { OnOk result (Sees self.old self.new) }
        ensures work { OnOk result (work graph.now self.new ≤ work graph.now self.old) }
    {
        match self.mark(node) {
            Mark::Unseen => self.enter(graph, node),
            Mark::OnPath(place) => {
                self.close(place);
                Ok(())
            }
            Mark::Done(_) => Ok(()),
        }
    }

    /// Follows one edge from the last component, or takes it from the path where none is left.
    fn advance(&mut self, graph: &[Vec<usize>]) -> Result<(), AllocError>
        requires sound { Holds graph.now self.old }
        requires some { 0 < vec_len self.old.components }
        ensures sound { OnOk result (Holds graph.now self.new) }
        ensures sees { OnOk result (Sees self.old self.new) }
        ensures work { OnOk result (work graph.now self.new < work graph.now self.old) }
    {
        match self.take() {
            Some(node) => self.follow(graph, node),
            None => {
                self.leave();
                Ok(())
            }
        }
    }

    /// Explores all that a node reaches.
    pub fn explore(&mut self, graph: &[Vec<usize>], root: usize) -> Result<(), AllocError>
        requires sound { Holds graph.now self.old }
        requires idle { self.old.components.items ≡ [] }
        ensures sound { OnOk result (Holds graph.now self.new) }
        ensures idle { OnOk result (self.new.components.items ≡ []) }
        ensures seen { OnOk result ((seen self.new).mark root ≢ Mark.Unseen) }
        ensures sees { OnOk result (Sees self.old self.new) }
    {
        self.follow(graph, root)?;
        while !self.components.is_empty() {
            self.advance(graph)?;
        }
        Ok(())
    }
}

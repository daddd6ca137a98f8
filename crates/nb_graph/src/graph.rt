ghost use Rattle.std.specs.Prelude.{◌≡◌, ◌<◌, ◌==◌, ℕ, true, [], length, map, replicate, IfOk, OnOk, OnErr};
ghost use Rattle.nb_graph.specs.Needs.{has};
ghost use Rattle.nb_graph.specs.Graph.{with_needs, needs_of, needs_itself, IsGraph, IsReached, IsMarks, IsRanks};

use crate::ranks::ranked;
use crate::reach::reached;
use std::alloc::{AllocError, Global};
use std::marker::Model;

/// Nodes from 0 on, each with the nodes that it needs directly. Contracts see it as the list of these lists.
#[derive(Drop)]
pub struct Graph {
    alloc: Global,
    needs: Vec<Needed>,
}

/// Nodes that one needs, which contracts see as the list of them.
#[derive(Drop)]
struct Needed {
    nodes: Vec<u32>,
}

impl Model for Needed {
    ghost use Rattle.std.specs.Prelude.{ℕ, List};

    ghost Value = { List ℕ };

    ghost view = { λ n. n.nodes.items };
}

impl Model for Graph {
    ghost use Rattle.std.specs.Prelude.{ℕ, List};
    ghost use Rattle.nb_graph.specs.Graph.{IsGraph};

    ghost Value = { List (List ℕ) };

    ghost view = { λ g. g.needs.items };

    ghost invariant = { λ g. IsGraph g.needs.items };
}

/// Nodes that need nothing.
fn without_needs(alloc: Global, n: u32) -> Result<Vec<Needed>, AllocError>
    ensures { IfOk result (λ needs. needs.items ≡ replicate n []) }
{
    let mut needs = Vec::new(alloc);
    for _v in 0..n {
        needs.push(Needed {
            nodes: Vec::new(alloc),
        })?;
    }
    Ok(needs)
}

/// Marks the ranks that are 0.
fn marks_of_zero(alloc: Global, ranks: &[u32]) -> Result<Vec<bool>, AllocError>
    ensures { IfOk result (λ marks. marks.items ≡ map (λ r. r == 0) ranks.now) }
{
    ranks.iter().map(|rank| *rank == 0).collect(alloc)
}

impl Graph {
    /// A graph of `n` nodes, none of which needs any. It fails only without memory.
    pub fn new(alloc: Global, n: u32) -> Result<Graph, AllocError>
        ensures { IfOk result (λ graph. graph ≡ replicate n []) }
    {
        let needs = without_needs(alloc, n)?;
        Ok(Graph { alloc, needs })
    }

    /// Sets what `v` needs directly, in place of what it needed. It fails only without memory, and then nothing has changed.
    pub fn set(&mut self, v: u32, needs: &[u32]) -> Result<(), AllocError>
        requires node { v < length self.old }
        requires nodes { (u : ℕ) → has needs.now u ≡ true → u < length self.old }
        ensures ok { OnOk result (self.new ≡ with_needs self.old v needs.now) }
        ensures err { OnErr result (self.new ≡ self.old) }
    {
        let nodes = Vec::from_slice(self.alloc, needs)?;
        self.needs[v as usize] = Needed { nodes };
        Ok(())
    }

    /// The allocator that the graph was made with.
    pub(crate) fn allocator(&self) -> Global {
        self.alloc
    }

    /// How many nodes there are.
    pub fn len(&self) -> usize
        ensures value { result ≡ length self.now }
        ensures graph { IsGraph self.now }
    {
        self.needs.len()
    }

    /// What `v` needs directly.
    pub(crate) fn needs(&self, v: u32) -> &[u32]
        requires { v < length self.now }
        ensures value { result.now ≡ needs_of self.now v }
        ensures graph { IsGraph self.now }
    {
        &self.needs[v as usize].nodes
    }

    /// Marks the roots and all that they need, in time linear in nodes and needs. It fails only without memory.
    pub fn reach(&self, roots: &[u32]) -> Result<Vec<bool>, AllocError>
        requires { (r : ℕ) → has roots.now r ≡ true → r < length self.now }
        ensures { IfOk result (λ marks. IsMarks self.now (IsReached self.now roots.now) marks.items) }
    {
        reached(self, roots)
    }

    /// Marks the nodes that need themselves, in time linear in nodes and needs. It fails only without memory.
    pub fn on_cycle(&self) -> Result<Vec<bool>, AllocError>
        ensures { IfOk result (λ marks. IsMarks self.now (needs_itself self.now) marks.items) }
    {
        let ranks = ranked(self)?;
        let marks = marks_of_zero(self.alloc, &ranks)?;
        Ok(marks)
    }

    /// The rank of each node: 0 for one that needs itself, and else 1 more than the greatest among those that it needs
    /// directly, with 0 for none. It takes time linear in nodes and needs, and fails only without memory.
    pub fn ranks(&self) -> Result<Vec<u32>, AllocError>
        ensures { IfOk result (λ ranks. IsRanks self.now ranks.items) }
    {
        ranked(self)
    }
}

//! Ranks, cycles and reach of small graphs.
ghost use Rattle.std.specs.Prelude.{◌≡◌, ◌<◌, ℕ, true, length};
ghost use Rattle.nb_graph.specs.Needs.{has};

use nb_graph::Graph;
use std::alloc::Global;
use std::test::Fail;

// Whether all are below `n`.
fn all_below(nodes: &[u32], n: usize) -> bool
    ensures { result ≡ true → (u : ℕ) → has nodes.now u ≡ true → u < n }
{
    for u in nodes {
        if *u as usize >= n {
            return false;
        }
    }
    true
}

// Sets the needs of a node, if all are nodes of the graph.
fn put(graph: &mut Graph, v: u32, needs: &[u32]) -> Result<(), Fail> {
    let n = graph.len();
    if v as usize >= n || !all_below(needs, n) {
        return Err("no node".into());
    }
    graph.set(v, needs)?;
    Ok(())
}

// A graph of nodes that need these.
fn graph_of(alloc: Global, lists: &[&[u32]]) -> Result<Graph, Fail>
    requires { length lists.now < 100 }
{
    let mut graph = Graph::new(alloc, lists.len() as u32)?;
    for v in 0..lists.len() {
        put(&mut graph, v as u32, lists[v])?;
    }
    Ok(graph)
}

// Whether these are the ranks of the graph of nodes that need these, and those of rank 0 are on a cycle.
fn has_ranks(alloc: Global, lists: &[&[u32]], ranks: &[u32]) -> Result<bool, Fail>
    requires { length lists.now < 100 }
{
    let graph = graph_of(alloc, lists)?;
    let found = graph.ranks()?;
    let marks = graph.on_cycle()?;
    let agree = found
        .iter()
        .zip(marks.iter())
        .all(|(rank, mark)| (*rank == 0) == *mark);
    Ok(found.as_slice() == ranks && agree)
}

// Whether these are the marks of what the roots reach.
fn has_reach(graph: &Graph, roots: &[u32], marks: &[bool]) -> Result<bool, Fail> {
    if !all_below(roots, graph.len()) {
        return Err("no node".into());
    }
    Ok(graph.reach(roots)?.as_slice() == marks)
}

#[test]
fn ranks_of_small_graphs(rt: HostRuntime) -> Result<(), Fail> {
    let alloc = rt.alloc();
    assert!(rt; has_ranks(alloc, &[], &[])?);
    assert!(rt; has_ranks(alloc, &[&[1], &[0], &[0]], &[0, 0, 1])?);
    assert!(rt; has_ranks(alloc, &[&[1], &[0, 2], &[]], &[0, 0, 1])?);
    assert!(rt; has_ranks(alloc, &[&[1], &[2], &[2]], &[2, 1, 0])?);
    assert!(rt; has_ranks(alloc, &[&[1], &[2], &[3], &[1]], &[1, 0, 0, 0])?);
    assert!(rt; has_ranks(alloc, &[&[1, 2], &[], &[1, 0]], &[0, 1, 0])?);
    assert!(rt; has_ranks(alloc, &[&[1, 2], &[4], &[3], &[4], &[]], &[4, 2, 3, 2, 1])?);
    Ok(())
}

#[test]
fn reach_after_a_second_set(rt: HostRuntime) -> Result<(), Fail> {
    let alloc = rt.alloc();
    let mut graph = graph_of(alloc, &[&[1], &[0], &[0]])?;
    assert!(rt; has_reach(&graph, &[2], &[true, true, true])?);
    assert!(rt; has_reach(&graph, &[], &[false, false, false])?);
    put(&mut graph, 0, &[0])?;
    assert!(rt; has_reach(&graph, &[2], &[true, false, true])?);
    Ok(())
}

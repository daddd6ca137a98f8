ghost use Rattle.std.specs.Prelude.{◌≡◌, ◌<◌, ℕ, true, length, IfOk, OnOk};
ghost use Rattle.nb_graph.specs.Needs.{has};
ghost use Rattle.nb_graph.specs.Graph.{IsReached, IsMarks};
ghost use Rattle.nb_graph.specs.Marking.{IsMarked};

use crate::graph::Graph;
use std::alloc::AllocError;

/// Marks nodes, and puts those that had no mark on the stack.
fn mark(marks: &mut [bool], stack: &mut Vec<u32>, nodes: &[u32]) -> Result<(), AllocError>
    requires { (u : ℕ) → has nodes.now u ≡ true → u < length marks.old }
    ensures { OnOk result (IsMarked nodes.now marks.old stack.old.items marks.new stack.new.items) }
{
    for u in nodes {
        if !marks[*u as usize] {
            marks[*u as usize] = true;
            stack.push(*u)?;
        }
    }
    Ok(())
}

/// Marks the roots and all that they need. Each node goes on the stack once, when it is marked.
pub fn reached(graph: &Graph, roots: &[u32]) -> Result<Vec<bool>, AllocError>
    requires { (r : ℕ) → has roots.now r ≡ true → r < length graph.now }
    ensures { IfOk result (λ marks. IsMarks graph.now (IsReached graph.now roots.now) marks.items) }
{
    let mut marks = vec![in graph.allocator(); false; graph.len()]?;
    let mut stack = Vec::new(graph.allocator());
    mark(&mut marks, &mut stack, roots)?;
    while let Some(v) = stack.pop() {
        mark(&mut marks, &mut stack, graph.needs(v))?;
    }
    Ok(marks)
}

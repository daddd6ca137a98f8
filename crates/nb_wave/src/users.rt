//! Who needs whom, the other way round, and which variable starts next by it.

ghost use Rattle.std.specs.Prelude.{◌≡◌, ◌<◌, ◌≤◌, ◌^◌, ℕ, true, [], length, map, replicate, IfOk, OnOk};
ghost use Rattle.nb_graph.specs.Needs.{has};
ghost use Rattle.nb_graph.specs.Graph.{needs_of as list_of};
ghost use Rattle.nb_wave.specs.Rules.{is_overtaken, passes, held as are_held, due as are_due, least, may_start, rests_on, NeedsVariables};
ghost use Rattle.nb_wave.specs.Marks.{marked, AreMarks};
ghost use Rattle.nb_wave.specs.Users.{added, added_all, IsReversed, AreMarked, Reverse};

use crate::due::{is_due, least_start, pulls};
use crate::row::{Row, Vars};
use nb_graph::Graph;
use std::alloc::{AllocError, Global};

/// Who needs whom, the other way round.
#[derive(Drop)]
pub struct Users {
    /// Of each variable, those that need it directly.
    pub lists: Vec<Vars>,
    /// The same, as a graph.
    pub graph: Graph,
}

/// Lists of no variables.
fn no_lists(alloc: Global, n: usize) -> Result<Vec<Vars>, AllocError>
    ensures { IfOk result (λ lists. lists.items ≡ replicate n []) }
{
    let mut lists = Vec::new(alloc);
    for _v in 0..n {
        lists.push(Vars::new(alloc))?;
    }
    Ok(lists)
}

/// Adds a variable to the list of each that it needs.
fn add_user(lists: &mut Vec<Vars>, needs: &[u32], v: u32) -> Result<(), AllocError>
    requires { (u : ℕ) → has needs.now u ≡ true → u < length lists.old.items }
    ensures { OnOk result (lists.new.items ≡ added v needs.now lists.old.items) }
{
    for u in needs {
        lists[*u as usize].push(v)?;
    }
    Ok(())
}

/// Of each variable, those that need it directly.
fn user_lists(alloc: Global, rows: &[Row]) -> Result<Vec<Vars>, AllocError>
    requires few { length rows.now < 2 ^ 32 }
    requires needs { NeedsVariables rows.now }
    ensures { IfOk result (λ lists. lists.items ≡ added_all 0 rows.now (replicate (length rows.now) [])) }
{
    let mut lists = no_lists(alloc, rows.len())?;
    for v in 0..rows.len() {
        add_user(&mut lists, rows[v].needs.as_slice(), v as u32)?;
    }
    Ok(lists)
}

/// The graph of these lists, in time linear in them.
fn graph_of(alloc: Global, rows: &[Row], lists: &Vec<Vars>) -> Result<Graph, AllocError>
    requires few { length rows.now < 2 ^ 32 }
    requires needs { NeedsVariables rows.now }
    requires lists { lists.now.items ≡ added_all 0 rows.now (replicate (length rows.now) []) }
    ensures { IfOk result (λ graph. IsReversed rows.now graph) }
{
    let mut graph = Graph::new(alloc, rows.len() as u32)?;
    for u in 0..rows.len() {
        graph.set(u as u32, lists[u].as_slice())?;
    }
    Ok(graph)
}

impl Users {
    /// Of these rows, in time linear in variables and needs. It fails only without memory.
    pub fn new(alloc: Global, rows: &[Row]) -> Result<Users, AllocError>
        requires few { length rows.now < 2 ^ 32 }
        requires needs { NeedsVariables rows.now }
        ensures { IfOk result (λ users. Reverse rows.now users) }
    {
        let lists = user_lists(alloc, rows)?;
        let graph = graph_of(alloc, rows, &lists)?;
        Ok(Users { lists, graph })
    }

    /// Those that need a variable directly. It takes no memory.
    pub fn of(&self, v: u32) -> &[u32]
        requires { v < length self.now.lists.items }
        ensures { result.now ≡ list_of self.now.lists.items v }
    {
        self.lists[v as usize].as_slice()
    }
}

/// The numbers of those that are marked.
fn marked_vars(alloc: Global, marks: &[bool]) -> Result<Vec<u32>, AllocError>
    requires { length marks.now < 2 ^ 32 }
    ensures { IfOk result (λ vars. AreMarked marks.now (length marks.now) vars.items) }
{
    let mut vars = Vec::new(alloc);
    for v in 0..marks.len() {
        if marks[v] {
            vars.push(v as u32)?;
        }
    }
    Ok(vars)
}

/// Marks the marked variables and all that need one, in time linear in variables and needs.
fn resting(
    alloc: Global,
    users: &Graph,
    rows: &[Row],
    marks: &[bool],
) -> Result<Vec<bool>, AllocError>
    requires few { length rows.now < 2 ^ 32 }
    requires needs { NeedsVariables rows.now }
    requires users { IsReversed rows.now users.now }
    requires size { length marks.now ≡ length rows.now }
    ensures marks { IfOk result (λ new. AreMarks rows.now (rests_on (marked marks.now) rows.now) new.items) }
    ensures size { IfOk result (λ new. length new.items ≡ length rows.now) }
{
    let roots = marked_vars(alloc, marks)?;
    let new = users.reach(&roots)?;
    Ok(new)
}

/// Marks the variables that are overtaken.
fn overtaken(alloc: Global, rows: &[Row]) -> Result<Vec<bool>, AllocError>
    ensures { IfOk result (λ marks. marks.items ≡ map is_overtaken rows.now) }
{
    rows.iter().map(|row| row.is_overtaken()).collect(alloc)
}

/// Marks the variables that are held.
fn held(alloc: Global, users: &Graph, rows: &[Row]) -> Result<Vec<bool>, AllocError>
    requires few { length rows.now < 2 ^ 32 }
    requires needs { NeedsVariables rows.now }
    requires users { IsReversed rows.now users.now }
    ensures marks { IfOk result (λ new. AreMarks rows.now (are_held rows.now) new.items) }
    ensures size { IfOk result (λ new. length new.items ≡ length rows.now) }
{
    if !pulls(rows) {
        let none = vec![in alloc; false; rows.len()]?;
        return Ok(none);
    }
    let marks = overtaken(alloc, rows)?;
    let new = resting(alloc, users, rows, &marks)?;
    Ok(new)
}

/// Marks the variables that are due, where those that are held are known.
fn due(alloc: Global, rows: &[Row], held: &[bool]) -> Result<Vec<bool>, AllocError>
    requires held { AreMarks rows.now (are_held rows.now) held.now }
    requires size { length held.now ≡ length rows.now }
    ensures marks { IfOk result (λ new. AreMarks rows.now (are_due rows.now) new.items) }
    ensures size { IfOk result (λ new. length new.items ≡ length rows.now) }
{
    let mut marks = Vec::new(alloc);
    for v in 0..rows.len() {
        marks.push(is_due(&rows[v], held[v]))?;
    }
    Ok(marks)
}

/// Marks the variables that are due, and all that need one, in time linear in variables and needs.
pub fn near(alloc: Global, users: &Graph, rows: &[Row]) -> Result<Vec<bool>, AllocError>
    requires few { length rows.now < 2 ^ 32 }
    requires needs { NeedsVariables rows.now }
    requires users { IsReversed rows.now users.now }
    ensures marks { IfOk result (λ new. AreMarks rows.now (rests_on (are_due rows.now) rows.now) new.items) }
    ensures size { IfOk result (λ new. length new.items ≡ length rows.now) }
{
    let held = held(alloc, users, rows)?;
    let due = due(alloc, rows, &held)?;
    let new = resting(alloc, users, rows, &due)?;
    Ok(new)
}

/// The least variable that may start, in time linear in variables and needs. It fails only without memory.
pub fn next_start(alloc: Global, users: &Graph, rows: &[Row]) -> Result<Option<u32>, AllocError>
    requires few { length rows.now < 2 ^ 32 }
    requires needs { NeedsVariables rows.now }
    requires users { IsReversed rows.now users.now }
    ensures { IfOk result (λ found. found ≡ least may_start rows.now) }
{
    let held = held(alloc, users, rows)?;
    let due = due(alloc, rows, &held)?;
    let near = resting(alloc, users, rows, &due)?;
    Ok(least_start(rows, &due, &near))
}

//! Which variables a wave has to be told of: those that are loud, and all that need one.

ghost use Rattle.std.specs.Prelude.{◌≡◌, ◌≤◌, ◌<◌, ◌+◌, ◌++◌, ◌∷◌, ℕ, true, [], length, replicate, IfOk, OnOk, OnErr, MatchOption};
ghost use Rattle.nb_graph.specs.Needs.{has};
ghost use Rattle.nb_wave.specs.Rules.{NeedsVariables};
ghost use Rattle.nb_wave.specs.Users.{added, added_all, IsReversed};
ghost use Rattle.nb_closing.specs.Ties.{all_ties};
ghost use Rattle.nb_closing.specs.Quiet.{loud_vars};
ghost use Rattle.nb_closing.specs.Touched.{needing, AreTouched};

use crate::quiet::loud;
use crate::site::Moment;
use crate::ties::Ties;
use nb_graph::Graph;
use nb_runs::Started;
use nb_sheet::Sheet;
use std::alloc::{AllocError, Global};
use std::marker::Model;

/// Variables by number, which contracts see as the list of them.
#[derive(Drop)]
struct Vars {
    items: Vec<u32>,
}

impl Model for Vars {
    ghost use Rattle.std.specs.Prelude.{ℕ, List};

    ghost Value = { List ℕ };

    ghost view = { λ v. v.items.items };
}

impl Vars {
    /// None.
    fn new(alloc: Global) -> Vars
        ensures { result ≡ [] }
    {
        Vars {
            items: Vec::new(alloc),
        }
    }

    /// Adds one at the end. It fails only without memory, and then nothing has changed.
    fn push(&mut self, var: u32) -> Result<(), AllocError>
        ensures ok { OnOk result (self.new ≡ self.old ++ var ∷ []) }
        ensures err { OnErr result (self.new ≡ self.old) }
    {
        self.items.push(var)?;
        Ok(())
    }

    /// Them, in their order.
    fn as_slice(&self) -> &[u32]
        ensures { result.now ≡ self.now }
    {
        &self.items
    }
}

/// Lists of no variables.
fn no_lists(alloc: Global, n: usize) -> Result<Vec<Vars>, AllocError>
    ensures { IfOk result (λ lists. lists.items ≡ replicate n []) }
{
    let mut lists = Vec::new(alloc);
    for _v in 0..n {
        lists.push(Vars::new(alloc))?;
    }
    Ok(lists)
}

/// Adds a variable to the list of each that it needs.
fn add_user(lists: &mut Vec<Vars>, needs: &[u32], v: u32) -> Result<(), AllocError>
    requires { (u : ℕ) → has needs.now u ≡ true → u < length lists.old.items }
    ensures { OnOk result (lists.new.items ≡ added v needs.now lists.old.items) }
{
    for u in needs {
        lists[*u as usize].push(v)?;
    }
    Ok(())
}

/// Of the number 0 and each variable, those that need it directly.
fn user_lists(alloc: Global, ties: &Vec<Ties>) -> Result<Vec<Vars>, AllocError>
    requires few { length ties.now.items ≤ 1024 }
    requires needs { NeedsVariables (needing ties.now.items) }
    ensures { IfOk result (λ lists. lists.items ≡ added_all 0 (needing ties.now.items) (replicate (length (needing ties.now.items)) [])) }
{
    let mut lists = no_lists(alloc, ties.len() + 1)?;
    for k in 0..ties.len() {
        add_user(&mut lists, ties[k].direct(), k as u32 + 1)?;
    }
    Ok(lists)
}

/// Who needs whom, the other way round, in time linear in variables and needs.
fn users(alloc: Global, ties: &Vec<Ties>) -> Result<Graph, AllocError>
    requires few { length ties.now.items ≤ 1024 }
    requires needs { NeedsVariables (needing ties.now.items) }
    ensures { IfOk result (IsReversed (needing ties.now.items)) }
{
    let lists = user_lists(alloc, ties)?;
    let n = lists.len();
    let mut graph = Graph::new(alloc, n as u32)?;
    for u in 0..n {
        graph.set(u as u32, lists[u].as_slice())?;
    }
    Ok(graph)
}

/// Marks the variables that are touched, by number, and nothing where none is. It fails only without memory. It costs a
/// look at each input of each variable, and where one is loud a few passes over variables and what they need.
pub fn touched(
    alloc: Global,
    sheet: &Sheet,
    ties: &Vec<Ties>,
    starts: &Vec<Option<Started>>,
    moment: &Moment,
) -> Result<Option<Vec<bool>>, AllocError>
    requires { ties.now.items ≡ all_ties sheet.now.sheet }
    ensures { IfOk result (λ found. MatchOption found (loud_vars sheet.now.sheet starts.now.items moment.now ≡ []) (λ marks. AreTouched sheet.now.sheet (loud_vars sheet.now.sheet starts.now.items moment.now) marks.items)) }
{
    let loud = loud(alloc, sheet, ties, starts, moment)?;
    if loud.is_empty() {
        return Ok(None);
    }
    let users = users(alloc, ties)?;
    let marks = users.reach(&loud)?;
    Ok(Some(marks))
}

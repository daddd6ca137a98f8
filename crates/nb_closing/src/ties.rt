ghost use Rattle.std.specs.Prelude.{◌≡◌, ◌≤◌, ◌<◌, ◌&&◌, ℕ, length, IfOk, OnOk, map, is_some, true};
ghost use Rattle.nb_graph.specs.Graph.{needs_itself, IsReached, IsMarks};
ghost use Rattle.nb_sheet.specs.Sheet.{IsSheet};
ghost use Rattle.nb_history.specs.Rules.{input_code};
ghost use Rattle.nb_closing.specs.Ties.{all_ties as ties_of_all};
ghost use Rattle.nb_closing.specs.Tables.{by_inputs as ties_by_inputs, marked as marked_with, row_ties, all_unmarked, graph_by, graph_of, IsWithin, is_root_row, roots_of};

use crate::inputs::inputs_of_row;
use crate::names::Names;
use nb_graph::Graph;
use nb_resolve::{Input, Resolution, variables};
use nb_sheet::{Sheet, VarRow};
use std::alloc::{AllocError, Global};
use std::marker::Model;

/// What a variable's names tie it to: whether it is a duplicate, whether it needs itself, whether it is used, its inputs as
/// resolved, these by their numbers, and the variables among them.
#[derive(Drop)]
pub struct Ties {
    is_duplicate: bool,
    is_circular: bool,
    is_used: bool,
    inputs: Vec<Input>,
    codes: Vec<u64>,
    direct: Vec<u32>,
}

impl Model for Ties {
    ghost use Rattle.nb_closing.specs.Ties.{Ties as TiesValue};

    ghost Value = { TiesValue };

    ghost view = { λ t. record { is_duplicate = t.is_duplicate; is_circular = t.is_circular; is_used = t.is_used; inputs = t.inputs.items; codes = t.codes.items; direct = t.direct.items } };
}

impl Ties {
    /// Whether another variable of its module has its name.
    pub fn is_duplicate(&self) -> bool
        ensures { result ≡ self.now.is_duplicate }
    {
        self.is_duplicate
    }

    /// Whether it needs itself.
    pub fn is_circular(&self) -> bool
        ensures { result ≡ self.now.is_circular }
    {
        self.is_circular
    }

    /// Whether it is defined, and observed or needed by an observed defined variable.
    pub fn is_used(&self) -> bool
        ensures { result ≡ self.now.is_used }
    {
        self.is_used
    }

    /// Its inputs as resolved.
    pub fn inputs(&self) -> &Vec<Input>
        ensures { result.now.items ≡ self.now.inputs }
    {
        &self.inputs
    }

    /// Its inputs as resolved, each by its number.
    pub fn codes(&self) -> &Vec<u64>
        ensures { result.now.items ≡ self.now.codes }
    {
        &self.codes
    }

    /// The variables among its inputs.
    pub fn direct(&self) -> &Vec<u32>
        ensures { result.now.items ≡ self.now.direct }
    {
        &self.direct
    }

    /// What inputs tie a variable to that is neither circular nor used.
    fn by_inputs(alloc: Global, inputs: Vec<Input>, is_duplicate: bool) -> Result<Ties, AllocError>
        ensures { IfOk result (λ t. t ≡ ties_by_inputs inputs.items is_duplicate) }
    {
        let codes = codes(alloc, &inputs)?;
        let direct = variables(alloc, &inputs)?;
        Ok(Ties {
            is_duplicate,
            is_circular: false,
            is_used: false,
            inputs,
            codes,
            direct,
        })
    }

    /// Says whether it is circular, and whether it is used.
    fn mark(&mut self, is_circular: bool, is_used: bool)
        ensures { self.new ≡ marked_with is_circular is_used self.old }
    {
        self.is_circular = is_circular;
        self.is_used = is_used;
    }
}

/// An input's resolution as a number.
fn code(input: &Input) -> u64
    ensures { result ≡ input_code input.now }
{
    match input.resolution() {
        Resolution::Missing => 0,
        Resolution::Twice => 1,
        Resolution::Var(v) => 2 + (v as u64 + v as u64),
        Resolution::Builtin(b) => 3 + (b as u64 + b as u64),
    }
}

fn codes(alloc: Global, inputs: &[Input]) -> Result<Vec<u64>, AllocError>
    ensures { IfOk result (λ found. found.items ≡ map input_code inputs.now) }
{
    inputs.iter().map(code).collect(alloc)
}

/// What the inputs of a row tie its variable to.
fn unmarked(alloc: Global, names: &Names, row: &VarRow) -> Result<Ties, AllocError>
    ensures { IfOk result (λ t. t ≡ row_ties names.now row.now) }
{
    let twin = names.is_duplicate(row);
    let inputs = inputs_of_row(alloc, names, row, twin)?;
    let ties = Ties::by_inputs(alloc, inputs, twin)?;
    Ok(ties)
}

/// What the inputs of each variable tie it to, by number.
fn each_unmarked(alloc: Global, sheet: &Sheet) -> Result<Vec<Ties>, AllocError>
    ensures { IfOk result (λ ties. ties.items ≡ all_unmarked sheet.now.sheet) }
{
    let names = Names::of(alloc, sheet)?;
    let rows = sheet.rows();
    let mut ties = Vec::with_capacity(alloc, rows.len())?;
    for i in 0..rows.len() {
        let own = unmarked(alloc, &names, &rows[i])?;
        ties.push(own)?;
    }
    Ok(ties)
}

/// Who needs whom directly, by the ties of each variable.
fn graph_by_ties(alloc: Global, ties: &[Ties]) -> Result<Graph, AllocError>
    requires few { length ties.now ≤ 1024 }
    requires within { IsWithin ties.now }
    ensures { IfOk result (λ graph. graph ≡ graph_by ties.now) }
{
    let mut graph = Graph::new(alloc, ties.len() as u32 + 1)?;
    for i in 0..ties.len() {
        graph.set(i as u32 + 1, ties[i].direct())?;
    }
    Ok(graph)
}

/// Whether a row is that of an observed defined variable.
fn is_root(row: &VarRow) -> bool
    ensures { result ≡ is_root_row row.now }
{
    row.body.is_some() && row.observed
}

/// The observed defined variables.
fn roots(alloc: Global, rows: &[VarRow]) -> Result<Vec<u32>, AllocError>
    requires { length rows.now ≤ 1024 }
    ensures { IfOk result (λ roots. roots.items ≡ roots_of rows.now) }
{
    let mut roots = Vec::new(alloc);
    for (i, row) in rows.iter().enumerate() {
        if is_root(row) {
            roots.push(i as u32 + 1)?;
        }
    }
    Ok(roots)
}

/// Whether a row is that of a defined variable which is reached.
fn is_used(row: &VarRow, is_reached: bool) -> bool
    ensures { result ≡ (is_some row.now.body && is_reached) }
{
    row.body.is_some() && is_reached
}

/// Says of each variable whether it is circular and whether it is used, by the marks of those that need themselves and of
/// the roots and what these need.
fn mark_all(sheet: &Sheet, ties: &mut [Ties], circular: &[bool], reached: &[bool])
    requires ties { ties.old ≡ all_unmarked sheet.now.sheet }
    requires circular { IsMarks (graph_of sheet.now.sheet) (needs_itself (graph_of sheet.now.sheet)) circular.now }
    requires reached { IsMarks (graph_of sheet.now.sheet) (IsReached (graph_of sheet.now.sheet) (roots_of sheet.now.sheet.rows)) reached.now }
    ensures { ties.new ≡ ties_of_all sheet.now.sheet }
{
    let rows = sheet.rows();
    for i in 0..rows.len() {
        let used = is_used(&rows[i], reached[i + 1]);
        ties[i].mark(circular[i + 1], used);
    }
}

/// What the names of a sheet tie its variables to, by number. It fails only without memory. It costs a walk over each cell,
/// a look-up in a hash table for each variable and each input, a scan over the builtins for each input that no variable
/// has the name of, and a walk over who needs whom.
pub fn tie(alloc: Global, sheet: &Sheet) -> Result<Vec<Ties>, AllocError>
    ensures { IfOk result (λ ties. ties.items ≡ ties_of_all sheet.now.sheet) }
{
    let roots = roots(alloc, sheet.rows())?;
    let mut ties = each_unmarked(alloc, sheet)?;
    let graph = graph_by_ties(alloc, &ties)?;
    let circular = graph.on_cycle()?;
    let reached = graph.reach(&roots)?;
    mark_all(sheet, &mut ties, &circular, &reached);
    Ok(ties)
}

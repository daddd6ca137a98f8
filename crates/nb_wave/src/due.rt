//! Which variable leaves or starts next.

ghost use Rattle.std.specs.Prelude.{◌≡◌, ◌<◌, ◌≤◌, ◌^◌, ◌&&◌, ◌||◌, not, length, ℕ, true, false};
ghost use Rattle.std.specs.List.{list_any};
ghost use Rattle.nb_graph.specs.Needs.{has};
ghost use Rattle.nb_wave.specs.Rules.{passes, is_circular, is_overtaken, wants_start, pulls_on, held as are_held, leaving, due as are_due, least, may_start, rests_on, NeedsVariables};
ghost use Rattle.nb_wave.specs.Marks.{marked, AreMarks, IsWidened};

use crate::row::Row;

/// The least variable that is leaving.
pub fn next_leaving(rows: &[Row]) -> Option<u32>
    requires { length rows.now < 2 ^ 32 }
    ensures { result ≡ least leaving rows.now }
{
    for v in 1..rows.len() {
        if rows[v].is_leaving() {
            return Some(v as u32);
        }
    }
    None
}

/// Whether any variable is pulling.
pub fn pulls(rows: &[Row]) -> bool
    ensures { result ≡ pulls_on rows.now }
{
    for v in 1..rows.len() {
        if rows[v].is_pulling() {
            return true;
        }
    }
    false
}

/// Marks the variables that are overtaken.
fn mark_overtaken(rows: &[Row], marks: &mut [bool])
    requires { length rows.now ≤ length marks.old }
    ensures { AreMarks rows.now (passes is_overtaken rows.now) marks.new }
{
    for v in 0..rows.len() {
        marks[v] = rows[v].is_overtaken();
    }
}

/// Marks none.
fn mark_none(rows: &[Row], marks: &mut [bool])
    requires { length rows.now ≤ length marks.old }
    ensures { AreMarks rows.now (λ v. false) marks.new }
{
    for v in 0..rows.len() {
        marks[v] = false;
    }
}

/// Whether any of these is marked.
pub fn any_marked(vars: &[u32], marks: &[bool]) -> bool
    requires { (u : ℕ) → has vars.now u ≡ true → u < length marks.now }
    ensures { result ≡ list_any (marked marks.now) vars.now }
{
    for u in vars {
        if marks[*u as usize] {
            return true;
        }
    }
    false
}

/// Marks what needs a marked variable directly, in one pass. Tells whether anything was marked.
fn widen(rows: &[Row], marks: &mut [bool]) -> bool
    requires marks { length rows.now ≤ length marks.old }
    requires needs { NeedsVariables rows.now }
    ensures { IsWidened rows.now marks.old result marks.new }
{
    let mut grew = false;
    for v in 0..rows.len() {
        if !marks[v] && any_marked(rows[v].needs.as_slice(), marks) {
            marks[v] = true;
            grew = true;
        }
    }
    grew
}

/// Marks all that needs a marked variable.
fn spread(rows: &[Row], marks: &mut [bool])
    requires marks { length rows.now ≤ length marks.old }
    requires needs { NeedsVariables rows.now }
    ensures { AreMarks rows.now (rests_on (marked marks.old) rows.now) marks.new }
{
    while widen(rows, marks) {}
}

/// Marks the variables that are held.
fn mark_held(rows: &[Row], marks: &mut [bool])
    requires marks { length rows.now ≤ length marks.old }
    requires needs { NeedsVariables rows.now }
    ensures { AreMarks rows.now (are_held rows.now) marks.new }
{
    if pulls(rows) {
        mark_overtaken(rows, marks);
        spread(rows, marks);
    } else {
        mark_none(rows, marks);
    }
}

/// Whether a variable is due, where it is known whether it is held.
pub fn is_due(row: &Row, held: bool) -> bool
    ensures { result ≡ (wants_start row.now && not held) }
{
    row.wants_start() && !held
}

/// Marks the variables that are due, where those that are held are known.
fn mark_due(rows: &[Row], held: &[bool], marks: &mut [bool])
    requires held { AreMarks rows.now (are_held rows.now) held.now }
    requires room { length rows.now ≤ length held.now }
    requires marks { length rows.now ≤ length marks.old }
    ensures { AreMarks rows.now (are_due rows.now) marks.new }
{
    for v in 0..rows.len() {
        marks[v] = is_due(&rows[v], held[v]);
    }
}

/// Whether a variable may start, where those that are due are known, and those that need a due one or are due.
fn starts(row: &Row, due: bool, near: &[bool]) -> bool
    requires { (u : ℕ) → has row.now.needs u ≡ true → u < length near.now }
    ensures { result ≡ (due && (is_circular row.now || not (list_any (marked near.now) row.now.needs))) }
{
    due && (row.present.mark == 2 || !any_marked(row.needs.as_slice(), near))
}

/// The least variable that may start, where those that are due are known, and those that need a due one or are due.
pub fn least_start(rows: &[Row], due: &[bool], near: &[bool]) -> Option<u32>
    requires few { length rows.now < 2 ^ 32 }
    requires needs { NeedsVariables rows.now }
    requires due { AreMarks rows.now (are_due rows.now) due.now }
    requires due_room { length rows.now ≤ length due.now }
    requires near { AreMarks rows.now (rests_on (are_due rows.now) rows.now) near.now }
    requires near_room { length rows.now ≤ length near.now }
    ensures { result ≡ least may_start rows.now }
{
    for v in 1..rows.len() {
        if starts(&rows[v], due[v], near) {
            return Some(v as u32);
        }
    }
    None
}

/// The least variable that may start. It takes no memory, and a pass over variables and needs for each step of the
/// longest chain of needs.
pub fn next_due(rows: &[Row]) -> Option<u32>
    requires all { length rows.now ≡ 1025 }
    requires needs { NeedsVariables rows.now }
    ensures { result ≡ least may_start rows.now }
{
    let mut held = [false; 1025];
    let mut due = [false; 1025];
    let mut near = [false; 1025];
    mark_held(rows, &mut held);
    mark_due(rows, &held, &mut due);
    mark_due(rows, &held, &mut near);
    spread(rows, &mut near);
    least_start(rows, &due, &near)
}

//! Which variables are ready, by the starts and what names tie them to. Nothing here takes memory.
ghost use Rattle.std.specs.Prelude.{◌≡◌, [], nat_le, ◌&&◌, map, is_some};
ghost use Rattle.std.specs.List.{list_all};
ghost use Rattle.std.specs.Option.{option_copied};
ghost use Rattle.nb_sheet.specs.Lists.{nth};
ghost use Rattle.nb_history.specs.Lists.{same_numbers as are_same};
ghost use Rattle.nb_history.specs.Reading.{Reading, shown as shown_in, number as number_in};
ghost use Rattle.nb_history.specs.Rules.{ready, is_behind as behind_in, place_of as place_in, same_footing};
ghost use Rattle.nb_history.specs.Serial.{least_var};
ghost use Rattle.nb_runs.specs.Footings.{footing_of, IsMarked};
ghost use Rattle.nb_closing.specs.Ties.{all_ties};
ghost use Rattle.nb_work.specs.Over.{IsOver};
ghost use Rattle.nb_work.specs.Tied.{number_of, renewal_of, shown_of, pulls_in, no_ties, ties_in, footing_by, has_inputs as has_all_inputs};

use nb_closing::Ties;
use nb_runs::Started;
use nb_runs::starts::start_at;
use nb_sheet::Sheet;
use nb_value::Outcome;
use nb_wave::Footing;

/// The number of a variable's start, 0 for an idle one or no variable.
pub fn number(starts: &Vec<Option<Started>>, v: u32) -> u64
    ensures { (r : Reading) → r.starts ≡ starts.now.items → result ≡ number_in r v }
{
    number_at(starts, v)
}

/// The number of a variable's start, 0 where there is none.
fn number_at(starts: &Vec<Option<Started>>, v: u32) -> u64
    ensures { result ≡ number_of starts.now.items v }
{
    match start_at(starts, v) {
        None => 0,
        Some(start) => start.number(),
    }
}

/// The renewal of a variable's start, 0 where there is none.
fn renewal_at(starts: &Vec<Option<Started>>, v: u32) -> u64
    ensures { result ≡ renewal_of starts.now.items v }
{
    match start_at(starts, v) {
        None => 0,
        Some(start) => start.renewal(),
    }
}

/// What a variable shows.
pub fn shown(starts: &Vec<Option<Started>>, v: u32) -> Option<&Outcome>
    ensures { (r : Reading) → r.starts ≡ starts.now.items → option_copied result ≡ shown_in r v }
{
    shown_at(starts, v)
}

/// What a variable's start shows.
pub(crate) fn shown_at(starts: &Vec<Option<Started>>, v: u32) -> Option<&Outcome>
    ensures { option_copied result ≡ shown_of starts.now.items v }
{
    match start_at(starts, v) {
        None => None,
        Some(start) => start.shown(),
    }
}

/// How often a variable's start was pulled, 0 where there is none.
pub(crate) fn pulls_at(starts: &Vec<Option<Started>>, v: u32) -> u32
    ensures { result ≡ pulls_in starts.now.items v }
{
    match start_at(starts, v) {
        None => 0,
        Some(start) => start.pulls(),
    }
}

/// What names tie a variable to, if there is one of that number.
pub(crate) fn ties_at(ties: &Vec<Ties>, v: u32) -> Option<&Ties>
    ensures { option_copied result ≡ nth ties.now.items v }
{
    if v == 0 {
        return None;
    }
    ties.get(v as usize - 1)
}

/// The place of a variable's body, 0 where there is none.
fn place_of(sheet: &Sheet, v: u32) -> u64
    ensures { result ≡ place_in sheet.now.sheet v }
{
    match sheet.variable(v) {
        None => 0,
        Some(row) => row.place,
    }
}

/// Whether two lists of numbers are one.
fn same_numbers(xs: &[u64], ys: &[u64]) -> bool
    ensures { result ≡ are_same xs.now ys.now }
{
    xs == ys
}

/// Whether these are the numbers of the variables' starts.
fn same_starts(starts: &Vec<Option<Started>>, direct: &Vec<u32>, kept: &[u64]) -> bool
    ensures { result ≡ are_same (map (number_of starts.now.items) direct.now.items) kept.now }
{
    if direct.len() != kept.len() {
        return false;
    }
    for k in 0..direct.len() {
        if number_at(starts, direct[k]) != kept[k] {
            return false;
        }
    }
    true
}

/// Whether these are the renewals of the variables' starts.
fn same_renewals(starts: &Vec<Option<Started>>, direct: &Vec<u32>, kept: &[u64]) -> bool
    ensures { result ≡ are_same (map (renewal_of starts.now.items) direct.now.items) kept.now }
{
    if direct.len() != kept.len() {
        return false;
    }
    for k in 0..direct.len() {
        if renewal_at(starts, direct[k]) != kept[k] {
            return false;
        }
    }
    true
}

/// Whether a variable with neither mark and nothing that it needs, whose body has this place, rests on this.
fn rests_on_place(place: u64, kept: &Footing) -> bool
    requires { IsMarked kept.now }
    ensures { result ≡ same_footing (footing_by no_ties [] place) (footing_of kept.now) }
{
    place == kept.place
        && kept.mark == 0
        && kept.inputs.as_slice().is_empty()
        && kept.starts.as_slice().is_empty()
        && kept.renewals.as_slice().is_empty()
}

/// Whether these are the starts that a variable of these ties rests on, none for a circular one.
fn rests_on_starts(tied: &Ties, starts: &Vec<Option<Started>>, kept: &Footing) -> bool
    ensures { result ≡ (are_same (footing_by tied.now starts.now.items 0).starts kept.now.starts && are_same (footing_by tied.now starts.now.items 0).renewals kept.now.renewals) }
{
    if tied.is_circular() {
        return kept.starts.as_slice().is_empty() && kept.renewals.as_slice().is_empty();
    }
    let direct = tied.direct();
    same_starts(starts, direct, kept.starts.as_slice())
        && same_renewals(starts, direct, kept.renewals.as_slice())
}

/// Whether a variable of these ties, whose body has this place, rests on this.
fn rests_on(tied: &Ties, starts: &Vec<Option<Started>>, place: u64, kept: &Footing) -> bool
    ensures { result ≡ same_footing (footing_by tied.now starts.now.items place) (footing_of kept.now) }
{
    place == kept.place
        && tied.is_duplicate() == (kept.mark == 1)
        && tied.is_circular() == (kept.mark == 2)
        && same_numbers(tied.codes(), kept.inputs.as_slice())
        && rests_on_starts(tied, starts, kept)
}

/// Whether a start of a variable still rests on what it kept.
fn rests(
    sheet: &Sheet,
    ties: &Vec<Ties>,
    starts: &Vec<Option<Started>>,
    v: u32,
    start: &Started,
) -> bool
    ensures { result ≡ same_footing (footing_by (ties_in ties.now.items v) starts.now.items (place_in sheet.now.sheet v)) start.now.kept }
{
    let place = place_of(sheet, v);
    match ties_at(ties, v) {
        None => rests_on_place(place, start.kept()),
        Some(tied) => rests_on(tied, starts, place, start.kept()),
    }
}

/// Whether a variable is idle, or doesn't rest any more on what its start does. It costs a look at each input.
pub fn is_behind(sheet: &Sheet, ties: &Vec<Ties>, starts: &Vec<Option<Started>>, v: u32) -> bool
    requires ties { ties.now.items ≡ all_ties sheet.now.sheet }
    ensures { (r : Reading) → IsOver r sheet.now.sheet starts.now.items → result ≡ behind_in r v }
{
    match start_at(starts, v) {
        None => true,
        Some(start) => !rests(sheet, ties, starts, v, start),
    }
}

/// Whether each of some variables shows something.
fn all_show(starts: &Vec<Option<Started>>, vars: &Vec<u32>) -> bool
    ensures { result ≡ list_all (λ u. is_some (shown_of starts.now.items u)) vars.now.items }
{
    vars.iter().all(|u| shown_at(starts, *u).is_some())
}

/// Whether a variable is marked, or each variable that it needs directly shows something.
fn has_inputs(ties: &Vec<Ties>, starts: &Vec<Option<Started>>, v: u32) -> bool
    ensures { result ≡ has_all_inputs (ties_in ties.now.items v) starts.now.items }
{
    match ties_at(ties, v) {
        None => true,
        Some(tied) => {
            tied.is_duplicate() || tied.is_circular() || all_show(starts, tied.direct())
        }
    }
}

/// Whether a variable is ready. It costs a look at each input of one that runs, and of one that waits a look at those up to
/// the first that it waits for.
pub fn is_ready(sheet: &Sheet, ties: &Vec<Ties>, starts: &Vec<Option<Started>>, v: u32) -> bool
    requires ties { ties.now.items ≡ all_ties sheet.now.sheet }
    ensures { (r : Reading) → IsOver r sheet.now.sheet starts.now.items → result ≡ ready r v }
{
    match start_at(starts, v) {
        None => false,
        Some(start) => {
            start.is_running()
                && has_inputs(ties, starts, v)
                && rests(sheet, ties, starts, v, start)
        }
    }
}

/// The least ready variable that isn't below a number. It costs a look at each start, and at each input of those that run.
pub fn ready_from(
    sheet: &Sheet,
    ties: &Vec<Ties>,
    starts: &Vec<Option<Started>>,
    at_least: u32,
) -> Option<u32>
    requires ties { ties.now.items ≡ all_ties sheet.now.sheet }
    ensures { (r : Reading) → IsOver r sheet.now.sheet starts.now.items → result ≡ least_var r (λ v. nat_le at_least v && ready r v) }
{
    let rows = sheet.rows();
    for k in 0..rows.len() {
        let v = k as u32 + 1;
        if v >= at_least && is_ready(sheet, ties, starts, v) {
            return Some(v);
        }
    }
    None
}

/// The least ready variable. It costs a look at each start, and at each input of those that run.
pub fn next_ready(sheet: &Sheet, ties: &Vec<Ties>, starts: &Vec<Option<Started>>) -> Option<u32>
    requires ties { ties.now.items ≡ all_ties sheet.now.sheet }
    ensures { (r : Reading) → IsOver r sheet.now.sheet starts.now.items → result ≡ least_var r (ready r) }
{
    ready_from(sheet, ties, starts, 0)
}

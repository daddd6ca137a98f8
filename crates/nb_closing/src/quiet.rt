//! Which variables stay as they are unless one that they need doesn't. Nothing here is put into a wave.

ghost use Rattle.std.specs.Prelude.{◌≡◌, ◌≤◌, ◌&&◌, map, length, IfOk};
ghost use Rattle.nb_history.specs.Lists.{same_numbers as are_same};
ghost use Rattle.nb_history.specs.Rules.{same_footing};
ghost use Rattle.nb_runs.specs.Footings.{footing_of};
ghost use Rattle.nb_closing.specs.Ties.{ties_of, all_ties};
ghost use Rattle.nb_closing.specs.Sites.{site_in};
ghost use Rattle.nb_closing.specs.Quiet.{footing_by, quiet_at, loud_vars};

use crate::site::{Moment, Site, site_at};
use crate::telling::{is_wanted, place_at};
use crate::ties::Ties;
use nb_runs::Started;
use nb_runs::starts::start_at;
use nb_sheet::Sheet;
use nb_wave::Footing;
use std::alloc::{AllocError, Global};

/// Whether two lists of numbers are one.
fn same_numbers(xs: &[u64], ys: &[u64]) -> bool
    ensures { result ≡ are_same xs.now ys.now }
{
    xs == ys
}

/// Whether these are the start numbers of the variables.
fn same_starts(sites: &Vec<Site>, direct: &Vec<u32>, kept: &[u64]) -> bool
    ensures { result ≡ are_same (map (λ u. (site_in sites.now.items u).number) direct.now.items) kept.now }
{
    if direct.len() != kept.len() {
        return false;
    }
    for k in 0..direct.len() {
        if site_at(sites, direct[k]).number != kept[k] {
            return false;
        }
    }
    true
}

/// Whether these are the renewals of the variables.
fn same_renewals(sites: &Vec<Site>, direct: &Vec<u32>, kept: &[u64]) -> bool
    ensures { result ≡ are_same (map (λ u. (site_in sites.now.items u).renewal) direct.now.items) kept.now }
{
    if direct.len() != kept.len() {
        return false;
    }
    for k in 0..direct.len() {
        if site_at(sites, direct[k]).renewal != kept[k] {
            return false;
        }
    }
    true
}

/// Whether these are the start numbers and renewals that a variable of these ties rests on, none for a circular one.
fn rests_on_sites(ties: &Ties, sites: &Vec<Site>, kept: &Footing) -> bool
    ensures { result ≡ (are_same (footing_by ties.now (site_in sites.now.items) 0).starts kept.now.starts && are_same (footing_by ties.now (site_in sites.now.items) 0).renewals kept.now.renewals) }
{
    if ties.is_circular() {
        return kept.starts.as_slice().is_empty() && kept.renewals.as_slice().is_empty();
    }
    let direct = ties.direct();
    same_starts(sites, direct, kept.starts.as_slice())
        && same_renewals(sites, direct, kept.renewals.as_slice())
}

/// Whether a variable of these ties, whose body has this place, rests on this where the variables have these sites.
fn rests_on(ties: &Ties, sites: &Vec<Site>, place: u64, kept: &Footing) -> bool
    ensures { result ≡ same_footing (footing_by ties.now (site_in sites.now.items) place) (footing_of kept.now) }
{
    place == kept.place
        && ties.is_duplicate() == (kept.mark == 1)
        && ties.is_circular() == (kept.mark == 2)
        && same_numbers(ties.codes(), kept.inputs.as_slice())
        && rests_on_sites(ties, sites, kept)
}

/// Whether a variable is quiet. It costs a look at each input.
fn is_quiet(
    sheet: &Sheet,
    ties: &Ties,
    starts: &Vec<Option<Started>>,
    moment: &Moment,
    v: u32,
) -> bool
    requires { ties.now ≡ ties_of sheet.now.sheet v }
    ensures { result ≡ quiet_at sheet.now.sheet starts.now.items moment.now v }
{
    if site_at(&moment.sites, v).later {
        return false;
    }
    let wanted = is_wanted(ties, moment);
    match start_at(starts, v) {
        None => !wanted,
        Some(start) => {
            let place = place_at(sheet, v);
            wanted && rests_on(ties, &moment.sites, place, start.kept())
        }
    }
}

/// The variables that are loud. It fails only without memory. It costs a look at each input of each variable.
pub fn loud(
    alloc: Global,
    sheet: &Sheet,
    ties: &Vec<Ties>,
    starts: &Vec<Option<Started>>,
    moment: &Moment,
) -> Result<Vec<u32>, AllocError>
    requires { ties.now.items ≡ all_ties sheet.now.sheet }
    ensures few { length sheet.now.sheet.rows ≤ 1024 }
    ensures loud { IfOk result (λ vars. vars.items ≡ loud_vars sheet.now.sheet starts.now.items moment.now) }
{
    let n = sheet.rows().len();
    let mut vars = Vec::new(alloc);
    for k in 0..n {
        let v = k as u32 + 1;
        if !is_quiet(sheet, &ties[k], starts, moment, v) {
            vars.push(v)?;
        }
    }
    Ok(vars)
}

//! What a wave is told of the variables of a sheet.

ghost use Rattle.std.specs.Prelude.{◌≡◌, ◌≤◌, ◌<◌, ◌+◌, ◌&&◌, true, not, [], cond, map, length, IfOk, OnOk};
ghost use Rattle.nb_history.specs.Rules.{place_of};
ghost use Rattle.nb_runs.specs.Footings.{footing_of, IsMarked};
ghost use Rattle.nb_runs.specs.Starts.{start_in};
ghost use Rattle.nb_wave.specs.Marks.{marked};
ghost use Rattle.nb_wave.specs.Wave.{no_rows, IsNumber};
ghost use Rattle.nb_closing.specs.Ties.{ties_of, all_ties};
ghost use Rattle.nb_closing.specs.Sites.{site_in, kept_of};
ghost use Rattle.nb_closing.specs.Told.{mark_of, footing_at, AreTold, IsKept};

use crate::site::{Moment, Site, site_at};
use crate::ties::Ties;
use nb_runs::Started;
use nb_runs::starts::start_at;
use nb_sheet::Sheet;
use nb_value::Numbers;
use nb_wave::{Footing, Wave};
use std::alloc::{AllocError, Global};

/// The place of a variable's body, 0 where it has none.
pub(crate) fn place_at(sheet: &Sheet, v: u32) -> u64
    ensures { result ≡ place_of sheet.now.sheet v }
{
    match sheet.variable(v) {
        None => 0,
        Some(row) => row.place,
    }
}

/// 2 for a circular variable, 1 for a duplicate, 0 for a plain one.
fn mark(ties: &Ties) -> u8
    ensures { result ≡ mark_of ties.now }
{
    if ties.is_circular() {
        2
    } else if ties.is_duplicate() {
        1
    } else {
        0
    }
}

/// The start number of each variable that is needed directly, and none for a circular one.
fn start_numbers(alloc: Global, ties: &Ties, sites: &Vec<Site>) -> Result<Numbers, AllocError>
    ensures { IfOk result (λ all. all ≡ cond ties.now.is_circular [] (map (λ u. (site_in sites.now.items u).number) ties.now.direct)) }
{
    let mut all = Vec::new(alloc);
    if ties.is_circular() {
        return Ok(Numbers::from_vec(all));
    }
    for u in ties.direct() {
        all.push(site_at(sites, *u).number)?;
    }
    Ok(Numbers::from_vec(all))
}

/// The renewal of each variable that is needed directly, and none for a circular one.
fn renewals(alloc: Global, ties: &Ties, sites: &Vec<Site>) -> Result<Numbers, AllocError>
    ensures { IfOk result (λ all. all ≡ cond ties.now.is_circular [] (map (λ u. (site_in sites.now.items u).renewal) ties.now.direct)) }
{
    let mut all = Vec::new(alloc);
    if ties.is_circular() {
        return Ok(Numbers::from_vec(all));
    }
    for u in ties.direct() {
        all.push(site_at(sites, *u).renewal)?;
    }
    Ok(Numbers::from_vec(all))
}

/// What a variable rests on where the variables have these sites.
pub(crate) fn present(
    alloc: Global,
    sheet: &Sheet,
    ties: &Ties,
    sites: &Vec<Site>,
    v: u32,
) -> Result<Footing, AllocError>
    requires { ties.now ≡ ties_of sheet.now.sheet v }
    ensures footing { IfOk result (λ f. footing_of f ≡ footing_at sheet.now.sheet (site_in sites.now.items) v) }
    ensures marked { IfOk result IsMarked }
{
    let codes = Vec::from_slice(alloc, ties.codes())?;
    let starts = start_numbers(alloc, ties, sites)?;
    let renewals = renewals(alloc, ties, sites)?;
    Ok(Footing {
        place: place_at(sheet, v),
        mark: mark(ties),
        inputs: Numbers::from_vec(codes),
        starts,
        renewals,
    })
}

/// Says what a variable's start rests on, where it has one.
fn keep_start(
    alloc: Global,
    wave: &mut Wave,
    starts: &Vec<Option<Started>>,
    v: u32,
) -> Result<(), AllocError>
    requires { IsNumber v }
    ensures kept { OnOk result (IsKept (kept_of (start_in starts.now.items v)) v wave.old.rows wave.new.rows) }
    ensures marked { wave.new.marked ≡ wave.old.marked }
{
    match start_at(starts, v) {
        None => Ok(()),
        Some(start) => {
            let kept = start.kept().copy(alloc)?;
            wave.keep(v, kept)?;
            Ok(())
        }
    }
}

/// Whether a variable is wanted: it is used, and the notebook isn't disposed of.
pub(crate) fn is_wanted(ties: &Ties, moment: &Moment) -> bool
    ensures { result ≡ (not moment.now.disposed && ties.now.is_used) }
{
    !moment.disposed && ties.is_used()
}

/// Tells a wave of the next variable, which is touched, where it is told of those among the first k and of no other.
fn tell_one(
    alloc: Global,
    wave: &mut Wave,
    sheet: &Sheet,
    ties: &Ties,
    starts: &Vec<Option<Started>>,
    moment: &Moment,
    touched: &[bool],
    k: u32,
) -> Result<(), AllocError>
    requires row { k < length sheet.now.sheet.rows }
    requires few { length sheet.now.sheet.rows ≤ 1024 }
    requires ties { ties.now ≡ ties_of sheet.now.sheet (k + 1) }
    requires touched { marked touched.now (k + 1) ≡ true }
    requires told { AreTold sheet.now.sheet starts.now.items moment.now touched.now k wave.old.rows }
    ensures told { OnOk result (AreTold sheet.now.sheet starts.now.items moment.now touched.now (k + 1) wave.new.rows) }
    ensures marked { wave.new.marked ≡ wave.old.marked }
{
    let v = k + 1;
    let wanted = is_wanted(ties, moment);
    let later = site_at(&moment.sites, v).later;
    let present = present(alloc, sheet, ties, &moment.sites, v)?;
    wave.put(v, wanted, later, present, ties.direct())?;
    keep_start(alloc, wave, starts, v)?;
    Ok(())
}

/// Tells a wave of each variable that is touched, where it is told of none. It fails only without memory. It costs a pass
/// over the marks, and over what each touched variable rests on.
pub fn tell(
    alloc: Global,
    wave: &mut Wave,
    sheet: &Sheet,
    ties: &Vec<Ties>,
    starts: &Vec<Option<Started>>,
    moment: &Moment,
    touched: &[bool],
) -> Result<(), AllocError>
    requires ties { ties.now.items ≡ all_ties sheet.now.sheet }
    requires touched { length touched.now ≡ length sheet.now.sheet.rows + 1 }
    requires rows { wave.old.rows ≡ no_rows }
    ensures few { length sheet.now.sheet.rows ≤ 1024 }
    ensures told { OnOk result (AreTold sheet.now.sheet starts.now.items moment.now touched.now (length sheet.now.sheet.rows) wave.new.rows) }
    ensures marked { wave.new.marked ≡ wave.old.marked }
{
    let n = sheet.rows().len();
    for k in 0..n {
        if touched[k + 1] {
            tell_one(
                alloc, wave, sheet, &ties[k], starts, moment, touched, k as u32,
            )?;
        }
    }
    Ok(())
}

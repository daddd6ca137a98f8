//! The steps of small waves.
ghost use Rattle.std.specs.Prelude.{◌≡◌, ◌<◌, ℕ, true, length, IfOk, OnOk};
ghost use Rattle.nb_graph.specs.Needs.{has};
ghost use Rattle.nb_wave.specs.Wave.{IsNumber};
ghost use Rattle.nb_wave_tests.specs.Ready.{AllBelow, IsReady};

use nb_value::Numbers;
use nb_wave::{Footing, Step, Wave};
use std::alloc::Global;
use std::test::Fail;

// Whether all are numbers of variables before `v`.
fn all_before(vars: &[u32], v: u32) -> bool
    ensures { result ≡ true → (u : ℕ) → has vars.now u ≡ true → (0 < u) × (u < v) }
{
    for u in vars {
        if *u == 0 || *u >= v {
            return false;
        }
    }
    true
}

fn numbers(alloc: Global, items: &[u64]) -> Result<Numbers, Fail>
    ensures { IfOk result (λ n. n ≡ items.now) }
{
    Ok(Numbers::from_vec(Vec::from_slice(alloc, items)?))
}

// What a variable without a mark rests on.
fn footing(
    alloc: Global,
    place: u64,
    inputs: &[u64],
    starts: &[u64],
    renewals: &[u64],
) -> Result<Footing, Fail>
    ensures mark { IfOk result (λ f. f.mark ≡ 0) }
    ensures starts { IfOk result (λ f. f.starts ≡ starts.now) }
    ensures renewals { IfOk result (λ f. f.renewals ≡ renewals.now) }
{
    Ok(Footing {
        place,
        mark: 0,
        inputs: numbers(alloc, inputs)?,
        starts: numbers(alloc, starts)?,
        renewals: numbers(alloc, renewals)?,
    })
}

// A wave without variables.
fn fresh(alloc: Global) -> Result<Wave, Fail>
    ensures { IfOk result (λ wave. IsReady wave) }
{
    Ok(Wave::new(alloc)?)
}

// Puts a wanted variable without a mark.
fn put_later(
    alloc: Global,
    wave: &mut Wave,
    var: u32,
    later: bool,
    place: u64,
    inputs: &[u64],
    starts: &[u64],
    renewals: &[u64],
    needs: &[u32],
) -> Result<(), Fail>
    requires var { IsNumber var }
    requires ready { IsReady wave.old }
    ensures { OnOk result (IsReady wave.new) }
{
    if !all_before(needs, var) || starts.len() != needs.len() || renewals.len() != needs.len() {
        return Err("no variable before it".into());
    }
    let now = footing(alloc, place, inputs, starts, renewals)?;
    wave.put(var, true, later, now, needs)?;
    Ok(())
}

// Puts one that doesn't pull, with the starts as renewals too.
fn put(
    alloc: Global,
    wave: &mut Wave,
    var: u32,
    place: u64,
    inputs: &[u64],
    starts: &[u64],
    needs: &[u32],
) -> Result<(), Fail>
    requires var { IsNumber var }
    requires ready { IsReady wave.old }
    ensures { OnOk result (IsReady wave.new) }
{
    put_later(
        alloc, wave, var, false, place, inputs, starts, starts, needs,
    )?;
    Ok(())
}

// Keeps what a start rests on, with the starts as renewals too.
fn keep(
    alloc: Global,
    wave: &mut Wave,
    var: u32,
    place: u64,
    inputs: &[u64],
    starts: &[u64],
) -> Result<(), Fail>
    requires var { IsNumber var }
    requires ready { IsReady wave.old }
    ensures { OnOk result (IsReady wave.new) }
{
    let kept = footing(alloc, place, inputs, starts, starts)?;
    wave.keep(var, kept)?;
    Ok(())
}

// Whether the start of a variable rests on this, with the starts as renewals too.
fn is_kept(
    alloc: Global,
    wave: &Wave,
    var: u32,
    place: u64,
    inputs: &[u64],
    starts: &[u64],
) -> Result<bool, Fail>
    requires { IsNumber var }
{
    let wanted = footing(alloc, place, inputs, starts, starts)?;
    Ok(wave.kept(var).is_some_and(|kept| kept.same(&wanted)))
}

// The least that may start.
fn next(wave: &Wave) -> Option<u32>
    requires { IsReady wave.now }
{
    wave.next_due()
}

// Whether the wave closes by these steps.
fn closes(wave: &mut Wave, place: u64, steps: &[Step]) -> Result<bool, Fail>
    requires place { place < 100 }
    requires ready { IsReady wave.old }
    ensures { OnOk result (IsReady wave.new) }
{
    let found = wave.close(place)?;
    Ok(found.as_slice() == steps)
}

fn mark(wave: &mut Wave)
    requires { IsReady wave.old }
    ensures { IsReady wave.new }
{
    wave.mark();
}

fn undo(wave: &mut Wave)
    requires { IsReady wave.old }
    ensures { IsReady wave.new }
{
    wave.undo();
}

// Four variables, as a = 1, b = a + 1, c = a + 2 and d = b + c make them.
fn diamond(alloc: Global) -> Result<Wave, Fail>
    ensures { IfOk result (λ wave. IsReady wave) }
{
    let mut wave = fresh(alloc)?;
    put(alloc, &mut wave, 1, 1, &[], &[], &[])?;
    let first = closes(&mut wave, 2, &[Step::Pending(1)])?;
    put(alloc, &mut wave, 2, 4, &[4], &[2], &[1])?;
    let second = closes(&mut wave, 5, &[Step::Pending(2)])?;
    put(alloc, &mut wave, 3, 7, &[4], &[2], &[1])?;
    let third = closes(&mut wave, 8, &[Step::Pending(3)])?;
    put(alloc, &mut wave, 4, 10, &[6, 8], &[5, 8], &[2, 3])?;
    let fourth = closes(&mut wave, 11, &[Step::Pending(4)])?;
    if first && second && third && fourth {
        Ok(wave)
    } else {
        Err("other steps".into())
    }
}

#[test]
fn a_change_starts_what_needs_it(rt: HostRuntime) -> Result<(), Fail> {
    let alloc = rt.alloc();
    let mut wave = diamond(alloc)?;
    mark(&mut wave);
    put(alloc, &mut wave, 1, 13, &[], &[], &[])?;
    assert!(rt; wave.behind(1));
    assert!(rt; !wave.behind(2));
    assert!(rt; wave.next_leaving().is_none());
    assert!(rt; next(&wave) == Some(1));
    assert!(rt;
        closes(
            &mut wave,
            14,
            &[
                Step::Pending(1),
                Step::Pending(2),
                Step::Pending(3),
                Step::Pending(4)
            ]
        )?
    );
    assert!(rt; closes(&mut wave, 18, &[])?);
    undo(&mut wave);
    assert!(rt; !wave.behind(1));
    assert!(rt; closes(&mut wave, 14, &[])?);
    Ok(())
}

// Two generators, and one that uses both. It is held while the second is pulling, and starts once.
#[test]
fn a_frame_starts_a_dependent_once(rt: HostRuntime) -> Result<(), Fail> {
    let alloc = rt.alloc();
    let mut wave = fresh(alloc)?;
    put(alloc, &mut wave, 1, 1, &[], &[], &[])?;
    assert!(rt; closes(&mut wave, 2, &[Step::Pending(1)])?);
    put(alloc, &mut wave, 2, 4, &[], &[], &[])?;
    assert!(rt; closes(&mut wave, 5, &[Step::Pending(2)])?);
    put(alloc, &mut wave, 3, 7, &[4, 6], &[2, 5], &[1, 2])?;
    assert!(rt; closes(&mut wave, 8, &[Step::Pending(3)])?);
    put_later(alloc, &mut wave, 2, true, 4, &[], &[], &[], &[])?;
    put_later(
        alloc,
        &mut wave,
        3,
        false,
        7,
        &[4, 6],
        &[2, 5],
        &[11, 5],
        &[1, 2],
    )?;
    assert!(rt; wave.behind(3));
    assert!(rt; next(&wave) == None);
    assert!(rt; closes(&mut wave, 12, &[])?);
    put_later(alloc, &mut wave, 2, false, 4, &[], &[], &[], &[])?;
    put_later(
        alloc,
        &mut wave,
        3,
        false,
        7,
        &[4, 6],
        &[2, 5],
        &[11, 12],
        &[1, 2],
    )?;
    assert!(rt; next(&wave) == Some(3));
    assert!(rt; closes(&mut wave, 13, &[Step::Pending(3)])?);
    Ok(())
}

// One variable leaves, and the one that needs it is behind then. What is kept is told, and an undo gives it back.
#[test]
fn what_a_start_rests_on(rt: HostRuntime) -> Result<(), Fail> {
    let alloc = rt.alloc();
    let mut wave = fresh(alloc)?;
    put(alloc, &mut wave, 1, 1, &[], &[], &[])?;
    put(alloc, &mut wave, 2, 4, &[3], &[2], &[1])?;
    assert!(rt; wave.kept(1).is_none());
    keep(alloc, &mut wave, 1, 1, &[], &[])?;
    assert!(rt; is_kept(alloc, &wave, 1, 1, &[], &[])?);
    assert!(rt; !wave.behind(1));
    keep(alloc, &mut wave, 2, 4, &[], &[])?;
    assert!(rt; wave.behind(2));
    mark(&mut wave);
    keep(alloc, &mut wave, 2, 4, &[3], &[2])?;
    assert!(rt; !wave.behind(2));
    assert!(rt; closes(&mut wave, 5, &[])?);
    undo(&mut wave);
    assert!(rt; is_kept(alloc, &wave, 2, 4, &[], &[])?);
    assert!(rt; closes(&mut wave, 5, &[Step::Pending(2)])?);
    assert!(rt; is_kept(alloc, &wave, 2, 4, &[3], &[2])?);
    Ok(())
}

ghost use Rattle.std.specs.Prelude.{◌≡◌, ◌<◌, ◌+◌, ◌^◌, ◌++◌, true, map, length, IfOk, OnOk, Option, Some, None};
ghost use Rattle.std.specs.List.{flat_map, list_all};
ghost use Rattle.nb_sheet.specs.Sheet.{is_from};
ghost use Rattle.nb_sheet.specs.Derive.{copied_of, copied_var, copy_of as copy_of_, derived as derived_of, first_vars, import_of, module_copy, turned as turned_of};
ghost use Rattle.nb_sheet.specs.declared.row.VarRow.{VarRow as Row};

use nb_sheet::{
    BodyOf, Copies, NewModule, NewVar, NewVars, Sheet, Specifier, Specifiers, VarRow,
    copied_modules, is_copied,
};
use nb_value::Tree;
use std::alloc::{AllocError, Global};

/// A derive of a module, with the modules that it copies, and the number of the first copy.
#[derive(Drop)]
struct Plan<'a> {
    next: u32,
    rows: &'a [VarRow],
    within: u32,
    specifiers: &'a Specifiers,
    source: u32,
    copied: &'a [u32],
}

/// The number of a module's copy, or its own where it isn't copied.
fn copy_of(next: u32, copied: &[u32], k: u32) -> u32
    requires { next + length copied.now < 2 ^ 32 }
    ensures { result ≡ copy_of_ next copied.now k }
{
    for i in 0..copied.len() {
        if copied[i] == k {
            return next + i as u32;
        }
    }
    k
}

/// A copy of a body, in which an import from a copied module is one from its copy.
fn turned(alloc: Global, plan: &Plan<'_>, body: &BodyOf) -> Result<BodyOf, AllocError>
    requires { plan.now.next + length plan.now.copied.now < 2 ^ 32 }
    ensures { IfOk result (λ new. new ≡ turned_of plan.now.next plan.now.copied.now body.now) }
{
    match body {
        BodyOf::Cell(cell) => Ok(BodyOf::Cell(cell.copy(alloc)?)),
        BodyOf::Import { name, from } => Ok(BodyOf::Import {
            name: name.copy(alloc)?,
            from: copy_of(plan.next, plan.copied, *from),
        }),
    }
}

/// A specifier's variable of the source, under its alias.
fn import(alloc: Global, s: &Specifier, source: u32) -> Result<NewVar, AllocError>
    ensures { IfOk result (λ new. new ≡ import_of source s.now) }
{
    let name = s.name.copy(alloc)?;
    Ok(NewVar {
        name: s.alias.copy(alloc)?,
        body: BodyOf::Import { name, from: source },
    })
}

/// The variables of the source that the specifiers name.
fn imports(alloc: Global, specifiers: &[Specifier], source: u32) -> Result<Vec<NewVar>, AllocError>
    ensures { IfOk result (λ new. new.items ≡ map (import_of source) specifiers.now) }
{
    let mut vars = Vec::new(alloc);
    for s in specifiers {
        vars.push(import(alloc, s, source)?)?;
    }
    Ok(vars)
}

/// Adds a variable's copy, if it has a name and a body.
fn add_copy(
    alloc: Global,
    vars: &mut Vec<NewVar>,
    plan: &Plan<'_>,
    row: &VarRow,
) -> Result<(), AllocError>
    requires { plan.now.next + length plan.now.copied.now < 2 ^ 32 }
    ensures { OnOk result (vars.new.items ≡ vars.old.items ++ copied_var plan.now.next plan.now.copied.now row.now.name row.now.body) }
{
    match (&row.name, &row.body) {
        (Some(name), Some(body)) => {
            let name = name.copy(alloc)?;
            let body = turned(alloc, plan, body)?;
            vars.push(NewVar { name, body })?;
            Ok(())
        }
        _ => Ok(()),
    }
}

/// Adds the copies of module `k`'s variables.
fn add_variables(
    alloc: Global,
    vars: &mut Vec<NewVar>,
    plan: &Plan<'_>,
    k: u32,
) -> Result<(), AllocError>
    requires { plan.now.next + length plan.now.copied.now < 2 ^ 32 }
    ensures { OnOk result (vars.new.items ≡ vars.old.items ++ flat_map (λ (row : Row). copied_var plan.now.next plan.now.copied.now row.name row.body) (copied_of plan.now.within plan.now.specifiers.now plan.now.rows.now k)) }
{
    for row in plan.rows {
        if is_copied(plan.within, plan.specifiers, k, row) {
            add_copy(alloc, vars, plan, row)?;
        }
    }
    Ok(())
}

/// What a module's copy begins with.
fn first_of(alloc: Global, plan: &Plan<'_>, k: u32) -> Result<Vec<NewVar>, AllocError>
    ensures { IfOk result (λ new. new.items ≡ first_vars plan.now.within plan.now.specifiers.now plan.now.source k) }
{
    if k == plan.within {
        imports(alloc, plan.specifiers.as_slice(), plan.source)
    } else {
        Ok(Vec::new(alloc))
    }
}

/// A module's copy.
fn copy_module(alloc: Global, plan: &Plan<'_>, k: u32) -> Result<NewModule, AllocError>
    requires { plan.now.next + length plan.now.copied.now < 2 ^ 32 }
    ensures { IfOk result (λ new. new ≡ module_copy plan.now.next plan.now.rows.now plan.now.within plan.now.specifiers.now plan.now.source plan.now.copied.now k) }
{
    let mut vars = first_of(alloc, plan, k)?;
    add_variables(alloc, &mut vars, plan, k)?;
    Ok(NewModule {
        variables: NewVars::from_vec(vars),
    })
}

/// The copies of the copied modules.
fn copies(alloc: Global, plan: &Plan<'_>) -> Result<Vec<NewModule>, AllocError>
    requires { plan.now.next + length plan.now.copied.now < 2 ^ 32 }
    ensures { IfOk result (λ new. new.items ≡ map (module_copy plan.now.next plan.now.rows.now plan.now.within plan.now.specifiers.now plan.now.source plan.now.copied.now) plan.now.copied.now) }
{
    let mut modules = Vec::new(alloc);
    for k in plan.copied {
        modules.push(copy_module(alloc, plan, *k)?)?;
    }
    Ok(modules)
}

/// What a derive of the module with these specifiers of the source makes: the copy of the module, and then the copies of
/// the modules made by a derive that it imports from, at any depth. It fails only without memory.
pub fn derived(
    alloc: Global,
    sheet: &Sheet,
    within: u32,
    specifiers: &Specifiers,
    source: u32,
) -> Result<Copies, AllocError>
    requires within { within < length sheet.now.sheet.modules }
    requires source { source < length sheet.now.sheet.modules }
    ensures value { IfOk result (λ new. new ≡ derived_of sheet.now.sheet.modules sheet.now.sheet.rows within specifiers.now source) }
    ensures there { IfOk result (λ new. list_all (is_from (length sheet.now.sheet.modules + length new)) new ≡ true) }
{
    let copied = copied_modules(sheet, within, specifiers);
    let plan = Plan {
        next: sheet.modules(),
        rows: sheet.rows(),
        within,
        specifiers,
        source,
        copied: copied.as_slice(),
    };
    let modules = copies(alloc, &plan)?;
    Ok(Copies::from_vec(modules))
}

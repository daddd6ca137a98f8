ghost use Rattle.std.specs.Prelude.{◌≡◌, ◌≤◌, length, IfOk, OnOk};
ghost use Rattle.nb_resolve.specs.Names.{resolve as resolve_of, is_duplicate_row};
ghost use Rattle.nb_resolve.specs.Scan.{also, builtin_place, or_builtin};
ghost use Rattle.nb_closing.specs.Names.{Key, given as given_by, noted, IsTable};

use nb_resolve::Resolution;
use nb_sheet::{Sheet, VarRow};
use nb_value::{Pairs, Value};
use std::alloc::{AllocError, Global};
use std::collections::HashMap;
use std::marker::Model;

/// What each name of a module stands for by the variables that have it.
type Table<'a> = HashMap<(u32, &'a str), Resolution>;

/// What the variables of a sheet are named, in a hash table. Contracts see it as the sheet.
#[derive(Drop)]
pub struct Names<'a> {
    sheet: &'a Sheet,
    table: Table<'a>,
}

impl<'a> Model for Names<'a> {
    ghost use Rattle.nb_value.specs.contracts.value.Value as value;
    ghost use Rattle.nb_sheet.specs.contracts.row.VarRow as row;
    ghost use Rattle.nb_sheet.specs.Codes.{sheet_code};
    ghost use Rattle.nb_sheet.specs.Sheet.{Sheet as SheetValue};
    ghost use Rattle.nb_closing.specs.Names.{IsTable};

    ghost Value = { SheetValue };

    ghost coded = { sheet_code value.the_row.coded row.the_row.coded };

    ghost view = { λ n. n.sheet.now.sheet };

    ghost invariant = { λ n. IsTable n.sheet.now.sheet.rows n.table };
}

impl<'a> Names<'a> {
    /// The names of a sheet's variables. It fails only without memory, and costs one or two look-ups for each variable.
    pub fn of(alloc: Global, sheet: &'a Sheet) -> Result<Names<'a>, AllocError>
        ensures { IfOk result (λ names. names ≡ sheet.now.sheet) }
    {
        let table = table_of(alloc, sheet.rows())?;
        Ok(Names { sheet, table })
    }

    /// What a name stands for in a module, by the rules of `nb_resolve`. It takes no memory, and costs a look-up, and a scan
    /// over the builtins where no variable has the name.
    pub fn resolve(&self, within: u32, name: &str) -> Resolution
        ensures { result ≡ resolve_of self.now within name.now }
    {
        match given(&self.table, within, name) {
            Resolution::Missing => built_in(builtin(self.sheet.builtins(), name)),
            found => found,
        }
    }

    /// Whether another variable of its module has a row's name. It takes no memory, and costs a look-up.
    pub fn is_duplicate(&self, row: &VarRow) -> bool
        ensures { result ≡ is_duplicate_row self.now row.now }
    {
        match &row.name {
            None => false,
            Some(name) => matches!(
                given(&self.table, row.module, name.as_str()),
                Resolution::Twice
            ),
        }
    }
}

/// What a table gives for a module and a name.
fn given(table: &Table<'_>, within: u32, name: &str) -> Resolution
    ensures { result ≡ given_by table.now (within, name.entry) }
{
    match table.get(&(within, name)) {
        Some(found) => *found,
        None => Resolution::Missing,
    }
}

/// What a name stands for, where one more variable has it.
fn with_one_more(found: Resolution, var: u32) -> Resolution
    ensures { result ≡ also var found }
{
    match found {
        Resolution::Missing => Resolution::Var(var),
        _ => Resolution::Twice,
    }
}

/// Notes that one more variable of a module has a name.
fn note<'a>(table: &mut Table<'a>, within: u32, name: &'a str, var: u32) -> Result<(), AllocError>
    ensures { OnOk result ((key : Key) → given_by table.new key ≡ noted (within, name.entry) var (given_by table.old) key) }
{
    if let Some(found) = table.insert((within, name), Resolution::Var(var))? {
        table.insert((within, name), with_one_more(found, var))?;
    }
    Ok(())
}

/// The table of rows.
fn table_of<'a>(alloc: Global, rows: &'a [VarRow]) -> Result<Table<'a>, AllocError>
    requires { length rows.now ≤ 1024 }
    ensures { IfOk result (IsTable rows.now) }
{
    let mut table = HashMap::with_capacity(alloc, rows.len())?;
    for (i, row) in rows.iter().enumerate() {
        if let Some(name) = &row.name {
            note(&mut table, row.module, name.as_str(), i as u32 + 1)?;
        }
    }
    Ok(table)
}

/// Where a name stands among the builtins.
fn builtin(builtins: &Pairs<Value>, name: &str) -> Option<u32>
    requires { length builtins.now ≤ 65536 }
    ensures { result ≡ builtin_place name.now builtins.now }
{
    let fields = builtins.as_slice();
    for i in 0..fields.len() {
        if fields[i].name.as_str() == name {
            return Some(i as u32);
        }
    }
    None
}

/// The builtin at a place, if there is one.
fn built_in(at: Option<u32>) -> Resolution
    ensures { result ≡ or_builtin at Resolution.Missing }
{
    match at {
        Some(b) => Resolution::Builtin(b),
        None => Resolution::Missing,
    }
}

ghost use Rattle.std.specs.Prelude.{◌≡◌, ◌≤◌, ◌<◌, ◌+◌, true, false, length, Some, None, IfOk, IfErr, OnOk, OnErr};
ghost use Rattle.std.specs.List.{list_all};
ghost use Rattle.std.specs.Option.{option_copied};
ghost use Rattle.nb_sheet.specs.Lists.{nth};
ghost use Rattle.nb_sheet.specs.Derive.{by_derive as made_by_derive};
ghost use Rattle.nb_sheet.specs.Scan.{redefined_by};
ghost use Rattle.nb_sheet.specs.Sheet.{empty_sheet, is_row, is_body, no_variable, too_many, too_many_variables, is_from, with_copies, refusal, reason, is_derive, edited_sheet, add_row as added, change_row, defined_by, IsSheet};

use crate::adding::{add_modules, count_variables};
use crate::checks::{refusal as first_reason, the_one_named};
use crate::copies::Copies;
use crate::edit::Edit;
use crate::refused::Refused;
use crate::row::{BodyOf, VarRow};
use crate::rows::{self, Change};
use nb_syntax::Cell;
use nb_value::{Pairs, Text, Tree, Value};
use std::alloc::{AllocError, Global};
use std::marker::Model;

/// The modules and variables of a notebook, and the builtins that each module can name. It keeps what was replaced since
/// the last mark, and how many modules and variables there were then.
#[derive(Drop)]
pub struct Sheet {
    alloc: Global,
    builtins: Pairs<Value>,
    modules: Vec<bool>,
    rows: Vec<VarRow>,
    changes: Vec<Change>,
    marked_modules: usize,
    marked_rows: usize,
}

impl Model for Sheet {
    ghost use Rattle.nb_sheet.specs.Kept.{Kept, IsKept, kept};
    ghost use Rattle.nb_sheet.specs.Codes.{kept_code};
    ghost use Rattle.nb_value.specs.contracts.value.Value as value;
    ghost use Rattle.nb_sheet.specs.contracts.row.VarRow as row;

    ghost Value = { Kept };

    ghost coded = { kept_code value.the_row.coded row.the_row.coded };

    ghost view = { λ s. kept s.builtins s.modules.items s.rows.items s.changes.items s.marked_modules s.marked_rows };

    ghost invariant = { λ s. IsKept (kept s.builtins s.modules.items s.rows.items s.changes.items s.marked_modules s.marked_rows) s.marked_modules s.marked_rows };
}

impl Sheet {
    /// Module 0 and no variables, over at most 65,536 builtins. It fails only without memory.
    pub fn new(alloc: Global, builtins: Pairs<Value>) -> Result<Sheet, AllocError>
        requires { length builtins ≤ 65536 }
        ensures sheet { IfOk result (λ new. new.sheet ≡ empty_sheet builtins) }
        ensures marked { IfOk result (λ new. new.marked ≡ empty_sheet builtins) }
    {
        let mut modules = Vec::new(alloc);
        modules.push(false)?;
        Ok(Sheet {
            alloc,
            builtins,
            modules,
            rows: Vec::new(alloc),
            changes: Vec::new(alloc),
            marked_modules: 1,
            marked_rows: 0,
        })
    }

    /// The rows of the variables, by number. It takes no memory.
    pub fn rows(&self) -> &[VarRow]
        ensures value { result.now ≡ self.now.sheet.rows }
        ensures kept { IsSheet self.now.sheet }
    {
        &self.rows
    }

    /// The row of a variable, if there is one of that number. It takes no memory.
    pub fn variable(&self, var: u32) -> Option<&VarRow>
        ensures { option_copied result ≡ nth self.now.sheet.rows var }
    {
        if var == 0 {
            return None;
        }
        self.rows.get(var as usize - 1)
    }

    /// The builtins, at most 65,536. It takes no memory.
    pub fn builtins(&self) -> &Pairs<Value>
        ensures value { result.now ≡ self.now.sheet.builtins }
        ensures few { length result.now ≤ 65536 }
    {
        &self.builtins
    }

    /// The number of modules, from 1 to 64. It takes no memory.
    pub fn modules(&self) -> u32
        ensures value { result ≡ length self.now.sheet.modules }
        ensures some { 0 < result }
        ensures few { result ≤ 64 }
    {
        self.modules.len() as u32
    }

    /// Whether a derive made a module. It takes no memory.
    pub fn by_derive(&self, within: u32) -> bool
        requires { within < length self.now.sheet.modules }
        ensures { result ≡ made_by_derive self.now.sheet.modules within }
    {
        self.modules[within as usize]
    }

    /// The first reason against an edit, if there is one: of those that it names the module, then the variable, then
    /// the limits, as `Refused` lists them for its kind. It takes no memory, and costs a scan over the rows for a
    /// name, and some over the rows for each module that a derive copies.
    pub fn check(&self, edit: &Edit) -> Result<(), Refused>
        ensures { reason result ≡ refusal self.now.sheet edit.now }
    {
        match first_reason(self, edit) {
            None => Ok(()),
            Some(reason) => Err(reason),
        }
    }

    /// Does an edit that isn't refused, which stands at this place of the log. It copies the edit's cell or names.
    /// Where memory runs out, nothing has changed.
    pub fn apply(&mut self, edit: &Edit, place: u64) -> Result<(), AllocError>
        requires admitted { refusal self.old.sheet edit.now ≡ None }
        requires kind { is_derive edit.now ≡ false }
        ensures ok { OnOk result (self.new.sheet ≡ edited_sheet self.old.sheet edit.now place) }
        ensures err { OnErr result (self.new.sheet ≡ self.old.sheet) }
        ensures marked { self.new.marked ≡ self.old.marked }
    {
        match edit {
            Edit::AddModule => self.add_module(),
            Edit::AddVariable { module, observed } => self.add_variable(*module, *observed),
            Edit::AddCell {
                module,
                cell,
                observed,
            } => self.add_cell(*module, cell, *observed, place),
            Edit::Define { variable, cell } => self.define(*variable, cell, place),
            Edit::Import {
                variable,
                name,
                alias,
                from,
            } => self.import(*variable, name, alias, *from, place),
            Edit::Delete { variable } => self.delete(*variable),
            Edit::Redefine { module, cell } => self.redefine(*module, cell, place),
            Edit::Derive { .. } => Ok(()),
        }
    }

    /// Adds the copies that a derive makes, which stand at this place of the log. It fails only without memory; then nothing
    /// has changed, and the copies come back.
    pub fn add_copies(&mut self, copies: Copies, place: u64) -> Result<(), (Copies, AllocError)>
        requires room { too_many self.old.sheet copies ≡ None }
        requires there { list_all (is_from (length self.old.sheet.modules + length copies)) copies ≡ true }
        ensures ok { OnOk result (self.new.sheet ≡ with_copies self.old.sheet copies place) }
        ensures err { OnErr result (self.new.sheet ≡ self.old.sheet) }
        ensures back { IfErr result (λ e. e.0 ≡ copies) }
        ensures marked { self.new.marked ≡ self.old.marked }
    {
        let modules = copies.as_slice().len();
        let variables = count_variables(copies.as_slice());
        if let Err(refused) = self.modules.reserve(modules) {
            return Err((copies, refused));
        }
        if let Err(refused) = self.rows.reserve(variables) {
            return Err((copies, refused));
        }
        add_modules(&mut self.modules, &mut self.rows, place, copies);
        Ok(())
    }

    /// From now on, an undo gives what the sheet is now. It takes no memory.
    pub fn mark(&mut self)
        ensures sheet { self.new.sheet ≡ self.old.sheet }
        ensures marked { self.new.marked ≡ self.old.sheet }
    {
        self.changes.clear();
        self.marked_modules = self.modules.len();
        self.marked_rows = self.rows.len();
    }

    /// The sheet is as it was at the last mark, or as it was made if there was none. It takes no memory.
    pub fn undo(&mut self)
        ensures sheet { self.new.sheet ≡ self.old.marked }
        ensures marked { self.new.marked ≡ self.old.marked }
    {
        self.modules.truncate(self.marked_modules);
        self.rows.truncate(self.marked_rows);
        rows::roll_back(&mut self.rows, &mut self.changes);
    }

    /// Does the edit that adds a module.
    fn add_module(&mut self) -> Result<(), AllocError>
        requires { refusal self.old.sheet Edit.AddModule ≡ None }
        ensures ok { OnOk result (self.new.sheet ≡ edited_sheet self.old.sheet Edit.AddModule 0) }
        ensures err { OnErr result (self.new.sheet ≡ self.old.sheet) }
        ensures marked { self.new.marked ≡ self.old.marked }
    {
        self.modules.push(false)?;
        Ok(())
    }

    /// Adds a row that a sheet may have.
    fn add_row(&mut self, row: VarRow) -> Result<(), AllocError>
        requires kept { is_row (length self.old.sheet.modules) row ≡ true }
        requires room { too_many_variables self.old.sheet 1 ≡ None }
        ensures ok { OnOk result (self.new.sheet ≡ added self.old.sheet row) }
        ensures err { OnErr result (self.new.sheet ≡ self.old.sheet) }
        ensures marked { self.new.marked ≡ self.old.marked }
    {
        rows::add(&mut self.rows, row)
    }

    /// Does the edit that adds a variable.
    fn add_variable(&mut self, within: u32, observed: bool) -> Result<(), AllocError>
        requires { refusal self.old.sheet (Edit.AddVariable within observed) ≡ None }
        ensures ok { OnOk result (self.new.sheet ≡ edited_sheet self.old.sheet (Edit.AddVariable within observed) 0) }
        ensures err { OnErr result (self.new.sheet ≡ self.old.sheet) }
        ensures marked { self.new.marked ≡ self.old.marked }
    {
        self.add_row(VarRow {
            module: within,
            observed,
            name: None,
            body: None,
            place: 0,
        })
    }

    /// Does the edit that adds a cell.
    fn add_cell(
        &mut self,
        within: u32,
        cell: &Cell,
        observed: bool,
        place: u64,
    ) -> Result<(), AllocError>
        requires { refusal self.old.sheet (Edit.AddCell within cell.now observed) ≡ None }
        ensures ok { OnOk result (self.new.sheet ≡ edited_sheet self.old.sheet (Edit.AddCell within cell.now observed) place) }
        ensures err { OnErr result (self.new.sheet ≡ self.old.sheet) }
        ensures marked { self.new.marked ≡ self.old.marked }
    {
        let name = cell.name.copy(self.alloc)?;
        let body = cell.copy(self.alloc)?;
        self.add_row(VarRow {
            module: within,
            observed,
            name,
            body: Some(BodyOf::Cell(body)),
            place,
        })
    }

    /// Gives a variable a name, and a body that a sheet may have.
    fn give(
        &mut self,
        variable: u32,
        name: Option<Text>,
        body: BodyOf,
        place: u64,
    ) -> Result<(), AllocError>
        requires there { no_variable self.old.sheet variable ≡ None }
        requires kept { is_body (length self.old.sheet.modules) (Some body) ≡ true }
        ensures ok { OnOk result (self.new.sheet ≡ change_row self.old.sheet variable (defined_by name body place)) }
        ensures err { OnErr result (self.new.sheet ≡ self.old.sheet) }
        ensures marked { self.new.marked ≡ self.old.marked }
    {
        rows::define(
            &mut self.rows,
            &mut self.changes,
            variable,
            name,
            body,
            place,
        )
    }

    /// Does the edit that defines a variable.
    fn define(&mut self, variable: u32, cell: &Cell, place: u64) -> Result<(), AllocError>
        requires { refusal self.old.sheet (Edit.Define variable cell.now) ≡ None }
        ensures ok { OnOk result (self.new.sheet ≡ edited_sheet self.old.sheet (Edit.Define variable cell.now) place) }
        ensures err { OnErr result (self.new.sheet ≡ self.old.sheet) }
        ensures marked { self.new.marked ≡ self.old.marked }
    {
        let name = cell.name.copy(self.alloc)?;
        let body = cell.copy(self.alloc)?;
        self.give(variable, name, BodyOf::Cell(body), place)
    }

    /// Does the edit that imports a variable.
    fn import(
        &mut self,
        variable: u32,
        name: &Text,
        alias: &Text,
        from: u32,
        place: u64,
    ) -> Result<(), AllocError>
        requires { refusal self.old.sheet (Edit.Import variable name.now alias.now from) ≡ None }
        ensures ok { OnOk result (self.new.sheet ≡ edited_sheet self.old.sheet (Edit.Import variable name.now alias.now from) place) }
        ensures err { OnErr result (self.new.sheet ≡ self.old.sheet) }
        ensures marked { self.new.marked ≡ self.old.marked }
    {
        let own = alias.copy(self.alloc)?;
        let name = name.copy(self.alloc)?;
        self.give(variable, Some(own), BodyOf::Import { name, from }, place)
    }

    /// Does the edit that deletes a variable.
    fn delete(&mut self, variable: u32) -> Result<(), AllocError>
        requires { refusal self.old.sheet (Edit.Delete variable) ≡ None }
        ensures ok { OnOk result (self.new.sheet ≡ edited_sheet self.old.sheet (Edit.Delete variable) 0) }
        ensures err { OnErr result (self.new.sheet ≡ self.old.sheet) }
        ensures marked { self.new.marked ≡ self.old.marked }
    {
        rows::undefine(&mut self.rows, &mut self.changes, variable)
    }

    /// Gives a variable another body.
    fn replace_body(&mut self, variable: u32, cell: Cell, place: u64) -> Result<(), AllocError>
        requires { no_variable self.old.sheet variable ≡ None }
        ensures ok { OnOk result (self.new.sheet ≡ change_row self.old.sheet variable (redefined_by cell place)) }
        ensures err { OnErr result (self.new.sheet ≡ self.old.sheet) }
        ensures marked { self.new.marked ≡ self.old.marked }
    {
        rows::redefine(
            self.alloc,
            &mut self.rows,
            &mut self.changes,
            variable,
            cell,
            place,
        )
    }

    /// Does the edit that redefines the one variable of a name.
    fn redefine(&mut self, within: u32, cell: &Cell, place: u64) -> Result<(), AllocError>
        requires { refusal self.old.sheet (Edit.Redefine within cell.now) ≡ None }
        ensures ok { OnOk result (self.new.sheet ≡ edited_sheet self.old.sheet (Edit.Redefine within cell.now) place) }
        ensures err { OnErr result (self.new.sheet ≡ self.old.sheet) }
        ensures marked { self.new.marked ≡ self.old.marked }
    {
        let body = cell.copy(self.alloc)?;
        let variable = the_one_named(self, within, &cell.name);
        self.replace_body(variable, body, place)
    }
}

//! Edits of a sheet, a derive among them.

ghost use Rattle.std.specs.Prelude.{◌≡◌, None, OnOk, OnErr};
ghost use Rattle.nb_sheet.specs.Sheet.{refusal, edited_sheet};

use crate::copying::derived;
use nb_sheet::{Edit, Sheet, Specifiers};
use std::alloc::{AllocError, Global};

/// Does any edit that isn't refused, which stands at this place of the log: a derive too, whose copies it makes and adds.
/// It fails only without memory, and then nothing has changed.
pub fn apply(alloc: Global, sheet: &mut Sheet, edit: &Edit, place: u64) -> Result<(), AllocError>
    requires { refusal sheet.old.sheet edit.now ≡ None }
    ensures ok { OnOk result (sheet.new.sheet ≡ edited_sheet sheet.old.sheet edit.now place) }
    ensures err { OnErr result (sheet.new.sheet ≡ sheet.old.sheet) }
    ensures marked { sheet.new.marked ≡ sheet.old.marked }
{
    match edit {
        Edit::Derive {
            module,
            with,
            source,
        } => derive(alloc, sheet, *module, with, *source, place),
        _ => sheet.apply(edit, place),
    }
}

/// Does a derive.
fn derive(
    alloc: Global,
    sheet: &mut Sheet,
    within: u32,
    specifiers: &Specifiers,
    source: u32,
    place: u64,
) -> Result<(), AllocError>
    requires { refusal sheet.old.sheet (Edit.Derive within specifiers.now source) ≡ None }
    ensures ok { OnOk result (sheet.new.sheet ≡ edited_sheet sheet.old.sheet (Edit.Derive within specifiers.now source) place) }
    ensures err { OnErr result (sheet.new.sheet ≡ sheet.old.sheet) }
    ensures marked { sheet.new.marked ≡ sheet.old.marked }
{
    let copies = derived(alloc, sheet, within, specifiers, source)?;
    match sheet.add_copies(copies, place) {
        Ok(()) => Ok(()),
        Err((_, refused)) => Err(refused),
    }
}

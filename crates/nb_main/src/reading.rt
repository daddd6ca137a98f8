//! What is read of the file that the words name.
ghost use Rattle.std.specs.Prelude.{◌≡◌, ◌≤◌, ℕ, List, Some, length, IfOk, IfErr};
ghost use Rattle.std.specs.Option.{option_copied};
ghost use Rattle.nb_doc.specs.Loading.{HasWords};
ghost use Rattle.nb_main.specs.Answers.{AgreesFile, AsksFor, IsDocument, StopsAtFile, UpgradesTo, seen_files};
ghost use Rattle.nb_main.specs.Outcome.{no_document};
ghost use Rattle.nb_main.specs.Ends.{limit};

use crate::status::{LIMIT, Status};
use nb_doc::{Document, read_document, upgrade};
use nb_io::Files;
use nb_value::{Bytes, Items, Pairs, Text};
use std::alloc::Global;

/// The bytes of the file with this name.
fn file_bytes<F: Files>(name: &Text, files: &mut F) -> Result<Bytes, Status>
    ensures read { IfOk result (AgreesFile (F.file_of files.old name.now)) }
    ensures fits { IfOk result (λ bytes. length bytes ≤ limit) }
    ensures stops { IfErr result (StopsAtFile (seen_files F.file_of F.faults files.old files.new) (Some name.now)) }
    ensures asks { AsksFor (Some name.now) (F.asked files.old) (F.asked files.new) }
    ensures stays { (n : List ℕ) → F.file_of files.new n ≡ F.file_of files.old n }
{
    Ok(files.read_file(name.as_str(), LIMIT)?)
}

/// The document of the file with this name, and one with nothing in it where there is no name.
pub fn document_of<F: Files>(
    alloc: Global,
    file: Option<&Text>,
    files: &mut F,
) -> Result<Document, Status>
    ensures is { IfOk result (IsDocument (seen_files F.file_of F.faults files.old files.new) (option_copied file.entry)) }
    ensures few { IfOk result (λ document. length document.builtins ≤ 65536) }
    ensures words { IfOk result (λ document. HasWords document.loaders) }
    ensures stops { IfErr result (StopsAtFile (seen_files F.file_of F.faults files.old files.new) (option_copied file.entry)) }
    ensures asks { AsksFor (option_copied file.entry) (F.asked files.old) (F.asked files.new) }
    ensures stays { (n : List ℕ) → F.file_of files.new n ≡ F.file_of files.old n }
{
    match file {
        Some(name) => named_document(alloc, name, files),
        None => Ok(empty_document(alloc)),
    }
}

/// The document with nothing in it.
pub fn empty_document(alloc: Global) -> Document
    ensures is { result ≡ no_document }
    ensures few { length result.builtins ≤ 65536 }
    ensures words { HasWords result.loaders }
{
    Document {
        builtins: Pairs::new(alloc),
        lines: Items::new(alloc),
        loaders: Items::new(alloc),
    }
}

/// The document of the file with this name.
fn named_document<F: Files>(alloc: Global, name: &Text, files: &mut F) -> Result<Document, Status>
    ensures is { IfOk result (IsDocument (seen_files F.file_of F.faults files.old files.new) (Some name.now)) }
    ensures few { IfOk result (λ document. length document.builtins ≤ 65536) }
    ensures words { IfOk result (λ document. HasWords document.loaders) }
    ensures stops { IfErr result (StopsAtFile (seen_files F.file_of F.faults files.old files.new) (Some name.now)) }
    ensures asks { AsksFor (Some name.now) (F.asked files.old) (F.asked files.new) }
    ensures stays { (n : List ℕ) → F.file_of files.new n ≡ F.file_of files.old n }
{
    let bytes = file_bytes(name, files)?;
    Ok(read_document(alloc, bytes.as_slice())?)
}

/// The document of the file with this name, as one of version 2.
pub fn upgraded_file<F: Files>(alloc: Global, name: &Text, files: &mut F) -> Result<Bytes, Status>
    ensures is { IfOk result (UpgradesTo (seen_files F.file_of F.faults files.old files.new) name.now) }
    ensures stops { IfErr result (StopsAtFile (seen_files F.file_of F.faults files.old files.new) (Some name.now)) }
    ensures asks { AsksFor (Some name.now) (F.asked files.old) (F.asked files.new) }
    ensures stays { (n : List ℕ) → F.file_of files.new n ≡ F.file_of files.old n }
{
    let bytes = file_bytes(name, files)?;
    Ok(upgrade(alloc, bytes.as_slice())?)
}

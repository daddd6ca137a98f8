//! What is told on the notes.
ghost use Rattle.std.specs.Prelude.{◌≡◌};
ghost use Rattle.nb_io.specs.Causes.{HasCause};
ghost use Rattle.nb_io.specs.Streams.{WritesAll};
ghost use Rattle.nb_main.specs.Notes.{note, too_long_text, bad_line, bad_document, reason_text, bad_cell_text, fault_text, unexpected_text, document_word, reason_word, reason_key, lex_word, lex_place, fault_word, fault_place};

use crate::status::Status;
use nb_doc::DocReason;
use nb_io::{Failed, Sink, write_pieces, write_whole};
use nb_lexer::LexError;
use nb_lines::BadReason;
use nb_parser::ParseError;
use nb_value::Text;

/// Writes the text of a status. It takes no memory.
pub fn tell<E: Sink>(notes: &mut E, status: &Status) -> Result<(), Failed>
    ensures writes { WritesAll (note status.now) (E.written notes.old) (E.written notes.new) result }
    ensures cause { HasCause (E.faults notes.old) (E.faults notes.new) result }
{
    match status {
        Status::Ok => Ok(()),
        Status::Memory => write_whole(notes, b"notebook: out of memory\n"),
        Status::Usage => write_whole(
            notes,
            b"notebook: usage: notebook run [FILE] | workers N [FILE] | make N SEED | upgrade FILE\n",
        ),
        Status::BadInput(line, reason) => tell_bad_line(notes, *line, reason),
        Status::ReadFault => write_whole(notes, b"notebook: read fault\n"),
        Status::WriteFault => write_whole(notes, b"notebook: write fault\n"),
        Status::FileFault => write_whole(notes, b"notebook: file fault\n"),
        Status::TooLong(most) => tell_too_long(notes, *most),
        Status::BadDocument(path, reason) => tell_bad_document(notes, path, reason),
    }
}

/// Writes that there were too many bytes.
fn tell_too_long<E: Sink>(notes: &mut E, most: usize) -> Result<(), Failed>
    ensures writes { WritesAll (too_long_text most) (E.written notes.old) (E.written notes.new) result }
    ensures cause { HasCause (E.faults notes.old) (E.faults notes.new) result }
{
    let mut digits = itoa::Buffer::new();
    let most = digits.format(most).as_bytes();
    write_pieces(notes, &[b"notebook: more than ", most, b" bytes\n"])
}

/// Writes that a line is bad, and why.
fn tell_bad_line<E: Sink>(notes: &mut E, line: u32, reason: &BadReason) -> Result<(), Failed>
    ensures writes { WritesAll (bad_line line reason.now) (E.written notes.old) (E.written notes.new) result }
    ensures cause { HasCause (E.faults notes.old) (E.faults notes.new) result }
{
    let mut digits = itoa::Buffer::new();
    let line = digits.format(line).as_bytes();
    match reason {
        BadReason::BadCell(fault) => tell_bad_cell(notes, b"notebook: line ", line, fault),
        _ => {
            let word = reason_word(reason);
            write_reason(notes, b"notebook: line ", line, word, reason_key(reason))
        }
    }
}

/// Writes that a document is bad at a path, and why.
fn tell_bad_document<E: Sink>(notes: &mut E, path: &Text, reason: &DocReason) -> Result<(), Failed>
    ensures writes { WritesAll (bad_document path.now reason.now) (E.written notes.old) (E.written notes.new) result }
    ensures cause { HasCause (E.faults notes.old) (E.faults notes.new) result }
{
    let path = path.as_str().as_bytes();
    match reason {
        DocReason::BadCell(fault) => tell_bad_cell(notes, b"notebook: document ", path, fault),
        _ => {
            let word = document_word(reason);
            write_reason(notes, b"notebook: document ", path, word, b"")
        }
    }
}

/// Writes what is bad and where, a word, and the key of a field behind it.
fn write_reason<'t, E: Sink>(
    notes: &mut E,
    what: &'t [u8],
    place: &'t [u8],
    word: &'t [u8],
    key: &'t [u8],
) -> Result<(), Failed>
    ensures writes { WritesAll (reason_text what.now place.now word.now key.now) (E.written notes.old) (E.written notes.new) result }
    ensures cause { HasCause (E.faults notes.old) (E.faults notes.new) result }
{
    write_pieces(notes, &[what, place, b": ", word, key, b"\n"])
}

/// Writes what is bad and where: a cell that is none, and why.
fn tell_bad_cell<E: Sink>(
    notes: &mut E,
    what: &[u8],
    place: &[u8],
    fault: &ParseError,
) -> Result<(), Failed>
    ensures writes { WritesAll (bad_cell_text what.now place.now fault.now) (E.written notes.old) (E.written notes.new) result }
    ensures cause { HasCause (E.faults notes.old) (E.faults notes.new) result }
{
    let mut digits = itoa::Buffer::new();
    let at = digits.format(fault_place(fault)).as_bytes();
    match fault {
        ParseError::Unexpected(_, token) => {
            write_unexpected(notes, what, place, at, token.as_str().as_bytes())
        }
        _ => write_fault(notes, what, place, fault_word(fault), at),
    }
}

/// Writes what is bad and where, and a fault of its cell: its name, and the digits of its place.
fn write_fault<'t, E: Sink>(
    notes: &mut E,
    what: &'t [u8],
    place: &'t [u8],
    word: &'t [u8],
    at: &'t [u8],
) -> Result<(), Failed>
    ensures writes { WritesAll (fault_text what.now place.now word.now at.now) (E.written notes.old) (E.written notes.new) result }
    ensures cause { HasCause (E.faults notes.old) (E.faults notes.new) result }
{
    write_pieces(notes, &[what, place, b": BadCell ", word, b" ", at, b"\n"])
}

/// Writes what is bad and where, and that a token of its cell isn't expected, with the digits of its place.
fn write_unexpected<'t, E: Sink>(
    notes: &mut E,
    what: &'t [u8],
    place: &'t [u8],
    at: &'t [u8],
    token: &'t [u8],
) -> Result<(), Failed>
    ensures writes { WritesAll (unexpected_text what.now place.now at.now token.now) (E.written notes.old) (E.written notes.new) result }
    ensures cause { HasCause (E.faults notes.old) (E.faults notes.new) result }
{
    write_pieces(
        notes,
        &[
            what,
            place,
            b": BadCell Unexpected ",
            at,
            b" ",
            token,
            b"\n",
        ],
    )
}

/// The word of a reason, with a space behind it where a key follows.
fn reason_word(reason: &BadReason) -> &'static [u8]
    ensures { result.now ≡ reason_word reason.now }
{
    match reason {
        BadReason::LineTooLong => b"LineTooLong",
        BadReason::TooManyLines => b"TooManyLines",
        BadReason::NotJson => b"NotJson",
        BadReason::NotObject => b"NotObject",
        BadReason::UnknownDo => b"UnknownDo",
        BadReason::UnknownField(_) => b"UnknownField ",
        BadReason::MissingField(_) => b"MissingField ",
        BadReason::WrongField(_) => b"WrongField ",
        BadReason::Unnamed => b"Unnamed",
        BadReason::BadCell(_) => b"BadCell ",
    }
}

/// The word of a document's reason.
fn document_word(reason: &DocReason) -> &'static [u8]
    ensures { result.now ≡ document_word reason.now }
{
    match reason {
        DocReason::NotJson => b"NotJson",
        DocReason::NotObject => b"NotObject",
        DocReason::UnknownField => b"UnknownField",
        DocReason::MissingField => b"MissingField",
        DocReason::WrongField => b"WrongField",
        DocReason::BadCell(_) => b"BadCell",
        DocReason::TwoLoaders => b"TwoLoaders",
        DocReason::TwoModules => b"TwoModules",
    }
}

/// The key of the field that a reason names, if it names one.
fn reason_key(reason: &BadReason) -> &[u8]
    ensures { result.now ≡ reason_key reason.now }
{
    match reason {
        BadReason::UnknownField(key) => key.as_str().as_bytes(),
        BadReason::MissingField(key) => key.as_str().as_bytes(),
        BadReason::WrongField(key) => key.as_str().as_bytes(),
        _ => b"",
    }
}

fn fault_word(fault: &ParseError) -> &'static [u8]
    ensures { result.now ≡ fault_word fault.now }
{
    match fault {
        ParseError::Lex(error) => lex_word(*error),
        ParseError::Unexpected(_, _) => b"Unexpected",
        ParseError::Ended(_) => b"Ended",
        ParseError::TooDeep(_) => b"TooDeep",
        ParseError::Memory => b"Memory",
    }
}

fn lex_word(error: LexError) -> &'static [u8]
    ensures { result.now ≡ lex_word error }
{
    match error {
        LexError::BadCharacter(_) => b"BadCharacter",
        LexError::OpenText(_) => b"OpenText",
        LexError::BadEscape(_) => b"BadEscape",
        LexError::TooWide(_) => b"TooWide",
        LexError::Memory => b"Memory",
    }
}

fn fault_place(fault: &ParseError) -> usize
    ensures { result ≡ fault_place fault.now }
{
    match fault {
        ParseError::Lex(error) => lex_place(*error),
        ParseError::Unexpected(place, _) => *place,
        ParseError::Ended(place) => *place,
        ParseError::TooDeep(place) => *place,
        ParseError::Memory => 0,
    }
}

fn lex_place(error: LexError) -> usize
    ensures { result ≡ lex_place error }
{
    match error {
        LexError::BadCharacter(place) => place,
        LexError::OpenText(place) => place,
        LexError::BadEscape(place) => place,
        LexError::TooWide(place) => place,
        LexError::Memory => 0,
    }
}

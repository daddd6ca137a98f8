//! Cells, by recursive descent.

ghost use Rattle.std.specs.Prelude.{◌≡◌, Result};
ghost use Rattle.nb_grammar.specs.Reading.{Gives, inside_of, is_record, body_at, cell, whole};
ghost use Rattle.nb_grammar.specs.Law.{Comes, IsRead};
ghost use Rattle.nb_syntax.specs.declared.tree.Cell.{Cell};
ghost use Rattle.nb_grammar.specs.declared.fault.Fault.{Fault};

use crate::expressions::expr;
use crate::marks::fault_behind;
use crate::statements::block;
use nb_grammar::Stop;
use nb_lexer::Word;
use nb_syntax::{Body, Cell};
use nb_value::Text;
use std::alloc::Global;

/// The most brackets that may be open at once.
const ROOM: u8 = 64;

/// The cell that the words spell, with at most 64 brackets open at any place. It fails with the first fault where
/// they spell none, and with `Memory` where memory runs out. It takes time and memory linear in the words and
/// their texts.
pub fn cell_of_words(alloc: Global, words: &[Word]) -> Result<Cell, Stop>
    ensures gives { Gives (λ c. c) result (whole 64 words.now) }
    ensures comes { Comes 64 words.now result }
    ensures only { (y : Result Cell Fault) → IsRead 64 words.now y → Gives (λ c. c) result y }
{
    exact(alloc, words, ROOM)
}

fn exact(alloc: Global, words: &[Word], room: u8) -> Result<Cell, Stop>
    ensures gives { Gives (λ c. c) result (whole room words.now) }
    ensures comes { Comes room words.now result }
    ensures only { (y : Result Cell Fault) → IsRead room words.now y → Gives (λ c. c) result y }
{
    whole(alloc, words, room)
}

fn whole(alloc: Global, words: &[Word], room: u8) -> Result<Cell, Stop>
    ensures { Gives (λ c. c) result (whole room words.now) }
{
    let (cell, rest) = cell(alloc, words, room)?;
    if rest.is_empty() {
        Ok(cell)
    } else {
        Err(fault_behind(cell, rest))
    }
}

/// A cell at the head of the words, and the words behind it.
fn cell(alloc: Global, words: &[Word], room: u8) -> Result<(Cell, &[Word]), Stop>
    ensures { Gives (λ x. (x.0, x.1.now)) result (cell (inside_of room) words.now) }
{
    match words {
        [Word::Name(name), Word::Assign, rest @ ..] => {
            let name = name.copy(alloc)?;
            let (body, rest) = body(alloc, rest, room)?;
            let name = Some(name);
            Ok((Cell { name, body }, rest))
        }
        _ => {
            let (body, rest) = body(alloc, words, room)?;
            Ok((Cell { name: None, body }, rest))
        }
    }
}

/// A body at the head of the words, and the words behind it.
fn body(alloc: Global, words: &[Word], room: u8) -> Result<(Body, &[Word]), Stop>
    ensures { Gives (λ x. (x.0, x.1.now)) result (body_at (inside_of room) words.now) }
{
    match words {
        [Word::OpenCurly, rest @ ..] if !is_record(rest) => {
            let (block, rest) = block(alloc, words, room)?;
            Ok((Body::Block(block), rest))
        }
        _ => {
            let (expr, rest) = expr(alloc, words, room)?;
            Ok((Body::Expr(expr), rest))
        }
    }
}

/// Whether what stands behind the opening bracket of a body belongs to a record.
fn is_record(words: &[Word]) -> bool
    ensures { result ≡ is_record words.now }
{
    match words {
        [Word::CloseCurly | Word::Quoted(_), ..] | [Word::Name(_), Word::Colon, ..] => true,
        _ => false,
    }
}

ghost use Rattle.std.specs.Prelude.{◌≡◌, ◌≤◌, ◌<◌, ◌==◌, ℕ, [], ◌∷◌, length, Err, All, IfOk, IfSome, IfNone};
ghost use Rattle.std.specs.List.{position_or_len};
ghost use Rattle.nb_lines.specs.declared.script.BadReason.{BadReason as Reason};
ghost use Rattle.nb_lines.specs.declared.script.LineFail.TheVariants.{Bad};
ghost use Rattle.nb_lines.specs.Lines.{ReadsLines, Reads, IsBad, UnlessMemory, first_bad, AddsLine, lines, numbered, without_last_feed, first_among, said, is_blank, line_number};

use crate::line::read_line;
use crate::script::{BadReason, LineFail, OneFail, Scripts};
use nb_value::Items;
use std::alloc::Global;

/// The most lines that an input may have.
const MOST_LINES: u32 = 65_536;

/// The most bytes that a line may have, without its line feed, whatever it says.
const LONGEST_LINE: usize = 65_536;

/// What the lines of an input say, or the first one that is bad, and its first reason.
///
/// A blank line is passed over and counted. Linear in the input; a fault is answered without reading on.
#[tactic(auto, unfolding(crate::specs::Lines::first_bad, crate::specs::Lines::scripts))]
pub fn read_lines(alloc: Global, bytes: &[u8]) -> Result<Scripts, LineFail>
    ensures lines { ReadsLines bytes.now result }
    // The first bad line is answered, with its first reason, and nothing else.
    ensures only { (line : ℕ) (reason : Reason) → IsBad (first_bad bytes.now) line reason → UnlessMemory result (result ≡ Err (Bad line reason)) }
    // Each line is that of one of eight editors.
    ensures editors { IfOk result (All (λ s. s.editor < 8)) }
{
    read_all(alloc, without_last_feed(bytes))
}

/// The number of the line that is the script at this place, where the first script is at 0; 0 where there are fewer.
///
/// It takes no memory, and time linear in the input.
#[tactic(auto, unfolding(crate::specs::Lines::line_number))]
pub fn line_number(bytes: &[u8], place: usize) -> usize
    ensures { result ≡ line_number bytes.now place }
{
    let mut rest = without_last_feed(bytes);
    let mut left = place;
    let mut number: usize = 1;
    'lines: loop {
        let (line, behind) = cut_line(rest);
        if !is_blank(line) {
            if left == 0 {
                return number;
            }
            left -= 1;
        }
        match behind {
            Some(more) => rest = more,
            None => return 0,
        }
        number += 1;
    }
}

/// The input without a line feed at its very end.
fn without_last_feed(bytes: &[u8]) -> &[u8]
    ensures { result.now ≡ without_last_feed bytes.now }
{
    match bytes.last() {
        Some(b) if *b == 10 => &bytes[..bytes.len() - 1],
        _ => bytes,
    }
}

fn read_all(alloc: Global, bytes: &[u8]) -> Result<Scripts, LineFail>
    ensures { Reads (first_among (numbered 1 (lines bytes.now))) (said (numbered 1 (lines bytes.now))) result }
{
    let mut found = Items::new(alloc);
    let mut rest = bytes;
    let mut number: u32 = 1;
    'lines: loop {
        let (line, behind) = cut_line(rest);
        add_line(alloc, &mut found, number, line)?;
        match behind {
            Some(more) => rest = more,
            None => return Ok(found),
        }
        number += 1;
    }
}

/// The first line, and the input behind its line feed, if it has one.
fn cut_line(bytes: &[u8]) -> (&[u8], Option<&[u8]>)
    ensures last { IfNone result.1 (lines bytes.now ≡ result.0.now ∷ []) }
    ensures first { IfSome result.1 (λ more. lines bytes.now ≡ result.0.now ∷ lines more.now) }
    ensures shorter { IfSome result.1 (λ more. length more.now < length bytes.now) }
{
    let end = line_end(bytes);
    let (line, _) = bytes.split_at(end);
    if end == bytes.len() {
        return (line, None);
    }
    let (_, behind) = bytes.split_at(end + 1);
    (line, Some(behind))
}

/// How many bytes stand before the first line feed.
fn line_end(bytes: &[u8]) -> usize
    ensures value { result ≡ position_or_len (λ b. b == 10) bytes.now }
    ensures within { result ≤ length bytes.now }
{
    for (i, b) in bytes.iter().enumerate() {
        if *b == 10 {
            return i;
        }
    }
    bytes.len()
}

fn add_line(alloc: Global, found: &mut Scripts, number: u32, line: &[u8]) -> Result<(), LineFail>
    ensures { AddsLine number line.now found.old found.new result }
{
    if MOST_LINES < number {
        return Err(LineFail::Bad {
            line: number,
            reason: BadReason::TooManyLines,
        });
    }
    if LONGEST_LINE < line.len() {
        return Err(LineFail::Bad {
            line: number,
            reason: BadReason::LineTooLong,
        });
    }
    if is_blank(line) {
        return Ok(());
    }
    match read_line(alloc, line) {
        Ok(script) => Ok(found.push(script)?),
        Err(OneFail::Bad(reason)) => Err(LineFail::Bad {
            line: number,
            reason,
        }),
        Err(OneFail::Memory) => Err(LineFail::Memory),
    }
}

fn is_blank(line: &[u8]) -> bool
    ensures { result ≡ is_blank line.now }
{
    line.iter().all(|b| *b == 32 || *b == 9 || *b == 13)
}

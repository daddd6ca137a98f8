//! Quoted texts with their escapes.

ghost use Rattle.std.specs.Prelude.{◌≡◌, ◌++◌, ◌-◌, ◌^◌, OnOk, encode_utf8, length, min};
ghost use Rattle.nb_syntax.specs.Print.{escape, escaped, quoted_text};

use crate::draft::Draft;
use std::alloc::AllocError;

/// Adds the text in quotes, with escapes. It takes time linear in the text's bytes.
pub(crate) fn push_quoted(out: &mut Draft, text: &str) -> Result<(), AllocError>
    ensures { OnOk result (out.new ≡ out.old ++ quoted_text text.now) }
{
    out.push("\"")?;
    push_escaped(out, text)?;
    out.push("\"")
}

fn push_escaped(out: &mut Draft, text: &str) -> Result<(), AllocError>
    ensures { OnOk result (out.new ≡ out.old ++ escaped text.now) }
{
    for c in text.chars() {
        push_char(out, c)?;
    }
    Ok(())
}

#[tactic(auto, using(crate::proofs::Escapes::escaped_char))]
fn push_char(out: &mut Draft, c: char) -> Result<(), AllocError>
    ensures { OnOk result (out.new ≡ out.old ++ escaped (encode_utf8 c)) }
{
    match c {
        '"' => out.push("\\\""),
        '\\' => out.push("\\\\"),
        '\n' => out.push("\\n"),
        '\r' => out.push("\\r"),
        '\t' => out.push("\\t"),
        _ => out.push_char(c),
    }
}

/// The length of the text in quotes, with escapes, up to the end of u64.
pub(crate) fn quoted_len(text: &str) -> u64
    ensures { result ≡ min (length (quoted_text text.now)) (2 ^ 64 - 1) }
{
    escaped_len(text.as_bytes()).saturating_add(2)
}

fn escaped_len(bytes: &[u8]) -> u64
    ensures { result ≡ min (length (escaped bytes.now)) (2 ^ 64 - 1) }
{
    let mut total = 0u64;
    for byte in bytes {
        total = total.saturating_add(byte_len(*byte));
    }
    total
}

fn byte_len(byte: u8) -> u64
    ensures { result ≡ length (escape byte) }
{
    match byte {
        b'"' | b'\\' | b'\n' | b'\r' | b'\t' => 2,
        _ => 1,
    }
}

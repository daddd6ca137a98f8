//! Texts that are written piece by piece.

ghost use Rattle.std.specs.Prelude.{◌≡◌, ◌++◌, [], OnOk, encode_utf8};
ghost use Rattle.std.specs.Fmt.{signed_decimal};

use nb_value::Text;
use std::alloc::{AllocError, Global};
use std::marker::Model;

/// A text that is being written, which contracts see as its bytes so far.
#[derive(Drop)]
pub(crate) struct Draft {
    text: String,
}

impl Model for Draft {
    ghost use Rattle.std.specs.Prelude.{List, ℕ, string_bytes};

    ghost Value = { List ℕ };

    ghost view = { λ draft. string_bytes draft.text };
}

impl Draft {
    /// No text. It takes no memory yet.
    pub(crate) fn new(alloc: Global) -> Draft
        ensures { result ≡ [] }
    {
        Draft {
            text: String::new(alloc),
        }
    }

    /// Adds a text at the end. It fails only without memory.
    pub(crate) fn push(&mut self, text: &str) -> Result<(), AllocError>
        ensures { OnOk result (self.new ≡ self.old ++ text.now) }
    {
        self.text.push_str(text)
    }

    /// Adds a character at the end. It fails only without memory.
    pub(crate) fn push_char(&mut self, c: char) -> Result<(), AllocError>
        ensures { OnOk result (self.new ≡ self.old ++ encode_utf8 c) }
    {
        self.text.push(c)
    }

    /// Adds a number in decimal at the end. It fails only without memory.
    pub(crate) fn push_int(&mut self, n: i64) -> Result<(), AllocError>
        ensures { OnOk result (self.new ≡ self.old ++ signed_decimal n) }
    {
        let mut buffer = itoa::Buffer::new();
        self.push(buffer.format(n))
    }

    /// The text, in place of the draft.
    pub(crate) fn into_text(self) -> Text
        ensures { result ≡ self }
    {
        let Draft { text } = self;
        Text::from_string(text)
    }
}

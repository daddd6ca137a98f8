ghost use Rattle.std.specs.Prelude.{◌≡◌};
ghost use Rattle.std.specs.List.{list_all};
ghost use Rattle.nb_lexer.specs.Characters.{is_in_name};
ghost use Rattle.nb_lexer.specs.Spelling.{is_name};

use crate::characters::{begins_with_letter, is_in_name};
use crate::fixed::keyword;

/// Whether the text is a name: a letter, `_` or `$`, then any number of these and of digits, and no keyword.
///
/// It takes no memory, and time linear in the text's bytes.
pub fn is_name(text: &str) -> bool
    ensures { result ≡ is_name text.now }
{
    let bytes = text.as_bytes();
    begins_with_letter(bytes) && are_in_name(bytes) && keyword(bytes).is_none()
}

fn are_in_name(bytes: &[u8]) -> bool
    ensures { result ≡ list_all is_in_name bytes.now }
{
    bytes.iter().all(|b| is_in_name(*b))
}

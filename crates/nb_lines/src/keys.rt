//! Keys of objects that don't belong there.
ghost use Rattle.std.specs.Prelude.{◌≡◌, find, not, option_map};
ghost use Rattle.serde_json.specs.View.{members_view};
ghost use Rattle.nb_lines.specs.Forms.{is_among};
ghost use Rattle.nb_lines.specs.Fields.{member_keys};

use crate::form::{Field, is_among};
use serde_json::{Map, Value as Tree};

/// The first key in byte order that is none of these fields'.
pub fn unknown_key<'t>(object: &'t Map<String, Tree>, known: &[Field]) -> Option<&'t str>
    ensures { option_map (λ s. s.now) result ≡ find (λ k. not (is_among known.now k)) (member_keys (members_view object.now.entries)) }
{
    for (key, _) in object.iter() {
        if !is_among(key.as_str(), known) {
            return Some(key.as_str());
        }
    }
    None
}

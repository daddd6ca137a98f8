ghost use Rattle.std.specs.Prelude.{◌≡◌};

use crate::text::Text;
use std::marker::Model;

/// The words of a command line, without the program's name, which contracts see as the list of their bytes.
#[derive(Debug, Drop)]
pub struct Words {
    items: Vec<Text>,
}

impl Model for Words {
    ghost use Rattle.std.specs.Prelude.{List, ℕ};

    ghost Value = { List (List ℕ) };

    ghost view = { λ w. w.items.items };
}

impl Words {
    /// The words in this order.
    pub fn from_vec(items: Vec<Text>) -> Words
        ensures { result ≡ items.items }
    {
        Words { items }
    }

    /// The words in their order.
    pub fn as_slice(&self) -> &[Text]
        ensures { result.now ≡ self.now }
    {
        &self.items
    }
}

//! Arrays: how many elements they have, and what is read of them.
ghost use Rattle.std.specs.Prelude.{◌≡◌, [], ◌∷◌, ◌++◌, OnOk};
ghost use Rattle.serde_json.specs.View.{items_view};
ghost use Rattle.nb_doc.specs.Items.{count as count_of};

use serde_json::Value as Tree;
use std::alloc::AllocError;

/// How many elements an array has.
#[tactic(auto, using(crate::proofs::CountLemmas::count_items))]
pub fn count(items: &[Tree]) -> usize
    ensures { result ≡ count_of (items_view items.now) }
{
    items.len()
}

/// Adds what was read.
pub fn keep<T: Drop>(found: &mut Vec<T>, item: T) -> Result<(), AllocError>
    ensures { OnOk result (found.new.items ≡ found.old.items ++ item ∷ []) }
{
    found.push(item)?;
    Ok(())
}

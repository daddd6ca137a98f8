//! The loaders of a document.
ghost use Rattle.std.specs.Prelude.{◌≡◌, [], ◌∷◌, ◌++◌, Some, None, true, not, IfOk, IfErr, OnOk, map, option_map};
ghost use Rattle.serde_json.specs.View.{view, items_view};
ghost use Rattle.nb_doc.specs.declared.form.Field.TheVariants as field;
ghost use Rattle.std.specs.Fmt.{decimal};
ghost use Rattle.nb_doc.specs.Faults.{Fails, in_part};
ghost use Rattle.nb_doc.specs.Forms.{needs, may, field_fault};
ghost use Rattle.nb_doc.specs.Items.{each_fault, each_of};
ghost use Rattle.nb_doc.specs.Loading.{word_in as word_in_data, word_fault, words_fault, argv_fault, argv_in, argv_at, has_key, key_fault, key_at, loader_fault, loader_of, with_key, loaders_fault_from, loaders_fault, loaders_in, loaders_of};

use crate::arrays::{count, keep};
use crate::document::{Loader, Loaders};
use crate::fail::{at_field, missing, within_field, within_place, wrong, wrong_at, wrong_place};
use crate::form::Field;
use crate::object::test_object;
use crate::reason::{DocFail, DocReason};
use indexmap::IndexSet;
use nb_value::{Argv, Items, Text};
use serde_json::Value as Tree;
use std::alloc::{AllocError, Global};

/// The most words that a program may have.
const MOST_WORDS: usize = 16;

/// A word of a program, which isn't empty.
fn word_in(tree: &Tree) -> Option<&str>
    ensures { option_map (λ s. s.now) result ≡ word_in_data (view tree.now) }
{
    match tree.as_str() {
        Some(text) if 1 <= text.len() => Some(text),
        _ => None,
    }
}

/// The word at a position.
fn word_at(alloc: Global, place: usize, tree: &Tree) -> Result<Text, DocFail>
    ensures right { IfOk result (λ w. word_fault (view tree.now) ≡ None) }
    ensures said { IfOk result (λ w. word_in_data (view tree.now) ≡ Some w) }
    ensures bad { IfErr result (Fails (in_part (decimal place) (word_fault (view tree.now)))) }
{
    match word_in(tree) {
        Some(word) => Ok(Text::from_str(alloc, word)?),
        None => Err(wrong_place(alloc, place)),
    }
}

fn each_word(alloc: Global, items: &Vec<Tree>) -> Result<Vec<Text>, DocFail>
    ensures right { IfOk result (λ w. each_fault word_fault 0 (items_view items.now.items) ≡ None) }
    ensures said { IfOk result (λ w. each_of word_in_data (items_view items.now.items) ≡ Some w.items) }
    ensures bad { IfErr result (Fails (each_fault word_fault 0 (items_view items.now.items))) }
{
    let mut found = Vec::new(alloc);
    for (k, item) in items.iter().enumerate() {
        keep(&mut found, word_at(alloc, k, item)?)?;
    }
    Ok(found)
}

fn few_words(alloc: Global, items: &Vec<Tree>) -> Result<Vec<Text>, DocFail>
    ensures right { IfOk result (λ w. words_fault (items_view items.now.items) ≡ None) }
    ensures said { IfOk result (λ w. each_of word_in_data (items_view items.now.items) ≡ Some w.items) }
    ensures bad { IfErr result (Fails (words_fault (items_view items.now.items))) }
{
    let words = count(items);
    if 1 <= words && words <= MOST_WORDS {
        each_word(alloc, items)
    } else {
        Err(wrong(alloc))
    }
}

fn read_argv(alloc: Global, tree: &Tree) -> Result<Argv, DocFail>
    ensures right { IfOk result (λ a. argv_fault (view tree.now) ≡ None) }
    ensures said { IfOk result (λ a. argv_in (view tree.now) ≡ Some a) }
    ensures bad { IfErr result (Fails (argv_fault (view tree.now))) }
{
    match tree.as_array() {
        Some(items) => Ok(Argv::from_vec(few_words(alloc, items)?)),
        None => Err(wrong(alloc)),
    }
}

#[tactic(auto, unfolding(crate::specs::Forms::field_fault))]
fn argv_field(alloc: Global, tree: &Tree) -> Result<Argv, DocFail>
    ensures right { IfOk result (λ a. field_fault (view tree.now) (needs field.Argv argv_fault) ≡ None) }
    ensures said { IfOk result (λ a. argv_at (view tree.now) ≡ Some a) }
    ensures bad { IfErr result (Fails (field_fault (view tree.now) (needs field.Argv argv_fault))) }
{
    match tree.get(Field::Argv.name()) {
        Some(found) => match read_argv(alloc, found) {
            Ok(argv) => Ok(argv),
            Err(fail) => Err(within_field(alloc, Field::Argv, fail)),
        },
        None => Err(missing(alloc, Field::Argv)),
    }
}

/// The key of a loader, which no earlier one has; and it is kept with theirs.
#[tactic(auto, unfolding(crate::specs::Forms::field_fault, crate::specs::Loading::with_key))]
fn key_field<'t>(
    alloc: Global,
    keys: &mut IndexSet<&'t str>,
    tree: &'t Tree,
) -> Result<&'t str, DocFail>
    ensures right { IfOk result (λ k. field_fault (view tree.now) (needs field.Key (key_fault (map (λ s. s.now) keys.old.keys))) ≡ None) }
    ensures said { IfOk result (λ k. key_at (view tree.now) ≡ Some k.now) }
    ensures kept { OnOk result (map (λ s. s.now) keys.new.keys ≡ with_key (map (λ s. s.now) keys.old.keys) (view tree.now)) }
    ensures bad { IfErr result (Fails (field_fault (view tree.now) (needs field.Key (key_fault (map (λ s. s.now) keys.old.keys))))) }
{
    let Some(found) = tree.get(Field::Key.name()) else {
        return Err(missing(alloc, Field::Key));
    };
    let Some(key) = found.as_str() else {
        return Err(wrong_at(alloc, Field::Key));
    };
    if add_key(keys, key)? {
        Ok(key)
    } else {
        Err(at_field(alloc, Field::Key, DocReason::TwoLoaders))
    }
}

/// Keeps a key with the others; whether it is a new one.
#[tactic(auto, using(crate::proofs::KeyLemmas::among))]
fn add_key<'t>(keys: &mut IndexSet<&'t str>, key: &'t str) -> Result<bool, AllocError>
    ensures new { IfOk result (λ b. b ≡ not (has_key (map (λ s. s.now) keys.old.keys) key.now)) }
    ensures kept { IfOk result (λ b. b ≡ true → map (λ s. s.now) keys.new.keys ≡ map (λ s. s.now) keys.old.keys ++ key.now ∷ []) }
{
    Ok(keys.insert(key)?)
}

#[tactic(auto, unfolding(crate::specs::Forms::object_fault, crate::specs::Loading::loader_fault, crate::specs::Loading::loader_of))]
fn read_loader<'t>(
    alloc: Global,
    keys: &mut IndexSet<&'t str>,
    tree: &'t Tree,
) -> Result<Loader, DocFail>
    ensures right { IfOk result (λ l. loader_fault (map (λ s. s.now) keys.old.keys) (view tree.now) ≡ None) }
    ensures said { IfOk result (λ l. loader_of (view tree.now) ≡ Some l) }
    ensures kept { OnOk result (map (λ s. s.now) keys.new.keys ≡ with_key (map (λ s. s.now) keys.old.keys) (view tree.now)) }
    ensures bad { IfErr result (Fails (loader_fault (map (λ s. s.now) keys.old.keys) (view tree.now))) }
{
    test_object(alloc, tree, &[Field::Key, Field::Argv])?;
    let key = key_field(alloc, keys, tree)?;
    let argv = argv_field(alloc, tree)?;
    Ok(Loader {
        key: Text::from_str(alloc, key)?,
        argv,
    })
}

/// The loader at a position.
fn loader_at<'t>(
    alloc: Global,
    keys: &mut IndexSet<&'t str>,
    place: usize,
    tree: &'t Tree,
) -> Result<Loader, DocFail>
    ensures right { IfOk result (λ l. loader_fault (map (λ s. s.now) keys.old.keys) (view tree.now) ≡ None) }
    ensures said { IfOk result (λ l. loader_of (view tree.now) ≡ Some l) }
    ensures kept { OnOk result (map (λ s. s.now) keys.new.keys ≡ with_key (map (λ s. s.now) keys.old.keys) (view tree.now)) }
    ensures bad { IfErr result (Fails (in_part (decimal place) (loader_fault (map (λ s. s.now) keys.old.keys) (view tree.now)))) }
{
    match read_loader(alloc, keys, tree) {
        Ok(loader) => Ok(loader),
        Err(fail) => Err(within_place(alloc, place, fail)),
    }
}

fn each_loader(alloc: Global, items: &Vec<Tree>) -> Result<Loaders, DocFail>
    ensures right { IfOk result (λ l. loaders_fault_from [] 0 (items_view items.now.items) ≡ None) }
    ensures said { IfOk result (λ l. each_of loader_of (items_view items.now.items) ≡ Some l) }
    ensures bad { IfErr result (Fails (loaders_fault_from [] 0 (items_view items.now.items))) }
{
    let mut keys: IndexSet<&str> = IndexSet::new(alloc);
    let mut found = Items::new(alloc);
    for (k, item) in items.iter().enumerate() {
        found.push(loader_at(alloc, &mut keys, k, item)?)?;
    }
    Ok(found)
}

fn read_loaders(alloc: Global, tree: &Tree) -> Result<Loaders, DocFail>
    ensures right { IfOk result (λ l. loaders_fault (view tree.now) ≡ None) }
    ensures said { IfOk result (λ l. loaders_in (view tree.now) ≡ Some l) }
    ensures bad { IfErr result (Fails (loaders_fault (view tree.now))) }
{
    match tree.as_array() {
        Some(items) => each_loader(alloc, items),
        None => Err(wrong(alloc)),
    }
}

/// The loaders in the document's field: none, where it has no such field.
#[tactic(auto, unfolding(crate::specs::Forms::field_fault))]
pub fn loaders_field(alloc: Global, tree: &Tree) -> Result<Loaders, DocFail>
    ensures right { IfOk result (λ l. field_fault (view tree.now) (may field.Loaders loaders_fault) ≡ None) }
    ensures said { IfOk result (λ l. loaders_of (view tree.now) ≡ l) }
    ensures bad { IfErr result (Fails (field_fault (view tree.now) (may field.Loaders loaders_fault))) }
{
    match tree.get(Field::Loaders.name()) {
        Some(found) => match read_loaders(alloc, found) {
            Ok(loaders) => Ok(loaders),
            Err(fail) => Err(within_field(alloc, Field::Loaders, fail)),
        },
        None => Ok(Items::new(alloc)),
    }
}

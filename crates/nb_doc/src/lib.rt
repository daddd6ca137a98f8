//! Files of notebooks: which of them is read, the lines that it stands for, its builtins and its loaders; and what it is in
//! version 2.
#![tactic(auto)]

mod around;
mod arrays;
mod builtins;
mod contents;
mod count;
mod document;
mod fail;
mod form;
mod item;
mod lines;
mod loaders;
mod module;
mod modules;
mod object;
mod place;
mod read;
mod reason;
mod specifiers;
mod upgraded;
mod walk;

pub use document::{Document, Loader, Loaders};
pub use read::read_document;
pub use reason::{DocFail, DocReason};
pub use upgraded::upgrade;

//! The rule of a board's table, and its three kinds of step.
use atomic_table::{Play, Split, TableRule};
use std::collections::LinkedList;

/// A load of a word: the word, counted from 0, and the number that it read.
#[derive(Clone, Copy)]
pub struct Load {
    pub word: u64,
    pub number: u64,
}

// What a seat knows; no value of it is ever made.
pub struct View {
    // Whether the seat stores.
    pub writes: bool,
    // The words, where it stores.
    pub words: LinkedList<u64>,
    // How often it has loaded a word, where it doesn't store.
    pub loads: u64,
    // Its last load, if it has made one.
    pub last: Option<Load>,
}

pub struct Law;

impl TableRule<u64, View, Vec<u64>> for Law {
    ghost use Rattle.nb_board.specs.Boards.{IsBoard, writer};

    ghost holds = { λ _. IsBoard };

    ghost first = { λ words. writer words.items };
}

// The writer stores a word.
pub struct Store;

impl Play<u64, View> for Store {
    ghost use Rattle.nb_board.specs.Boards.{Stored};

    ghost then = { Stored };
}

// A reader loads a word.
pub struct Loading;

impl Play<u64, View> for Loading {
    ghost use Rattle.nb_board.specs.Boards.{Read};

    ghost then = { Read };
}

// The writer's seat gives off a reader's, which has loaded nothing.
pub struct NewReader;

impl Split<View> for NewReader {
    ghost use Rattle.std.specs.Prelude.{None};
    ghost use Rattle.nb_board.specs.Boards.{reader};

    ghost left = { λ v. v };

    ghost right = { λ _. reader 0 None };
}

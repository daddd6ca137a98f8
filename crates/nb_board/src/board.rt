ghost use Rattle.std.specs.Prelude.{◌≡◌, ◌≤◌, length, replicate, IfOk, slice_set};
ghost use Rattle.nb_board.specs.Boards.{IsOn, LoadsNewer, unread, word_at};

use crate::rule::{Law, Loading, NewReader, Store, View};
use atomic_table::{Seat, Table};
use std::alloc::{AllocError, Global};
use std::marker::Model;
use std::sync::Arc;

type Words = Arc<Table<u64, View, Vec<u64>, Law, Global>, Global>;

/// A board: a word for each of its variables, which threads share. Contracts see the number of words.
#[derive(Drop)]
pub struct Board {
    table: Words,
}

impl Model for Board {
    ghost use Rattle.std.specs.Prelude.{ℕ};
    ghost use Rattle.std.specs.Arc.{arc_value};

    ghost Value = { ℕ };

    ghost view = { λ b. (arc_value b.table).shared.table_id.words };
}

/// Stores the words of a board. It is the board's only writer, and contracts see it as the words.
#[derive(Drop)]
pub struct Writer {
    table: Words,
    seat: Seat<u64, View>,
}

impl Model for Writer {
    ghost use Rattle.std.specs.Prelude.{◌≡◌, ◌≤◌, ℕ, List, [], length};
    ghost use Rattle.std.specs.Arc.{arc_value};
    ghost use Rattle.nb_board.specs.Boards.{writer};

    ghost Value = { List ℕ };

    ghost view = { λ w. w.seat.me.0.words };

    ghost invariant = { λ w. (w.seat.table_id ≡ (arc_value w.table).shared.table_id) × (w.seat.me ≡ (writer w.seat.me.0.words, [])) × (length w.seat.me.0.words ≡ (arc_value w.table).shared.table_id.words) × (1 ≤ length w.seat.me.0.words) };
}

/// Loads the words of a board, from any thread. Contracts see the number of words, how many loads it has made, and the
/// last of them.
#[derive(Drop)]
pub struct Reader {
    table: Words,
    seat: Seat<u64, View>,
}

impl Model for Reader {
    ghost use Rattle.std.specs.Prelude.{◌≡◌, []};
    ghost use Rattle.std.specs.Arc.{arc_value};
    ghost use Rattle.nb_board.specs.Boards.{reader, Loads};

    ghost Value = { Loads };

    ghost view = { λ r. record { size = (arc_value r.table).shared.table_id.words; count = r.seat.me.0.loads; last = r.seat.me.0.last } };

    ghost invariant = { λ r. (r.seat.table_id ≡ (arc_value r.table).shared.table_id) × (r.seat.me ≡ (reader r.seat.me.0.loads r.seat.me.0.last, [])) };
}

impl Board {
    /// A board of words for the variables 1 to n, all 0, and its only writer. n is at least 1. It takes time and memory
    /// linear in n, and fails only without memory.
    pub fn new(alloc: Global, n: u32) -> Result<(Board, Writer), AllocError>
        requires { 1 ≤ n }
        ensures board { IfOk result (λ made. made.0 ≡ n) }
        ensures writer { IfOk result (λ made. made.1 ≡ replicate n 0) }
    {
        let mut words = Vec::with_capacity(alloc, n as usize)?;
        for _ in 0..n {
            words.push(0)?;
        }
        let (table, seat) = Table::of_words(alloc, words.as_slice(), &words)?;
        let table = Arc::new(alloc, table)?;
        let shared = Arc::try_clone(&table)?;
        Ok((Board { table: shared }, Writer { table, seat }))
    }
}

impl Writer {
    /// Stores a place as the variable's word; the other words stay. One atomic store, no lock and no memory.
    pub fn store(&mut self, var: u32, place: u64)
        requires { IsOn (length self.old) var }
        ensures { self.new ≡ slice_set self.old (word_at var) place }
    {
        self.table
            .shared
            .store::<Store>(&mut self.seat, (var - 1) as usize, place);
    }

    /// A reader of the same words, which has loaded none. Constant time and memory; it fails only without memory, and the
    /// words stay in any case.
    pub fn reader(&mut self) -> Result<Reader, AllocError>
        ensures same { self.new ≡ self.old }
        ensures new { IfOk result (λ r. r ≡ unread (length self.old)) }
    {
        let table = Arc::try_clone(&self.table)?;
        let seat = self.table.shared.split_seat::<NewReader>(&mut self.seat);
        Ok(Reader { table, seat })
    }
}

impl Reader {
    /// Loads the variable's word, and gives it exactly where it is above `start`. One atomic load, no lock and no memory.
    pub fn newer(&mut self, var: u32, start: u64) -> Option<u64>
        requires { IsOn self.old.size var }
        ensures load { LoadsNewer var start self.old self.new result }
    {
        let found = self
            .table
            .shared
            .load::<Loading>(&mut self.seat, (var - 1) as usize);
        if found > start { Some(found) } else { None }
    }
}

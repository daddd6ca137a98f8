ghost use Rattle.std.specs.Prelude.{◌≡◌, vec_len, vec_capacity};
ghost use Rattle.std.specs.Option.{option_copied};
ghost use Rattle.std.specs.Str.{bytes_eq};
ghost use Rattle.nb_sheet.specs.Lists.{nth};
ghost use Rattle.nb_runs.specs.Tickets.{var_of, settled_at, settled_one, live_in, live_of_key_in, live_from_in};

use crate::started::Started;
use crate::starts::start_at;
use nb_value::Text;
use std::marker::Model;

/// A fetch that was asked for: by which variable and in which of its starts, with which key, and whether its answer came.
#[derive(Drop)]
pub struct Ticket {
    pub var: u32,
    pub number: u64,
    pub key: Text,
    pub settled: bool,
}

impl Model for Ticket {
    ghost use Rattle.nb_history.specs.Reading.{Ticket as TicketValue};
    ghost use Rattle.nb_runs.specs.Codes.{ticket_code};

    ghost Value = { TicketValue };

    ghost coded = { ticket_code };

    ghost view = { λ t. record { var = t.var; number = t.number; key = t.key; settled = t.settled } };
}

/// The variable of a ticket, 0 where there is none of that number.
pub fn ticket_var(tickets: &Vec<Ticket>, t: u64) -> u32
    ensures { result ≡ var_of tickets.now.items t }
{
    if t == 0 || t > tickets.len() as u64 {
        return 0;
    }
    var_in(&tickets[t as usize - 1])
}

fn var_in(ticket: &Ticket) -> u32
    ensures { result ≡ ticket.now.var }
{
    ticket.var
}

fn settle_one(ticket: &mut Ticket)
    ensures { ticket.new ≡ settled_one ticket.old }
{
    ticket.settled = true;
}

/// A ticket is settled from now on. There is room for as many more as before.
pub fn settle(tickets: &mut Vec<Ticket>, t: u64)
    ensures items { tickets.new.items ≡ settled_at tickets.old.items t }
    ensures len { vec_len tickets.new ≡ vec_len tickets.old }
    ensures capacity { vec_capacity tickets.new ≡ vec_capacity tickets.old }
{
    if t == 0 || t > tickets.len() as u64 {
        return;
    }
    settle_one(&mut tickets[t as usize - 1]);
}

/// The ticket of a number from 1, if it was asked for.
pub fn ticket_at(tickets: &Vec<Ticket>, t: u64) -> Option<&Ticket>
    ensures { option_copied result ≡ nth tickets.now.items t }
{
    if t == 0 || t > tickets.len() as u64 {
        return None;
    }
    tickets.get(t as usize - 1)
}

/// Whether a ticket is live: its variable's present start waits for its answer.
pub fn is_live(starts: &Vec<Option<Started>>, tickets: &Vec<Ticket>, t: u64) -> bool
    ensures { result ≡ live_in starts.now.items tickets.now.items t }
{
    match start_at(starts, ticket_var(tickets, t)) {
        None => false,
        Some(start) => start.ticket() == Some(t),
    }
}

/// The least live ticket with this key. It costs a scan over the tickets.
pub fn live_of_key(starts: &Vec<Option<Started>>, tickets: &Vec<Ticket>, key: &Text) -> Option<u64>
    ensures { result ≡ live_of_key_in starts.now.items tickets.now.items key.now }
{
    for k in 0..tickets.len() {
        if is_live(starts, tickets, k as u64 + 1) && has_key(&tickets[k], key) {
            return Some(k as u64 + 1);
        }
    }
    None
}

/// The least live ticket that isn't below a number. It costs a scan over the tickets.
pub fn live_from(starts: &Vec<Option<Started>>, tickets: &Vec<Ticket>, at_least: u64) -> Option<u64>
    ensures { result ≡ live_from_in starts.now.items tickets.now.items at_least }
{
    for k in 0..tickets.len() {
        let t = k as u64 + 1;
        if t >= at_least && is_live(starts, tickets, t) {
            return Some(t);
        }
    }
    None
}

fn has_key(ticket: &Ticket, key: &Text) -> bool
    ensures { result ≡ bytes_eq ticket.now.key key.now }
{
    ticket.key.as_str() == key.as_str()
}

//! What a group keeps beside the registers of its chunks, what it does at the start and at the end of
//! a region, and its votes.
ghost use Rattle.std.specs.Prelude.{◌≡◌, length, not, if◌then◌else◌};
ghost use Rattle.std.specs.List.{list_any};
ghost use Rattle.lane_code.specs.Run.{begun, finished, verdict, Agreed, Refused, Mixed};
ghost use Rattle.lane_machine.specs.Votes.{said};
ghost use Rattle.lane_machine.specs.Zeroed.{zeroed};

use std::marker::Model;

/// Local memory, private arrays, columns, once slots and votes of one group of work-items.
#[derive(Drop)]
pub struct Group {
    pub(crate) number: u64,
    pub(crate) locals: Vec<Vec<u8>>,
    pub(crate) privates: Vec<Vec<Vec<u8>>>,
    pub(crate) columns: Vec<Vec<u64>>,
    pub(crate) entries: Vec<u64>,
    pub(crate) exits: Vec<u64>,
    pub(crate) votes: Vec<bool>,
}

impl Model for Group {
    ghost use Rattle.std.specs.Prelude.{map};
    ghost use Rattle.lane_machine.specs.Held.{Held};

    ghost Value = { Held };

    ghost view = { λ g. record {
      number = g.number;
      kept = record {
        locals = map (λ v. v.items) g.locals.items;
        privates = map (λ a. map (λ v. v.items) a.items) g.privates.items;
        columns = map (λ v. v.items) g.columns.items;
        entries = g.entries.items;
        exits = g.exits.items;
        votes = g.votes.items;
      };
    } };
}

/// What the items of a group answered in the last vote: all yes, none yes, or both.
#[derive(Clone, Copy, PartialEq, Eq, Debug)]
pub enum Answers {
    Yes,
    No,
    Mixed,
}

/// The numbers of one list into another of the same length; a few are copied without a call.
fn copy_numbers(to: &mut [u64], from: &[u64])
    requires { length to.old ≡ length from.now }
    ensures { to.new ≡ from.now }
{
    match from.len() {
        0 => {}
        1 => to[0] = from[0],
        2 => {
            to[0] = from[0];
            to[1] = from[1];
        }
        3 => {
            to[0] = from[0];
            to[1] = from[1];
            to[2] = from[2];
        }
        _ => to.copy_from_slice(from),
    }
}

fn copy_over(to: &mut Vec<u64>, from: &Vec<u64>)
    requires { length to.old.items ≡ length from.now.items }
    ensures { to.new.items ≡ from.now.items }
{
    copy_numbers(to, from);
}

/// Whether some vote is yes; all are looked at, so that many are at once.
fn some_yes(votes: &[bool]) -> bool
    ensures { result ≡ list_any (λ v. v) votes.now }
{
    let mut found = false;
    for vote in votes {
        found |= *vote;
    }
    found
}

/// Whether some vote is no; all are looked at, so that many are at once.
fn some_no(votes: &[bool]) -> bool
    ensures { result ≡ list_any (λ v. not v) votes.now }
{
    let mut found = false;
    for vote in votes {
        found |= !*vote;
    }
    found
}

fn answer_for(some_yes: bool, some_no: bool) -> Answers
    ensures { said result ≡ (if some_no then (if some_yes then Mixed else Refused) else Agreed) }
{
    if !some_no {
        Answers::Yes
    } else if some_yes {
        Answers::Mixed
    } else {
        Answers::No
    }
}

/// What the votes come to.
fn answers_of(votes: &[bool]) -> Answers
    ensures { said result ≡ verdict votes.now }
{
    answer_for(some_yes(votes), some_no(votes))
}

impl Group {
    /// The exit value of each once slot becomes its entry value.
    pub fn begin(&mut self)
        requires { length self.old.kept.exits ≡ length self.old.kept.entries }
        ensures begun { self.new ≡ record self.old { kept = begun self.old.kept } }
        ensures zeroed { zeroed self.new.kept ≡ zeroed self.old.kept }
    {
        copy_over(&mut self.exits, &self.entries);
    }

    /// The entry value of each once slot becomes its exit value.
    pub fn finish(&mut self)
        requires { length self.old.kept.entries ≡ length self.old.kept.exits }
        ensures finished { self.new ≡ record self.old { kept = finished self.old.kept } }
        ensures zeroed { zeroed self.new.kept ≡ zeroed self.old.kept }
    {
        copy_over(&mut self.entries, &self.exits);
    }

    /// `Yes` where all items of the group voted yes, `No` where none did, and else `Mixed`.
    pub fn answers(&self) -> Answers
        ensures { said result ≡ verdict self.now.kept.votes }
    {
        answers_of(&self.votes)
    }
}

//! A group back at its start: zeros everywhere, in place.
ghost use Rattle.std.specs.Prelude.{◌≡◌, map};
ghost use Rattle.lane_machine.specs.Zeroed.{blank, blanks, refused, zeroed};

use crate::group_state::Group;
use crate::own::zero_vec;

fn clear_slice(numbers: &mut [u64])
    ensures { numbers.new ≡ blank numbers.old }
{
    numbers.fill(0);
}

fn clear_numbers(numbers: &mut Vec<u64>)
    ensures { numbers.new.items ≡ blank numbers.old.items }
{
    clear_slice(numbers);
}

fn refuse(votes: &mut [bool])
    ensures { votes.new ≡ refused votes.old }
{
    votes.fill(false);
}

fn clear_votes(votes: &mut Vec<bool>)
    ensures { votes.new.items ≡ refused votes.old.items }
{
    refuse(votes);
}

/// Each object of bytes becomes zeros.
fn clear_objects(objects: &mut Vec<Vec<u8>>)
    ensures { map (λ v. v.items) objects.new.items ≡ blanks (map (λ v. v.items) objects.old.items) }
{
    for i in 0..objects.len() {
        zero_vec(&mut objects[i]);
    }
}

/// Each object of each private array becomes zeros.
fn clear_arrays(arrays: &mut Vec<Vec<Vec<u8>>>)
    ensures { map (λ a. map (λ v. v.items) a.items) arrays.new.items ≡
        map blanks (map (λ a. map (λ v. v.items) a.items) arrays.old.items) }
{
    for i in 0..arrays.len() {
        clear_objects(&mut arrays[i]);
    }
}

/// Each column becomes zeros.
fn clear_columns(columns: &mut Vec<Vec<u64>>)
    ensures { map (λ v. v.items) columns.new.items ≡ blanks (map (λ v. v.items) columns.old.items) }
{
    for i in 0..columns.len() {
        clear_numbers(&mut columns[i]);
    }
}

impl Group {
    /// Makes local memory, private arrays, columns, once slots and votes zero, and gives the group
    /// its number among the groups of the launch. It takes no memory.
    pub fn clear(&mut self, number: u64)
        ensures cleared { self.new ≡ record { number = number; kept = zeroed self.old.kept } }
        ensures zeroed { zeroed self.new.kept ≡ zeroed self.old.kept }
    {
        self.number = number;
        clear_objects(&mut self.locals);
        clear_arrays(&mut self.privates);
        clear_columns(&mut self.columns);
        clear_numbers(&mut self.entries);
        clear_numbers(&mut self.exits);
        clear_votes(&mut self.votes);
    }
}

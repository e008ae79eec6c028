// Reduce: a table into the smallest table with the same reports. States that the start does not reach are left out, states that no payload distinguishes are one.
#![tactic(auto)]

ghost use Rattle.std.specs.Prelude.{◌≡◌};
ghost use Rattle.paper.specs.Promises.{Reduces};
ghost use Rattle.answers.specs.Numbers.{answer_of, length_of};
ghost use Rattle.reduction.specs.Named.{Named};

use answers::{Built, Refusal};
use left::{Left, left_of};
use table::Accepted;

mod left;
mod written;

// The names after n rounds.
fn names_of(table: &Accepted) -> [u16; 512]
    ensures { Named table.now.table.bytes.now table.now.table.n result }
{
    let levels = toward::levels_of(table);
    let first = naming::first_names(table, &levels);
    rounds::refine(table, first)
}

// The table is judged, and the room filled with the reduced table; on ground 16 the room is shorter than that. The length of the reduced table.
fn reduced_into(table: &[u8], room: &mut [u8]) -> Result<u32, Refusal>
    ensures { Reduces table.now room.old (answer_of result) (length_of result) room.new }
{
    let table = table::judged(table)?;
    let left = left_of(&table, names_of(&table));
    let held = left.held();
    let whole = 262 + 2 * left.count + 2 * held + 2 * (left.count * table.table.k);
    if room.len() < whole {
        return Err(Refusal::Room);
    }
    left.fill(held, room);
    Ok(whole as u32)
}

// Reduce: table into the smallest table with the same reports. There are fewer than n rounds that change a name, each of at most n k steps, and each pair of states takes at most k more when it is parted.
pub fn reduce(table: &[u8], room: &mut [u8]) -> Built
    ensures { Reduces table.now room.old result.refused result.length room.new }
{
    Built::from(reduced_into(table, room))
}

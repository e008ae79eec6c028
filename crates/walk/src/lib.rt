// The plain walk: table, state, payload, room for reports. It is the scan without an image, so it makes no hops.
#![tactic(auto)]

ghost use Rattle.std.specs.Prelude.{◌≡◌, ◌≤◌, ◌<◌, length};
ghost use Rattle.paper.specs.Table as given;
ghost use Rattle.paper.specs.Scan.{walk_of};
ghost use Rattle.paper.specs.Operations.{scanning, walk};
ghost use Rattle.paper.specs.Promises.{IsScanned, Walks};
ghost use Rattle.labels.specs.Editions.{edition_in};
ghost use Rattle.running.specs.Outcome.{Outcome};

use answers::{Ran, Refusal, Scanned};
use labels::{Edition, Labels};
use over::Over;
use running::Tags;
use table::{Accepted, Table};

mod over;

// The walk of an accepted table, in its edition. It stops before the first byte whose reports have no room. As the scan's it is called in two places and so stays a function of its own, and the
// payload comes last: judging then leaves the loop the registers that it needs.
fn walk_accepted(
    table: &Accepted,
    edition: Edition,
    state: usize,
    room: &mut [u8],
    payload: &[u8],
) -> Ran
    requires { (edition_in edition ≡ given.edition table.now.table.bytes.now) × (state < table.now.table.n) × (length payload.now ≤ 65536) }
    ensures { IsScanned (scanning 0 (walk_of table.now.table.bytes.now state payload.now (length room.old)) room.old) 0 result.taken result.state result.reports result.hops room.new }
{
    let Table { bytes, n, .. } = table.table;
    let labels = Labels {
        bytes,
        at: 262,
        n,
        edition,
    };
    let firsts = labels.firsts();
    let tags = Tags {
        labels,
        firsts: &firsts,
    };
    running::ran(&Over { table: *table }, &tags, state, payload, room)
}

// The table is judged, then 14 and 15 are tested; the walk, or why there is none.
fn ran(table: &[u8], state: u32, payload: &[u8], room: &mut [u8]) -> Result<Ran, Refusal>
    ensures { Outcome result (walk table.now state payload.now room.old) room.new }
{
    let table = table::judged(table)?;
    running::allowed(table.table.n, state, payload)?;
    match table.table.edition {
        Edition::One => Ok(walk_accepted(&table, Edition::One, state as usize, room, payload)),
        Edition::Two => Ok(walk_accepted(&table, Edition::Two, state as usize, room, payload)),
    }
}

// Walk: table, state, payload, room for reports.
pub fn walk(table: &[u8], state: u32, payload: &[u8], room: &mut [u8]) -> Scanned
    ensures { Walks table.now state payload.now room.old result.refused result.taken result.state result.reports result.hops room.new }
{
    Scanned::from(ran(table, state, payload, room))
}

// Writes images: the operations write and compact.
#![tactic(auto)]

ghost use Rattle.std.specs.Prelude.{◌≡◌};
ghost use Rattle.paper.specs.Promises.{Writes, Compacts};
ghost use Rattle.answers.specs.Numbers.{answer_of, length_of};
ghost use Rattle.build.specs.Measured.{list_image_of, Drawn, Fills};

use answers::{Built, Refusal};
use choice::Order;
use table::Table;
use tally::Defaulted;

mod defaults;
mod parts;

use parts::Figures;
pub use parts::{Source, put_front, put_pair, put_records};

// 16: the room is shorter than the image. Else the image is written, with the order and the depth that are known of the defaults, and the entries that each state keeps with them. The length of the image.
pub fn image_into<S: Source>(
    source: &S,
    counts: &[u16; 512],
    chains: &chains::Order,
    room: &mut [u8],
) -> Result<u32, Refusal>
    requires { Drawn (S.table source.now) (S.defaults source.now) counts.now chains.now.order chains.now.depth }
    ensures { Fills (list_image_of (S.table source.now) (S.defaults source.now)) room.old (answer_of result) (length_of result) room.new }
{
    let n = source.states();
    let m = tally::sum_of(counts, n);
    let held = source.held();
    let whole = ending::image_length(n, m, held);
    if room.len() < whole as usize {
        return Err(Refusal::Room);
    }
    let worst = source.worst_by(&chains.order);
    let figures = Figures {
        n,
        held,
        counts,
        m,
        depth: chains.depth,
        worst,
    };
    parts::emit(source, &figures, room);
    Ok(whole)
}

// The table is judged and the list of defaults after it, and the room filled with the image; on ground 16 the room is shorter than that. The length of the image.
fn written_into(table: &[u8], defaults: &[u8], room: &mut [u8]) -> Result<u32, Refusal>
    ensures { Writes table.now defaults.now room.old (answer_of result) (length_of result) room.new }
{
    let table = table::judged(table)?;
    let Table { n, k, .. } = table.table;
    if defaults::list_bad(defaults, n) {
        return Err(Refusal::Defaults);
    }
    let def = defaults::values_of(defaults, n);
    let chains = chains::order_of(&def, n)?;
    let table = Defaulted { table, def: &def };
    let counts = table.counts();
    if tally::some_share_few(&def, &counts, n, k) {
        return Err(Refusal::FewShared);
    }
    image_into(&table, &counts, &chains, room)
}

// The order is found and the table judged after it, and the room filled with the image of the defaults in that order; on ground 16 the room is shorter than that. The length of the image.
fn compacted_into(table: &[u8], order: u32, bound: u16, room: &mut [u8]) -> Result<u32, Refusal>
    ensures { Compacts table.now order bound room.old (answer_of result) (length_of result) room.new }
{
    let order = Order::of(order).ok_or(Refusal::Order)?;
    let table = table::judged(table)?;
    let def = choice::defaults_of(&table, order.number(), bound);
    let chains = chains::order_of(&def, table.table.n)?;
    let table = Defaulted { table, def: &def };
    let counts = table.counts();
    image_into(&table, &counts, &chains, room)
}

// Write: table and a list of defaults from anyone into an image.
pub fn write(table: &[u8], defaults: &[u8], room: &mut [u8]) -> Built
    ensures { Writes table.now defaults.now room.old result.refused result.length room.new }
{
    Built::from(written_into(table, defaults, room))
}

// Compact: table, order and path bound into an image.
pub fn compact(table: &[u8], order: u32, bound: u16, room: &mut [u8]) -> Built
    ensures { Compacts table.now order bound room.old result.refused result.length room.new }
{
    Built::from(compacted_into(table, order, bound, room))
}

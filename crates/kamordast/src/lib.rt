// The front door: the operations as Rattle calls them, and as crate `kamordast_c` hands them to C. Each answers for all input that it can be handed.
// For a Rattle caller that opens an accepted image once and reads it, the view and its readers are handed on; what they ask stands in crate `view`.
#![tactic(auto)]

ghost use Rattle.paper.specs.Promises.{JudgesTable, JudgesImage, Writes, Compacts, Expands, Rewrites, Tabulates, Reduces, MovesForward, MovesBack, Scans, Walks, JudgesPatch, Applies, ScansPatched};

use answers::{Built, Scanned};
pub use apply::apply;
pub use build::{compact, write};
pub use expand::expand;
pub use image::Record;
pub use judge::judge_image;
pub use judgepatch::judge_patch;
pub use moves::{back, forward};
pub use patchscan::scan_patched;
pub use reduce::reduce;
pub use rewrite::rewrite;
pub use scan::scan;
pub use table::judge_table;
pub use tabulate::strings;
pub use view::{Counts, View, counted, label_of, open, record_from, record_of};
pub use walk::walk;

// Judges a plain table: 0, or the refusal's number.
pub fn kamordast_judge_table(table: &[u8]) -> u32
    ensures { JudgesTable table.now result }
{
    table::judge_table(table)
}

// Judges an image: 0, or the refusal's number.
pub fn kamordast_judge_image(image: &[u8]) -> u32
    ensures { JudgesImage image.now result }
{
    judge::judge_image(image)
}

// Writes the image of a table and a default list at the front of the room.
pub fn kamordast_write(table: &[u8], defaults: &[u8], room: &mut [u8]) -> Built
    ensures { Writes table.now defaults.now room.old result.refused result.length room.new }
{
    build::write(table, defaults, room)
}

// Compacts a table: chooses the bounded greedy forest in order 0 and writes its image at the front of the room.
pub fn kamordast_compact(table: &[u8], bound: u16, room: &mut [u8]) -> Built
    ensures { Compacts table.now 0 bound room.old result.refused result.length room.new }
{
    build::compact(table, 0, bound, room)
}

// Compacts a table in the order asked for: 0 by pairs, 1 BGS, 2 REF, 3 toward the start.
pub fn kamordast_compact_in_order(table: &[u8], order: u32, bound: u16, room: &mut [u8]) -> Built
    ensures { Compacts table.now order bound room.old result.refused result.length room.new }
{
    build::compact(table, order, bound, room)
}

// Expands an image into its table at the front of the room.
pub fn kamordast_expand(image: &[u8], room: &mut [u8]) -> Built
    ensures { Expands image.now room.old result.refused result.length room.new }
{
    expand::expand(image, room)
}

// Moves an image of edition 1 into edition 2 at the front of the room.
pub fn kamordast_forward(image: &[u8], room: &mut [u8]) -> Built
    ensures { MovesForward image.now room.old result.refused result.length room.new }
{
    moves::forward(image, room)
}

// Moves an image of edition 2 back into edition 1 at the front of the room.
pub fn kamordast_back(image: &[u8], room: &mut [u8]) -> Built
    ensures { MovesBack image.now room.old result.refused result.length room.new }
{
    moves::back(image, room)
}

// Rewrites an image without its defaults that share fewer than two classes, at the front of the room.
pub fn kamordast_rewrite(image: &[u8], room: &mut [u8]) -> Built
    ensures { Rewrites image.now room.old result.refused result.length room.new }
{
    rewrite::rewrite(image, room)
}

// Writes the table of a word list at the front of the room.
pub fn kamordast_strings(list: &[u8], room: &mut [u8]) -> Built
    ensures { Tabulates list.now room.old result.refused result.length room.new }
{
    tabulate::strings(list, room)
}

// Reduces a table to the smallest table with the same reports, at the front of the room.
pub fn kamordast_reduce(table: &[u8], room: &mut [u8]) -> Built
    ensures { Reduces table.now room.old result.refused result.length room.new }
{
    reduce::reduce(table, room)
}

// Scans a payload from a state and writes its reports at the front of the room.
pub fn kamordast_scan(image: &[u8], state: u32, payload: &[u8], room: &mut [u8]) -> Scanned
    ensures { Scans image.now state payload.now room.old result.refused result.taken result.state result.reports result.hops room.new }
{
    scan::scan(image, state, payload, room)
}

// Walks a payload from a state of a plain table, without an image, and writes its reports at the front of the room.
pub fn kamordast_walk(table: &[u8], state: u32, payload: &[u8], room: &mut [u8]) -> Scanned
    ensures { Walks table.now state payload.now room.old result.refused result.taken result.state result.reports result.hops room.new }
{
    walk::walk(table, state, payload, room)
}

// Judges a patch against an image: 0, or the refusal's number.
pub fn kamordast_judge_patch<'a>(image: &'a [u8], patch: &'a [u8]) -> u32
    ensures { JudgesPatch image.now patch.now result }
{
    judgepatch::judge_patch(image, patch)
}

// Applies a patch to an image: writes the new image at the front of the room.
pub fn kamordast_apply<'a>(image: &'a [u8], patch: &'a [u8], room: &mut [u8]) -> Built
    ensures { Applies image.now patch.now room.old result.refused result.length room.new }
{
    apply::apply(image, patch, room)
}

// Scans a payload with an image and a patch from a state: as a scan of the applied image.
pub fn kamordast_scan_patched<'a>(
    image: &'a [u8],
    patch: &'a [u8],
    state: u32,
    payload: &[u8],
    room: &mut [u8],
) -> Scanned
    ensures { ScansPatched image.now patch.now state payload.now room.old result.refused result.taken result.state result.reports result.hops room.new }
{
    patchscan::scan_patched(image, patch, state, payload, room)
}

// The reports of a byte, in the room.
ghost use Rattle.std.specs.Prelude.{◌≡◌, [], ◌∷◌, ◌+◌, ◌*◌, ◌≤◌, length};
ghost use Rattle.paper.specs.Scan.{report_bytes};
ghost use Rattle.paper.specs.Labels.{two};
ghost use Rattle.labels.specs.Editions.{edition_in};
ghost use Rattle.labels.specs.Tags.{many_of, numbers_from, tagged};
ghost use Rattle.words.specs.Placed.{placed};

use labels::Edition;

// Writes one report: the byte's offset (32 bits) and the label (16 bits).
fn put_report(room: &mut [u8], at: usize, offset: u32, label: u16)
    requires { at + 6 ≤ length room.old }
    ensures { room.new ≡ placed room.old at (report_bytes offset (label ∷ [])) }
{
    words::put32(room, at, offset);
    words::put16(room, at + 4, label);
}

// Writes a report for each of so many labels, which stand one behind the other from a place on.
fn put_reports(room: &mut [u8], at: usize, offset: u32, b: &[u8], from: usize, count: usize)
    requires { (at + 6 * count ≤ length room.old) × (from + 2 * count ≤ length b.now) }
    ensures { room.new ≡ placed room.old at (report_bytes offset (numbers_from b.now from count)) }
{
    for j in 0..count {
        let label = words::get16(b, from + 2 * j);
        put_report(room, at + 6 * j, offset, label);
    }
}

// Writes a report for each label that a tag stands for; those of edition 2 stand so many numbers behind the first count.
pub fn put_tagged(
    room: &mut [u8],
    at: usize,
    offset: u32,
    b: &[u8],
    counts: usize,
    first: u16,
    tag: u16,
    edition: Edition,
)
    requires { (¬ (tag ≡ 0)) × (at + 6 * many_of (edition_in edition) tag ≤ length room.old)
        × (edition_in edition ≡ two → counts + 2 * first + 2 * tag ≤ length b.now) }
    ensures { room.new ≡ placed room.old at (report_bytes offset (tagged (edition_in edition) b.now (counts + 2 * first) tag)) }
{
    match edition {
        Edition::One => put_report(room, at, offset, tag),
        Edition::Two => {
            put_reports(
                room,
                at,
                offset,
                b,
                counts + 2 * first as usize,
                tag as usize,
            )
        }
    }
}

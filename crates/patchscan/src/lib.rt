// The patched scan: image, patch, state, payload, room for reports. It is the scan, with each state's default and entries taken from the patch where it lists the state;
// where they stand is found once for each state.
#![tactic(auto)]

ghost use Rattle.std.specs.Prelude.{◌≡◌, ◌≤◌, ◌<◌, length};
ghost use Rattle.paper.specs.Image as given;
ghost use Rattle.paper.specs.Patch.{patched_scan_of};
ghost use Rattle.paper.specs.Operations.{scanning, patched_scan};
ghost use Rattle.paper.specs.Promises.{IsScanned, ScansPatched};
ghost use Rattle.labels.specs.Editions.{edition_in};
ghost use Rattle.running.specs.Outcome.{Outcome};

use answers::{Ran, Refusal, Scanned};
use image::Image;
use judgepatch::Patched;
use labels::{Edition, Labels};
use over::Over;
use running::Tags;

mod over;

// The scan of an image and a patch that were judged, in the image's edition. It is called in two places and so stays a function of its own: its arrays stand on the stack
// when those of the judge are gone. It stops before the first byte whose reports have no room. The payload comes last, so that it is handed over in memory,
// which leaves the loop a register more.
fn scan_judged(both: &Patched, edition: Edition, state: u16, room: &mut [u8], payload: &[u8]) -> Ran
    requires { (edition_in edition ≡ given.edition both.now.image.bytes.now) × (state < both.now.image.n) × (length payload.now ≤ 65536) }
    ensures { IsScanned (scanning 0 (patched_scan_of both.now.image.bytes.now both.now.x.now state payload.now (length room.old)) room.old) 0 result.taken result.state result.reports result.hops room.new }
{
    let Patched { image, x, p, q } = *both;
    let Image { bytes, n, m, .. } = image;
    // The k that is read here has 16 bits, so that a step of the look-up holds the count of a row to it at once; that of the struct takes an instruction more.
    let k = words::get16(bytes, 2) as usize;
    let mut up = [0u16; 512];
    let mut place = [0u32; 512];
    let mut left = [0u16; 512];
    let mut wait = [0u16; 512];
    overlaid::open_rows(
        bytes, n, k, m, x, p, q, &mut up, &mut place, &mut left, &mut wait,
    );
    let slots = patch::slots_of(x, p, q, n);
    let labels = Labels {
        bytes,
        at: 268,
        n,
        edition,
    };
    let over = Over {
        image: bytes,
        x,
        slots: &slots,
        up: &up,
        place: &place,
        left: &left,
        k,
    };
    let tags = Tags {
        labels,
        firsts: &labels.firsts(),
    };
    running::ran(&over, &tags, state as usize, payload, room)
}

// The image and the patch are judged, then 14 and 15 are tested; the scan, or why there is none.
fn ran<'a>(
    image: &'a [u8],
    x: &'a [u8],
    state: u32,
    payload: &[u8],
    room: &mut [u8],
) -> Result<Ran, Refusal>
    ensures { Outcome result (patched_scan image.now x.now state payload.now room.old) room.new }
{
    let both = judgepatch::judged(image, x)?;
    running::allowed(both.image.n, state, payload)?;
    match both.image.edition {
        Edition::One => Ok(scan_judged(&both, Edition::One, state as u16, room, payload)),
        Edition::Two => Ok(scan_judged(&both, Edition::Two, state as u16, room, payload)),
    }
}

// The patched scan: image, patch, state, payload, room for reports.
pub fn scan_patched<'a>(
    image: &'a [u8],
    x: &'a [u8],
    state: u32,
    payload: &[u8],
    room: &mut [u8],
) -> Scanned
    ensures { ScansPatched image.now x.now state payload.now room.old result.refused result.taken result.state result.reports result.hops room.new }
{
    Scanned::from(ran(image, x, state, payload, room))
}

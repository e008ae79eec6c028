// Apply: image and patch into a new image. Between two states that the patch lists records and entries are copied from the image at once; depth and worst are the patch's,
// which its judge has found right.
#![tactic(auto)]

ghost use Rattle.std.specs.Prelude.{◌≡◌, ◌+◌, ◌*◌, ◌≤◌, length};
ghost use Rattle.paper.specs.Below.{sum, each};
ghost use Rattle.paper.specs.Image.{states, entries, image_length_of};
ghost use Rattle.paper.specs.Results.{record_bytes, entry_bytes};
ghost use Rattle.paper.specs.Operations.{filled};
ghost use Rattle.paper.specs.Patch as patch;
ghost use Rattle.paper.specs.Patch.{patched_view, applied};
ghost use Rattle.paper.specs.Promises.{Applies};
ghost use Rattle.answers.specs.Numbers.{answer_of, length_of};
ghost use Rattle.words.specs.Placed.{placed};
ghost use Rattle.apply.specs.Setting.{Setting, Parted, Fitting};

use answers::{Built, Refusal};
use labels::Labels;

// The number of entries with the patch: the image's and the patch's, less those that the image has for the listed states.
fn total_of(
    image: &[u8],
    n: usize,
    m: usize,
    records: usize,
    x: &[u8],
    p: usize,
    q: usize,
    own: usize,
) -> u32
    requires { Setting image.now x.now n p records own × (m ≡ entries image.now) × (q ≡ patch.entries x.now) }
    ensures { result ≡ sum n (patched_view image.now x.now).count }
{
    let mut total = (m + q) as u32;
    for i in 0..p {
        let s = patch::state_at(x, i);
        total -= words::get16(image, records + 4 * s + 2) as u32;
    }
    total
}

// Writes the records of all n states.
fn put_records(
    image: &[u8],
    records: usize,
    x: &[u8],
    own: usize,
    p: usize,
    n: usize,
    room: &mut [u8],
    at: usize,
)
    requires { Setting image.now x.now n p records own × (at ≤ 20000) × (at + 4 * n ≤ length room.old) }
    ensures { room.new ≡ placed room.old at (each n (record_bytes (patched_view image.now x.now))) }
{
    let mut done = 0;
    for i in 0..p {
        let s = patch::state_at(x, i);
        words::copy(
            image,
            records + 4 * done,
            4 * (s - done),
            room,
            at + 4 * done,
        );
        words::copy(x, own + 4 * i, 4, room, at + 4 * s);
        done = s + 1;
    }
    words::copy(
        image,
        records + 4 * done,
        4 * (n - done),
        room,
        at + 4 * done,
    );
}

// Writes the entries of all n states; answers the place behind them.
fn put_entries(
    image: &[u8],
    begins: &[u32; 513],
    x: &[u8],
    own: &[u32; 65],
    p: usize,
    n: usize,
    room: &mut [u8],
    at: usize,
) -> usize
    requires { Parted image.now begins.now x.now own.now n p × (at ≤ 20000)
        × (at + 4 * sum n (patched_view image.now x.now).count ≤ length room.old) }
    ensures { (result ≡ at + 4 * sum n (patched_view image.now x.now).count)
        × (room.new ≡ placed room.old at (each n (entry_bytes (patched_view image.now x.now)))) }
{
    let mut here = at;
    let mut done = 0;
    for i in 0..p {
        let s = patch::state_at(x, i);
        let from = begins[done] as usize;
        let size = begins[s] as usize - from;
        words::copy(image, from, size, room, here);
        here += size;
        let start = own[i] as usize;
        let count = own[i + 1] as usize - start;
        words::copy(x, start, count, room, here);
        here += count;
        done = s + 1;
    }
    let from = begins[done] as usize;
    let size = begins[n] as usize - from;
    words::copy(image, from, size, room, here);
    here + size
}

// Fills the first bytes of the room with an accepted image and a patch that fits it, applied.
fn fill(
    image: &[u8],
    n: usize,
    held: usize,
    begins: &[u32; 513],
    records: usize,
    x: &[u8],
    p: usize,
    starts: &[u32; 65],
    own: usize,
    total: u32,
    depth: u16,
    worst: u16,
    room: &mut [u8],
)
    requires { Setting image.now x.now n p records own × Parted image.now begins.now x.now starts.now n p
        × Fitting image.now x.now n held total depth worst × (image_length_of n total held ≤ length room.old) }
    ensures { room.new ≡ filled (applied image.now x.now) room.old }
{
    build::put_front(image, depth, total, room);
    words::copy(image, 12, 256 + 2 * n + 2 * held, room, 12);
    put_records(image, records, x, own, p, n, room, 268 + 2 * n + 2 * held);
    let end = put_entries(image, begins, x, starts, p, n, room, 268 + 6 * n + 2 * held);
    ending::put_trailer(n, total, held, worst, room, end);
    ending::put_check(room, end + 10);
}

// The patch is judged against the image, and the room filled with the applied image; on ground 16 the room is shorter than that. The length of the applied image.
fn applied_into<'a>(image: &'a [u8], x: &'a [u8], room: &mut [u8]) -> Result<u32, Refusal>
    ensures { Applies image.now x.now room.old (answer_of result) (length_of result) room.new }
{
    let both = judgepatch::judged(image, x)?;
    let n = both.image.n;
    let m = both.image.m;
    let p = both.p;
    let q = both.q;
    let records = image::records_at(image, n, m);
    let own = patch::records_at(x, p, q);
    let total = total_of(image, n, m, records, x, p, q, own);
    let labels = Labels {
        bytes: image,
        at: 268,
        n,
        edition: both.image.edition,
    };
    let held = labels.behind();
    let whole = ending::image_length(n, total, held);
    if room.len() < whole as usize {
        return Err(Refusal::Room);
    }
    let begins = image::begins_of(image, n, m);
    let starts = patch::begins_of(x, p, q);
    let depth = words::get16(x, 2);
    let worst = words::get16(x, 4);
    fill(
        image, n, held, &begins, records, x, p, &starts, own, total, depth, worst, room,
    );
    Ok(whole)
}

// Apply: image and patch into a new image.
pub fn apply<'a>(image: &'a [u8], x: &'a [u8], room: &mut [u8]) -> Built
    ensures { Applies image.now x.now room.old result.refused result.length room.new }
{
    Built::from(applied_into(image, x, room))
}

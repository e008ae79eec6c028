// An image as its parts, found from its back: records, a state's entries, one step of look-up, and the look-up along the defaults.
#![tactic(auto)]

ghost use Rattle.std.specs.Prelude.{◌≡◌, ◌+◌, ◌*◌, ◌/◌, ◌≤◌, ◌<◌, length};
ghost use Rattle.paper.specs.View.{look};
ghost use Rattle.paper.specs.Image.{states, classes, entries, records_at_of, entries_part_of, image_view};
ghost use Rattle.image.specs.Forms.{record_at_of, step_of, stored_in_of};
ghost use Rattle.image.specs.Laid.{Laid, Begins, Rising, BelowAt, Near, Row, Ready};

mod judged;
mod lookup;

pub use judged::Image;
pub use lookup::Lookup;

// A record: the state that it falls to, none for a root, with a count of entries.
#[derive(Clone, Copy, PartialEq, Eq, Debug)]
pub struct Record {
    pub fallback: Option<u16>,
    pub count: u16,
}

// The record at a place.
pub fn record_at(image: &[u8], at: usize) -> Record
    requires { at + 3 < length image.now }
    ensures { result ≡ record_at_of image.now at }
{
    let default = words::get16(image, at);
    let count = words::get16(image, at + 2);
    let fallback = if default == 65535 {
        None
    } else {
        Some(default)
    };
    Record { fallback, count }
}

// Where the records begin: 4m + 12 bytes, and 4n before them, from the image's end.
pub fn records_at(image: &[u8], n: usize, m: usize) -> usize
    requires { (n ≡ states image.now) × (m ≡ entries image.now) × (4 * m + 12 + 4 * n ≤ length image.now) }
    ensures { result ≡ records_at_of image.now }
{
    image.len() - (4 * m + 12) - 4 * n
}

// Where each state's entries begin, and where the last end.
pub fn begins_of(image: &[u8], n: usize, m: usize) -> [u32; 513]
    requires { Laid image.now × (n ≡ states image.now) × (m ≡ entries image.now) }
    ensures { Begins image.now result }
{
    let records = records_at(image, n, m);
    let mut at = records + 4 * n;
    let mut begins = [0u32; 513];
    for s in 0..n {
        begins[s] = at as u32;
        at += 4 * (words::get16(image, records + 4 * s + 2) as usize);
    }
    begins[n] = at as u32;
    begins
}

// The entries of a state, as a part of the image.
pub fn entries_of<'a>(image: &'a [u8], begins: &[u32; 513], s: usize) -> &'a [u8]
    requires { Laid image.now × Begins image.now begins.now × (s < states image.now) }
    ensures { result.now ≡ entries_part_of image.now s }
{
    let from = begins[s] as usize;
    let end = begins[s + 1] as usize;
    &image[from..end]
}

// Halves a long row to a place near the class: every entry before it is below the class, and none eight or more places behind it is.
// The classes stand four bytes apart in lent bytes, so there is no list of them that the library's search could halve.
fn near(row: &[u8], count: usize, class: u16) -> usize
    requires { Rising row.now count }
    ensures { Near row.now count class result }
{
    let mut low = 0;
    let mut high = count;
    while low + 8 < high {
        let middle = (low + high) / 2;
        if words::get16(row, 4 * middle) < class {
            low = middle + 1;
        } else {
            high = middle;
        }
    }
    low
}

// The place where the search of a row begins, in bytes: a long row is halved to near the class first.
fn begin(row: &[u8], class: u16) -> usize
    requires { Rising row.now (length row.now / 4) }
    ensures { BelowAt row.now class result }
{
    if row.len() <= 32 {
        return 0;
    }
    4 * near(row, row.len() / 4, class)
}

// One step over a row whose classes rise: it ends at the first that is not below the class. It goes by places in bytes, which saves a multiplication a step.
fn search(row: &[u8], class: u16) -> Option<u16>
    requires { Rising row.now (length row.now / 4) }
    ensures { result ≡ step_of (stored_in_of row.now class) }
{
    // Tried and slower: `for` over the places by `step_by`, and over the entries (the look-up of 511 hops took 1.28 and 1.04 times the instructions).
    let mut at = begin(row, class);
    while at < row.len() {
        let c = words::get16(row, at);
        if class <= c {
            if class == c {
                return Some(words::get16(row, at + 2));
            }
            return None;
        }
        at += 4;
    }
    None
}

// One step of look-up in a state's entries. A state that stores all k classes stores class c at place c.
pub fn stored_in(row: &[u8], k: usize, class: u16) -> Option<u16>
    requires { Row row.now k × (k ≤ 256) × (class < k) }
    ensures { result ≡ step_of (stored_in_of row.now class) }
{
    if row.len() == 4 * k {
        return Some(words::get16(row, 4 * (class as usize) + 2));
    }
    search(row, class)
}

// What a look-up finds: the next state, the hops to the state that stores it, and that state, whose entry served.
#[derive(Drop)]
pub struct Found {
    pub target: u16,
    pub hops: u32,
    pub server: u16,
}

// Follows the defaults from a state to the first that stores the class.
pub fn look_up(
    image: &[u8],
    begins: &[u32; 513],
    records: usize,
    k: usize,
    state: u16,
    class: u16,
) -> Found
    requires { Ready image.now begins.now records k × (state < states image.now) × (class < classes image.now) }
    ensures { (result.target ≡ (look (image_view image.now) state class).target) × (result.hops ≡ (look (image_view image.now) state class).hops)
        × (result.server ≡ (look (image_view image.now) state class).server) }
{
    let mut s = state;
    let mut hops: u32 = 0;
    loop {
        let row = entries_of(image, begins, s as usize);
        if let Some(target) = stored_in(row, k, class) {
            return Found {
                target,
                hops,
                server: s,
            };
        }
        let record = record_at(image, records + 4 * (s as usize));
        // A root stores every class, so its 65535 is never reached.
        s = record.fallback.unwrap_or(65535);
        hops += 1;
    }
}

// An image opened once, as its bytes with its counts, and thin readers of it.
#![tactic(auto)]

ghost use Rattle.std.specs.Prelude.{◌≡◌, ◌+◌, ◌*◌, ◌<◌, length};
ghost use Rattle.paper.specs.Words.{number16};
ghost use Rattle.paper.specs.Image.{states, records_at_of};
ghost use Rattle.image.specs.Forms.{record_at_of};
ghost use Rattle.image.specs.Laid.{Laid};
ghost use Rattle.view.specs.Opened.{counts_in_front, Opened};

// The counts of an image: n states, k classes and m entries.
#[derive(Clone, Copy)]
pub struct Counts {
    pub n: u16,
    pub k: u16,
    pub m: u32,
}

// An image as its bytes with its counts.
#[derive(Clone, Copy)]
pub struct View<'a> {
    pub bytes: &'a [u8],
    pub n: u16,
    pub k: u16,
    pub m: u32,
}

// Reads the counts. The first word holds n and, in edition 2, 32768 above it.
pub fn counted(image: &[u8]) -> Counts
    requires { 11 < length image.now }
    ensures { result ≡ counts_in_front image.now }
{
    let word = words::get16(image, 0);
    let n = word % 32768;
    let k = words::get16(image, 2);
    let m = words::get32(image, 8);
    Counts { n, k, m }
}

// Opens an image.
pub fn open<'a>(image: &'a [u8]) -> View<'a>
    requires { 11 < length image.now }
    ensures { (result.bytes ≡ image.entry) × ((result.n ≡ (counts_in_front image.now).n) × ((result.k ≡ (counts_in_front image.now).k) × (result.m ≡ (counts_in_front image.now).m))) }
{
    let Counts { n, k, m } = counted(image);
    View {
        bytes: image,
        n,
        k,
        m,
    }
}

// The record of a state in an image that is opened.
pub fn record_of<'a>(v: View<'a>, state: u16) -> image::Record
    requires { Opened v.bytes.now v.n v.m × (state < v.n) }
    ensures { result ≡ record_at_of v.entry.bytes.now (records_at_of v.entry.bytes.now + 4 * state) }
{
    let image = v.bytes;
    let records = image::records_at(image, v.n as usize, v.m as usize);
    image::record_at(image, records + 4 * (state as usize))
}

// The same for a caller that holds no view: the image is opened, and the view is read.
pub fn record_from(image: &[u8], state: u16) -> image::Record
    requires { Laid image.now × (state < states image.now) }
    ensures { result ≡ record_at_of image.now (records_at_of image.now + 4 * state) }
{
    record_of(open(image), state)
}

// The number that stands for a state's labels in an image that is opened: in edition 1 its label, in edition 2 how many it has.
pub fn label_of<'a>(v: View<'a>, state: u16) -> u16
    requires { Opened v.bytes.now v.n v.m × (state < v.n) }
    ensures { result ≡ number16 v.entry.bytes.now (268 + 2 * state) }
{
    words::get16(v.bytes, 268 + 2 * (state as usize))
}

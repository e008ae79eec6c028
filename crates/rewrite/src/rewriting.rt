// The image that is rewritten, as what an image is written from: its table with the defaults that stay.
ghost use Rattle.std.specs.Prelude.{◌≡◌, ◌+◌, ◌≤◌, ◌<◌, length, get_or};
ghost use Rattle.paper.specs.Below.{each};
ghost use Rattle.paper.specs.Words.{Bytes};
ghost use Rattle.paper.specs.View.{stored, look};
ghost use Rattle.paper.specs.Image.{records_at_of, default_from_of, image_view};
ghost use Rattle.paper.specs.Results.{table_of};
ghost use Rattle.words.specs.Placed.{placed};
ghost use Rattle.image.specs.Laid.{Begins};
ghost use Rattle.chains.specs.Orders.{ParentFirst};
ghost use Rattle.chains.specs.Sweeps.{Falls};
ghost use Rattle.rewrite.specs.Staying.{Stays, hop_at_of, Hopped, root_entry};

use build::Source;
use image::Image;

// An accepted image, where its records begin, where the entries of each state begin, the default of each state and the one that stays, 65535 for none.
// In such an array of fixed length an Option would take twice the bytes.
#[derive(Clone, Copy)]
pub struct Rewriting<'i, 'a> {
    pub image: Image<'i>,
    pub records: usize,
    pub begins: &'a [u32; 513],
    pub def: &'a [u16; 512],
    pub stay: &'a [u16; 512],
    ghost readable: { Bytes image.bytes.now },
    ghost records_are: { records ≡ records_at_of image.bytes.now },
    ghost begins_long: { length begins.now ≡ 513 },
    ghost begin: { Begins image.bytes.now begins.now },
    ghost falls: { Falls (image_view image.bytes.now) image.n def.now },
    ghost staying: { Stays image.bytes.now image.n stay.now },
}

// The hops that state s takes for a class, where those of its default are known: none for a root or where it stores the class, else one more.
fn hop_at(stay: &[u16; 512], own: &[u16; 512], hop: &[u16; 512], s: usize) -> u16
    requires { (s < 512) × (¬ (get_or stay.now s 0 ≡ 65535) → (get_or stay.now s 0 < 512) × (get_or hop.now (get_or stay.now s 0) 0 < 512)) }
    ensures { result ≡ hop_at_of stay.now own.now hop.now s }
{
    let d = stay[s];
    if d == 65535 {
        return 0;
    }
    let x = own[s];
    if x != 65535 {
        return 0;
    }
    hop[d as usize] + 1
}

// The hops that each state takes for a class, where what each stores is known; a root stores every class.
fn take_hops(
    stay: &[u16; 512],
    order: &[u16; 512],
    n: usize,
    own: &[u16; 512],
    hop: &mut [u16; 512],
)
    requires { (n ≤ 512) × ParentFirst n stay.now order.now × (length hop.old ≡ 512) }
    ensures { Hopped n stay.now own.now hop.new }
{
    for x in &order[..n] {
        let s = *x as usize;
        hop[s] = hop_at(stay, own, hop, s);
    }
}

impl<'i, 'a> Rewriting<'i, 'a> {
    // Where the chain of state s goes on a class for which it stores x, or 65535 for nothing stored here.
    fn next_of(&self, s: usize, class: u16, x: u16) -> u16
        requires { (s < self.now.image.n) × (class < self.now.image.k) × (stored (image_view self.now.image.bytes.now) s class ≡ default_from_of x) }
        ensures { result ≡ (look (image_view self.now.image.bytes.now) s class).target }
    {
        if x != 65535 {
            return x;
        }
        let Image { bytes, k, .. } = self.image;
        let found = image::look_up(bytes, self.begins, self.records, k, s as u16, class);
        found.target
    }

    // Writes all k entries of a state that becomes a root; answers the place behind them. What the state stored is read entry by entry.
    fn put_root(&self, s: usize, room: &mut [u8], at: usize) -> usize
        requires { (s < self.now.image.n) × (at + length (each self.now.image.k (root_entry self.now.image.bytes.now s)) ≤ length room.old) }
        ensures { (result ≡ at + length (each self.now.image.k (root_entry self.now.image.bytes.now s)))
            × (room.new ≡ placed room.old at (each self.now.image.k (root_entry self.now.image.bytes.now s))) }
    {
        let Image { bytes, k, .. } = self.image;
        let end = self.begins[s + 1];
        let mut from = self.begins[s];
        let mut here = at;
        for c in 0..k {
            let class = c as u16;
            let x = sweep::own_at(bytes, from, end, class);
            let next = self.next_of(s, class, x);
            build::put_pair(room, here, class, next);
            from = sweep::next_place(from, x);
            here += 4;
        }
        here
    }
}

impl<'i, 'a> Source for Rewriting<'i, 'a> {
    ghost table = { λ r. table_of r.image.bytes.now };

    ghost defaults = { λ r. r.stay.now };

    fn states(&self) -> usize {
        self.image.n
    }

    fn held(&self) -> usize {
        let labels = self.image.labels();
        labels.behind()
    }

    fn def(&self) -> &[u16; 512] {
        self.stay
    }

    // Class by class, each entry of the image read once.
    fn worst_by(&self, order: &[u16; 512]) -> u16 {
        let Image { bytes, n, k, .. } = self.image;
        let begins = self.begins;
        let stay = self.stay;
        let mut cursor = *begins;
        let mut own = [0u16; 512];
        let mut hop = [0u16; 512];
        let mut worst = 0;
        for c in 0..k {
            sweep::take_class(bytes, n, c as u16, begins, &mut cursor, &mut own);
            take_hops(stay, order, n, &own, &mut hop);
            worst = words::most(&hop[..n], worst);
        }
        worst
    }

    fn put_front(&self, depth: u16, m: u32, room: &mut [u8]) {
        build::put_front(self.image.bytes, depth, m, room);
    }

    fn labels(&self, held: usize) -> &[u8] {
        let Image { bytes, n, .. } = self.image;
        &bytes[12..268 + 2 * n + 2 * held]
    }

    // They are copied where the default that stays is the image's; else all k are written.
    fn put_row(&self, s: usize, room: &mut [u8], at: usize) -> usize {
        let d = self.def[s];
        let g = self.stay[s];
        if d == g {
            let row = image::entries_of(self.image.bytes, self.begins, s);
            words::put_bytes(room, at, row);
            return at + row.len();
        }
        self.put_root(s, room, at)
    }
}

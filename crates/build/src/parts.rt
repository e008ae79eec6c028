// Writes the image of a table with its defaults, part by part in their order.
ghost use Rattle.std.specs.Prelude.{◌≡◌, ◌++◌, ◌+◌, ◌*◌, ◌≤◌, ◌<◌, List, ℕ, length};
ghost use Rattle.paper.specs.Below.{each};
ghost use Rattle.paper.specs.Words.{bytes16};
ghost use Rattle.paper.specs.Table.{edition, states, classes, start, class_of, behind};
ghost use Rattle.paper.specs.View.{depth_of, worst_hops};
ghost use Rattle.paper.specs.Image.{image_length_of};
ghost use Rattle.paper.specs.Results.{front};
ghost use Rattle.paper.specs.Operations.{filled};
ghost use Rattle.words.specs.Placed.{placed};
ghost use Rattle.chains.specs.Orders.{ParentFirst};
ghost use Rattle.tally.specs.Owned.{list_view};
ghost use Rattle.build.specs.Pieces.{classes_and_labels, listed_record, kept_entry, kept_row};
ghost use Rattle.build.specs.Measured.{list_image_of, Measured};

use labels::Labels;
use table::Table;
use tally::Defaulted;

// Writes the front: n with the edition, k and start as the table states them, depth and m.
pub fn put_front(t: &[u8], depth: u16, m: u32, room: &mut [u8])
    requires { (6 ≤ length t.now) × (12 ≤ length room.old) }
    ensures { room.new ≡ placed room.old 0 (front (edition t.now) (states t.now) (classes t.now) (start t.now) depth m) }
{
    words::put16(room, 0, words::get16(t, 0));
    words::put16(room, 2, words::get16(t, 2));
    words::put16(room, 4, words::get16(t, 4));
    words::put16(room, 6, depth);
    words::put32(room, 8, m);
}

// Writes two numbers of 16 bits, one behind the other.
pub fn put_pair(room: &mut [u8], at: usize, x: u16, y: u16)
    requires { at + 4 ≤ length room.old }
    ensures { room.new ≡ placed room.old at (bytes16 x ++ bytes16 y) }
{
    words::put16(room, at, x);
    words::put16(room, at + 2, y);
}

// Writes the records: the default and the count of each state.
pub fn put_records(def: &[u16; 512], counts: &[u16; 512], n: usize, room: &mut [u8], at: usize)
    requires { (n ≤ 512) × (at + 4 * n ≤ length room.old) }
    ensures { room.new ≡ placed room.old at (each n (listed_record def.now counts.now)) }
{
    for s in 0..n {
        put_pair(room, at + 4 * s, def[s], counts[s]);
    }
}

// Writes the entry of class c of state s, whose default is d or which has none, if the state keeps the class; answers the place behind it.
fn put_entry(t: &Table, d: u16, s: usize, c: usize, room: &mut [u8], at: usize) -> usize
    requires { (s < t.now.n) × (c < t.now.k) × (¬ (d ≡ 65535) → d < t.now.n)
        × (at + length (kept_entry t.now.bytes.now d s c) ≤ length room.old) }
    ensures { (result ≡ at + length (kept_entry t.now.bytes.now d s c))
        × (room.new ≡ placed room.old at (kept_entry t.now.bytes.now d s c)) }
{
    if tally::keeps(t, d, s, c) {
        put_pair(room, at, c as u16, t.next(s, c));
        return at + 4;
    }
    at
}

// What an image is written from: a table with a default for each state, that is read part by part.
pub trait Source {
    // The table.
    ghost table: { Self → List ℕ };

    // The default of each state, 65535 for none.
    ghost defaults: { Self → List ℕ };

    // n, the number of states.
    fn states(&self) -> usize
        ensures { result ≡ states (table self.now) };

    // How many labels are held behind their counts.
    fn held(&self) -> usize
        ensures { result ≡ behind (table self.now) };

    // The defaults.
    fn def(&self) -> &[u16; 512]
        ensures { result.now ≡ defaults self.now };

    // The worst, by an order in which each state comes after its default.
    fn worst_by(&self, order: &[u16; 512]) -> u16
        requires { ParentFirst (states (table self.now)) (defaults self.now) order.now }
        ensures { result ≡ worst_hops (list_view (table self.now) (defaults self.now)) (class_of (table self.now)) };

    // Writes the front with this depth and m.
    fn put_front(&self, depth: u16, m: u32, room: &mut [u8])
        requires { 12 ≤ length room.old }
        ensures { let t = table self.now in room.new ≡ placed room.old 0 (front (edition t) (states t) (classes t) (start t) depth m) };

    // The classes and the labels, of which so many are held behind their counts.
    fn labels(&self, held: usize) -> &[u8]
        requires { held ≡ behind (table self.now) }
        ensures { result.now ≡ classes_and_labels (table self.now) };

    // Writes the entries of state s; answers the place behind them.
    fn put_row(&self, s: usize, room: &mut [u8], at: usize) -> usize
        requires { let t = table self.now in (s < states t) × (at + length (kept_row t (classes t) (defaults self.now) s) ≤ length room.old) }
        ensures { let t = table self.now in (result ≡ at + length (kept_row t (classes t) (defaults self.now) s))
            × (room.new ≡ placed room.old at (kept_row t (classes t) (defaults self.now) s)) };
}

impl<'t, 'a> Source for Defaulted<'t, 'a> {
    ghost table = { λ d. d.table.table.bytes.now };

    ghost defaults = { λ d. d.def.now };

    fn states(&self) -> usize {
        self.table.table.n
    }

    fn held(&self) -> usize {
        let Table {
            bytes,
            edition,
            n,
            ..
        } = self.table.table;
        let labels = Labels {
            bytes,
            at: 262,
            n,
            edition,
        };
        labels.behind()
    }

    fn def(&self) -> &[u16; 512] {
        self.def
    }

    fn worst_by(&self, order: &[u16; 512]) -> u16 {
        self.worst(order)
    }

    fn put_front(&self, depth: u16, m: u32, room: &mut [u8]) {
        put_front(self.table.table.bytes, depth, m, room);
    }

    fn labels(&self, held: usize) -> &[u8] {
        let Table { bytes, n, .. } = self.table.table;
        &bytes[6..262 + 2 * n + 2 * held]
    }

    fn put_row(&self, s: usize, room: &mut [u8], at: usize) -> usize {
        let t = self.table.table;
        let d = self.def[s];
        let mut here = at;
        for c in 0..t.k {
            here = put_entry(&t, d, s, c, room, here);
        }
        here
    }
}

// Writes the entries, state by state; answers the place behind them.
fn put_entries<S: Source>(source: &S, n: usize, room: &mut [u8], at: usize) -> usize
    requires { let t = S.table source.now in (n ≡ states t) × (at + length (each n (kept_row t (classes t) (S.defaults source.now))) ≤ length room.old) }
    ensures { let t = S.table source.now in (result ≡ at + length (each n (kept_row t (classes t) (S.defaults source.now))))
        × (room.new ≡ placed room.old at (each n (kept_row t (classes t) (S.defaults source.now)))) }
{
    let mut here = at;
    for s in 0..n {
        here = source.put_row(s, room, here);
    }
    here
}

// What an image counts and states: n states, so many labels held behind their counts, the count of each state, all m entries, depth and worst.
#[derive(Clone, Copy)]
pub struct Figures<'a> {
    pub n: usize,
    pub held: usize,
    pub counts: &'a [u16; 512],
    pub m: u32,
    pub depth: u16,
    pub worst: u16,
}

// Writes the image of a table with its defaults, part by part.
pub fn emit<S: Source>(source: &S, f: &Figures, room: &mut [u8])
    requires { let t = S.table source.now in let def = S.defaults source.now in
        Measured t f.now.n (classes t) f.now.held def f.now.counts.now f.now.m × (f.now.depth ≡ depth_of (list_view t def))
        × (f.now.worst ≡ worst_hops (list_view t def) (class_of t)) × (image_length_of f.now.n f.now.m f.now.held ≤ length room.old) }
    ensures { room.new ≡ filled (list_image_of (S.table source.now) (S.defaults source.now)) room.old }
{
    let n = f.n;
    let held = f.held;
    source.put_front(f.depth, f.m, room);
    words::put_bytes(room, 12, source.labels(held));
    put_records(source.def(), f.counts, n, room, 268 + 2 * n + 2 * held);
    let end = put_entries(source, n, room, 268 + 6 * n + 2 * held);
    ending::put_trailer(n, f.m, held, f.worst, room, end);
    ending::put_check(room, end + 10);
}

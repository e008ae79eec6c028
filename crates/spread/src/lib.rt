// The parts of the table of an image set down in a room: what stands before the rows, and the rows, that of each state after that of its default.
#![tactic(auto)]

ghost use Rattle.std.specs.Prelude.{◌≡◌, ◌⊎◌, ℕ, ◌+◌, ◌*◌, ◌/◌, ◌≤◌, ◌<◌, length, get_or};
ghost use Rattle.std.proofs.Math.Option.{some};
ghost use Rattle.paper.specs.Image.{states, default_from_of, image_view};
ghost use Rattle.image.specs.Laid.{Row, Begins};
ghost use Rattle.chains.specs.Orders.{ParentFirst};
ghost use Rattle.chains.specs.Sweeps.{Falls};
ghost use Rattle.spread.specs.Kept.{Kept};
ghost use Rattle.spread.specs.Rows.{row_at, RowIn, Apart, RowCopied, Overlaid, Inherited, RowStands};
ghost use Rattle.spread.specs.Front.{rows_at, Fronted};

use image::Image;

// An accepted image, where the rows of its table begin, where the entries of each state begin, and the default of each.
// A default is a number, 65535 for none, as in the image: an array of options would take twice the memory.
#[derive(Clone, Copy)]
pub struct Spread<'i, 'a> {
    pub image: Image<'i>,
    pub first: usize,
    pub begins: &'a [u32; 513],
    pub def: &'a [u16; 512],
    ghost first_is: { first ≡ rows_at image.bytes.now },
    ghost begin: { Begins image.bytes.now begins.now },
    ghost falls: { Falls (image_view image.bytes.now) (states image.bytes.now) def.now },
}

// Sets down the first word, k and the start state, the classes, and the numbers of the labels, which end where the rows begin, as they stand in the image.
pub fn put_front(image: &[u8], first: usize, room: &mut [u8])
    requires { (6 ≤ first) × (first + 6 ≤ length image.now) × (first ≤ length room.old) }
    ensures { Fronted image.now first room.old room.new }
{
    words::put_bytes(room, 0, &image[0..6]);
    words::put_bytes(room, 6, &image[12..first + 6]);
}

// Where the row of a state begins in a table whose rows begin at `first`; at n, where the table ends.
pub fn row_at(first: usize, k: usize, s: usize) -> usize
    requires { (first ≤ 17670) × (k ≤ 256) × (s ≤ 512) }
    ensures { result ≡ row_at first k s }
{
    first + 2 * (s * k)
}

// Copies the k numbers of the row at `from` to the row at `to`, another row or the same. By `copy_within` it would call memmove, which the part's library need not have.
fn copy_row(room: &mut [u8], from: usize, to: usize, k: usize)
    requires { (from + 2 * k ≤ length room.old) × (to + 2 * k ≤ length room.old) × (Apart from to k ⊎ (from ≡ to)) }
    ensures { RowCopied room.old room.new from to k }
{
    for c in 0..k {
        let x = words::get16(room, from + 2 * c);
        words::put16(room, to + 2 * c, x);
    }
}

// Puts the next state of each entry of a state into the row at `at`, in the place of its class.
fn put_entries(part: &[u8], room: &mut [u8], at: usize, k: usize)
    requires { Row part.now k × (at + 2 * k ≤ length room.old) }
    ensures { Overlaid part.now room.old room.new at k (length part.now / 4) }
{
    for j in 0..part.len() / 4 {
        let class = words::get16(part, 4 * j) as usize;
        let next = words::get16(part, 4 * j + 2);
        words::put16(room, at + 2 * class, next);
    }
}

impl<'i, 'a> Spread<'i, 'a> {
    // Copies the row of the default of a state, if it has one, to the row of the state.
    fn copy_default(&self, s: usize, room: &mut [u8])
        requires { RowIn self.now.first self.now.image.k room.old s
            × ((d : ℕ) → default_from_of (get_or self.now.def.now s 0) ≡ some d → RowIn self.now.first self.now.image.k room.old d) }
        ensures { Inherited self.now.def.now room.old room.new self.now.first self.now.image.k s }
    {
        let d = self.def[s];
        if d == 65535 {
            return;
        }
        let k = self.image.k;
        let from = row_at(self.first, k, d as usize);
        let to = row_at(self.first, k, s);
        copy_row(room, from, to, k);
    }

    // Sets down the row of a state, where that of its default stands: the default's row, and the state's own entries over it.
    fn put_row(&self, s: usize, room: &mut [u8])
        requires { (row_at self.now.first self.now.image.k self.now.image.n ≤ length room.old) × (s < self.now.image.n)
            × ((d : ℕ) → default_from_of (get_or self.now.def.now s 0) ≡ some d → RowStands self.now.image.bytes.now self.now.first self.now.image.k room.old d) }
        ensures { let at = row_at self.now.first self.now.image.k s in
            RowStands self.now.image.bytes.now self.now.first self.now.image.k room.new s × Kept room.old room.new at (at + 2 * self.now.image.k) }
    {
        self.copy_default(s, room);
        put_entries(
            image::entries_of(self.image.bytes, self.begins, s),
            room,
            row_at(self.first, self.image.k, s),
            self.image.k,
        );
    }

    // Sets down the rows of all states, each after that of its default.
    pub fn put_rows(&self, order: &[u16; 512], room: &mut [u8])
        requires { (row_at self.now.first self.now.image.k self.now.image.n ≤ length room.old) × ParentFirst self.now.image.n self.now.def.now order.now }
        ensures { ((s : ℕ) → s < self.now.image.n → RowStands self.now.image.bytes.now self.now.first self.now.image.k room.new s)
            × Kept room.old room.new self.now.first (row_at self.now.first self.now.image.k self.now.image.n) }
    {
        for s in &order[..self.image.n] {
            self.put_row(*s as usize, room);
        }
    }
}

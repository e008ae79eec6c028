// The sweep over two classes at a time: what every chain gives for them, and after how many hops. Each entry is read once.
//
// Row s is the cells 2s and 2s + 1, one for each of the classes: the next state that the chain of s gives, and 1024 more than the hops. Row 512 is what a root falls
// to: 65535 and 0, never written. A class that is not below k is stored by nobody, so its cells count below 1024.
#![tactic(auto)]

ghost use Rattle.std.specs.Prelude.{◌≡◌, true, false, ℕ, List, MatchOption, ◌+◌, ◌*◌, ◌≤◌, ◌<◌, length, get_or};
ghost use Rattle.paper.specs.View.{View, any_entry, same_as_default};
ghost use Rattle.paper.specs.Image.{image_view};
ghost use Rattle.abreast.specs.Rows.{Fell};
ghost use Rattle.abreast.specs.Laid.{head_class_of, Waits, Kept, AllLaid};
ghost use Rattle.abreast.specs.Turned.{Turned, Long};
ghost use Rattle.abreast.specs.Keeps.{Fits, Ordered, Above, StandsIn, Bottom, in_one, Across};

pub mod opening;

// The class of the first of so many entries that wait at a place, 65535 where there is none.
pub fn head_class(b: &[u8], at: u32, left: u16) -> u16
    requires { ¬ (left ≡ 0) → at + 2 ≤ length b.now }
    ensures { result ≡ head_class_of b.now at left }
{
    if left == 0 {
        return 65535;
    }
    words::get16(b, at as usize)
}

// The row at a place becomes what the row at another place is, one hop further. Both cells are read before one is written.
fn fall(to: &mut [u16; 1026], hop: &mut [u16; 1026], from: usize, at: usize)
    requires { (length to.old ≡ 1026) × (length hop.old ≡ 1026) × (from + 2 ≤ 1026) × (at + 2 ≤ 1026) × ((q : ℕ) → q < 2 → get_or hop.old (from + q) 0 < 2000) }
    ensures { Fell to.old hop.old from at to.new hop.new }
{
    let mut t = [0u16; 2];
    let mut h = [0u16; 2];
    for q in 0..2 {
        t[q] = to[from + q];
        h[q] = hop[from + q] + 1;
    }
    for q in 0..2 {
        to[at + q] = t[q];
        hop[at + q] = h[q];
    }
}

// Where the entries behind those that were laid wait: the place, the number and the class of the first.
#[derive(Clone, Copy)]
struct Layer {
    at: u32,
    left: u16,
    class: u16,
}

// Lays the entries of the two classes from `first` on over the row at a place; none where one is there already.
fn lay(
    b: &[u8],
    at: u32,
    left: u16,
    class: u16,
    first: usize,
    row: usize,
    to: &mut [u16; 1026],
    hop: &mut [u16; 1026],
) -> Option<Layer>
    requires { Waits b.now at first left × (class ≡ head_class_of b.now at left) × (first ≤ 256) × (row + 2 ≤ 1026) × (length to.old ≡ 1026) × (length hop.old ≡ 1026) }
    ensures { (length to.new ≡ 1026) × (length hop.new ≡ 1026)
        × MatchOption result (Kept b.now at first row to.old left)
        (λ layer. (count : ℕ) × AllLaid b.now at first row left to.old hop.old to.new hop.new count layer.at layer.left layer.class) }
{
    let mut place = at;
    let mut more = left;
    let mut c = class;
    while (c as usize) < first + 2 {
        let t = words::get16(b, place as usize + 2);
        let cell = row + (c as usize - first);
        let kept = to[cell];
        if kept == t {
            return None;
        }
        to[cell] = t;
        hop[cell] = 1024;
        place += 4;
        more -= 1;
        c = head_class(b, place, more);
    }
    Some(Layer {
        at: place,
        left: more,
        class: c,
    })
}

// One state in its turn: its row falls from another, and its entries of the two classes are laid over it. True where one of them is what the row fell to.
pub fn turn(
    b: &[u8],
    first: usize,
    s: usize,
    from: usize,
    place: &mut [u32; 512],
    left: &mut [u16; 512],
    wait: &mut [u16; 512],
    to: &mut [u16; 1026],
    hop: &mut [u16; 1026],
) -> bool
    requires { (s < 512) × (from ≤ 512) × (first ≤ 256) × Waits b.now (get_or place.old s 0) first (get_or left.old s 0)
        × (get_or wait.old s 0 ≡ head_class_of b.now (get_or place.old s 0) (get_or left.old s 0)) × (get_or wait.old s 0 < 65536) × Long place.old left.old wait.old to.old hop.old
        × ((q : ℕ) → q < 2 → get_or hop.old (2 * from + q) 0 < 2000) }
    ensures { Long place.new left.new wait.new to.new hop.new
        × (result ≡ true → Kept b.now (get_or place.old s 0) first (2 * from) to.old (get_or left.old s 0))
        × (result ≡ false → Turned b.now first s from place.old left.old to.old hop.old wait.old
        place.new left.new wait.new to.new hop.new) }
{
    fall(to, hop, 2 * from, 2 * s);
    let class = wait[s];
    if first + 2 <= class as usize {
        return false;
    }
    match lay(b, place[s], left[s], class, first, 2 * s, to, hop) {
        None => true,
        Some(layer) => {
            place[s] = layer.at;
            left[s] = layer.left;
            wait[s] = layer.class;
            false
        }
    }
}

// Where the entries of the states stand: in one image, or in an image with a patch over it.
pub trait Entries {
    // The view that the states and their entries make.
    ghost view: { Self → View };

    // The bytes in which the entries of a state stand.
    ghost bytes: { Self → ℕ → List ℕ };

    // These bytes.
    fn bytes_of(&self, s: usize) -> &[u8]
        requires { s < (view self.now).states }
        ensures { result.now ≡ bytes self.now s };
}

// The entries of one image.
#[derive(Clone, Copy)]
pub struct OneImage<'a> {
    pub image: &'a [u8],
}

impl<'a> Entries for OneImage<'a> {
    ghost view = { λ e. image_view e.image.now };

    ghost bytes = { λ e. in_one e.image.now };

    fn bytes_of(&self, _s: usize) -> &[u8] {
        self.image
    }
}

// The two classes from `first` on for all states, each after its default. True where some entry is what its default's chain gives.
pub fn two_classes<E: Entries>(
    entries: &E,
    n: usize,
    first: usize,
    order: &[u16; 512],
    up: &[u16; 512],
    place: &mut [u32; 512],
    left: &mut [u16; 512],
    wait: &mut [u16; 512],
    to: &mut [u16; 1026],
    hop: &mut [u16; 1026],
) -> bool
    requires { Fits (E.view entries.now) n × Ordered (E.view entries.now) n order.now × Above (E.view entries.now) n up.now × (first ≤ 256)
        × Long place.old left.old wait.old to.old hop.old × Bottom to.old hop.old
        × ((s : ℕ) → s < n → StandsIn (E.view entries.now) (E.bytes entries.now) first place.old left.old wait.old s) }
    ensures { Long place.new left.new wait.new to.new hop.new
        × (result ≡ true → any_entry (E.view entries.now) (same_as_default (E.view entries.now)) ≡ true)
        × (result ≡ false → Across (E.view entries.now) (E.bytes entries.now) n first place.new left.new wait.new to.new hop.new) }
{
    for i in 0..n {
        let s = order[i] as usize;
        let from = up[s] as usize;
        let b = entries.bytes_of(s);
        if turn(b, first, s, from, place, left, wait, to, hop) {
            return true;
        }
    }
    false
}

// A patch as its parts, found from its back as in an image: which states it lists, its records and its entries.
#![tactic(auto)]

ghost use Rattle.std.specs.Prelude.{◌≡◌, ◌||◌, ◌+◌, ◌*◌, ◌≤◌, ◌<◌, leb, length};
ghost use Rattle.paper.specs.Below.{any};
ghost use Rattle.paper.specs.Patch as patch;
ghost use Rattle.paper.specs.Patch.{state_at_of, state_falls, shape_bad_of};
ghost use Rattle.patch.specs.Shaped.{Shaped, Counts, PatchBegins};
ghost use Rattle.patch.specs.Listed.{Listed, Slots};

pub mod in_entries;
pub mod in_records;

// Ground 22: the patch is under 22 bytes, p is not from 1 to 64, the length is not the one that p and q give, the trailer's whole length or distance back is wrong, or
// the check word differs. The four bytes of an entry are counted in 64 bits, so that no q comes round.
pub fn shape_bad(x: &[u8]) -> bool
    ensures { result ≡ shape_bad_of x.now }
{
    if x.len() < 22 {
        return true;
    }
    let p = words::get16(x, 0) as usize;
    if p < 1 || 64 < p {
        return true;
    }
    let q = words::get32(x, 6) as usize;
    if x.len() != 22 + 6 * p + 4 * q {
        return true;
    }
    if judge::trailer_bad(x, q) {
        return true;
    }
    judge::check_bad(x)
}

// The number of a listed state.
pub fn state_at(x: &[u8], i: usize) -> usize
    requires { 12 + 2 * i ≤ length x.now }
    ensures { result ≡ state_at_of x.now i }
{
    words::get16(x, 10 + 2 * i) as usize
}

// 24 at one listed state: it is not above the one before, or not below n.
fn state_bad(x: &[u8], i: usize, n: usize) -> bool
    requires { 12 + 2 * i ≤ length x.now }
    ensures { result ≡ (state_falls x.now i || leb n (state_at_of x.now i)) }
{
    let s = state_at(x, i);
    if n <= s {
        return true;
    }
    if i == 0 {
        return false;
    }
    s <= state_at(x, i - 1)
}

// Ground 24: some listed state is not above the one before, or not below n.
pub fn states_bad(x: &[u8], p: usize, q: usize, n: usize) -> bool
    requires { Shaped x.now p q }
    ensures { result ≡ any p (λ i. state_falls x.now i || leb n (state_at_of x.now i)) }
{
    for i in 0..p {
        if state_bad(x, i, n) {
            return true;
        }
    }
    false
}

// Where the records begin: 4q + 12 bytes, and 4p before them, from the patch's end.
pub fn records_at(x: &[u8], p: usize, q: usize) -> usize
    requires { Shaped x.now p q }
    ensures { (result ≡ patch.records_at_of x.now) × (result + 4 * p + 4 * q + 12 ≡ length x.now) }
{
    x.len() - (4 * q + 12) - 4 * p
}

// Where the entries of each listed state begin, and where the last end.
pub fn begins_of(x: &[u8], p: usize, q: usize) -> [u32; 65]
    requires { Counts x.now p q }
    ensures { PatchBegins x.now p result }
{
    let records = records_at(x, p, q);
    let mut at = records + 4 * p;
    let mut begins = [0u32; 65];
    for i in 0..p {
        begins[i] = at as u32;
        at += 4 * (words::get16(x, records + 4 * i + 2) as usize);
    }
    begins[p] = at as u32;
    begins
}

// The entries of a listed state, as a part of the patch.
pub fn entries_of<'a>(x: &'a [u8], begins: &[u32; 65], p: usize, q: usize, i: usize) -> &'a [u8]
    requires { Counts x.now p q × PatchBegins x.now p begins.now × (i < p) }
    ensures { result.now ≡ patch.entries_part_of x.now i }
{
    let from = begins[i] as usize;
    let end = begins[i + 1] as usize;
    &x[from..end]
}

// For each state its place in the patch's list, counted from 1, or 0.
pub fn slots_of(x: &[u8], p: usize, q: usize, n: usize) -> [u8; 512]
    requires { Shaped x.now p q × Listed x.now p n × (n ≤ 512) }
    ensures { Slots x.now n result }
{
    let mut slots = [0u8; 512];
    for i in 0..p {
        let s = state_at(x, i);
        slots[s] = (i + 1) as u8;
    }
    slots
}

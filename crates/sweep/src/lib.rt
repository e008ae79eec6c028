// Grounds 11, 12 and 13 of an image that has passed the first ten: two classes at a time, the states each after its default, so that every entry is read once.
#![tactic(auto)]

ghost use Rattle.std.specs.Prelude.{◌≡◌, ℕ, [], ◌∷◌, ◌+◌, ◌≤◌, ◌<◌, length, IfOk};
ghost use Rattle.paper.specs.Below.{any};
ghost use Rattle.paper.specs.Refusals.{first};
ghost use Rattle.paper.specs.View.{endless, depth_of, worst_hops, any_entry, same_as_default};
ghost use Rattle.paper.specs.Image.{states, classes, entries, class_of, image_view};
ghost use Rattle.image.specs.Laid.{Begins};
ghost use Rattle.chains.specs.Sweeps.{Falls, Stores};
ghost use Rattle.facts.proofs.TableFacts.{Classed};
ghost use Rattle.answers.specs.Numbers.{answer_of};
ghost use Rattle.abreast.specs.Keeps.{Fits, Ordered};
ghost use Rattle.abreast.specs.Opened.{Opened};
ghost use Rattle.image.specs.Grounds.{later_grounds};
ghost use Rattle.image.specs.Passed.{Passed};
ghost use Rattle.sweep.specs.Cursors.{Cursors, own_at, behind};

use abreast::{Entries, OneImage};
use answers::Refusal;
use chains::Order;

// The default of each state as a number, 65535 for none.
pub fn defaults_of(image: &[u8], n: usize, m: usize) -> [u16; 512]
    requires { Passed image.now n (classes image.now) m }
    ensures { Falls (image_view image.now) n result × (length result ≡ 512) }
{
    let records = image.len() - (4 * m + 12) - 4 * n;
    let mut def = [0u16; 512];
    for s in 0..n {
        def[s] = words::get16(image, records + 4 * s);
    }
    def
}

// The next state of the entry at a place, if the place is before `end` and the entry is of the class; 65535 for none.
// It stands so in `own`, a list of fixed length in which an Option would take twice the bytes.
pub fn own_at(image: &[u8], at: u32, end: u32, class: u16) -> u16
    requires { (end ≤ length image.now) × (at < end → at + 4 ≤ end) }
    ensures { result ≡ own_at image.now at end class }
{
    if at < end {
        let from = at as usize;
        if words::get16(image, from) == class {
            return words::get16(image, from + 2);
        }
    }
    65535
}

// The place behind an entry that was taken; the same place where none was.
pub fn next_place(at: u32, taken: u16) -> u32
    requires { at ≤ 600000 }
    ensures { result ≡ behind at taken }
{
    if taken == 65535 {
        return at;
    }
    at + 4
}

// What each state stores for the class, 65535 for nothing; the cursors go behind it.
pub fn take_class(
    image: &[u8],
    n: usize,
    class: u16,
    begins: &[u32; 513],
    cursor: &mut [u32; 513],
    own: &mut [u16; 512],
)
    requires { Passed image.now n (classes image.now) (entries image.now) × Begins image.now begins.now
        × Cursors image.now class n cursor.old × (length cursor.old ≡ 513) × (length own.old ≡ 512) }
    ensures { Stores (image_view image.now) class n own.new × Cursors image.now (class + 1) n cursor.new
        × (length cursor.new ≡ 513) × (length own.new ≡ 512) }
{
    for s in 0..n {
        let at = cursor[s];
        let end = begins[s + 1];
        let taken = own_at(image, at, end, class);
        own[s] = taken;
        cursor[s] = next_place(at, taken);
    }
}

// 12: some entry is what its default's chain gives. Else the largest hops, two classes at a time, where the rows of the states are opened.
pub fn largest_hops<E: Entries>(
    entries: &E,
    n: usize,
    k: usize,
    order: &[u16; 512],
    up: &[u16; 512],
    place: &mut [u32; 512],
    left: &mut [u16; 512],
    wait: &mut [u16; 512],
) -> Result<u16, Refusal>
    requires { Fits (E.view entries.now) n × (k ≡ (E.view entries.now).classes) × Ordered (E.view entries.now) n order.now
        × Opened (E.view entries.now) (E.bytes entries.now) n up.now place.old left.old wait.old }
    ensures needless { answer_of result ≡ first ((12, any_entry (E.view entries.now) (same_as_default (E.view entries.now))) ∷ []) }
    ensures worst { IfOk result (λ far. (class_of : ℕ → ℕ) → Classed 256 (E.view entries.now).classes class_of → far ≡ worst_hops (E.view entries.now) class_of) }
{
    let mut to = [65535u16; 1026];
    let mut hop = [0u16; 1026];
    let mut most = 1024;
    for pair in 0..(k + 1) / 2 {
        let first = 2 * pair;
        if abreast::two_classes(
            entries, n, first, order, up, place, left, wait, &mut to, &mut hop,
        ) {
            return Err(Refusal::Needless);
        }
        most = words::most(&hop[..2 * n], most);
    }
    Ok(most - 1024)
}

// 12 and the worst of 13 of an image.
fn sweep(image: &[u8], n: usize, k: usize, m: usize, order: &[u16; 512]) -> Result<u16, Refusal>
    requires { Passed image.now n k m × Ordered (image_view image.now) n order.now }
    ensures needless { answer_of result ≡ first ((12, any_entry (image_view image.now) (same_as_default (image_view image.now))) ∷ []) }
    ensures worst { IfOk result (λ far. far ≡ worst_hops (image_view image.now) (class_of image.now)) }
{
    let mut up = [0u16; 512];
    let mut place = [0u32; 512];
    let mut left = [0u16; 512];
    let mut wait = [0u16; 512];
    abreast::opening::open_rows(image, n, m, &mut up, &mut place, &mut left, &mut wait);
    let entries = OneImage { image };
    largest_hops(&entries, n, k, order, &up, &mut place, &mut left, &mut wait)
}

// 11: some chain has no end. Else the depth and the states each after its default. The list of defaults is gone when the sweep begins.
fn ordered(image: &[u8], n: usize, m: usize) -> Result<Order, Refusal>
    requires { Passed image.now n (classes image.now) m }
    ensures endless { answer_of result ≡ first ((11, any (states image.now) (endless (image_view image.now))) ∷ []) }
    ensures ordered { IfOk result (λ o. (depth_of (image_view image.now) ≡ o.depth) × Ordered (image_view image.now) n o.order) }
{
    let def = defaults_of(image, n, m);
    chains::order_of(&def, n)
}

// 11, 12 and 13 of an image that has passed the first ten grounds.
pub fn last_grounds(image: &[u8], n: usize, k: usize, m: usize) -> Result<(), Refusal>
    requires { Passed image.now n k m }
    ensures { answer_of result ≡ first (later_grounds image.now) }
{
    // The answer is looked into where it stands: taken apart by `?` it would be copied, 1,028 bytes of the stack.
    let answer = ordered(image, n, m);
    let chains = match &answer {
        Ok(chains) => chains,
        Err(refusal) => return Err(*refusal),
    };
    let far = sweep(image, n, k, m, &chains.order)?;
    let depth = words::get16(image, 6);
    let deep = chains.depth;
    if depth != deep {
        return Err(Refusal::Costs);
    }
    let worst = words::get16(image, image.len() - 4);
    if worst != far {
        return Err(Refusal::Costs);
    }
    Ok(())
}

// Grounds 11, 12 and 13 of an image with a patch laid over it, over all n states: a patch of one state can close a ring through others, make an entry of another state
// needless and change depth and worst far away. The sweep is the image's, two classes at a time; only where the entries of a state wait is chosen for each state.
#![tactic(auto)]

ghost use Rattle.std.specs.Prelude.{◌≡◌, ℕ, [], ◌∷◌, ◌≤◌, ◌<◌, length, IfOk};
ghost use Rattle.paper.specs.Below.{any};
ghost use Rattle.paper.specs.Refusals.{first};
ghost use Rattle.paper.specs.View.{endless, depth_of, worst_hops, any_entry, same_as_default};
ghost use Rattle.paper.specs.Image.{states, class_of};
ghost use Rattle.paper.specs.Patch.{patched_view};
ghost use Rattle.chains.specs.Sweeps.{Falls};
ghost use Rattle.answers.specs.Numbers.{answer_of};
ghost use Rattle.abreast.specs.Keeps.{Ordered};
ghost use Rattle.patch.specs.Listed.{Slots};
ghost use Rattle.patch.specs.Overlay.{Overlay};
ghost use Rattle.abreast.specs.Opened.{Opened};
ghost use Rattle.overlaid.specs.Chosen.{chosen, bytes_of, last_grounds_of};

use abreast::Entries;
use answers::Refusal;
use chains::Order;

// The bytes in which the entries of a state wait: the patch's where it lists the state, else the image's. One lifetime stands for both, here and in every function above.
pub fn either<'a>(image: &'a [u8], x: &'a [u8], slot: u8) -> &'a [u8]
    ensures { result.now ≡ chosen image.now x.now slot }
{
    if slot == 0 {
        return image;
    }
    x
}

// The default of each state as a number, 65535 for none: the image's, and over them the patch's.
fn defaults_of(
    image: &[u8],
    n: usize,
    k: usize,
    m: usize,
    x: &[u8],
    p: usize,
    q: usize,
) -> [u16; 512]
    requires { Overlay image.now x.now n k m p q }
    ensures { Falls (patched_view image.now x.now) n result }
{
    let mut def = sweep::defaults_of(image, n, m);
    let records = patch::records_at(x, p, q);
    for i in 0..p {
        let s = patch::state_at(x, i);
        def[s] = words::get16(x, records + 4 * i);
    }
    def
}

// For each state the row that it falls from, the place of its entries, how many they are, and the class of the first: the image's, and over them the patch's.
pub fn open_rows(
    image: &[u8],
    n: usize,
    k: usize,
    m: usize,
    x: &[u8],
    p: usize,
    q: usize,
    up: &mut [u16; 512],
    place: &mut [u32; 512],
    left: &mut [u16; 512],
    wait: &mut [u16; 512],
)
    requires { Overlay image.now x.now n k m p q × (length up.old ≡ 512) × (length place.old ≡ 512) × (length left.old ≡ 512) × (length wait.old ≡ 512) }
    ensures { Opened (patched_view image.now x.now) (bytes_of image.now x.now) n up.new place.new left.new wait.new }
{
    abreast::opening::open_rows(image, n, m, up, place, left, wait);
    let records = patch::records_at(x, p, q);
    let mut at = records + 4 * p;
    for i in 0..p {
        let s = patch::state_at(x, i);
        let record = image::record_at(x, records + 4 * i);
        let count = record.count;
        up[s] = record.fallback.unwrap_or(512);
        place[s] = at as u32;
        left[s] = count;
        wait[s] = abreast::head_class(x, at as u32, count);
        at += 4 * count as usize;
    }
}

// An image with a patch laid over it, with the slot of each state.
#[derive(Clone, Copy)]
pub struct Overlaid<'a> {
    pub image: &'a [u8],
    pub x: &'a [u8],
    pub slots: &'a [u8; 512],
    ghost slots_are: { Slots x.now (states image.now) slots.now },
    ghost few: { states image.now ≤ 512 },
}

impl<'a> Entries for Overlaid<'a> {
    ghost view = { λ e. patched_view e.image.now e.x.now };

    ghost bytes = { λ e. bytes_of e.image.now e.x.now };

    fn bytes_of(&self, s: usize) -> &[u8] {
        either(self.image, self.x, self.slots[s])
    }
}

// 12 and the worst of 13 of an image with a patch.
fn sweep<'a>(
    image: &'a [u8],
    n: usize,
    k: usize,
    m: usize,
    x: &'a [u8],
    p: usize,
    q: usize,
    order: &[u16; 512],
) -> Result<u16, Refusal>
    requires { Overlay image.now x.now n k m p q × Ordered (patched_view image.now x.now) n order.now }
    ensures needless { answer_of result ≡ first ((12, any_entry (patched_view image.now x.now) (same_as_default (patched_view image.now x.now))) ∷ []) }
    ensures worst { IfOk result (λ far. far ≡ worst_hops (patched_view image.now x.now) (class_of image.now)) }
{
    let mut up = [0u16; 512];
    let mut place = [0u32; 512];
    let mut left = [0u16; 512];
    let mut wait = [0u16; 512];
    open_rows(
        image, n, k, m, x, p, q, &mut up, &mut place, &mut left, &mut wait,
    );
    let slots = patch::slots_of(x, p, q, n);
    let entries = Overlaid {
        image,
        x,
        slots: &slots,
    };
    sweep::largest_hops(&entries, n, k, order, &up, &mut place, &mut left, &mut wait)
}

// 11: some chain has no end. Else the depth and the states each after its default.
fn ordered(
    image: &[u8],
    n: usize,
    k: usize,
    m: usize,
    x: &[u8],
    p: usize,
    q: usize,
) -> Result<Order, Refusal>
    requires { Overlay image.now x.now n k m p q }
    ensures endless { answer_of result ≡ first ((11, any (states image.now) (endless (patched_view image.now x.now))) ∷ []) }
    ensures ordered { IfOk result (λ o. (depth_of (patched_view image.now x.now) ≡ o.depth) × Ordered (patched_view image.now x.now) n o.order) }
{
    let def = defaults_of(image, n, k, m, x, p, q);
    chains::order_of(&def, n)
}

// 11, 12 and 13 of an image with a patch that has passed the grounds before them.
pub fn last_grounds<'a>(
    image: &'a [u8],
    n: usize,
    k: usize,
    m: usize,
    x: &'a [u8],
    p: usize,
    q: usize,
) -> Result<(), Refusal>
    requires { Overlay image.now x.now n k m p q }
    ensures { answer_of result ≡ first (last_grounds_of image.now x.now) }
{
    let chains = ordered(image, n, k, m, x, p, q)?;
    let far = sweep(image, n, k, m, x, p, q, &chains.order)?;
    let deep = chains.depth;
    let depth = words::get16(x, 2);
    if depth != deep {
        return Err(Refusal::Costs);
    }
    let worst = words::get16(x, 4);
    if worst != far {
        return Err(Refusal::Costs);
    }
    Ok(())
}

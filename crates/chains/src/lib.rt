// The states each after its default, the depth, and for one class what every chain gives and after how many hops.
#![tactic(auto)]

ghost use Rattle.std.specs.Prelude.{◌≡◌, [], ◌∷◌, ℕ, ◌≤◌, ◌<◌, length, get_or, IfOk};
ghost use Rattle.std.proofs.Math.Option.{some};
ghost use Rattle.paper.specs.Below.{any};
ghost use Rattle.paper.specs.Refusals.{first};
ghost use Rattle.answers.specs.Numbers.{answer_of};
ghost use Rattle.paper.specs.View.{endless, depth_of};
ghost use Rattle.paper.specs.Image.{default_from_of};
ghost use Rattle.chains.specs.Orders.{defaults_view, InRange, ChainLength, ParentFirst};
ghost use Rattle.chains.specs.Sweeps.{RootsStore, kept_at, reckoned, Resolves};

use answers::Refusal;

mod setting;

// The length of the chain of s, where that of its default's chain is known.
fn length_at(def: &[u16; 512], len: &[u16; 512], n: usize, s: usize) -> u16
    requires { (n ≤ 512) × (s < n) × InRange n def.now
        × ((d : ℕ) → default_from_of (get_or def.now s 0) ≡ some d → ChainLength n def.now d (get_or len.now d 0)) }
    ensures { ChainLength n def.now s result }
{
    let d = def[s];
    if d == 65535 {
        return 0;
    }
    len[d as usize] + 1
}

// The length of each state's chain, in an order in which each state comes after its default.
fn lengths(def: &[u16; 512], order: &[u16; 512], n: usize) -> [u16; 512]
    requires { (n ≤ 512) × InRange n def.now × ParentFirst n def.now order.now }
    ensures { (s : ℕ) → s < n → ChainLength n def.now s (get_or result s 0) }
{
    let mut len = [0u16; 512];
    for i in 0..n {
        let s = order[i] as usize;
        let l = length_at(def, &len, n, s);
        len[s] = l;
    }
    len
}

// The depth of defaults whose chains all end, and an order of the states in which each comes after its default.
#[derive(Drop)]
pub struct Order {
    pub depth: u16,
    pub order: [u16; 512],
}

// 11: some chain of defaults has no end. Else the states are set out after their defaults. Each state is set down once, so this takes steps in proportion to n.
pub fn order_of(def: &[u16; 512], n: usize) -> Result<Order, Refusal>
    requires { (n ≤ 512) × InRange n def.now }
    ensures endless { answer_of result ≡ first ((11, any n (endless (defaults_view n def.now))) ∷ []) }
    ensures ordered { IfOk result (λ o. (o.depth ≡ depth_of (defaults_view n def.now)) × ParentFirst n def.now o.order) }
{
    let mut order = [0u16; 512];
    if setting::set_out(def, n, &mut order) {
        return Err(Refusal::Endless);
    }
    let len = lengths(def, &order, n);
    let depth = words::most(&len[..n], 0);
    Ok(Order { depth, order })
}

// What a look-up finds: the next state, and the hops to the state that stores it.
#[derive(Drop)]
struct Found {
    target: u16,
    hops: u16,
}

// What the chain of s gives, where what its default's chain gives is known: what s stores, else what the default's chain gives, one hop further.
fn found_at(
    def: &[u16; 512],
    own: &[u16; 512],
    to: &[u16; 512],
    hop: &[u16; 512],
    s: usize,
) -> Found
    requires { (s < 512) × (get_or own.now s 0 ≡ 65535 → (get_or def.now s 0 < 512) × (get_or hop.now (get_or def.now s 0) 0 < 512)) }
    ensures { reckoned (default_from_of (get_or own.now s 0)) (default_from_of (get_or def.now s 0)) (kept_at to.now hop.now) ≡ some (result.target, result.hops) }
{
    let t = own[s];
    if t != 65535 {
        return Found { target: t, hops: 0 };
    }
    let d = def[s] as usize;
    let target = to[d];
    let hops = hop[d] + 1;
    Found { target, hops }
}

// For one class, what the chain of each state gives and after how many hops.
pub fn resolve(
    def: &[u16; 512],
    order: &[u16; 512],
    n: usize,
    own: &[u16; 512],
    to: &mut [u16; 512],
    hop: &mut [u16; 512],
)
    requires { (n ≤ 512) × ParentFirst n def.now order.now × RootsStore n def.now own.now × (length to.old ≡ 512) × (length hop.old ≡ 512) }
    ensures { Resolves n def.now own.now to.new hop.new }
{
    for i in 0..n {
        let s = order[i] as usize;
        let f = found_at(def, own, to, hop, s);
        to[s] = f.target;
        hop[s] = f.hops;
    }
}

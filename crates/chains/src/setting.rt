// Sets the states out so that each stands after its default.
ghost use Rattle.std.specs.Prelude.{◌≡◌, false, ◌+◌, ◌≤◌, ◌<◌, length, MatchOption};
ghost use Rattle.std.proofs.Math.Option.{none};
ghost use Rattle.paper.specs.Below.{any};
ghost use Rattle.paper.specs.View.{chain, endless};
ghost use Rattle.chains.specs.Orders.{defaults_view, InRange, ParentFirst};
ghost use Rattle.chains.specs.Places.{Climbed, Ready, SetDown};

// How many states along the defaults from s have no place yet, up to the first that has one or has no default; none where there is no such state.
fn climb(def: &[u16; 512], place: &[u16; 512], n: usize, s: usize) -> Option<usize>
    requires { (n ≤ 512) × (s < n) × InRange n def.now }
    ensures { MatchOption result (chain (defaults_view n def.now) n s ≡ none) (λ t. (t ≤ n) × Climbed (defaults_view n def.now) place.now s t) }
{
    let mut cur = s;
    for t in 0..n {
        if place[cur] != 65535 {
            return Some(t);
        }
        let d = def[cur];
        if d == 65535 {
            return Some(t + 1);
        }
        cur = d as usize;
    }
    None
}

// Sets down the t states along the defaults from s that have no place yet, from back to front behind those that stand, so that each stands after its default.
fn set_down(
    def: &[u16; 512],
    n: usize,
    s: usize,
    filled: usize,
    t: usize,
    order: &mut [u16; 512],
    place: &mut [u16; 512],
)
    requires { Ready n def.now order.old place.old filled s t }
    ensures { SetDown n def.now order.new place.old place.new (filled + t) s }
{
    let mut cur = s;
    for i in 0..t {
        let at = filled + t - 1 - i;
        order[at] = cur as u16;
        place[cur] = at as u16;
        cur = def[cur] as usize;
    }
}

// Sets down every state after its default; answers whether some chain of defaults has no end instead. The order is lent, so that it stands on the stack once.
pub fn set_out(def: &[u16; 512], n: usize, order: &mut [u16; 512]) -> bool
    requires { (n ≤ 512) × InRange n def.now × (length order.old ≡ 512) }
    ensures { (result ≡ any n (endless (defaults_view n def.now))) × (result ≡ false → ParentFirst n def.now order.new) }
{
    let mut place = [65535u16; 512];
    let mut filled = 0;
    for s in 0..n {
        match climb(def, &place, n, s) {
            None => return true,
            Some(t) => {
                set_down(def, n, s, filled, t, order, &mut place);
                filled += t;
            }
        }
    }
    false
}

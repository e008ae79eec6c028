// Two trees of a forest joined by a pair of states.
#![tactic(auto)]

ghost use Rattle.std.specs.Prelude.{◌+◌, ◌≤◌, ◌<◌, get_or};
ghost use Rattle.joining.specs.Filled.{Replaced};
ghost use Rattle.joining.specs.Rooted.{Low, Climbed, Turned};
ghost use Rattle.joining.specs.Held.{Farther, Renewed, Joined};

// The trees of up to 512 states: for each state the longest distance from it in its tree, its parent, and its tree's number. A root is its own parent.
#[derive(Drop)]
pub struct Forest {
    pub d: [u16; 512],
    pub parent: [u16; 512],
    pub tree: [u16; 512],
    ghost low: { Low parent },
}

// The parents with u's tree turned to u: the path of at most `most` steps from u to the old root is turned round.
pub fn turned_to(old: [u16; 512], u: usize, most: u16) -> [u16; 512]
    requires { (u < 512) × Low old }
    ensures { Low result × Turned old u most result }
{
    let mut parent = old;
    let mut back = u;
    let mut at = u;
    for k in 0..most {
        let next = parent[at] as usize;
        parent[at] = back as u16;
        if next == at {
            return parent;
        }
        back = at;
        at = next;
    }
    parent[at] = back as u16;
    parent
}

// The steps from x to the root r, of which there are at most `most`.
fn steps_to(parent: &[u16; 512], x: usize, r: usize, most: u16) -> u16
    requires { (x < 512) × Low parent.now }
    ensures { (result ≤ most) × Climbed parent.now x r most result }
{
    let mut at = x;
    for k in 0..most {
        if at == r {
            return k;
        }
        at = parent[at] as usize;
    }
    most
}

// The larger of x's old distance and the way from x over the root r to a state `past` steps behind it.
fn farther(parent: &[u16; 512], old: u16, x: usize, r: usize, most: u16, past: u16) -> u16
    requires { (x < 512) × Low parent.now × (most + past < 65535) }
    ensures { Farther parent.now old x r most past result }
{
    let steps = steps_to(parent, x, r, most);
    old.max(steps + 1 + past)
}

// The longest distance renewed for every state of both trees, with the old ones of u and v.
fn renew(
    d0: [u16; 512],
    parent: &[u16; 512],
    tree: &[u16; 512],
    n: usize,
    u: usize,
    v: usize,
) -> [u16; 512]
    requires { (n ≤ 512) × (u < n) × (v < n) × Low parent.now × (get_or d0 u 0 + get_or d0 v 0 < 65535) }
    ensures { Renewed n u v d0 parent.now tree.now result n }
{
    let tu = tree[u];
    let tv = tree[v];
    let mut d = d0;
    let du = d[u];
    let dv = d[v];
    for x in 0..n {
        let t = tree[x];
        if t == tu {
            d[x] = farther(parent, d[x], x, u, du, dv);
        } else if t == tv {
            d[x] = farther(parent, d[x], x, v, dv, du);
        }
    }
    d
}

// The states of the tree tv numbered tu.
fn renumber(t0: [u16; 512], n: usize, tu: u16, tv: u16) -> [u16; 512]
    requires { n ≤ 512 }
    ensures { Replaced (λ _. tv) tu t0 result n }
{
    let mut tree = t0;
    for x in 0..n {
        if tree[x] == tv {
            tree[x] = tu;
        }
    }
    tree
}

// The trees of u and v joined by the pair.
pub fn join(f: Forest, n: usize, u: usize, v: usize) -> Forest
    requires { (n ≤ 512) × (u < n) × (v < n) × (get_or f.d u 0 + get_or f.d v 0 < 65535) }
    ensures { Joined n u v f.d f.parent f.tree result.d result.parent result.tree }
{
    let once = turned_to(f.parent, u, f.d[u]);
    let mut parent = turned_to(once, v, f.d[v]);
    let d = renew(f.d, &parent, &f.tree, n, u, v);
    let tree = renumber(f.tree, n, f.tree[u], f.tree[v]);
    parent[v] = u as u16;
    Forest { d, parent, tree }
}

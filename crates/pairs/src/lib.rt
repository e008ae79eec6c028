// What is asked of a pair of states: whether it can be added, which is the next of one weight in a row, and the number by which an order goes among pairs of equal weight.
#![tactic(auto)]

ghost use Rattle.std.specs.Prelude.{◌≡◌, ◌≤◌, ◌<◌, min};
ghost use Rattle.weights.specs.Weighed.{weight_in};
ghost use Rattle.weights.specs.Next.{Next};
ghost use Rattle.pairs.specs.Taken.{is_taken};
ghost use Rattle.pairs.specs.Keys.{key_of};
ghost use Rattle.pairs.specs.Tie.{order_number};

// What goes first among pairs of equal weight: the pair of smaller states, the one with the shorter path over it (BGS), or the one that makes the longest path grow less (REF). What still ties goes by the states.
#[derive(Clone, Copy, PartialEq, Eq)]
pub enum Tie {
    States,
    Path,
    Growth,
}

impl Tie {
    // What goes first in the order with this number: in order 0 smaller states, in order 1 the shorter path, in every other the smaller growth.
    pub fn of(order: u8) -> Tie
        ensures { order_number result ≡ min order 2 }
    {
        match order {
            0 => Tie::States,
            1 => Tie::Path,
            _ => Tie::Growth,
        }
    }
}

// Whether a pair of weight x is added among those of weight w: its ends lie in different trees, and the path over it is at most the bound.
pub fn takes(x: u8, w: u8, tu: u16, tv: u16, du: u16, dv: u16, bound: u16) -> bool
    ensures { result ≡ is_taken x w tu tv du dv bound }
{
    x == w && tu != tv && du as u32 + dv as u32 + 1 <= bound as u32
}

// The first state from `from` on whose pair with u has weight w.
pub fn next_of(weights: &[u8; 262144], n: usize, u: usize, from: usize, w: u8) -> Option<usize>
    requires { (n ≤ 512) × (u < 512) }
    ensures { Next n (weight_in weights.now u) from w result }
{
    weights::first_of(from, n, |v| weights[u * 512 + v] == w)
}

// The number by which pairs of equal weight go: by their path it is the path over the pair, by their growth what that has more than the longer of both trees' longest paths.
pub fn key_of(tie: Tie, du: u16, dv: u16, lu: u16, lv: u16) -> u32
    ensures { result ≡ key_of (order_number tie) du dv lu lv }
{
    let across = du as u32 + dv as u32 + 1;
    match tie {
        Tie::States => 0,
        Tie::Path => across,
        Tie::Growth => across.saturating_sub(lu.max(lv) as u32),
    }
}

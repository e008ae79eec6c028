// The defaults of a table in every order: toward the start, or by the weights of its pairs toward the roots of a forest.
#![tactic(auto)]

ghost use Rattle.std.specs.Prelude.{◌≡◌, ◌<◌, MatchOption};
ghost use Rattle.paper.specs.Defaults.{defaults};
ghost use Rattle.weights.specs.Chosen.{Chosen};
ghost use Rattle.choice.specs.Order.{number_of_order};

use pairs::Tie;
use table::Accepted;

// An order of defaults: toward the roots of a forest, in which pairs of equal weight go as said, or toward the start.
#[derive(Clone, Copy, PartialEq, Eq)]
pub enum Order {
    Roots(Tie),
    Start,
}

impl Order {
    // The order with this number, if there is one.
    pub fn of(number: u32) -> Option<Order>
        ensures { MatchOption result (3 < number) (λ o. number_of_order o ≡ number) }
    {
        match number {
            0 => Some(Order::Roots(Tie::States)),
            1 => Some(Order::Roots(Tie::Path)),
            2 => Some(Order::Roots(Tie::Growth)),
            3 => Some(Order::Start),
            _ => None,
        }
    }

    // Its number.
    pub fn number(self) -> u8
        ensures { result ≡ number_of_order self }
    {
        match self {
            Order::Roots(Tie::States) => 0,
            Order::Roots(Tie::Path) => 1,
            Order::Roots(Tie::Growth) => 2,
            Order::Start => 3,
        }
    }
}

// The defaults of an accepted table in the order with this number and with this path bound: for each state its default, or 65535 for none. Every order from 2 on but 3 goes as 2 does.
pub fn defaults_of(t: &Accepted, order: u8, bound: u16) -> [u16; 512]
    ensures { Chosen t.now.table.n (defaults t.now.table.bytes.now order bound) result }
{
    if order == 3 {
        return toward::defaults_of(t);
    }
    let mut weighed = [0u8; 262144];
    let seen = weights::weigh_all(&t.table, &mut weighed);
    forest::defaults_of(&weighed, &seen, t.table.n, t.table.k, order, bound)
}

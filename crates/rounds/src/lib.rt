// The rounds of the reduction: from the names by labels to the names after n rounds. A state's name is the smallest reached state of its block, 65535 where the state is not reached.
#![tactic(auto)]

ghost use Rattle.std.specs.Prelude.{◌<◌};
ghost use Rattle.paper.specs.Table.{states};
ghost use Rattle.reduction.specs.Named.{Named, SomeRound, Refines};
ghost use Rattle.naming.specs.Ordered.{OrderIn};
ghost use Rattle.rounds.specs.Steps.{after, steps, HasName, Headed};

use naming::ranked;
use naming::ranked::Ranked;
use std::cmp::Ordering;
use table::Accepted;

// The states of an accepted table by their names, then those of their next states. Those that have a name count.
#[derive(Clone, Copy)]
struct BySteps<'t, 'a> {
    table: Accepted<'t>,
    name: &'a [u16; 512],
    ghost headed: { Headed (states table.table.bytes.now) name.now },
}

impl<'t, 'a> BySteps<'t, 'a> {
    // The names of the next states of x compared with those of the next states of y: by the first class on which they differ.
    fn order_of_rows(&self, x: usize, y: usize) -> Ordering
        requires x_in { x < self.now.table.table.n }
        requires y_in { y < self.now.table.table.n }
        ensures { OrderIn self.now.table.table.k (after self.now.table.table.bytes.now self.now.name.now x) (after self.now.table.table.bytes.now self.now.name.now y) result }
    {
        let table = self.table.table;
        let name = self.name;
        for c in 0..table.k {
            let a = table.next(x, c) as usize;
            let b = table.next(y, c) as usize;
            let p = name[a];
            let q = name[b];
            if p != q {
                return p.cmp(&q);
            }
        }
        Ordering::Equal
    }
}

impl<'t, 'a> Ranked for BySteps<'t, 'a> {
    ghost many = { λ s. states s.table.table.bytes.now };

    ghost numbers_of = { λ s. steps s.table.table.bytes.now s.name.now };

    ghost named = { λ s. HasName s.name.now };

    fn counts(&self, x: usize) -> bool {
        self.name[x] != 65535
    }

    // The state that names the block of x now, where x goes on as that state does.
    fn earlier(&self, x: usize) -> Option<u16> {
        let p = self.name[x];
        let block = p as usize;
        if block < x && self.order(x, block).is_eq() {
            Some(p)
        } else {
            None
        }
    }

    fn order(&self, x: usize, y: usize) -> Ordering {
        let p = self.name[x];
        let q = self.name[y];
        if p != q {
            return p.cmp(&q);
        }
        self.order_of_rows(x, y)
    }
}

// One round: the names after it.
fn round(table: &Accepted, name: &[u16; 512]) -> [u16; 512]
    requires { SomeRound table.now.table.bytes.now name.now }
    ensures { Refines table.now.table.bytes.now name.now result }
{
    let states = BySteps {
        table: *table,
        name,
    };
    ranked::names(&states, table.table.n)
}

// Rounds until nothing changes: the names after n rounds. A round compares each state with the smallest of its block, and where they part with a few heads only.
pub fn refine(table: &Accepted, first: [u16; 512]) -> [u16; 512]
    requires { Named table.now.table.bytes.now 0 first }
    ensures { Named table.now.table.bytes.now table.now.table.n result }
{
    let n = table.table.n;
    let mut name = first;
    for _i in 0..n {
        let further = round(table, &name);
        if further[..n] == name[..n] {
            return name;
        }
        name = further;
    }
    name
}

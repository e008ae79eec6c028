// The names with which the reduction begins: each state that is reached is named by the smallest reached state with the same labels, the others by 65535. The states that name a block are kept in the order of their labels, so that each state is held to a few of them only.
#![tactic(auto)]

ghost use Rattle.std.specs.Prelude.{◌+◌, ◌*◌, ◌≤◌, length};
ghost use Rattle.paper.specs.Words.{number16};
ghost use Rattle.paper.specs.Table as given;
ghost use Rattle.paper.specs.Table.{states};
ghost use Rattle.labels.specs.Tags.{Firsts};
ghost use Rattle.reduction.specs.Named.{Named, MarksReached};
ghost use Rattle.naming.specs.Ordered.{OrderIn, numbers};
ghost use Rattle.naming.specs.Heads.{Reached};

use labels::{Edition, Labels};
use ranked::Ranked;
use std::cmp::Ordering;
use table::{Accepted, Table};

pub mod ranked;

// So many numbers from one place on compared with those from another: by the first that differs.
fn order_of_runs(t: &[u8], from: usize, other: usize, count: usize) -> Ordering
    requires { (from + 2 * count ≤ length t.now) × (other + 2 * count ≤ length t.now) }
    ensures { OrderIn count (λ j. number16 t.now (from + 2 * j)) (λ j. number16 t.now (other + 2 * j)) result }
{
    for j in 0..count {
        let a = words::get16(t, from + 2 * j);
        let b = words::get16(t, other + 2 * j);
        if a != b {
            return a.cmp(&b);
        }
    }
    Ordering::Equal
}

// The states of an accepted table by their labels: the tag, then the labels behind it. Those that are reached count, which an array marks.
#[derive(Clone, Copy)]
struct ByLabels<'t, 'a> {
    table: Accepted<'t>,
    firsts: &'a [u16; 512],
    levels: &'a [u16; 512],
    ghost firsts_are: { Firsts table.table.bytes.now 262 (states table.table.bytes.now) (given.edition table.table.bytes.now) firsts.now },
    ghost marks: { MarksReached table.table.bytes.now levels.now },
}

impl<'t, 'a> Ranked for ByLabels<'t, 'a> {
    ghost many = { λ s. states s.table.table.bytes.now };

    ghost numbers_of = { λ s. numbers s.table.table.bytes.now };

    ghost named = { λ s. Reached s.table.table.bytes.now };

    fn counts(&self, x: usize) -> bool {
        self.levels[x] != 65535
    }

    fn earlier(&self, _x: usize) -> Option<u16> {
        None
    }

    fn order(&self, x: usize, y: usize) -> Ordering {
        let t = self.table.table.bytes;
        let tag = words::get16(t, 262 + 2 * x);
        let mark = words::get16(t, 262 + 2 * y);
        if tag != mark {
            return tag.cmp(&mark);
        }
        match self.table.table.edition {
            Edition::One => Ordering::Equal,
            Edition::Two => {
                let from = self.firsts[x];
                let other = self.firsts[y];
                order_of_runs(
                    t,
                    262 + 2 * from as usize,
                    262 + 2 * other as usize,
                    tag as usize,
                )
            }
        }
    }
}

// The names by labels of all states, where an array marks those that are not reached.
pub fn first_names(table: &Accepted, levels: &[u16; 512]) -> [u16; 512]
    requires { MarksReached table.now.table.bytes.now levels.now }
    ensures { Named table.now.table.bytes.now 0 result }
{
    let Table {
        bytes,
        edition,
        n,
        ..
    } = table.table;
    let labels = Labels {
        bytes,
        at: 262,
        n,
        edition,
    };
    let firsts = labels.firsts();
    let states = ByLabels {
        table: *table,
        firsts: &firsts,
        levels,
    };
    ranked::names(&states, n)
}

// The states left of a table, numbered anew.
ghost use Rattle.std.specs.Prelude.{◌≡◌, ℕ, ◌≤◌, ◌<◌, get_or};
ghost use Rattle.paper.specs.Table.{states};
ghost use Rattle.reduction.specs.Named.{Named};
ghost use Rattle.reduction.specs.Numbers.{Renumbers};

use table::Accepted;

// An accepted table, the name of each state, for each state how many that name themselves are below it, these in rising order, and how many they are.
#[derive(Drop)]
pub struct Left<'t> {
    pub table: Accepted<'t>,
    pub name: [u16; 512],
    pub rank: [u16; 512],
    pub old: [u16; 512],
    pub count: usize,
    ghost renumbers: { Renumbers table.table.bytes.now name rank old count },
    ghost few: { count ≤ 512 },
    ghost inside: { (s : ℕ) → s < count → get_or old s 0 < states table.table.bytes.now },
}

// Numbers the states that name themselves. Each state stands in the place of the next such state until that comes.
pub fn left_of<'t>(table: &Accepted<'t>, name: [u16; 512]) -> Left<'t>
    requires { Named table.now.table.bytes.now table.now.table.n name }
    ensures { result.table ≡ table.now }
{
    let mut rank = [0u16; 512];
    let mut old = [0u16; 512];
    let mut count = 0;
    for x in 0..table.table.n {
        rank[x] = count as u16;
        old[count] = x as u16;
        if name[x] as usize == x {
            count += 1;
        }
    }
    Left {
        table: *table,
        name,
        rank,
        old,
        count,
    }
}

// A plain table as what a payload is run over.
ghost use Rattle.running.specs.Rules.{table_rules};

use running::{Automaton, Step};
use table::Accepted;

// An accepted table; a struct of this crate, since `Automaton` and `Accepted` are of others.
#[derive(Clone, Copy)]
pub struct Over<'a> {
    pub table: Accepted<'a>,
}

impl<'a> Automaton for Over<'a> {
    ghost rules = { λ o. table_rules o.table.table.bytes.now };

    fn step(&self, state: usize, byte: u8) -> Step {
        let class = self.table.table.bytes[6 + byte as usize] as usize;
        let next = self.table.table.next(state, class);
        Step {
            state: next as usize,
            hops: 0,
        }
    }
}

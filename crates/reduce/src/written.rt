// Writes the reduced table, part by part in their order.
ghost use Rattle.std.specs.Prelude.{◌≡◌, ◌+◌, ◌*◌, ◌≤◌, ◌<◌, length, get_or};
ghost use Rattle.paper.specs.Below.{each};
ghost use Rattle.paper.specs.Words.{all16};
ghost use Rattle.paper.specs.Labels.{two};
ghost use Rattle.paper.specs.Table as given;
ghost use Rattle.paper.specs.Table.{states, labels, table_length};
ghost use Rattle.paper.specs.Results.{labels_held_of, label_bytes_of};
ghost use Rattle.paper.specs.Reduce.{reduced};
ghost use Rattle.paper.specs.Operations.{filled};
ghost use Rattle.facts.proofs.TableFacts.{AcceptedTable};
ghost use Rattle.words.specs.Placed.{placed};
ghost use Rattle.labels.specs.Tags.{Firsts};
ghost use Rattle.reduce.specs.Pieces.{front, tag_of, labels_of, list_of, row_of};

use crate::left::Left;
use labels::{Edition, Labels};
use table::Table;

// Writes the labels of state x of edition 2; answers the place behind them.
fn put_list(t: &[u8], firsts: &[u16; 512], x: usize, room: &mut [u8], at: usize) -> usize
    requires { AcceptedTable t.now × (given.edition t.now ≡ two) × Firsts t.now 262 (states t.now) (given.edition t.now) firsts.now
        × (x < states t.now) × (at + length (all16 (labels t.now x)) ≤ length room.old) }
    ensures { (result ≡ at + length (all16 (labels t.now x))) × (room.new ≡ placed room.old at (all16 (labels t.now x))) }
{
    let from = 262 + 2 * firsts[x] as usize;
    let count = 2 * words::get16(t, 262 + 2 * x) as usize;
    let list = &t[from..from + count];
    words::put_bytes(room, at, list);
    at + count
}

impl<'t> Left<'t> {
    // How many labels of the states left stand behind their counts.
    pub fn held(&self) -> usize
        ensures { let t = self.now.table.table.bytes.now in
            (result ≡ labels_held_of (given.edition t) self.now.count (labels_of t self.now.old)) × (result ≤ 8192) }
    {
        match self.table.table.edition {
            Edition::One => 0,
            Edition::Two => {
                let t = self.table.table.bytes;
                let mut held = 0;
                for s in 0..self.count {
                    let x = self.old[s] as usize;
                    held += words::get16(t, 262 + 2 * x) as usize;
                }
                held
            }
        }
    }

    // Writes the front: so many states with the edition, k, the start state and the classes.
    fn put_front(&self, start: u16, room: &mut [u8])
        requires { 262 ≤ length room.old }
        ensures { room.new ≡ placed room.old 0 (front self.now.table.table.bytes.now self.now.count start) }
    {
        let Table {
            bytes,
            edition,
            k,
            ..
        } = self.table.table;
        words::put16(room, 0, edition.first_word(self.count as u16));
        words::put16(room, 2, k as u16);
        words::put16(room, 4, start);
        words::put_bytes(room, 6, &bytes[6..262]);
    }

    // Writes in the place of each label that of the old state.
    fn put_tags(&self, room: &mut [u8])
        requires { 262 + 2 * self.now.count ≤ length room.old }
        ensures { room.new ≡ placed room.old 262 (each self.now.count (tag_of self.now.table.table.bytes.now self.now.old)) }
    {
        let t = self.table.table.bytes;
        for s in 0..self.count {
            let x = self.old[s] as usize;
            let tag = words::get16(t, 262 + 2 * x);
            words::put16(room, 262 + 2 * s, tag);
        }
    }

    // Writes behind the counts the labels of each state left.
    fn put_lists(&self, room: &mut [u8])
        requires { let t = self.now.table.table.bytes.now in
            (given.edition t ≡ two) × (262 + 2 * self.now.count + length (each self.now.count (list_of t self.now.old)) ≤ length room.old) }
        ensures { room.new ≡ placed room.old (262 + 2 * self.now.count) (each self.now.count (list_of self.now.table.table.bytes.now self.now.old)) }
    {
        let Table {
            bytes,
            edition,
            n,
            ..
        } = self.table.table;
        let labels = Labels {
            bytes,
            at: 262,
            n,
            edition,
        };
        let firsts = labels.firsts();
        let mut at = 262 + 2 * self.count;
        for s in 0..self.count {
            let x = self.old[s] as usize;
            at = put_list(bytes, &firsts, x, room, at);
        }
    }

    // Writes the labels of the states left in the table's edition.
    fn put_labels(&self, room: &mut [u8])
        requires { let t = self.now.table.table.bytes.now in
            262 + 2 * self.now.count + 2 * labels_held_of (given.edition t) self.now.count (labels_of t self.now.old) ≤ length room.old }
        ensures { let t = self.now.table.table.bytes.now in
            room.new ≡ placed room.old 262 (label_bytes_of (given.edition t) self.now.count (labels_of t self.now.old)) }
    {
        self.put_tags(room);
        if let Edition::Two = self.table.table.edition {
            self.put_lists(room);
        }
    }

    // Writes the row of the old state of s with the new numbers.
    fn put_row(&self, s: usize, room: &mut [u8], at: usize)
        requires { (s < self.now.count) × (at + 2 * self.now.table.table.k ≤ length room.old) }
        ensures { room.new ≡ placed room.old at
            (row_of self.now.table.table.bytes.now self.now.name self.now.rank self.now.table.table.k (get_or self.now.old s 0)) }
    {
        let table = self.table.table;
        let name = &self.name;
        let rank = &self.rank;
        let x = self.old[s] as usize;
        for c in 0..table.k {
            let y = table.next(x, c) as usize;
            let p = name[y] as usize;
            let s = rank[p];
            words::put16(room, at + 2 * c, s);
        }
    }

    // Writes the rows of the states left.
    fn put_rows(&self, room: &mut [u8], at: usize)
        requires { at + 2 * (self.now.count * self.now.table.table.k) ≤ length room.old }
        ensures { room.new ≡ placed room.old at
            (each self.now.count (λ s. row_of self.now.table.table.bytes.now self.now.name self.now.rank self.now.table.table.k (get_or self.now.old s 0))) }
    {
        let k = self.table.table.k;
        for s in 0..self.count {
            self.put_row(s, room, at + 2 * (s * k));
        }
    }

    // Fills the first bytes of the room with the reduced table.
    pub fn fill(&self, held: usize, room: &mut [u8])
        requires { let t = self.now.table.table.bytes.now in
            (held ≡ labels_held_of (given.edition t) self.now.count (labels_of t self.now.old))
            × (table_length self.now.count self.now.table.table.k held ≤ length room.old) }
        ensures { room.new ≡ filled (reduced self.now.table.table.bytes.now) room.old }
    {
        let first = words::get16(self.table.table.bytes, 4) as usize;
        let p = self.name[first] as usize;
        let start = self.rank[p];
        self.put_front(start, room);
        self.put_labels(room);
        self.put_rows(room, 262 + 2 * self.count + 2 * held);
    }
}

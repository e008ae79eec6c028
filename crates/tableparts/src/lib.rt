// Writes the table of a word list, part by part in their order.
#![tactic(auto)]

ghost use Rattle.std.specs.Prelude.{◌≡◌, ◌+◌, ◌*◌, ◌≤◌, ◌<◌, length};
ghost use Rattle.paper.specs.Below.{each};
ghost use Rattle.paper.specs.Operations.{filled};
ghost use Rattle.paper.proofs.Filled.{Filled};
ghost use Rattle.words.specs.Placed.{placed};
ghost use Rattle.labelling.specs.Ended.{ended_by};
ghost use Rattle.tableparts.specs.Pieces.{head, class_bytes, row_bytes, assembled};

use classing::Classes;
use labelling::Named;
use rows::Rows;

// Writes n with the edition, k and the start state 0.
fn put_head(n: usize, k: usize, room: &mut [u8])
    requires { (n ≤ 512) × (k ≤ 256) × (6 ≤ length room.old) }
    ensures { room.new ≡ placed room.old 0 (head n k) }
{
    labelling::put_numbers(&[32768 + n as u16, k as u16, 0], room, 0);
}

// Writes the class of each byte.
fn put_classes(classes: &[u8; 256], room: &mut [u8])
    requires { 262 ≤ length room.old }
    ensures { room.new ≡ placed room.old 6 (class_bytes classes.now) }
{
    words::put_bytes(room, 6, classes);
}

// Writes the rows of all states.
fn put_rows(rows: &Rows, n: usize, k: usize, room: &mut [u8], at: usize)
    requires { (n ≤ 512) × (k ≤ 256) × (at + 2 * (n * k) ≤ length room.old) }
    ensures { room.new ≡ placed room.old at (each n (row_bytes rows.now k)) }
{
    let mut here = at;
    for s in 0..n {
        let row = s * 256;
        labelling::put_numbers(&rows[row..row + k], room, here);
        here += 2 * k;
    }
}

// Writes all parts.
pub fn emit(named: &Named, classes: &Classes, counts: &[u16; 512], rows: &Rows, room: &mut [u8])
    requires { Filled (ended_by named.now.list.now.bytes.now named.now.list.now.count named.now.names.now.from named.now.names.now.long) counts.now named.now.names.now.count
        × (length (assembled named.now.list.now.bytes.now named.now.names.now.from named.now.names.now.long named.now.names.now.count classes.now.count classes.now.of counts.now rows.now) ≤ length room.old) }
    ensures { room.new
        ≡ filled (assembled named.now.list.now.bytes.now named.now.names.now.from named.now.names.now.long named.now.names.now.count classes.now.count classes.now.of counts.now rows.now) room.old }
{
    let n = named.names.count;
    put_head(n, classes.count, room);
    put_classes(&classes.of, room);
    labelling::put_numbers(&counts[..n], room, 262);
    let end = named.put_labels(counts, room, 262 + 2 * n);
    put_rows(rows, n, classes.count, room, end);
}

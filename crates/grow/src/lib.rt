// The names of the states: the strings, in order, are put in byte by byte, and each beginning that is new becomes the next state.
#![tactic(auto)]

ghost use Rattle.std.specs.Prelude.{◌≡◌, ℕ, ◌+◌, ◌<◌, length, get_or, MatchOption};
ghost use Rattle.paper.specs.Strings as given;
ghost use Rattle.paper.specs.Strings.{rules, class_of};
ghost use Rattle.paper.proofs.Filled.{Filled};
ghost use Rattle.strings.proofs.Putting.{up_to};
ghost use Rattle.strings.proofs.Held.{Held};
ghost use Rattle.strings.proofs.Spread.{spread};

use classing::Classes;
use rows::{Names, Rows};
use wordlist::WordList;

// Puts the next string into the names of those before it; none where there is no room for one more.
fn put_string(
    names: &mut Names,
    rows: &mut Rows,
    classes: &Classes,
    list: &WordList,
    i: usize,
) -> Option<()>
    requires { (i < list.now.count) × Filled (class_of (rules list.now.bytes.now)) classes.now.of 256
        × Held list.now.bytes.now (up_to list.now.bytes.now i) (spread classes.now.of rows.old) names.old.parent names.old.last names.old.long names.old.from names.old.count }
    ensures { MatchOption result (512 < length (up_to list.now.bytes.now (i + 1)))
        (λ _. Held list.now.bytes.now (up_to list.now.bytes.now (i + 1)) (spread classes.now.of rows.new) names.new.parent names.new.last names.new.long names.new.from names.new.count) }
{
    let at = list.starts[i] + 4;
    let mut p = 0;
    for a in list.string(i) {
        p = names.step_in(rows, classes, p, *a)?;
        names.from[p] = at;
    }
    Some(())
}

// Puts all strings in, behind the empty one, which is state 0; none where there are more than 512 names.
pub fn put_all(names: &mut Names, rows: &mut Rows, classes: &Classes, list: &WordList) -> Option<()>
    requires { Filled (class_of (rules list.now.bytes.now)) classes.now.of 256
        × ((i : ℕ) → get_or rows.old i 0 ≡ 0) × (get_or names.old.long 0 0 ≡ 0) × (get_or names.old.from 0 0 ≡ 0) }
    ensures { MatchOption result (512 < length (given.names (rules list.now.bytes.now)))
        (λ _. Held list.now.bytes.now (given.names (rules list.now.bytes.now)) (spread classes.now.of rows.new) names.new.parent names.new.last names.new.long names.new.from names.new.count) }
{
    names.count = 1;
    for i in 0..list.count {
        put_string(names, rows, classes, list, i)?;
    }
    Some(())
}

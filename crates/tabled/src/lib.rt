// The table of a word list to which the grounds 26, 27 and 19 do not apply: its names, its rows by failure links, from short names to long ones, and its bytes.
#![tactic(auto)]

ghost use Rattle.std.specs.Prelude.{◌≡◌, [], ◌∷◌, ◌≤◌, ltb, length};
ghost use Rattle.paper.specs.Refusals.{first};
ghost use Rattle.paper.specs.Strings as given;
ghost use Rattle.paper.specs.Strings.{rules, class_of, tabulated};
ghost use Rattle.paper.specs.Operations.{building, filled};
ghost use Rattle.paper.specs.Promises.{IsBuilt};
ghost use Rattle.paper.proofs.Filled.{Filled};
ghost use Rattle.answers.specs.Numbers.{answer_of, length_of};
ghost use Rattle.strings.proofs.Held.{Held};
ghost use Rattle.strings.proofs.Spread.{spread};
ghost use Rattle.tabled.specs.Sized.{Sized};

use answers::Refusal;
use classing::Classes;
use labelling::Named;
use rows::{Names, Rows};
use wordlist::WordList;

// Fills the rows of the names by failure links and writes the table.
fn write_table(
    named: &Named,
    classes: &Classes,
    counts: &[u16; 512],
    rows: &mut Rows,
    room: &mut [u8],
)
    requires { let b = named.now.list.now.bytes.now in let n = named.now.names.now in
        Held b (given.names (rules b)) (spread classes.now.of rows.old) n.parent n.last n.long n.from n.count
        × Sized b named.now.list.now.starts named.now.list.now.count n.count classes.now.count n.from n.long counts.now
        × Filled (class_of (rules b)) classes.now.of 256 × (length (tabulated b) ≤ length room.old) }
    ensures { room.new ≡ filled (tabulated named.now.list.now.bytes.now) room.old }
{
    let mut links = [0u16; 512];
    rows::fill_all(rows, &mut links, named.names, classes);
    tableparts::emit(named, classes, counts, rows, room);
}

// Writes the table and answers its length, where the room is not shorter.
fn table_of(
    named: &Named,
    classes: &Classes,
    rows: &mut Rows,
    room: &mut [u8],
) -> Result<u32, Refusal>
    requires { let b = named.now.list.now.bytes.now in let n = named.now.names.now in
        Held b (given.names (rules b)) (spread classes.now.of rows.old) n.parent n.last n.long n.from n.count
        × (classes.now.count ≡ given.classes (rules b)) × Filled (class_of (rules b)) classes.now.of 256 }
    ensures { let b = named.now.list.now.bytes.now in
        IsBuilt (building (first ((16, ltb (length room.old) (length (tabulated b))) ∷ [])) (tabulated b) room.old)
        (answer_of result) (length_of result) room.new }
{
    let n = named.names.count;
    let counts = named.counts();
    let held = tally::sum_of(&counts, n) as usize;
    let whole = 262 + 2 * n + 2 * held + 2 * (n * classes.count);
    if room.len() < whole {
        return Err(Refusal::Room);
    }
    write_table(named, classes, &counts, rows, room);
    Ok(whole as u32)
}

// Puts the names in, by the classes of their bytes. Where there are not too many states the table of the names is written, and its length answered.
pub fn table_into(list: &WordList, room: &mut [u8]) -> Result<u32, Refusal>
    ensures { let b = list.now.bytes.now in
        IsBuilt (building (first ((28, ltb 512 (length (given.names (rules b)))) ∷ (16, ltb (length room.old) (length (tabulated b))) ∷ [])) (tabulated b) room.old)
        (answer_of result) (length_of result) room.new }
{
    // Tried and slower: the rows behind the classes, where they are cleared twice.
    let mut rows = [0u16; 131072];
    let mut names = Names::none();
    let classes = Classes::of_list(list);
    grow::put_all(&mut names, &mut rows, &classes, list).ok_or(Refusal::ManyStates)?;
    let named = Named {
        list,
        names: &names,
    };
    table_of(&named, &classes, &mut rows, room)
}

// Strings: a word list into the table after Aho and Corasick.
#![tactic(auto)]

ghost use Rattle.paper.specs.Promises.{Tabulates};
ghost use Rattle.answers.specs.Numbers.{answer_of, length_of};

use answers::{Built, Refusal};
use wordlist::WordList;

// Writes the table of a list, or says why not.
fn table_of(list: &[u8], room: &mut [u8]) -> Result<u32, Refusal>
    ensures { Tabulates list.now room.old (answer_of result) (length_of result) room.new }
{
    let Some(list) = WordList::of(list) else {
        return Err(Refusal::ListShape);
    };
    if list.labels_bad() {
        return Err(Refusal::ListLabels);
    }
    if list.crowded() {
        return Err(Refusal::Labels);
    }
    tabled::table_into(&list, room)
}

// Strings: word list into table.
pub fn strings(list: &[u8], room: &mut [u8]) -> Built
    ensures { Tabulates list.now room.old result.refused result.length room.new }
{
    Built::from(table_of(list, room))
}

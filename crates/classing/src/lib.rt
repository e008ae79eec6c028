// The classes of a word list: bytes in no string share class 0 if there are any, and the others follow in byte order.
#![tactic(auto)]

ghost use Rattle.std.specs.Prelude.{◌≡◌, ◌≤◌, List};
ghost use Rattle.paper.specs.Strings as given;
ghost use Rattle.paper.specs.Strings.{Rule, rules};
ghost use Rattle.paper.proofs.Filled.{Filled};
ghost use Rattle.strings.proofs.Marked.{Marked};
ghost use Rattle.strings.proofs.Spread.{Columns};

use wordlist::WordList;

// The class of each byte, and how many classes there are.
#[derive(Drop)]
pub struct Classes {
    pub of: [u8; 256],
    pub count: usize,
    ghost few: { count ≤ 256 },
    ghost columns: { Columns of count },
}

impl Classes {
    // The classes of all lists of strings in which just the marked bytes stand.
    pub fn of_used(used: &[bool; 256]) -> Classes
        requires { (rs : List Rule) × Marked rs used.now }
        ensures { (rs : List Rule) → Marked rs used.now → (result.count ≡ given.classes rs) × Filled (given.class_of rs) result.of 256 }
    {
        let spare = usize::from(used.contains(&false));
        let mut of = [0u8; 256];
        let mut count = spare;
        for x in 0..256 {
            if used[x] {
                of[x] = count as u8;
                count += 1;
            }
        }
        Classes { of, count }
    }

    // The classes of a word list.
    pub fn of_list(list: &WordList) -> Classes
        ensures { (result.count ≡ given.classes (rules list.now.bytes.now)) × Filled (given.class_of (rules list.now.bytes.now)) result.of 256 }
    {
        let used = used_of(list);
        Classes::of_used(&used)
    }
}

// A mark for each byte that stands in some string.
pub fn used_of(list: &WordList) -> [bool; 256]
    ensures { Marked (rules list.now.bytes.now) result }
{
    let mut used = [false; 256];
    for i in 0..list.count {
        for x in list.string(i) {
            used[*x as usize] = true;
        }
    }
    used
}

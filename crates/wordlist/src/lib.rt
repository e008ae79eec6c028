// Word lists: where the strings of a list begin, and the grounds 26, 27 and 19: its shape, its labels, and how many strings end each string.
#![tactic(auto)]

ghost use Rattle.std.specs.Prelude.{◌≡◌, true, false, ◌≤◌, ◌<◌, eqb, MatchOption};
ghost use Rattle.paper.specs.Below.{any, how_many_of};
ghost use Rattle.paper.specs.Words.{Bytes};
ghost use Rattle.paper.specs.Strings as given;
ghost use Rattle.paper.specs.Strings.{list_bad_of, list_labels_bad, rules, ends, too_many_labels};
ghost use Rattle.strings.proofs.Shape.{Starts};

// A word list of the right shape, and where each of its strings begins.
#[derive(Drop)]
pub struct WordList<'a> {
    pub bytes: &'a [u8],
    pub starts: [u16; 64],
    pub count: usize,
    ghost begun: { Starts bytes.now starts count },
    ghost fits: { Bytes bytes.now },
}

impl<'a> WordList<'a> {
    // The list of these bytes; none is ground 26: the count or a length out of range, or the last string does not end where the list does.
    pub fn of(bytes: &'a [u8]) -> Option<WordList<'a>>
        ensures { MatchOption result (list_bad_of bytes.now ≡ true) (λ list. (list_bad_of bytes.now ≡ false) × (list.bytes.now ≡ bytes.now)) }
    {
        if bytes.len() < 2 {
            return None;
        }
        let count = words::get16(bytes, 0) as usize;
        if count < 1 || 64 < count {
            return None;
        }
        let mut starts = [0u16; 64];
        let mut at = 2;
        for i in 0..count {
            if bytes.len() < at + 4 {
                return None;
            }
            let size = words::get16(bytes, at + 2) as usize;
            if size < 1 || 32 < size {
                return None;
            }
            starts[i] = at as u16;
            at += 4 + size;
        }
        if at != bytes.len() {
            return None;
        }
        Some(WordList {
            bytes,
            starts,
            count,
        })
    }

    // The label of a string.
    pub fn label(&self, i: usize) -> u16
        requires { i < self.now.count }
        ensures { result ≡ given.label self.now.bytes.now i }
    {
        words::get16(self.bytes, self.starts[i] as usize)
    }

    // The bytes of a string.
    pub fn string(&self, i: usize) -> &'a [u8]
        requires { i < self.now.count }
        ensures { result.now ≡ given.string self.now.bytes.now i }
    {
        let at = self.starts[i] as usize;
        let size = words::get16(self.bytes, at + 2) as usize;
        &self.bytes[at + 4..at + 4 + size]
    }

    // A string before has the label.
    fn label_before(&self, i: usize, label: u16) -> bool
        requires { i ≤ self.now.count }
        ensures { result ≡ any i (λ j. eqb (given.label self.now.bytes.now j) label) }
    {
        for j in 0..i {
            if self.label(j) == label {
                return true;
            }
        }
        false
    }

    // Ground 27: a label 0, or one that a string before has.
    pub fn labels_bad(&self) -> bool
        ensures { result ≡ list_labels_bad self.now.bytes.now }
    {
        for i in 0..self.count {
            let label = self.label(i);
            if label == 0 || self.label_before(i, label) {
                return true;
            }
        }
        false
    }

    // A string ends the bytes.
    pub fn string_ends(&self, i: usize, w: &[u8]) -> bool
        requires { i < self.now.count }
        ensures { result ≡ ends (given.string self.now.bytes.now i) w.now }
    {
        ends(self.string(i), w)
    }

    // How many strings end the bytes.
    pub fn enders_of(&self, w: &[u8]) -> u16
        ensures { result ≡ how_many_of self.now.count (λ i. ends (given.string self.now.bytes.now i) w.now) }
    {
        let mut enders = 0;
        for i in 0..self.count {
            if self.string_ends(i, w) {
                enders += 1;
            }
        }
        enders
    }

    // Ground 19, with no number of a state in it: some string is ended by more than 16 strings.
    pub fn crowded(&self) -> bool
        ensures { result ≡ too_many_labels (rules self.now.bytes.now) }
    {
        for i in 0..self.count {
            if 16 < self.enders_of(self.string(i)) {
                return true;
            }
        }
        false
    }
}

// The first bytes end the second; they are compared from the last byte on.
// Tried and slower: the library's `ends_with`, which goes from the first byte on (strings took up to 1.4 times the instructions).
fn ends(v: &[u8], w: &[u8]) -> bool
    ensures { result ≡ ends v.now w.now }
{
    if w.len() < v.len() {
        return false;
    }
    let gap = w.len() - v.len();
    for j in (0..v.len()).rev() {
        if v[j] != w[gap + j] {
            return false;
        }
    }
    true
}

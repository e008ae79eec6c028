// The labels of a table or an image, wherever they begin: counted, tested for ground 19, and found; the edition and n, read of the first word.
#![tactic(auto)]

ghost use Rattle.std.specs.Prelude.{◌≡◌, ◌+◌, ◌*◌, ◌≤◌, ◌<◌, ltb, length};
ghost use Rattle.paper.specs.Below.{any, sum};
ghost use Rattle.paper.specs.Labels.{edition_of, states_in_word, first_word, label_count, labels_behind, counts_bad_of, labels_bad_of};
ghost use Rattle.labels.specs.Lists.{list_bad_of, lists_bad_of};
ghost use Rattle.labels.specs.Editions.{edition_in};
ghost use Rattle.labels.specs.Tags.{many_of, Firsts};

// The edition of a table or an image: in edition 1 a state has one label or none, in edition 2 a list.
#[derive(Clone, Copy, PartialEq, Eq, Debug)]
pub enum Edition {
    One,
    Two,
}

impl Edition {
    // The edition that the first word of a front gives.
    pub fn of(word: u16) -> Edition
        ensures { edition_in result ≡ edition_of word }
    {
        if word < 32768 {
            Edition::One
        } else {
            Edition::Two
        }
    }

    // The first word of a front with n states.
    pub fn first_word(self, n: u16) -> u16
        requires { n ≤ 512 }
        ensures { result ≡ first_word (edition_in self) n }
    {
        match self {
            Edition::One => n,
            Edition::Two => 32768 + n,
        }
    }

    // How many labels a tag stands for.
    pub fn how_many(self, tag: u16) -> usize
        ensures { result ≡ many_of (edition_in self) tag }
    {
        match self {
            Edition::One => (tag != 0) as usize,
            Edition::Two => tag as usize,
        }
    }
}

// n, the number of states, that the first word of a front gives.
pub fn states_of(word: u16) -> usize
    ensures { result ≡ states_in_word word }
{
    (word % 32768) as usize
}

// The labels of n states, which begin at a place of a table or an image.
#[derive(Clone, Copy)]
pub struct Labels<'a> {
    pub bytes: &'a [u8],
    pub at: usize,
    pub n: usize,
    pub edition: Edition,
}

impl<'a> Labels<'a> {
    // A count of labels is above the most that is allowed.
    pub fn count_above(&self, most: u16) -> bool
        requires { self.now.at + 2 * self.now.n ≤ length self.now.bytes.now }
        ensures { result ≡ any self.now.n (λ s. ltb most (label_count self.now.bytes.now self.now.at s)) }
    {
        let b = self.bytes;
        let at = self.at;
        for s in 0..self.n {
            if most < words::get16(b, at + 2 * s) {
                return true;
            }
        }
        false
    }

    // Ground 19 for the counts: in edition 2 one is above 16, where the input does not end inside them.
    pub fn counts_bad(&self) -> bool
        requires { (self.now.at ≤ 268) × (self.now.n ≤ 512) }
        ensures { result ≡ counts_bad_of self.now.bytes.now self.now.at self.now.n (edition_in self.now.edition) }
    {
        match self.edition {
            Edition::One => false,
            Edition::Two => {
                if self.bytes.len() < self.at + 2 * self.n {
                    return false;
                }
                self.count_above(16)
            }
        }
    }

    // The sum of the counts.
    fn counted(&self) -> usize
        requires { (self.now.n < 32768) × (self.now.at + 2 * self.now.n ≤ length self.now.bytes.now) }
        ensures { (result ≡ sum self.now.n (label_count self.now.bytes.now self.now.at)) × (result ≤ 65536 * self.now.n) }
    {
        let b = self.bytes;
        let at = self.at;
        let mut total = 0;
        for s in 0..self.n {
            total += words::get16(b, at + 2 * s) as usize;
        }
        total
    }

    // How many labels stand behind the counts.
    pub fn behind(&self) -> usize
        requires { (self.now.n < 32768) × (self.now.at + 2 * self.now.n ≤ length self.now.bytes.now) }
        ensures { (result ≡ labels_behind self.now.bytes.now self.now.at self.now.n (edition_in self.now.edition)) × (result ≤ 65536 * self.now.n) }
    {
        match self.edition {
            Edition::One => 0,
            Edition::Two => self.counted(),
        }
    }

    // Of the lists behind the counts one does not rise above 0.
    fn lists_bad(&self) -> bool
        requires { self.now.at + 2 * self.now.n + 2 * sum self.now.n (label_count self.now.bytes.now self.now.at) ≤ length self.now.bytes.now }
        ensures { result ≡ lists_bad_of self.now.bytes.now self.now.at self.now.n }
    {
        let b = self.bytes;
        let at = self.at;
        let n = self.n;
        let mut from = at + 2 * n;
        for s in 0..n {
            let count = words::get16(b, at + 2 * s) as usize;
            if list_bad(b, from, count) {
                return true;
            }
            from += 2 * count;
        }
        false
    }

    // Ground 19 for the labels: in edition 2 a zero, or a label that does not rise.
    pub fn labels_bad(&self) -> bool
        requires { self.now.at + 2 * self.now.n + 2 * labels_behind self.now.bytes.now self.now.at self.now.n (edition_in self.now.edition) ≤ length self.now.bytes.now }
        ensures { result ≡ labels_bad_of self.now.bytes.now self.now.at self.now.n (edition_in self.now.edition) }
    {
        match self.edition {
            Edition::One => false,
            Edition::Two => self.lists_bad(),
        }
    }

    // For each state of edition 2 how many numbers stand between the first count and its first label; edition 1 asks for none.
    pub fn firsts(&self) -> [u16; 512]
        requires { (self.now.n ≤ 512) × (self.now.at + 2 * self.now.n ≤ length self.now.bytes.now)
            × (labels_behind self.now.bytes.now self.now.at self.now.n (edition_in self.now.edition) ≤ 8192) }
        ensures { Firsts self.now.bytes.now self.now.at self.now.n (edition_in self.now.edition) result }
    {
        let mut firsts = [0u16; 512];
        if let Edition::Two = self.edition {
            let b = self.bytes;
            let at = self.at;
            let n = self.n;
            let mut first = n as u16;
            for s in 0..n {
                firsts[s] = first;
                first += words::get16(b, at + 2 * s);
            }
        }
        firsts
    }
}

// In a list of labels one is not above the one before, or the first is 0.
fn list_bad(b: &[u8], from: usize, count: usize) -> bool
    requires { from + 2 * count ≤ length b.now }
    ensures { result ≡ list_bad_of b.now from count }
{
    let mut low = 0;
    for j in 0..count {
        let label = words::get16(b, from + 2 * j);
        if label <= low {
            return true;
        }
        low = label;
    }
    false
}

// The labels of the one edition written as the other has them.
#![tactic(auto)]

ghost use Rattle.std.specs.Prelude.{◌≡◌, ◌+◌, ◌*◌, ◌≤◌, ◌<◌, length};
ghost use Rattle.paper.specs.Below.{each, sum};
ghost use Rattle.paper.specs.Words.{number16, all16};
ghost use Rattle.paper.specs.Labels.{one, two, label_list, label_count, labels_from};
ghost use Rattle.paper.specs.Results.{label_number_of, label_bytes_of};
ghost use Rattle.words.specs.Placed.{placed};
ghost use Rattle.labels.specs.Tags.{numbers_from};
ghost use Rattle.relabel.specs.Pieces.{numbered, count_of, list_of};

use labels::Edition;

// The tags of the n states of an image: in edition 1 the labels, in edition 2 the counts.
#[derive(Clone, Copy)]
pub struct Tags<'a> {
    pub image: &'a [u8],
    pub n: usize,
    ghost few: { n ≤ 512 },
    ghost inside: { 268 + 2 * n ≤ length image.now },
}

impl<'a> Tags<'a> {
    // The tag of a state.
    fn tag(&self, s: usize) -> u16
        requires { s < self.now.n }
        ensures { result ≡ number16 self.now.image.now (268 + 2 * s) }
    {
        words::get16(self.image, 268 + 2 * s)
    }

    // How many labels the states of an image of edition 1 have.
    pub fn held(&self) -> usize
        ensures { (result ≡ sum self.now.n (λ s. length (numbered self.now.image.now s))) × (result ≤ self.now.n) }
    {
        let mut held = 0;
        for s in 0..self.n {
            held += Edition::One.how_many(self.tag(s));
        }
        held
    }

    // Writes the count of labels of each state of edition 1.
    fn put_counts(&self, room: &mut [u8])
        requires { 268 + 2 * self.now.n ≤ length room.old }
        ensures { room.new ≡ placed room.old 268 (each self.now.n (count_of self.now.image.now)) }
    {
        for s in 0..self.n {
            let count = Edition::One.how_many(self.tag(s));
            words::put16(room, 268 + 2 * s, count as u16);
        }
    }

    // Writes the labels of each state of edition 1 behind the counts.
    fn put_labels(&self, room: &mut [u8])
        requires { 268 + 2 * self.now.n + length (each self.now.n (list_of self.now.image.now)) ≤ length room.old }
        ensures { room.new ≡ placed room.old (268 + 2 * self.now.n) (each self.now.n (list_of self.now.image.now)) }
    {
        let mut at = 268 + 2 * self.n;
        for s in 0..self.n {
            at = put_label(self.tag(s), room, at);
        }
    }

    // Writes the labels of edition 1 as lists behind their counts.
    pub fn put_lists(&self, room: &mut [u8])
        requires { 268 + 2 * self.now.n + 2 * sum self.now.n (λ s. length (numbered self.now.image.now s)) ≤ length room.old }
        ensures { room.new ≡ placed room.old 268 (label_bytes_of two self.now.n (labels_from self.now.image.now 268 self.now.n one)) }
    {
        self.put_counts(room);
        self.put_labels(room);
    }

    // Writes the first label of each list of edition 2 as its number.
    pub fn put_numbers(&self, room: &mut [u8])
        requires { (268 + 2 * self.now.n + 2 * sum self.now.n (label_count self.now.image.now 268) ≤ length self.now.image.now)
            × (268 + 2 * self.now.n ≤ length room.old) }
        ensures { room.new ≡ placed room.old 268 (label_bytes_of one self.now.n (labels_from self.now.image.now 268 self.now.n two)) }
    {
        let mut from = 268 + 2 * self.n;
        for s in 0..self.n {
            let count = self.tag(s);
            let label = first_label(self.image, from, count);
            words::put16(room, 268 + 2 * s, label);
            from += 2 * count as usize;
        }
    }
}

// Writes the label that a number of edition 1 stands for, if there is one; answers the place behind it.
fn put_label(tag: u16, room: &mut [u8], at: usize) -> usize
    requires { at + length (all16 (label_list tag)) ≤ length room.old }
    ensures { (result ≡ at + length (all16 (label_list tag))) × (room.new ≡ placed room.old at (all16 (label_list tag))) }
{
    if tag == 0 {
        return at;
    }
    words::put16(room, at, tag);
    at + 2
}

// The first of the labels that stand at a place, 0 where there are none, as edition 1 has it.
fn first_label(image: &[u8], from: usize, count: u16) -> u16
    requires { from + 2 * count ≤ length image.now }
    ensures { result ≡ label_number_of (numbers_from image.now from count) }
{
    if count == 0 {
        return 0;
    }
    words::get16(image, from)
}

// The tags of the states, with the place where in edition 2 the labels of each begin.
ghost use Rattle.std.specs.Prelude.{◌≡◌, ℕ, ◌+◌, ◌*◌, ◌≤◌, ◌<◌, length};
ghost use Rattle.paper.specs.Labels.{labels_from, labels_behind};
ghost use Rattle.labels.specs.Editions.{edition_in};
ghost use Rattle.labels.specs.Tags.{tag_of, Firsts};

use labels::Labels;

// The labels of an accepted table or image, with how many numbers of edition 2 stand between the first count and the first label of each state.
#[derive(Clone, Copy)]
pub struct Tags<'a> {
    pub labels: Labels<'a>,
    pub firsts: &'a [u16; 512],
    pub ghost near: { labels.at ≤ 268 },
    pub ghost few_states: { labels.n ≤ 512 },
    pub ghost there: { labels.at + 2 * labels.n + 2 * labels_behind labels.bytes.now labels.at labels.n (edition_in labels.edition) ≤ length labels.bytes.now },
    pub ghost few: { (s : ℕ) → s < labels.n → length (labels_from labels.bytes.now labels.at labels.n (edition_in labels.edition) s) ≤ 16 },
    pub ghost firsts_are: { Firsts labels.bytes.now labels.at labels.n (edition_in labels.edition) firsts.now },
}

impl<'a> Tags<'a> {
    // The tag of a state.
    pub fn of(&self, state: usize) -> u16
        requires { state < self.now.labels.n }
        ensures { result ≡ tag_of self.now.labels.bytes.now self.now.labels.at state }
    {
        words::get16(self.labels.bytes, 2 * state + self.labels.at)
    }
}

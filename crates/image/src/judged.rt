// An accepted image with what its front says.
ghost use Rattle.std.specs.Prelude.{◌≡◌};
ghost use Rattle.paper.specs.Image as given;
ghost use Rattle.paper.specs.Operations.{judge_image_of};
ghost use Rattle.labels.specs.Editions.{edition_in};

use labels::{Edition, Labels};

// An accepted image: its bytes, its edition, n states, k classes and m entries.
#[derive(Clone, Copy)]
pub struct Image<'a> {
    pub bytes: &'a [u8],
    pub edition: Edition,
    pub n: usize,
    pub k: usize,
    pub m: usize,
    ghost accepted: { judge_image_of bytes.now ≡ 0 },
    ghost of_edition: { edition_in edition ≡ given.edition bytes.now },
    ghost states_are: { n ≡ given.states bytes.now },
    ghost classes_are: { k ≡ given.classes bytes.now },
    ghost entries_are: { m ≡ given.entries bytes.now },
}

impl<'a> Image<'a> {
    // Its labels.
    pub fn labels(self) -> Labels<'a>
        ensures { (result.bytes.now ≡ self.entry.bytes.now) × (result.at ≡ 268) × (result.n ≡ given.states self.entry.bytes.now) × (edition_in result.edition ≡ given.edition self.entry.bytes.now) }
    {
        Labels {
            bytes: self.bytes,
            at: 268,
            n: self.n,
            edition: self.edition,
        }
    }
}

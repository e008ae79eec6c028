// What a look-up in an accepted image is handed.
ghost use Rattle.std.specs.Prelude.{◌≡◌, ◌<◌};
ghost use Rattle.paper.specs.View.{look};
ghost use Rattle.paper.specs.Image.{states, classes, records_at_of, image_view};
ghost use Rattle.paper.specs.Operations.{judge_image_of};
ghost use Rattle.image.specs.Laid.{Begins};

use super::Found;

// An accepted image with where its entries and its records begin, and its k classes.
#[derive(Clone, Copy)]
pub struct Lookup<'a> {
    pub image: &'a [u8],
    pub begins: &'a [u32; 513],
    pub records: usize,
    pub k: usize,
    pub ghost accepted: { judge_image_of image.now ≡ 0 },
    pub ghost begin: { Begins image.now begins.now },
    pub ghost records_is: { records ≡ records_at_of image.now },
    pub ghost classes_is: { k ≡ classes image.now },
}

impl<'a> Lookup<'a> {
    // Follows the defaults from a state to the first that stores the class.
    pub fn look_up(&self, state: u16, class: u16) -> Found
        requires { (state < states self.now.image.now) × (class < classes self.now.image.now) }
        ensures { (result.target ≡ (look (image_view self.now.image.now) state class).target) × (result.hops ≡ (look (image_view self.now.image.now) state class).hops)
            × (result.server ≡ (look (image_view self.now.image.now) state class).server) }
    {
        super::look_up(self.image, self.begins, self.records, self.k, state, class)
    }
}

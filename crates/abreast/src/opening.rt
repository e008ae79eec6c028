// The rows that the states fall from, and where their entries wait before the first class.
ghost use Rattle.std.specs.Prelude.{◌≡◌, length};
ghost use Rattle.paper.specs.Image.{classes, image_view};
ghost use Rattle.image.specs.Passed.{Passed};
ghost use Rattle.abreast.specs.Opened.{Opened};
ghost use Rattle.abreast.specs.Keeps.{in_one};

// For each state the row that it falls from, the place of its entries, how many they are, and the class of the first.
pub fn open_rows(
    image: &[u8],
    n: usize,
    m: usize,
    up: &mut [u16; 512],
    place: &mut [u32; 512],
    left: &mut [u16; 512],
    wait: &mut [u16; 512],
)
    requires { Passed image.now n (classes image.now) m × (length up.old ≡ 512) × (length place.old ≡ 512) × (length left.old ≡ 512) × (length wait.old ≡ 512) }
    ensures { Opened (image_view image.now) (in_one image.now) n up.new place.new left.new wait.new }
{
    let records = image::records_at(image, n, m);
    let mut at = records + 4 * n;
    for s in 0..n {
        let record = image::record_at(image, records + 4 * s);
        let count = record.count;
        up[s] = record.fallback.unwrap_or(512);
        place[s] = at as u32;
        left[s] = count;
        wait[s] = super::head_class(image, at as u32, count);
        at += 4 * count as usize;
    }
}

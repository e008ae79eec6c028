// The two columns of counts for the bytes of a payload, and their lines.
#![tactic(auto)]

ghost use Rattle.std.specs.Prelude.{◌≡◌, ◌++◌, ◌+◌, ◌*◌, ◌≤◌, ◌<◌, length};
ghost use Rattle.paper.specs.Below.{each};
ghost use Rattle.image.specs.Laid.{Ready};
ghost use Rattle.counting.specs.Columns.{Zeros, CountsOf, server_of, running_of, columns_line};

use text::Text;

// Puts the line of a state: the state, and what each of the two columns counts for it. It takes 33 bytes at most.
fn put_state<const N: usize>(text: &mut Text<N>, s: usize, served: &[u32; 512], ran: &[u32; 512])
    requires { (s < 512) × (length text.old + 33 ≤ N) }
    ensures line { text.new ≡ text.old ++ columns_line served.now ran.now s }
    ensures short { length text.new ≤ length text.old + 33 }
{
    text.put_line(&[s as u32, served[s], ran[s]]);
}

// Puts the lines of n states.
pub fn put_lines<const N: usize>(
    text: &mut Text<N>,
    n: usize,
    served: &[u32; 512],
    ran: &[u32; 512],
)
    requires { (n ≤ 512) × (length text.old + 16896 ≤ N) }
    ensures lines { text.new ≡ text.old ++ each n (columns_line served.now ran.now) }
    ensures short { length text.new ≤ length text.old + 33 * n }
{
    for s in 0..n {
        put_state(text, s, served, ran);
    }
}

// For each byte of a payload, from the image's start state on, counts one for the state whose entry serves and one for the state that it is read in.
pub fn count_bytes(
    image: &[u8],
    begins: &[u32; 513],
    records: usize,
    k: usize,
    payload: &[u8],
    served: &mut [u32; 512],
    ran: &mut [u32; 512],
)
    requires { Ready image.now begins.now records k × (length payload.now ≤ 60000) × Zeros served.old × Zeros ran.old }
    ensures { CountsOf server_of image.now payload.now served.new × CountsOf running_of image.now payload.now ran.new }
{
    let mut state = words::get16(image, 4);
    for byte in payload {
        let class = image[12 + *byte as usize] as u16;
        let found = image::look_up(image, begins, records, k, state, class);
        let server = found.server;
        let target = found.target;
        served[server as usize] += 1;
        ran[state as usize] += 1;
        state = target;
    }
}

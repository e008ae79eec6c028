// The program `cases`: the cases of the definition paper that are not starred, run on T from standard input and compared; and check words by themselves.
#![tactic(auto)]

// Prints what was tried and whether it came out right.
fn say(tried: &[u8], right: bool) {
    io::write_all(1, tried);
    if right {
        io::write_all(1, b": right\n");
    } else {
        io::write_all(1, b": wrong\n");
    }
}

// A list of defaults in which a state names itself is refused by 11.
fn try_write(table: &[u8]) {
    let mut room = io::buffer();
    let list = b"\xff\xff\xff\xff\x02\0\xff\xff";
    let built = kamordast::write(table, list, &mut room);
    say(b"a default of a state to itself is 11", built.refused == 11);
}

// The number that a scan of the table's image, D 2, answers first.
fn scanned(table: &[u8], state: u32, payload: &[u8]) -> u32 {
    let mut room = io::buffer();
    let built = kamordast::compact(table, 0, 2, &mut room);
    if built.refused != 0 {
        return built.refused;
    }
    let mut reports = io::buffer();
    let end = io::count(built.length as isize, &room);
    kamordast::scan(&room[..end], state, payload, &mut reports).refused
}

// Scans: a state that is not there is 14, a payload over 65,536 bytes is 15.
fn try_scan(table: &[u8]) {
    let payload = [97u8; 65537];
    say(
        b"a scan of an image of T from state 4 is 14",
        scanned(table, 4, b"a") == 14,
    );
    say(
        b"a payload of 65,536 bytes is not refused",
        scanned(table, 0, &payload[..65536]) == 0,
    );
    say(
        b"a payload of 65,537 bytes is 15",
        scanned(table, 0, &payload) == 15,
    );
}

// The text of an input is the text given.
fn prints(input: &[u8], text: &[u8]) -> bool {
    let printed = printed::text_of(input);
    check::same(printed.as_slice(), text)
}

// What the program `bounds` prints of T, of a table cut short, and of an input of 30,001 bytes.
fn try_text(table: &[u8]) {
    let long = [0u8; 30001];
    say(
        b"bounds prints T as the paper does",
        prints(
            table,
            b"bound depth worst stored defaults bytes\n0 0 0 12 0 352\n1 1 1 7 2 332\n2 1 1 5 3 324\n3 1 1 5 3 324\n",
        ),
    );
    say(
        b"bounds prints a refused table as such",
        prints(b"", b"refused 1\n"),
    );
    say(
        b"30,000 bytes are not too long",
        prints(&long[..30000], b"refused 2\n"),
    );
    say(b"30,001 bytes are too long", prints(&long, b"too long\n"));
}

// The check word where the carry comes round, and of no words at all.
fn try_check_word() {
    say(
        b"the check word of no words is 65535",
        words::check_word(b"") == 65535,
    );
    say(
        b"the check word of 65535 and 1 is 65534",
        words::check_word(b"\xff\xff\x01\0") == 65534,
    );
    say(
        b"the check word of 1 and 65534 is 0",
        words::check_word(b"\x01\0\xfe\xff") == 0,
    );
    say(
        b"the check word of three words of 65535 is 0",
        words::check_word(b"\xff\xff\xff\xff\xff\xff") == 0,
    );
}

fn main() {
    let mut input = [0u8; 294];
    let length = io::read_full(0, &mut input);
    let table = &input[..length];
    try_write(table);
    try_scan(table);
    try_text(table);
    try_check_word();
}

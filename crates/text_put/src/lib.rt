// Bytes, numbers and hex put into lent room at a place, with the next place handed back.
// All of it is put, or nothing where the room is too short: then the place handed back is the one that was given.
#![tactic(auto)]

ghost use Rattle.std.specs.Prelude.{◌≡◌, ◌∷◌, nat_abs};
ghost use Rattle.text_put.specs.Print.{Put, PutNumber, PutHex};

// Puts a text.
pub fn put(room: &mut [u8], at: usize, text: &[u8]) -> usize
    ensures { Put room.old at text.now room.new result }
{
    if room.len() < at || room.len() - at < text.len() {
        return at;
    }
    let end = at + text.len();
    room[at..end].copy_from_slice(text);
    end
}

// Puts a number in decimal, behind a minus where it is below zero.
pub fn put_number(room: &mut [u8], at: usize, n: i64) -> usize
    ensures { PutNumber room.old at n room.new result }
{
    let mut digits = [0u8; 20];
    let k = io::decimal(magnitude(n), &mut digits);
    let text = &digits[..k];
    if n < 0 {
        put_minus(room, at, text)
    } else {
        put(room, at, text)
    }
}

// Puts a minus and a text.
fn put_minus(room: &mut [u8], at: usize, text: &[u8]) -> usize
    ensures { Put room.old at (45 ∷ text.now) room.new result }
{
    if room.len() <= at || room.len() - at <= text.len() {
        return at;
    }
    room[at] = b'-';
    put(room, at + 1, text)
}

// A number without its sign. The lowest one has no counterpart above zero, and has one here.
pub fn magnitude(n: i64) -> u64
    ensures { result ≡ nat_abs n }
{
    n.unsigned_abs()
}

// Puts a number in hex, with zeros in front up to `width` digits.
pub fn put_hex(room: &mut [u8], at: usize, n: u32, width: usize) -> usize
    ensures { PutHex room.old at n width room.new result }
{
    let mut digits = [0u8; 16];
    let k = io::hex(u64::from(n), width, &mut digits);
    put(room, at, &digits[..k])
}

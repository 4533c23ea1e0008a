// A text cut at a byte: where the part ends that starts at a place. Lines are cut at byte 10, words at the space.
// What is read of a text may be any bytes, and the place any number.
#![tactic(auto)]

ghost use Rattle.std.specs.Prelude.{◌≡◌, ◌==◌, ◌≤◌, ◌+◌, min, length, drop, position};
ghost use Rattle.text_cut.specs.Cuts.{first_part};

// Where the part ends that starts at a place: at the first byte `cut` from there on, or at the text's end.
pub fn part_end(text: &[u8], start: usize, cut: u8) -> usize
    ensures place { result ≡ min start (length text.now) + length (first_part cut (drop start text.now)) }
    ensures within { result ≤ length text.now }
{
    let Some(left) = text.get(start..) else {
        return text.len();
    };
    start + first_place(left, cut).unwrap_or(left.len())
}

// Where the first byte `cut` stands.
fn first_place(text: &[u8], cut: u8) -> Option<usize>
    ensures { result ≡ position (λ b. b == cut) text.now }
{
    text.iter().position(|&b| b == cut)
}

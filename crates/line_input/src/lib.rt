// Standard input as it arrives, cut into lines: what is kept of a line whose end did not come yet, and a line without its byte 13.
// specs/Input.antt says which lines an input has, in whatever pieces it is read.
#![tactic(auto)]

ghost use Rattle.std.specs.Prelude.{◌≡◌, List, [], ◌∷◌, ◌++◌, ℕ, ◌+◌, length};
ghost use Rattle.line_input.specs.Input.{bare as Input·bare, held_bytes, Holds};

use line::lent::MOST_BYTES;

// The byte that ends a line, and the one that may stand just before it.
pub const LINE_END: u8 = 10;

const RETURN: u8 = 13;

// The longest line that is read, its byte 13, and a byte in which it is seen that a line is longer: what does not fit behind these is not kept.
const HELD: usize = MOST_BYTES + 2;

// The buffer in which a line is kept until its end comes.
pub fn buffer() -> [u8; HELD]
    ensures { held_bytes ≡ length result }
{
    [0; HELD]
}

// Keeps one byte more of a line, of which `kept` bytes are kept already: how many it are then.
pub fn hold(held: &mut [u8], kept: usize, byte: u8) -> usize
    ensures { (part : List ℕ) → Holds held.old kept part → Holds held.new result (part ++ byte ∷ []) }
{
    if held.len() <= kept {
        return kept;
    }
    held[kept] = byte;
    kept + 1
}

// A line without the one byte 13 that may end it.
pub fn bare(line: &[u8]) -> &[u8]
    ensures { result.now ≡ Input·bare line.now }
{
    let n = line.len();
    if n == 0 {
        return &line[0..n];
    }
    if line[n - 1] == RETURN {
        return &line[0..n - 1];
    }
    &line[0..n]
}

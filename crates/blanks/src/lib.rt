// Blanks: a box, a wedge or a corner piece by its sizes in millimetres, written to lent room as corners in steps.
// One table a kind says which size each number of its corners is, and one loop writes them.
#![tactic(auto)]

ghost use Rattle.std.specs.Prelude.{◌≡◌, ◌++◌, ◌≤◌, length, drop};
ghost use Rattle.scans.specs.Scanned.{scanned_of};
ghost use Rattle.blanks.specs.Blanks.{sizes, needed, blank_corners, written_of, WrittenAs};
ghost use Rattle.blanks.specs.Chosen.{chosen, chosen_all, all_positive, SizesAs};

use limits::Refusal;
use scans::{Point, Steps};

// A blank's sizes, in millimetres.
#[derive(Clone, Copy)]
pub enum Blank {
    Box { width: f32, depth: f32, height: f32 },
    Wedge { width: f32, depth: f32, height: f32 },
    Corner { width: f32, depth: f32, height: f32 },
}

impl Blank {
    // The sizes, along x, y and z.
    fn sizes(self) -> Point
        ensures { result ≡ sizes self }
    {
        match self {
            Blank::Box {
                width,
                depth,
                height,
            }
            | Blank::Wedge {
                width,
                depth,
                height,
            }
            | Blank::Corner {
                width,
                depth,
                height,
            } => Point {
                x: width,
                y: depth,
                z: height,
            },
        }
    }
}

// The corners in order, three letters each: w stands for the width, d for the depth, h for the height and 0 for zero.
const BOX: [u8; 24] = *b"00000h0d00dhw00w0hwd0wdh";

const WEDGE: [u8; 18] = *b"000w0000h0d0wd00dh";

const CORNER: [u8; 12] = *b"000w000d000h";

// The size that a table's letter stands for.
fn choose(letter: u8, steps: Steps) -> i32
    ensures { result ≡ chosen steps.x steps.y steps.z letter }
{
    match letter {
        b'w' => steps.x,
        b'd' => steps.y,
        b'h' => steps.z,
        _ => 0,
    }
}

// The corners of a table, at the start of the room.
fn put(table: &[u8], room: &mut [i32], steps: Steps)
    requires { length table.now ≤ length room.old }
    ensures { room.new ≡ chosen_all table.now steps.x steps.y steps.z ++ drop (length table.now) room.old }
{
    for (i, letter) in table.iter().enumerate() {
        room[i] = choose(*letter, steps);
    }
}

fn positive(steps: Steps) -> bool
    ensures { result ≡ all_positive steps.x steps.y steps.z }
{
    0 < steps.x && 0 < steps.y && 0 < steps.z
}

// The three sizes in steps, or the lowest refusal of theirs.
fn in_steps(sizes: Point) -> Result<Steps, Refusal>
    ensures { SizesAs sizes (scanned_of result) }
{
    let steps = scans::scan_point(sizes)?;
    if positive(steps) {
        Ok(steps)
    } else {
        Err(Refusal::SizeZero)
    }
}

// The corners of a table for these sizes, or the lowest refusal and the room as it was.
fn fill(table: &[u8], sizes: Point, room: &mut [i32]) -> Result<usize, Refusal>
    ensures { WrittenAs sizes (length table.now) (chosen_all table.now) room.old room.new (written_of result) }
{
    if room.len() < table.len() {
        return Err(Refusal::ShortRoom);
    }
    let steps = in_steps(sizes)?;
    put(table, room, steps);
    Ok(table.len())
}

// The blank's corners at the start of the room, and how many numbers were written; or the lowest refusal, and the room as it was.
pub fn corners(blank: Blank, room: &mut [i32]) -> Result<usize, Refusal>
    ensures { WrittenAs (sizes blank) (needed blank) (blank_corners blank) room.old room.new (written_of result) }
{
    let sizes = blank.sizes();
    match blank {
        Blank::Box { .. } => fill(&BOX, sizes, room),
        Blank::Wedge { .. } => fill(&WEDGE, sizes, room),
        Blank::Corner { .. } => fill(&CORNER, sizes, room),
    }
}

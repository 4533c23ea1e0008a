// Files of the scanner, binary STL: one triangle after another, each corner's floats read by their bit patterns.
// A step is a function of the file and a position; the reader keeps the two together.
#![tactic(auto)]

ghost use Rattle.std.specs.Prelude.{◌+◌, ◌*◌, ◌≤◌, ◌≡◌, length};
ghost use Rattle.limits.specs.Lowest.{Lowest};
ghost use Rattle.limits.specs.Refusals.{answer_number};
ghost use Rattle.limits.specs.Decides.{Decides};
ghost use Rattle.scans.specs.Scanned.{scanned_of, PointAs};
ghost use Rattle.scans_stl.specs.Stl.{first_at, triangle_bytes, corner_bytes, word_at, triangle_count, point_at, file_refusals};
ghost use Rattle.scans_stl.specs.Steps.{taken_of, handed_of, TriangleStarts, StepAs, TriangleAs};
ghost use Rattle.scans_stl.specs.Reading.{NextAs};

use limits::Refusal;
use scans::{Steps, both};

// A triangle that is handed out: its corners in steps, three numbers each, and the position behind it.
#[derive(Clone, Copy)]
pub struct Triangle {
    pub corners: [i32; 9],
    pub next: usize,
}

const HEADER: usize = 80;

// Where the first triangle starts, and how many bytes a triangle has.
pub const FIRST: usize = 84;

pub const TRIANGLE: usize = 50;

// From a triangle's start to its corners, and from a corner to the next.
const NORMAL: usize = 12;

const CORNER: usize = 12;

// Four bytes, the lowest first.
#[tactic(auto, unfolding(crate::specs::Stl::word_at))]
fn word_at(file: &[u8], at: usize) -> u32
    requires { at + 4 ≤ length file.now }
    ensures { result ≡ word_at file.now at }
{
    u32::from_le_bytes([file[at], file[at + 1], file[at + 2], file[at + 3]])
}

// Whether the file is as long as its count says, and has triangles.
pub fn file_refusal(file: &[u8]) -> Result<(), Refusal>
    ensures { Lowest (file_refusals file.now) (answer_number result) }
{
    if file.len() < FIRST {
        return Err(Refusal::FileLength);
    }
    let count = word_at(file, HEADER);
    if file.len() != FIRST + TRIANGLE * (count as usize) {
        return Err(Refusal::FileLength);
    }
    if count == 0 {
        return Err(Refusal::CountZero);
    }
    Ok(())
}

// Whether a triangle starts at the position.
fn starts(file: &[u8], at: usize) -> bool
    requires { length file.now ≡ first_at + triangle_bytes * triangle_count file.now }
    ensures { Decides result (TriangleStarts file.now at) }
{
    FIRST <= at && at < file.len() && (at - FIRST) % TRIANGLE == 0
}

fn corner(file: &[u8], at: usize) -> Result<Steps, Refusal>
    requires { at + corner_bytes ≤ length file.now }
    ensures { PointAs (point_at file.now at) (scanned_of result) }
{
    scans::scan_patterns(
        word_at(file, at),
        word_at(file, at + 4),
        word_at(file, at + 8),
    )
}

// The triangle whose bytes start at the position, in steps, or the lowest refusal of its floats.
pub fn triangle_at(file: &[u8], at: usize) -> Result<Triangle, Refusal>
    requires { at + triangle_bytes ≤ length file.now }
    ensures { TriangleAs file.now at (taken_of result) }
{
    let a = corner(file, at + NORMAL);
    let b = corner(file, at + NORMAL + CORNER);
    let c = corner(file, at + NORMAL + 2 * CORNER);
    let (a, (b, c)) = both(a, both(b, c))?;
    Ok(Triangle {
        corners: [a.x, a.y, a.z, b.x, b.y, b.z, c.x, c.y, c.z],
        next: at + TRIANGLE,
    })
}

// What stands at a position of the file: a triangle, or nothing where none starts.
pub fn step(file: &[u8], at: usize) -> Result<Option<Triangle>, Refusal>
    ensures { StepAs file.now at (handed_of result) }
{
    file_refusal(file)?;
    if starts(file, at) {
        Ok(Some(triangle_at(file, at)?))
    } else {
        Ok(None)
    }
}

// A file and a position in it: a reader hands out one triangle after another.
#[derive(Clone, Copy)]
pub struct Reader<'a> {
    pub file: &'a [u8],
    pub at: usize,
}

impl<'a> Reader<'a> {
    // A reader at the first triangle.
    pub fn new(file: &'a [u8]) -> Reader<'a>
        ensures { (result.file ≡ file.entry) × (result.at ≡ first_at) }
    {
        Reader { file, at: FIRST }
    }

    // The step at the reader's position, and the reader behind the triangle; refused, or with no triangle there, it stays as it was.
    pub fn next(&mut self) -> Result<Option<Triangle>, Refusal>
        ensures { NextAs self.old self.new (handed_of result) }
    {
        let handed = step(self.file, self.at);
        if let Ok(Some(triangle)) = handed {
            self.at = triangle.next;
        }
        handed
    }
}

// Shapes from the scanner's files: the corners of a whole file, each once, written to lent room.
// They are collected in a room of our own first, so that a refused file leaves the lent one as it was.
#![tactic(auto)]

ghost use Rattle.std.specs.Prelude.{◌+◌, ◌*◌, ◌≤◌, ◌<◌, ◌≡◌, [], ◌∷◌, ◌++◌, length, drop};
ghost use Rattle.limits.specs.Limits;
ghost use Rattle.scans_stl.specs.Stl.{first_at, triangle_bytes, triangle_count};
ghost use Rattle.scans_stl_corners.specs.Kept.{same_corner, among, shape_of, ShapeReadAs};
ghost use Rattle.scans_stl_corners.specs.Holding.{corner_of, corner_held, corners_held, with_corner, Keeps, collected_of, CollectedAs, Fills};

use limits::Refusal;
use scans::{Steps, both};

// Whether corner i of those kept is this one.
fn is_at(kept: &[i32; limits::SHAPE_NUMBERS], i: usize, corner: Steps) -> bool
    requires { i < Limits.corners }
    ensures { result ≡ same_corner (corner_held kept.now i) (corner_of corner.x corner.y corner.z) }
{
    kept[3 * i] == corner.x && kept[3 * i + 1] == corner.y && kept[3 * i + 2] == corner.z
}

// Whether the corner is among those kept; the last ones are the likeliest.
fn is_kept(kept: &[i32; limits::SHAPE_NUMBERS], count: usize, corner: Steps) -> bool
    requires { count ≤ Limits.corners }
    ensures { result ≡ among (corner_of corner.x corner.y corner.z) (corners_held kept.now count) }
{
    for i in (0..count).rev() {
        if is_at(kept, i, corner) {
            return true;
        }
    }
    false
}

fn put_corner(kept: &mut [i32; limits::SHAPE_NUMBERS], count: usize, corner: Steps)
    requires { count < Limits.corners }
    ensures { (kept.new ≡ with_corner kept.old count corner.x corner.y corner.z) × (length kept.old ≡ Limits.shape_numbers) }
{
    kept[3 * count] = corner.x;
    kept[3 * count + 1] = corner.y;
    kept[3 * count + 2] = corner.z;
}

// One corner more, behind those kept unless it is among them. Past what a shape may have the corners are counted no further, and not kept.
fn keep(kept: &mut [i32; limits::SHAPE_NUMBERS], count: usize, corner: Steps) -> usize
    ensures { Keeps kept.old count (corner_of corner.x corner.y corner.z ∷ []) kept.new result }
{
    if limits::CORNERS < count || is_kept(kept, count, corner) {
        return count;
    }
    if count < limits::CORNERS {
        put_corner(kept, count, corner);
    }
    count + 1
}

// The three corners of a triangle.
fn keep_triangle(kept: &mut [i32; limits::SHAPE_NUMBERS], count: usize, corners: [i32; 9]) -> usize
    ensures { Keeps kept.old count (corners_held corners 3) kept.new result }
{
    let [ax, ay, az, bx, by, bz, cx, cy, cz] = corners;
    let count = keep(
        kept,
        count,
        Steps {
            x: ax,
            y: ay,
            z: az,
        },
    );
    let count = keep(
        kept,
        count,
        Steps {
            x: bx,
            y: by,
            z: bz,
        },
    );
    keep(
        kept,
        count,
        Steps {
            x: cx,
            y: cy,
            z: cz,
        },
    )
}

// All triangles, in one pass: how many corners were kept, one more than a shape may have where there are too many, or the lowest refusal of all floats.
fn collect(file: &[u8], kept: &mut [i32; limits::SHAPE_NUMBERS]) -> Result<usize, Refusal>
    requires { length file.now ≡ first_at + triangle_bytes * triangle_count file.now }
    ensures { CollectedAs file.now kept.new (collected_of result) }
{
    let mut collected = Ok(0);
    for at in (scans_stl::FIRST..file.len()).step_by(scans_stl::TRIANGLE) {
        collected = match both(collected, scans_stl::triangle_at(file, at)) {
            Ok((count, triangle)) => Ok(keep_triangle(kept, count, triangle.corners)),
            Err(refusal) => Err(refusal),
        };
    }
    collected
}

// What is kept, written to the room, or refused: too many corners, or too little room.
fn fill(
    kept: &[i32; limits::SHAPE_NUMBERS],
    count: usize,
    room: &mut [i32],
) -> Result<usize, Refusal>
    ensures { Fills kept.now count room.old room.new (shape_of result) }
{
    if limits::CORNERS < count {
        return Err(Refusal::ManyCorners);
    }
    let needed = 3 * count;
    if room.len() < needed {
        return Err(Refusal::ShortRoom);
    }
    room[..needed].copy_from_slice(&kept[..needed]);
    Ok(needed)
}

// The file's corners in steps, each once and in order of first appearance, at the start of the room, and how many numbers were written;
// or the refusal, and the room as it was.
pub fn corners(file: &[u8], room: &mut [i32]) -> Result<usize, Refusal>
    ensures { ShapeReadAs file.now room.old room.new (shape_of result) }
{
    scans_stl::file_refusal(file)?;
    let mut kept = [0; limits::SHAPE_NUMBERS];
    let count = collect(file, &mut kept)?;
    fill(&kept, count, room)
}

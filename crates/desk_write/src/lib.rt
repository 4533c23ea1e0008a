// A shape of a desk written back as an OFF text (document 02, W7), at the start of lent room.
// The desk is only read; the room past what is written keeps its value, and all of it where the command is refused.
#![tactic(auto)]

ghost use Rattle.std.specs.Prelude.{[]};
ghost use Rattle.pieces.specs.Pieces.{store_of, Loaded, ShapesInOrder};
ghost use Rattle.desk_state.specs.Lent.{seen};
ghost use Rattle.off_write.specs.Written.{off_text};
ghost use Rattle.desk_write.specs.Writing.{written_of, numbers_of_shape, room_refusals, WrittenAs, Writes};

use desk_refusals::asked;
use desk_state::SeenDesk;
use limits::Refusal;
use off_write::write_corners;

// How many bytes were written, or the refusal.
pub fn write(desk: SeenDesk<'_>, shape: i32, room: &mut [u8]) -> Result<usize, Refusal>
    ensures { Writes (seen desk.entry) shape room.old room.new (written_of result) }
{
    if !desk.in_order() {
        return Err(Refusal::Disorder);
    }
    let s = asked::loaded_shape(desk.shapes, shape)?;
    write_shape(desk.shapes, s, room)
}

// A loaded shape: its count of corners, and three numbers for each of them behind it.
fn write_shape(
    shapes: &[i32; limits::SHAPES_LENGTH],
    s: usize,
    room: &mut [u8],
) -> Result<usize, Refusal>
    requires { ShapesInOrder (store_of shapes.now []) × Loaded (store_of shapes.now []) s }
    ensures { WrittenAs
        (room_refusals (off_text (numbers_of_shape (store_of shapes.now []) s)) room.old)
        (off_text (numbers_of_shape (store_of shapes.now []) s)) room.old room.new (written_of result) }
{
    let cell = s * limits::SHAPE_CELLS;
    let corners = shapes[cell] as usize;
    let first = cell + 1;
    let last = first + 3 * corners;
    let count = write_corners(&shapes[first..last], room);
    if count == 0 {
        return Err(Refusal::ShortRoom);
    }
    Ok(count)
}

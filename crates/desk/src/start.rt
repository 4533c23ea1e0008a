// Starting afresh: no shapes, places or rows, tallies 0, every mark 65,535; and no gap.
// The one command that does not ask for a desk in order: it asks for the length of the marks buffer alone.
ghost use Rattle.desk_state.specs.Lent.{held, SameLent};
ghost use Rattle.desk.specs.Commands.{Started};

use desk_state::LentDesk;
use limits::Refusal;
use marks_keep::start_marks;
use rows::start_rows;

// A fresh desk, whatever the arrays hold.
pub fn start(desk: &mut LentDesk<'_>) -> Result<u32, Refusal>
    ensures same { SameLent desk.old desk.new }
    ensures started { Started (held desk.old) (held desk.new) result }
{
    if desk.marks.len() != limits::MARKS {
        return Err(Refusal::Disorder);
    }
    *desk.shapes = [0; limits::SHAPES_LENGTH];
    *desk.places = [0; limits::PLACES_LENGTH];
    start_rows(desk.rows, desk.book);
    start_marks(desk.marks);
    Ok(0)
}

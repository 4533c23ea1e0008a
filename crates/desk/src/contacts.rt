// The listing of contacts: rows 2 and 3 of a desk in order, three bytes each, written to lent room.
// The desk is only read.
ghost use Rattle.desk_state.specs.Lent.{seen};
ghost use Rattle.desk.specs.Commands.{ListsContacts};

use desk_state::SeenDesk;
use limits::Refusal;
use rows_list::list_contacts;

pub fn contacts(desk: SeenDesk<'_>, room: &mut [u8]) -> Result<u32, Refusal>
    ensures { ListsContacts (seen desk.entry) room.old room.new result }
{
    if !desk.in_order() {
        return Err(Refusal::Disorder);
    }
    list_contacts(desk.rows, room)
}

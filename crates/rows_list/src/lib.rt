// The listing of contacts: the rows 2 and 3, three bytes each, in rising order of the two places, into lent room.
// The rows that are listed are counted before anything is written, so that room that is too short stays as it was.
#![tactic(auto)]

ghost use Rattle.std.specs.Prelude.{◌≡◌, ◌++◌, ◌≤◌, ◌<◌, ◌+◌, ◌*◌, length, drop};
ghost use Rattle.std.proofs.lemmas.List.Edits.{sets};
ghost use Rattle.limits.specs.Limits;
ghost use Rattle.rows_list.specs.Contacts.{contact, listed, contacts, Lists};

use limits::Refusal;

// The contacts written to room, three bytes a row, and how many rows they are; or refused where room is too short, and then nothing is written.
pub fn list_contacts(rows: &[u8; limits::ROWS], room: &mut [u8]) -> Result<u32, Refusal>
    ensures { Lists rows.now room.old room.new result }
{
    let n = count_contacts(rows);
    if room.len() < 3 * n {
        return Err(Refusal::ShortRoom);
    }
    write_contacts(rows, room);
    Ok(n as u32)
}

// How many rows are contacts. Sixteen bits hold their number, and let more cells be counted at a time.
fn count_contacts(rows: &[u8; limits::ROWS]) -> usize
    ensures bytes { length (contacts rows.now) ≡ 3 * result }
    ensures most { result ≤ Limits.rows }
{
    let mut n = 0;
    for &v in rows {
        n += u16::from(is_contact(v));
    }
    usize::from(n)
}

fn is_contact(v: u8) -> bool
    ensures { result ≡ contact v }
{
    v == limits::TOUCHING || v == limits::PENETRATING
}

// The contacts written to room that is long enough, in rising order of the cells, which is that of the two places.
fn write_contacts(rows: &[u8; limits::ROWS], room: &mut [u8])
    requires { length (contacts rows.now) ≤ length room.old }
    ensures { room.new ≡ contacts rows.now ++ drop (length (contacts rows.now)) room.old }
{
    let mut at = 0;
    for (k, &v) in rows.iter().enumerate() {
        at = write_row(room, at, k, v);
    }
}

// The row v of the cell k written at a place of room, if it is a contact, and where the next one goes.
fn write_row(room: &mut [u8], at: usize, k: usize, v: u8) -> usize
    requires { (k < Limits.rows) × (at + length (listed k v) ≤ length room.old) }
    ensures next { result ≡ at + length (listed k v) }
    ensures room { room.new ≡ sets room.old at (listed k v) }
{
    if !is_contact(v) {
        return at;
    }
    room[at] = (k / limits::PLACES) as u8;
    room[at + 1] = (k % limits::PLACES) as u8;
    room[at + 2] = v;
    at + 3
}

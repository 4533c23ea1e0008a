// One command of a run: its numbers are read off its code as they are, and it is told to the desk.
// What comes back is how many commands were accepted: one or none.
ghost use Rattle.std.specs.Prelude.{◌≡◌, List, ◌≤◌, ℤ, length};
ghost use Rattle.desk_state.specs.Lent.{held, SameLent};
ghost use Rattle.runs.specs.Encoded.{code_numbers, commands_in};
ghost use Rattle.runs.specs.Told.{Told};
ghost use Rattle.runs_told.specs.Entries.{entries_of};

use desk::Command;
use desk_state::LentDesk;
use pieces::placement::{Offset, Placement};

// Which command a code is: kind, place, shape, turn, x, y, z. A gap's steps stand at x. None where its kind is no command's.
fn command_of(code: &[i32]) -> Option<Command>
    requires { code_numbers ≤ length code.now }
    ensures { (numbers : List ℤ) → commands_in code.now numbers ≡ entries_of result numbers }
{
    let at = code[1];
    let shape = code[2];
    let turn = code[3];
    let x = code[4];
    let y = code[5];
    let z = code[6];
    match code[0] {
        0 => Some(Command::Start),
        1 => Some(Command::Load(shape)),
        2 => Some(Command::Place(
            at,
            Placement {
                shape,
                turn,
                x,
                y,
                z,
            },
        )),
        3 => Some(Command::Move(at, turn, Offset { x, y, z })),
        4 => Some(Command::Remove(at)),
        5 => Some(Command::Gap(x)),
        _ => None,
    }
}

// The command of a code; a code of another kind is passed over.
pub fn tell(desk: &mut LentDesk<'_>, code: &[i32], numbers: &[i32]) -> usize
    requires { code_numbers ≤ length code.now }
    ensures same { SameLent desk.old desk.new }
    ensures told { Told (commands_in code.now numbers.now) (held desk.old) (held desk.new) result }
{
    let Some(command) = command_of(code) else {
        return 0;
    };
    match desk_tell::tell(desk, command, numbers) {
        Ok(_) => 1,
        Err(_) => 0,
    }
}

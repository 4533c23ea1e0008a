// Runs of commands told: from a desk, by any number of codes one after the other, to a desk that holds what the accepted ones put.
// The theorem stands in crate `runs`; `run` carries it as its contract.
#![tactic(auto)]

pub mod tell;

ghost use Rattle.std.specs.Prelude.{◌≡◌, ◌≤◌, length};
ghost use Rattle.desk_state.specs.Lent.{held, SameLent};
ghost use Rattle.runs.specs.Encoded.{code_numbers, took_by};
ghost use Rattle.runs.specs.Told.{Runs};

use crate::tell::tell;
use desk_state::LentDesk;
use pieces::index::index_of;

// How many numbers a code has.
const CODE_NUMBERS: usize = 8;

// The commands of a run told to the desk; how many were accepted.
pub fn run(desk: &mut LentDesk<'_>, codes: &[i32], numbers: &[i32]) -> usize
    ensures same { SameLent desk.old desk.new }
    ensures runs { Runs codes.now numbers.now (held desk.old) (held desk.new) result }
{
    let mut used: usize = 0;
    let mut accepted: usize = 0;
    for i in 0..codes.len() / CODE_NUMBERS {
        let start = CODE_NUMBERS * i;
        let code = &codes[start..start + CODE_NUMBERS];
        let stop = used + took_by(code, numbers.len() - used);
        accepted += tell(desk, code, &numbers[used..stop]);
        used = stop;
    }
    accepted
}

// How many of the corner numbers that are left a code takes.
fn took_by(code: &[i32], left: usize) -> usize
    requires { code_numbers ≤ length code.now }
    ensures { result ≡ took_by code.now left }
{
    index_of(code[7], left).unwrap_or(left)
}

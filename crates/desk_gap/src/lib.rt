// Setting the gap (W6): the desk's gap is stored while no place is taken, so that no row was worked out by another. Nothing else changes.
// Every refusal is found before anything is written.
#![tactic(auto)]

ghost use Rattle.std.specs.Prelude.{◌≡◌, nat_abs, IfOk};
ghost use Rattle.limits.specs.Decides.{Decides};
ghost use Rattle.limits.specs.Refusals.{answer_number};
ghost use Rattle.desk_state.specs.Lent.{of_book, SameBook, with_book};
ghost use Rattle.desk.specs.Commands.{SomeTaken, SetsGap};
ghost use Rattle.desk_gap.specs.Setting.{GapAsked};

use desk_state::LentBook;
use limits::Refusal;
use pieces::index::index_of;
use pieces::taking::is_taken;
use rows_tally::put_gap;

// How many gaps there are: 0 to the widest.
const GAPS: usize = limits::GAP_MOST as usize + 1;

// Refused, or the desk has this gap.
pub fn set_gap(desk: &mut LentBook<'_>, gap: i32) -> Result<u32, Refusal>
    ensures same { SameBook desk.old desk.new }
    ensures sets_gap { SetsGap (of_book desk.old) gap (with_book desk.old desk.new) result }
{
    if !desk.in_order() {
        return Err(Refusal::Disorder);
    }
    let steps = gap_asked(desk.places, gap)?;
    put_gap(desk.book, steps as u32);
    Ok(0)
}

// A gap that can be set: 24, out of range or set while a place is taken.
fn gap_asked(places: &[i32; limits::PLACES_LENGTH], gap: i32) -> Result<usize, Refusal>
    ensures asked { GapAsked places.now gap (answer_number result) }
    ensures index { IfOk result (λ steps. steps ≡ nat_abs gap) }
{
    let Some(steps) = index_of(gap, GAPS) else {
        return Err(Refusal::GapRefused);
    };
    if some_taken(places) {
        return Err(Refusal::GapRefused);
    }
    Ok(steps)
}

// Whether some place is taken.
fn some_taken(places: &[i32; limits::PLACES_LENGTH]) -> bool
    ensures { Decides result (SomeTaken places.now) }
{
    for place in 0..limits::PLACES {
        if is_taken(places, place) {
            return true;
        }
    }
    false
}

// The pair question: the verdict of two different taken places of a desk in order by the desk's gap, with its witnesses.
// The desk is only read.
#![tactic(auto)]

ghost use Rattle.verdict.specs.Answers.{answer_of};
ghost use Rattle.desk_state.specs.Lent.{seen};
ghost use Rattle.desk.specs.Commands.{Pairs};

use desk_refusals::asked;
use desk_state::SeenDesk;
use limits::Refusal;
use rows_right::row::verdict_of;
use rows_tally::gap_of;
use verdict::Verdict;

pub fn pair(desk: SeenDesk<'_>, first: i32, second: i32) -> Result<Verdict, Refusal>
    ensures { Pairs (seen desk.entry) first second (answer_of result) }
{
    if !desk.in_order() {
        return Err(Refusal::Disorder);
    }
    let (i, j) = asked::two_places(desk.places, first, second)?;
    let gap = gap_of(desk.book);
    Ok(verdict_of(gap, desk.shapes, desk.places, i, j))
}

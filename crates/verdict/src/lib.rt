// The verdict of two corner lists with a gap between them, exact and with witnesses: two walks at most, and what their ends say.
// No tolerance and no limit on the rounds: a measure falls with each of them (crate `verdict_walk`, specs/Ends.antt).
#![tactic(auto)]

ghost use Rattle.std.specs.Prelude.{◌≡◌, ◌≤◌};
ghost use Rattle.limits.specs.Decides.{Decides};
ghost use Rattle.limits.specs.Limits.{gap_most};
ghost use Rattle.space.specs.Lists.{Placed};
ghost use Rattle.verdict.specs.Answers.{BadLength, OutOfReach, GapFits, Carries, Answers, answer_with, answer_of};
ghost use Rattle.verdict.specs.Judged.{MeetingAt, TestsBoth, BothFit, BothNear};

mod witnessed;

use limits::Refusal;
use space::{Vec3, in_reach, length_fits};
use verdict_frame::{Frame, frame_of, frame_places, shift_of, start_of};
use verdict_walk::{Ended, gathered_of, walk};
pub use witnessed::Verdict;

// The verdict of two pieces that meet at e, whose difference has the frame f: the weak walk decides.
// Where four points weigh something the origin is inside of them, and no second walk is made.
fn meeting_verdict(gap: u32, f: Frame, e: Ended, first: &[i32], second: &[i32]) -> Verdict
    requires placed { Placed first.now × Placed second.now }
    requires meeting_at { MeetingAt gap first.now second.now f e }
    ensures { Carries gap first.now second.now (answer_with result) }
{
    let pairs = gathered_of(gap, e);
    if pairs.count == 4 {
        return Verdict::Penetrating { pairs };
    }
    let v = frame_places(f);
    let w = walk(shift_of(v), v, e.portal, f.widths, first, second);
    let inside = w.met;
    if inside {
        return Verdict::Penetrating { pairs };
    }
    Verdict::Touching {
        direction: w.normal,
        pairs,
    }
}

// The verdict of two lists of placed corners, the first widened by the gap, with its witnesses.
pub fn verdict(gap: u32, first: &[i32], second: &[i32]) -> Verdict
    requires gap_le_gap_most { gap ≤ gap_most }
    requires placed { Placed first.now × Placed second.now }
    ensures { Carries gap first.now second.now (answer_with result) }
{
    let f = frame_of(gap, first, second);
    let v = frame_places(f);
    let e = walk(Vec3::ORIGIN, v, start_of(f), f.widths, first, second);
    if e.met {
        return meeting_verdict(gap, f, e, first, second);
    }
    Verdict::Separate {
        direction: e.normal,
    }
}

fn lengths_fit(first: &[i32], second: &[i32]) -> bool
    ensures { TestsBoth result (BothFit first.now second.now) (BadLength first.now second.now) }
{
    length_fits(first.len()) && length_fits(second.len())
}

fn both_near(first: &[i32], second: &[i32]) -> bool
    ensures { TestsBoth result (BothNear first.now second.now) (OutOfReach first.now second.now) }
{
    in_reach(first, limits::PLACED_REACH) && in_reach(second, limits::PLACED_REACH)
}

// Whether a number is a gap: from 0 to the widest.
pub fn gap_fits(gap: i32) -> bool
    ensures { Decides result (GapFits gap) }
{
    gap >= 0 && gap <= limits::GAP_MOST
}

// The pair question on two lent lists of placed corners: for every gap and every two lists.
pub fn pair_of_lists(gap: i32, first: &[i32], second: &[i32]) -> Result<Verdict, Refusal>
    ensures { Answers gap first.now second.now (answer_of result) }
{
    if !lengths_fit(first, second) {
        return Err(Refusal::ListLength);
    }
    if !both_near(first, second) {
        return Err(Refusal::PlacedRange);
    }
    if !gap_fits(gap) {
        return Err(Refusal::GapRefused);
    }
    Ok(verdict(gap.unsigned_abs(), first, second))
}

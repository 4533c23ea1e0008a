// The answer to the pair question, of two places or of two lists: a refusal's number, or the verdict and what it carries.
// Direction, pairs and weights are printed as they were answered.
#![tactic(auto)]

ghost use Rattle.line.specs.Printed.{SameOut};

use limits::Refusal;
use line::out::Out;
use space::{Pair, Vec3};
use verdict::Verdict;

// The answer to the pair question: a refusal's number, or the verdict with the direction and the pairs that it carries.
pub fn pair_answer(answer: Result<Verdict, Refusal>, out: &mut Out<'_>)
    ensures { SameOut out.old out.new }
{
    match answer {
        Ok(verdict) => witnessed(&verdict, out),
        Err(refusal) => out.refused(refusal.number()),
    }
}

// A verdict in numbers: its own, its direction, how many pairs there are, and each of them. What it does not carry is 0.
fn witnessed(verdict: &Verdict, out: &mut Out<'_>)
    ensures { SameOut out.old out.new }
{
    let pairs = verdict.pairs();
    out.put(b"0");
    out.next_number(i64::from(verdict.number()));
    three_numbers(verdict.direction(), out);
    out.next_count(pairs.len());
    for pair in pairs {
        weighed(*pair, out);
    }
    out.end();
}

// A direction's three numbers.
fn three_numbers(direction: Vec3, out: &mut Out<'_>)
    ensures { SameOut out.old out.new }
{
    let Vec3 { x, y, z } = direction;
    out.next_number(x);
    out.next_number(y);
    out.next_number(z);
}

// A pair: the corner of the first piece, the corner of the second, the corner of the gap's cube, and the weight.
fn weighed(p: Pair, out: &mut Out<'_>)
    ensures { SameOut out.old out.new }
{
    let Pair {
        first,
        cube,
        second,
        weight,
    } = p;
    out.next_count(first);
    out.next_count(second);
    out.next_count(cube);
    out.next_number(weight);
}

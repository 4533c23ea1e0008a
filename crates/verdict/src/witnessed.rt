// What two pieces are to each other, with what shows it: the verdicts of document 01, each with the witnesses that it carries.
// The paper's record of the same, where what a verdict does not carry is zero, is read off by `answer_with` (specs/Answers.antt).
ghost use Rattle.std.specs.Prelude.{◌≡◌};
ghost use Rattle.verdict.specs.Answers.{answer_with, carried};

use space::{Pair, Pairs, Vec3};

// What two pieces are to each other, with the witnesses of it.
#[derive(Drop)]
pub enum Verdict {
    Separate { direction: Vec3 },
    Touching { direction: Vec3, pairs: Pairs },
    Penetrating { pairs: Pairs },
}

impl Verdict {
    // Document 01's number of a verdict, which is what a row holds.
    pub fn number(&self) -> u8
        ensures { result ≡ (answer_with self.now).verdict }
    {
        match self {
            Verdict::Separate { .. } => limits::SEPARATE,
            Verdict::Touching { .. } => limits::TOUCHING,
            Verdict::Penetrating { .. } => limits::PENETRATING,
        }
    }

    // The direction that a verdict carries; else 0.
    pub fn direction(&self) -> Vec3
        ensures { result ≡ (answer_with self.now).direction }
    {
        match self {
            Verdict::Separate { direction } | Verdict::Touching { direction, .. } => *direction,
            Verdict::Penetrating { .. } => Vec3::ORIGIN,
        }
    }

    // The pairs that a verdict carries, if any.
    pub fn pairs(&self) -> &[Pair]
        ensures { result.now ≡ carried (answer_with self.now) }
    {
        match self {
            Verdict::Separate { .. } => &[],
            Verdict::Touching { pairs, .. } | Verdict::Penetrating { pairs } => pairs.as_slice(),
        }
    }
}

// The answers of building and of the step in the documents' numbers, as values.
// Contracts: `ground_number`, `Numbered`, `answer_number`. Definitions: `ground_number` of `built_meshes`, specs/Answers.antt; `refusal_number` of
// `steps`, specs/Step.antt; `specs/Numbers.antt`.
#![tactic(auto)]

ghost use Rattle.std.specs.Prelude.{◌≡◌, ℕ};
ghost use Rattle.built_meshes.specs.Answers.{ground_number};
ghost use Rattle.steps.specs.Step.{refusal_number};
ghost use Rattle.answer_numbers.specs.Numbers.{answer_number};

use built_meshes::Ground;
use steps::StepRefusal;

// The documents' number of a ground of building.
pub fn ground_number(g: Ground) -> u32
    ensures { result ≡ ground_number g }
{
    match g {
        Ground::OverCounts => 2,
        Ground::UnfitNumber => 3,
        Ground::FewRows => 4,
        Ground::FaceSize => 10,
        Ground::OutOfRange => 11,
        Ground::PointTwice => 12,
        Ground::FirstPoint => 43,
        Ground::NonRectangularFace => 13,
        Ground::EdgeTripleFace => 14,
        Ground::SameWay => 15,
        Ground::MissingFace => 20,
        Ground::NoEdge => 21,
        Ground::MissedEdge => 22,
    }
}

// A refusal that has a number in the documents.
pub trait Numbered: Copy {
    ghost number: { Self → ℕ };

    fn number(self) -> u32
        ensures { result ≡ number self };
}

impl Numbered for Ground {
    ghost number = { ground_number };

    fn number(self) -> u32 {
        ground_number(self)
    }
}

impl Numbered for StepRefusal {
    ghost number = { refusal_number };

    fn number(self) -> u32 {
        StepRefusal::number(self)
    }
}

// The documents' number of an answer: that of the refusal, and 0 for what is accepted.
pub fn answer_number<T: Copy, E: Numbered>(answer: Result<T, E>) -> u32
    ensures { result ≡ answer_number E.number answer }
{
    match answer {
        Ok(_) => 0,
        Err(refusal) => refusal.number(),
    }
}

// One step of refining (document 01, "One refinement" and grounds 30 to 33), as a definition over tables of any content, and
// what a step makes of a mesh. Not here: the code of the step, and lists of steps (`runs`).
// Definitions: `specs/Step.antt` (the step), over `specs/Positions.antt` (the positions of the new mesh); `specs/Rows.antt` (room for
// rows). Claims: `specs/OneStep.antt`, proved in `proofs/OneStep.antt` (accepted steps), `proofs/Grounds.antt` (what refused ones
// leave) and `proofs/NotFinite.antt` (ground 33); `specs/FirstGround.antt` (when each answer is given) and
// `specs/LentScratch.antt` (what scratch held shows nowhere), proved in the files of `proofs/` with their names.
// A step answers `Result<Counts, StepRefusal>`: how many points, edges and faces the mesh has after it, or the ground.
#![tactic(auto)]

ghost use Rattle.std.specs.Prelude.{◌≡◌};
ghost use Rattle.steps.specs.Step.{refusal_number};

// The ground on which a step is refused. Document 01's number stands beside each.
#[derive(Clone, Copy, Debug, PartialEq, Eq)]
pub enum StepRefusal {
    // 30: the audit fails
    NotClosed,
    // 31: the order is not each face once
    NotEachFaceOnce,
    // 32: tables or scratch have fewer rows of a kind than the mesh after the step, or that mesh is over the ceilings
    NoRoom,
    // 33: a stored number would not be finite
    NotFinite,
}

impl StepRefusal {
    // Document 01's number of the ground.
    pub fn number(self) -> u32
        ensures { result ≡ refusal_number self }
    {
        match self {
            StepRefusal::NotClosed => 30,
            StepRefusal::NotEachFaceOnce => 31,
            StepRefusal::NoRoom => 32,
            StepRefusal::NotFinite => 33,
        }
    }
}

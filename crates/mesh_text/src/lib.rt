// Mesh texts 1 and 2 (document 01, "Mesh text"; document 02, §4): their grammar, and what reading them answers and leaves in lent lists.
// Not here: its lines (`mesh_lines`), the code that reads (`text_sizes`, `text_reading`), grounds 3 and later (building), the answers'
// lines (`mesh_answers`).
// Definitions: `specs/Text.antt` (the grammar), `specs/Lists.antt` (the lists that a text stands for), `specs/Reading.antt` (the answer
// and the lent lists), `specs/Parts.antt` (the answers of the first scan).
// Laws for callers: `proofs/Read.antt`; for the reader: `proofs/Heads.antt`, `proofs/Stored.antt`.
#![tactic(auto)]

// Why a text is not read.
#[derive(Clone, Copy, Debug, PartialEq, Eq)]
pub enum ReadingGround {
    // 1: not of the form
    NotText,
    // 2: over the limits
    OverLimits,
}

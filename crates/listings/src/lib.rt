// The handover listing (document 02, §1) as a definition: the rows of a mesh, their printing, the form that reads a text back into
// rows, and what writing and reading a listing answer and leave.
// Not here: the code that writes (`listing_writing`) and reads (`listing_lines`, `listing_reading`).
// Definitions: `specs/Printing.antt` (rows and their printing), `specs/Grammar.antt` (the form), `specs/Handing.antt` (writing and
// reading). Claims: `specs/Claims.antt`, proved in `proofs/Theorem.antt`. Laws for callers: `proofs/Exact.antt` (a form finds
// exactly what is printed).
#![tactic(auto)]

// Why no listing is written. The number of document 02 stands beside each.
#[derive(Clone, Copy, Debug, PartialEq, Eq)]
pub enum WritingRefusal {
    // 30: the audit fails
    NotClosed,
    // 2: the mesh is over the ceilings
    OverCeilings,
    // 4: the output is too short
    TooShort,
}

// Why no listing is read.
#[derive(Clone, Copy, Debug, PartialEq, Eq)]
pub enum ListingRefusal {
    // 40: not of the form
    NotListing,
    // 2: it lists more than the ceilings
    OverCeilings,
    // 4: the lent tables have fewer rows than it lists
    NoRoom,
    // 30: the audit fails
    NotClosed,
}

// The printing of mesh texts 1 and 2 (document 01, "Mesh text"; document 02, §4), and the theorem that a text is read as lists exactly
// if it is the printing of them: so the grammar of `mesh_text` finds what this printer writes and nothing else. The faces of lists as a
// text says them: those of the lists that a text stands for are the text's.
// Not here: the grammar (`mesh_lines`, `mesh_text`), the printing of numbers (`mesh_answers`), the code that writes face lines
// (`text_printing`).
// Definitions: `specs/Printing.antt`, `specs/Faces.antt`. Claims: `specs/Claims.antt`, proved in `proofs/Theorem.antt` over
// `proofs/Parts.antt` (the lines are found exactly where they are printed). The faces of a text's lists: `proofs/Again.antt`. Printed
// texts: `proofs/Cases.antt`.
#![tactic(auto)]

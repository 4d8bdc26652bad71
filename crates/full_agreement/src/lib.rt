// Full agreement of visiting orders (document 02, §7): two runs of steps of the second edition from one mesh, in any orders, are refused
// together and on the same ground, and share every position, interval, mark and start edge under the naming.
// No function: a claim over whole lists of steps, beside `Demand3` of `runs`, and its proof.
//
// The claim: `specs/Agreement.antt`, FullAgreement. Its proof:
//     proofs/OnKinds.antt        one refinement each: what corresponding kinds of rows hold
//     proofs/SecondStarts.antt   the start edges of the second edition, with no order in them
//     proofs/Agreement.antt      the correspondence that the steps keep: in the beginning, over a refused step, over an accepted one
//     proofs/Answers.antt        the two steps have the same answer
//     proofs/Theorem.antt        the induction over both lists: `theorem`
// Two triangles in two orders, computed: `mesh_cases`.
#![tactic(auto)]

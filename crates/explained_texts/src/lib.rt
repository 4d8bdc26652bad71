// What is claimed of the place and of the number that are told of a mesh text of any bytes (no functions).
// Not here: the functions and their definitions (`text_places`, `told_texts`).
// Claims: `PlaceIsFirst`, specs/Places.antt, proved in proofs/Places.antt; `NumberIsAnswer`, specs/Numbers.antt, proved in proofs/Numbers.antt.
#![tactic(auto)]

// What the papers say: specs/Lib.antt has the modules in reading order. What is claimed of them is proved in proofs/Claims.antt. There is
// no code.
#![tactic(auto)]

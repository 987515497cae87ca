//! What a run does, and the law of a list of calls: definitions in specs/, and the part of the proof that speaks of no code in proofs/.
//! specs/Runs has a run, specs/Traces the records that it adds, specs/Effects the law.
#![tactic(auto)]

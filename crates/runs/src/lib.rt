// The theorem over any run of commands: specs/Stands.antt says it and Theorem.antt proves it; what a run is stands in Log.antt, Reached.antt and Encoded.antt.
// Definitions and laws only; crate `runs_told` has the function that carries it.
#![tactic(auto)]

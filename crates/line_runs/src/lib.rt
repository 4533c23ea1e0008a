// The theorem over any input of the program: specs/Heard.antt says what its lines have the desk told, and HeardLaws.antt proves that the desk is reached by it.
// Definitions and laws only; `mudwicket::run` carries the theorem as its contract.
#![tactic(auto)]

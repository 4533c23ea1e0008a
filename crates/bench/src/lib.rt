// The bench pieces of document 01: the table of starred cases stands in specs/Table.antt, and a run that reaches its three boxes in specs/Exhibited.antt.
// These are definitions and laws; the crate holds no code.
#![tactic(auto)]

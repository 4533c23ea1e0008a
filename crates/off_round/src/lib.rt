// OFF texts there and back, as laws: reading what was written gives the same corners, and writing what was so read gives the same bytes.
// There is no code in it.
#![tactic(auto)]

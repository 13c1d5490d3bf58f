// The console's conversation as definitions (specs/): what a line says, what an outcome prints, and the whole as a function of the input's
// bytes. The code is in `lines` and `talk`.
#![tactic(auto)]

// Document 01's night run as definitions (specs/): the run file, and its listing as a function of its bytes. The code is in `runfile` and
// `nightrun`.
#![tactic(auto)]

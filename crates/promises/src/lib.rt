// The three demands as theorems about the library's calls. There is nothing to run here.
#![tactic(auto)]

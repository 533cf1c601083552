// The six rules of a sound table in words of membership, and that the test of crate `soundness` says
// the same. There is nothing to run here.
#![tactic(auto)]

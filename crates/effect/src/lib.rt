//! What becomes of the samples when a mesh is edited: claims about the numbers that the calls give, as laws over what the calls promise.
#![tactic(auto)]

// No code: the control points of two meshes of one shape correspond (proofs/).
#![tactic(auto)]

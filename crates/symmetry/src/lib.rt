// No code: the laws of two meshes of one shape, their faces turned the same way or the other (proofs/).
#![tactic(auto)]

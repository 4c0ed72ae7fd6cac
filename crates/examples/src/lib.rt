// No code: the worked meshes, rules X1 to X8, X12 to X14, X16 and X17, computed from the definitions (specs/).
#![tactic(auto)]

//! The claims about the tangents that the calls give, across an edge and of a renumbered mesh, as laws over what the tangent call promises.
#![tactic(auto)]

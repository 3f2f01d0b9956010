// What a thirty-year reader may lean on (document 02, R-14). No code: three facts of every record that a seal leaves,
// stated in `specs/Facts` and proved in `proofs/Facts`.
#![tactic(auto)]

// What every record that a seal leaves has, though no reader asks for it. No code: stated in `specs/Facts`, proved
// in `proofs/Facts`.
#![tactic(auto)]

// Pages of the crate markdown, computed by the prover from its events: proofs/ alone matters.
#![tactic(auto)]

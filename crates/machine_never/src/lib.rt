// The machine never stops on a text and events that the checker passes. There is no code here; the specs are the proof's own tables, which the theorem does not cite.
#![tactic(auto)]

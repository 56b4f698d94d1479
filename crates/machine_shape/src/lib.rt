// What a stop of the machine depends on, and that no list which nests stops it for that reason. There is no code here; the specs are the proof's own tables, which the theorem does not cite.
#![tactic(auto)]

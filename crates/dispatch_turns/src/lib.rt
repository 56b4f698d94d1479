// An event's turn as a dispatcher has it: the event at an index of the records. There is no code here.
#![tactic(auto)]

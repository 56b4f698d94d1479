// The machine within the tables that the code has, and what it tells of the machine itself. There is no code here.
#![tactic(auto)]

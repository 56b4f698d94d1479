// How much room the calls that write a text need at most. There is no code here.
#![tactic(auto)]

// What a user wants to hear of a replay, and the plain machine behind the call. There is no code here.
#![tactic(auto)]

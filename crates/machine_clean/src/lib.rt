// Every buffer of the machine is UTF-8, and so its page. There is no code here.
#![tactic(auto)]

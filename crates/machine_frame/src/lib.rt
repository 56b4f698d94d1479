// The frame lemma: over a whole element the machine leaves every stack as it was, and the newest buffer only grows. There is no code here.
#![tactic(auto)]

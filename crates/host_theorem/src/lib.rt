// The theorem about lists of calls of a C host. The statement is in specs/.
#![tactic(auto)]

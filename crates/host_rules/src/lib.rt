// The calls of a C host, as definitions: what each returns and leaves. The functions that keep them are in crates above.
#![tactic(auto)]

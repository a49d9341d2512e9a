// What the calls report, at numbers. The claims stand in specs/.
#![tactic(auto)]

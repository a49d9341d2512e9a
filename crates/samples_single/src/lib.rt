// The definitions at numbers of binary32, the format of f32. The theorems stand in specs/.
#![tactic(auto)]

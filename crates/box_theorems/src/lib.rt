// What holds of boxes made from lines: no call refuses the paths, and every end lies in its path's box. There is no code here.

#![tactic(auto)]

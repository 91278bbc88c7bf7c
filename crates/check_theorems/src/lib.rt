// What the check of another's tables is worth: a yes is as good as our own count, what our own calls
// leave is answered yes, and a no names the first entry at fault. There is no code here.

#![tactic(auto)]

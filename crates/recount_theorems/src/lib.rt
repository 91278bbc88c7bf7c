// What a recount's definition gives: no tile of another path changes, a refused recount changes none,
// and one that is done leaves the tiles of a fresh count. There is no code here.

#![tactic(auto)]

// What a call comes to whose lines lie in boxes with a margin: all lines are counted, or the room for references ends. There is no code here.

#![tactic(auto)]

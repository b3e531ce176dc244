// Where the judgement of lent code stops: at a line not past 4,096; the theorem is in specs/.
#![tactic(auto)]

// Where each real hart stands in the tables, and what each request makes of that and of the hart's record. There is no code here.
#![tactic(auto)]

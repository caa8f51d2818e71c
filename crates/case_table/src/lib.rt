// What it is: document 01's table of cases, the rows that are to be proved, and the delay's answer at the corners of the picture. It holds no code. Those that are run only are run by crate cases.
// What it promises: each row of the table holds of the definitions that the contracts cite.
// Where its definitions stand: specs/Rows.antt, the table and what each kind of row says.
#![tactic(auto)]

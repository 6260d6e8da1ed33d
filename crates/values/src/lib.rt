// Document 01's marked values: the table stands in specs/Table.antt, each line a theorem by computation.
#![tactic(auto)]

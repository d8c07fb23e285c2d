// The paper's worked examples, about the definitions alone: specs/Table.antt has the table, proofs/Examples.antt the statement.
#![tactic(auto)]

// Document 01, "Examples to check against": the starred rows, which `specs/Rows.antt` has as a single table and `proofs/Starred.antt` proves.
// There is no code here: the rows are about the definitions, which the readers' contracts are equations with.
#![tactic(auto)]

// Functions over lent tables of records, over any record of plain data: specs/ says what a filled table is, proofs/ what is asked of an element and what each turn of a loop keeps. No code.
#![tactic(auto)]

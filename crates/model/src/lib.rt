// Definitions only: the streams, the table and its two numbers. What a reader must believe stands in specs/.
#![tactic(auto)]

// Document 01's checked examples, proved of the definitions: a table and one statement over its rows, no code.
#![tactic(auto)]

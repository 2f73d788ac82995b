// The library for callers in C: document 01's operations over numbers, lent lists and a board lent as
// 27 words, and the number of the interface. Every function is total. An operation returns the number of
// its refusal, 0 where it answers, and always writes the other numbers through pointers; `part` refuses
// nothing and returns nothing. Pointers are references: none is null, that of an empty list neither, and
// what one of them may write no other may reach.
// Kept: numbers for refusals, and pointers and rows side by side: the C interface.
#![tactic(auto)]

mod cache;
mod interface;
mod plans;
mod program;
mod table;

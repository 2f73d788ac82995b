// What a fault keeps while it goes over the frame table: document 02, Nos. 2 and 7. There is only the struct,
// and in specs/ what taking in a word makes of it. The code that takes words in is in `pass`, and what of it
// answers a fault is said in `calls`.
#![tactic(auto)]

// The page's word, and the first word of the domain; by lane, that is by a frame's number modulo sixteen, how
// many frames the domain holds, and the lowest free frame; the number of words taken in; and the frame with the
// page's word. A frame stands as 1 and its number, or 0 where none is known.
// Kept: mapped as a number, since `take_in` and `answer_of` of the definitions, and the theorems on them, say it so.
#[derive(Clone, Copy, Debug, PartialEq, Eq)]
pub struct Tally {
    pub word: u16,
    pub first: u16,
    pub held: [u16; 16],
    pub free: [u16; 16],
    pub taken: usize,
    pub mapped: usize,
}

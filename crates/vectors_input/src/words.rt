// The words of the input, little-endian 32-bit numbers, and the lists that they fill.
use board::{Board, first_quotas};
use std::io::Read;

// The next word. Where the input ends in it or a read fails, the bytes that are missing are 0.
pub fn next_word(input: &mut impl Read) -> u32 {
    let mut bytes = [0u8; 4];
    let _ = input.read_exact(&mut bytes);
    u32::from_le_bytes(bytes)
}

// The part of the room that a list of the length that comes next takes, or all of it.
fn next_part<'a, W>(input: &mut impl Read, room: &'a mut [W]) -> &'a mut [W] {
    let count = room.len().min(next_word(input) as usize);
    &mut room[..count]
}

pub fn next_words(input: &mut impl Read, list: &mut [u32]) {
    for word in list.iter_mut() {
        *word = next_word(input);
    }
}

// The list that comes next, its length first, in the room that is lent for it. A longer one is cut.
pub fn next_list<'a>(input: &mut impl Read, room: &'a mut [u32]) -> &'a mut [u32] {
    let list = next_part(input, room);
    next_words(input, list);
    list
}

pub fn next_table<'a>(input: &mut impl Read, room: &'a mut [u16]) -> &'a mut [u16] {
    let table = next_part(input, room);
    for word in table.iter_mut() {
        *word = (next_word(input) % 65536) as u16;
    }
    table
}

// The bytes that come next, their count first. What the input does not have stays as it was.
pub fn next_bytes<'a>(input: &mut impl Read, room: &'a mut [u8]) -> &'a mut [u8] {
    let bytes = next_part(input, room);
    let _ = input.read_exact(bytes);
    bytes
}

// A list of the length that comes next, whose words tell whether one is changed: each follows from the one before.
fn marked<'a, W: Copy, F: Fn(W) -> W>(
    input: &mut impl Read,
    room: &'a mut [W],
    first: W,
    next: F,
) -> &'a mut [W]
    requires { F.IsAlwaysCallable next }
{
    let list = next_part(input, room);
    let mut mark = first;
    for word in list.iter_mut() {
        *word = mark;
        mark = next(mark);
    }
    list
}

// Word i is (1,000,003 i + 7) modulo 2^32.
pub fn marked_list<'a>(input: &mut impl Read, room: &'a mut [u32]) -> &'a mut [u32] {
    marked(input, room, 7, |mark| mark.wrapping_add(1000003))
}

// Word i is (7 i + 3) modulo 2^16.
pub fn marked_table<'a>(input: &mut impl Read, room: &'a mut [u16]) -> &'a mut [u16] {
    marked(input, room, 3, |mark| mark.wrapping_add(7))
}

fn next_eight(input: &mut impl Read) -> [u32; 8] {
    let mut words = [0; 8];
    next_words(input, &mut words);
    words
}

// A board of 19 words, with the quotas that it has at first.
pub fn next_board(input: &mut impl Read) -> Board {
    Board {
        colours: next_word(input),
        frames: next_word(input),
        domains: next_word(input),
        grants: next_eight(input),
        active: next_eight(input),
        quotas: first_quotas(),
    }
}

// A board of 27 words, the last eight its quotas.
pub fn next_whole_board(input: &mut impl Read) -> Board {
    let board = next_board(input);
    Board {
        quotas: next_eight(input),
        ..board
    }
}

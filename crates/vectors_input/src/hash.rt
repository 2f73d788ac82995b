// The hash by which lists are compared: h becomes (16,777,619 h + word) modulo 2^32 at the next word.

fn step(h: u32, word: u32) -> u32 {
    h.wrapping_mul(16777619).wrapping_add(word)
}

// The hash of a list's words, of 32 or of 16 bits, after words whose hash is `before`, 0 where there are none.
pub fn hash_words<W: Copy + Into<u32>>(before: u32, list: &[W]) -> u32 {
    let mut h = before;
    for &word in list {
        h = step(h, word.into());
    }
    h
}

// The hash of a table's words from one place up to another, or to its end.
pub fn hash_table(table: &[u16], from: usize, to: usize) -> u32 {
    let end = to.min(table.len());
    hash_words(0, &table[from.min(end)..end])
}

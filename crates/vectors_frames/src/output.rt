// The lines of each call: its reply, the hash of the table, after a quota is set that of the board, after a
// recolouring those of the board, the triples and the rest of the move list, and after a taking back those of the board
// and of the list.
use board::Board;
use frames::{ActiveColours, Faulted};
use moves::Recoloured;
use refusal::Refusal;
use vectors_input::{hash_table, hash_words, line, part, refused, text, told};

pub fn looked(out: &impl Print, answer: Result<Option<u32>, Refusal>) {
    match answer {
        Ok(Some(frame)) => line(out, "mapped ", frame),
        Ok(None) => text(out, "unmapped\n"),
        Err(refusal) => refused(out, refusal),
    }
}

pub fn faulted(out: &impl Print, answer: Result<Faulted, Refusal>) {
    match answer {
        Ok(Faulted::Old(frame)) => line(out, "old ", frame),
        Ok(Faulted::New(frame)) => line(out, "new ", frame),
        Err(refusal) => refused(out, refusal),
    }
}

pub fn active(out: &impl Print, answer: Result<ActiveColours, Refusal>) {
    match answer {
        Ok(colours) => {
            part(out, "active ", colours.set as u64);
            line(out, " quota ", colours.quota);
        }
        Err(refusal) => refused(out, refusal),
    }
}

pub fn table(out: &impl Print, words: &[u16]) {
    line(out, "table ", hash_words(0, words));
}

pub fn board(out: &impl Print, after: Board) {
    let numbers = [after.colours, after.frames, after.domains];
    let grants = hash_words(hash_words(0, &numbers), &after.grants);
    let hash = hash_words(hash_words(grants, &after.active), &after.quotas);
    part(out, "board ", hash as u64);
}

// What a recolouring and a taking back have both: the count of moves, the table and the board.
pub fn recoloured(out: &impl Print, done: Recoloured, words: &[u16]) {
    told(out, "moved ", done.answer);
    table(out, words);
    board(out, done.board);
}

// The triples of a recolouring as they stand in its move list, and the rest of the list.
pub fn moves(out: &impl Print, list: &[u16], count: u32) {
    let end = 3 * count as usize;
    part(out, " moves ", hash_table(list, 0, end) as u64);
    line(out, " rest ", hash_table(list, end, list.len()));
}

// The list of a taking back.
pub fn list(out: &impl Print, words: &[u16]) {
    line(out, " list ", hash_words(0, words));
}

// What lines of output are made of: a text, a number, and a refusal. A write that fails leaves its part out.
use refusal::Refusal;
use std::convert::AsSlice;

// A text, or any bytes.
pub fn text(out: &impl Print, text: impl AsSlice<u8> + Drop) {
    let _ = out.write_all(text.as_slice());
}

// A number that ends its line.
pub fn number(out: &impl Print, value: u64) {
    let _ = println!(out; "{value}");
}

pub fn line(out: &impl Print, name: impl AsSlice<u8> + Drop, value: u32) {
    text(out, name);
    number(out, value as u64);
}

// The first part of a line, or a middle one.
pub fn part(out: &impl Print, name: impl AsSlice<u8> + Drop, value: u64) {
    text(out, name);
    let _ = print!(out; "{value}");
}

// Kept: in parts, and not as `{refusal}`, whose one write leaves out the whole line where it fails.
pub fn refused(out: &impl Print, refusal: Refusal) {
    part(out, "refused ", refusal.number() as u64);
    line(out, " ", refusal.row());
}

// An answer that is one number, after its name.
pub fn told(out: &impl Print, name: &str, answer: Result<u32, Refusal>) {
    match answer {
        Ok(number) => line(out, name, number),
        Err(refusal) => refused(out, refusal),
    }
}

// The program `admit` from bytes to bytes, for callers in C: document 01, "Examples from the recorder".
ghost use Rattle.std.specs.Prelude.{◌≡◌, length as length_of};
ghost use Rattle.report.specs.Report.{verdict, words_taken, text_of};
ghost use Rattle.text.specs.Text.{over};
ghost use Rattle.marshal.specs.Replies.{number_of, row_of};

use marshal::ReplyNumbers;

// The verdict on an input. The text has `length` bytes and stands in front of `text`; the plan took
// `words` words of the input.
#[unsafe(no_mangle)]
pub extern "C" fn juzvanec_admit(
    input: &[u8],
    text: &mut [u8; 1024],
    length: &mut u32,
    words: &mut u32,
    row: &mut u32,
) -> u32
    ensures value { result ≡ number_of (verdict input.now) }
    ensures row_after { row.new ≡ row_of (verdict input.now) }
    ensures words_after { words.new ≡ words_taken input.now }
    ensures length_after { length.new ≡ length_of (text_of input.now) }
    ensures text_after { text.new ≡ over (text_of input.now) text.old }
{
    let reported = report::report(input, text);
    let told = ReplyNumbers::from(reported.verdict);
    *length = reported.length;
    *words = reported.words;
    *row = told.row;
    told.number
}

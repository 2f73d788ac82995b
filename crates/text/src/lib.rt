// The lines of a verdict, written one after another over a lent text: document 01, "Examples from the
// recorder". No public function requires anything of its caller.
#![tactic(auto)]

ghost use Rattle.std.specs.Prelude.{◌≡◌, List, ℕ, ◌+◌, ◌*◌, ◌≤◌, length};
ghost use Rattle.lists.specs.Naming.{With};
ghost use Rattle.text.specs.Text.{decimal, line, lines_from, refused_name, admitted_lines, over, vcpu_part, task_part};
ghost use Rattle.text.specs.Writing.{Wrote};

// Room for the longest text.
pub const TEXT_BYTES: usize = 1024;

// A plan has no more VCPUs and tasks, and a row for each.
pub const MOST_VCPUS: usize = 16;

pub const MOST_TASKS: usize = 32;

pub const MOST_ROWS: usize = 48;

// A lent text, and where what is written over it ends.
#[derive(Drop)]
struct Writer<'a> {
    text: &'a mut [u8],
    end: usize,
}

impl Writer<'_> {
    #[tactic(auto, using(crate::proofs::Writing::part_written))]
    fn bytes(&mut self, bytes: &[u8])
        requires { self.old.end + length bytes.now ≤ length self.old.text.now }
        ensures { Wrote self.old self.new bytes.now }
    {
        let end = self.end + bytes.len();
        self.text[self.end..end].copy_from_slice(bytes);
        self.end = end;
    }

    // Kept: `write!` was tried, and the proof does not close, since no clause of it rules out an `Err`.
    fn decimal(&mut self, n: u32)
        requires { self.old.end + length (decimal n) ≤ length self.old.text.now }
        ensures { Wrote self.old self.new (decimal n) }
    {
        if 10 <= n {
            self.decimal(n / 10);
        }
        self.bytes(&[b'0' + (n % 10) as u8]);
    }

    // A line of a word and two numbers, each of at most 10 digits.
    #[tactic(auto, using(crate::proofs::Writing::wrote_length, crate::proofs::Decimal::decimal_short))]
    fn line(&mut self, name: &str, a: u32, b: u32)
        requires { self.old.end + length name.now + 22 ≤ length self.old.text.now }
        ensures { Wrote self.old self.new (line name.now a b) }
    {
        self.bytes(name.as_bytes());
        self.decimal(a);
        self.bytes(b" ");
        self.decimal(b);
        self.bytes(b"\n");
    }

    // A line for each row: with a name of 5 letters and a row of two digits, of at most 19 bytes.
    #[tactic(auto, using(crate::proofs::Writing::wrote_length))]
    fn lines(&mut self, name: &str, times: &[u32])
        requires few { (length name.now ≤ 5) × (length times.now ≤ 48) }
        requires room { self.old.end + 19 * length times.now + 8 ≤ length self.old.text.now }
        ensures all { Wrote self.old self.new (lines_from name.now 0 times.now) }
        ensures short { self.new.end ≤ self.old.end + 19 * length times.now }
    {
        for (row, &time) in times.iter().enumerate() {
            self.line(name, row as u32, time);
        }
    }
}

// Kept: the array with two counts: the clause holds of any counts, which are cut to those of a plan.
// The lines of a plan that is admitted. There are no more VCPUs and no more tasks than a plan has.
pub fn write_admitted(
    text: &mut [u8; TEXT_BYTES],
    times: &[u32; MOST_ROWS],
    vcpus: usize,
    tasks: usize,
) -> u32
    ensures { With (admitted_lines (vcpu_part vcpus times.now) (task_part vcpus tasks times.now)) (λ (lines : List ℕ).
        (result ≡ length lines) × (result ≤ length text.new) × (text.new ≡ over lines text.old)) }
{
    let (of_vcpus, rest) = times.split_at(vcpus.min(MOST_VCPUS));
    let mut writer = Writer { text, end: 0 };
    writer.lines("vcpu ", of_vcpus);
    writer.lines("task ", &rest[..tasks.min(MOST_TASKS)]);
    writer.bytes(b"admitted\n");
    writer.end as u32
}

// Kept: a number and a row and no `Refusal`, since this crate stands on `lists` alone.
// The line of a refusal.
pub fn write_refused(text: &mut [u8; TEXT_BYTES], number: u32, row: u32) -> u32
    ensures { With (line refused_name number row) (λ (lines : List ℕ).
        (result ≡ length lines) × (result ≤ length text.new) × (text.new ≡ over lines text.old)) }
{
    let mut writer = Writer { text, end: 0 };
    writer.line("refused ", number, row);
    writer.end as u32
}

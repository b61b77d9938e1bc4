// What the program that reads replies says in the end: the lines that it prints, and the sentence that standard error gets.
#![tactic(auto)]

ghost use Rattle.std.specs.Prelude.{◌≡◌, ◌+◌, ◌≤◌, length};
ghost use Rattle.output.specs.Block.{block_length, block, put_all};
ghost use Rattle.reply_reports.specs.Report.{verdict_line, data_line, reason_of, whole_report, reply_read, text_of, message_of};

use line_meanings::LineNotes;

// What is said in the end: what came of a reply; or, unless it is whole, a line that was refused.
#[derive(Clone, Copy)]
pub struct Report {
    // Which of the three answers, the complete data bits, and how many are expected.
    pub verdict: u8,
    pub bits: u64,
    pub expected: u64,
    // The refusal's number, 0 for none, the line's from 1, and its notes. These and the verdict are numbers, as the definitions (`report_by`, `text_of`) take them.
    pub number: u8,
    pub line: u64,
    pub notes: LineNotes,
}

const WHOLE: u8 = 0;

const NO_HEADER: u8 = 1;

// The line of a verdict.
fn put_verdict(out: &mut [u8], verdict: u8, bits: u64) -> usize
    requires { length out.old ≡ block_length }
    ensures { block out.new result ≡ put_all out.old 0 (verdict_line verdict bits) }
{
    match verdict {
        WHOLE => number_lines::put_line(out, 0, 11, b"whole ", &[(bits, 4)]),
        NO_HEADER => output::put_bytes(out, 0, b"no header\n"),
        _ => number_lines::put_line(out, 0, 15, b"cut short ", &[(bits, 4)]),
    }
}

// The bytes of so many data bits, if there are any.
fn put_data(out: &mut [u8], at: usize, bits: u64, buffer: &[u8]) -> usize
    requires { at + length (data_line bits buffer.now) ≤ length out.old }
    ensures { block out.new result ≡ put_all out.old at (data_line bits buffer.now) }
{
    if bits == 0 {
        return at;
    }
    byte_lines::frame_line(out, at, frames::frame_part(buffer, bits as usize))
}

// Why a reply is not whole.
fn put_reason(out: &mut [u8], verdict: u8, bits: u64, expected: u64) -> usize
    requires { length out.old ≡ block_length }
    ensures { block out.new result ≡ put_all out.old 0 (reason_of verdict bits expected) }
{
    if verdict == NO_HEADER {
        return output::put_bytes(out, 0, b"no header 11101\n");
    }
    let at = decimal_digits::put_labelled(out, 0, b"cut short: ", bits, b" of ");
    decimal_digits::put_labelled(out, at, b"", expected, b" bits\n")
}

impl Report {
    // Whether the reply is whole.
    pub fn is_whole(self) -> bool
        ensures { result ≡ whole_report self }
    {
        self.verdict == WHOLE && self.number == 0
    }

    // The lines of a reply whose data bits are in a buffer, or that of a refused line; the answer is how many bytes they take.
    pub fn put_text(self, buffer: &[u8], out: &mut [u8]) -> usize
        requires { (length out.old ≡ block_length) × (length buffer.now ≤ 1024) }
        ensures { block out.new result ≡ put_all out.old 0 (text_of (reply_read self buffer.now)) }
    {
        if 7 <= self.number {
            return layout::refused_line(out, 0, self.number, self.line);
        }
        if self.number != 0 {
            return 0;
        }
        let at = put_verdict(out, self.verdict, self.bits);
        put_data(out, at, self.bits, buffer)
    }

    // The sentence of a reply that is not whole, or of a refused line; the answer is how many bytes it takes, none for a whole reply.
    pub fn put_message(self, out: &mut [u8]) -> usize
        requires { length out.old ≡ block_length }
        ensures { block out.new result ≡ put_all out.old 0 (message_of self) }
    {
        if self.is_whole() {
            return 0;
        }
        if self.number == 0 {
            return put_reason(out, self.verdict, self.bits, self.expected);
        }
        messages::put_sentence(out, 0, self.number, self.line, self.notes)
    }
}

// What a taking call on an image answers: its result in words. The call itself is in `kernelstill`.
#![tactic(auto)]

ghost use Rattle.std.specs.Prelude.{◌≡◌, length};
ghost use Rattle.host_results.specs.Take.{ending_code, result_length, result_words};

use calls::{Ending, Report};

// The words of a taking call's result: bits taken, records written, ending.
pub const RESULT_WORDS: usize = 3;

fn ending_code(ending: Ending) -> u64
    ensures { result ≡ ending_code ending }
{
    match ending {
        Ending::Frame => 1,
        Ending::ListFull => 2,
        Ending::Done
        | Ending::Unsound
        | Ending::WrongBuffers
        | Ending::WrongRange
        | Ending::ClockOver => 0,
    }
}

// A taking call's result, in three words.
pub fn write_result(res: &mut [u64], answer: Report)
    requires { length res.old ≡ result_length }
    ensures { res.new ≡ result_words answer }
{
    res[0] = answer.bits as u64;
    res[1] = answer.records as u64;
    res[2] = ending_code(answer.ending);
}

// The library for hosts that are not written in Rattle: streams checked and composed, replies read, and what is answered of them in one word.
// `kernelstill_c` exports these functions, which include/kernelstill.h declares. None asks anything of its caller.
#![tactic(auto)]

ghost use Rattle.std.specs.Prelude.{◌≡◌};
ghost use Rattle.patterns.specs.Verdicts.{accept_of};
ghost use Rattle.compose_calls.specs.Answers.{answered};
ghost use Rattle.host_streams.specs.Accept.{accept_word};
ghost use Rattle.host_streams.specs.Compose.{compose_word, compose_words, compose_words_of};
ghost use Rattle.host_streams.specs.Reply.{reply_words, reply_words_of};

use compose_calls::ComposeError;

// What stands above the number in the composing call's answer has 56 bits.
const COMPOSE_LIMIT: u64 = 0x100_0000_0000_0000;

// Whether a range of the input is an accepted stream: the refusal number, and 256 times the place of the pattern at fault.
pub fn kernelstill_accept(input: &[u8], first: usize, count: usize) -> u64
    ensures { result ≡ accept_word (accept_of input.now first count) }
{
    match acceptance::accept(input, first, count) {
        Ok(()) => 0,
        Err(fault) => fault.place() * 256 + fault.number() as u64,
    }
}

// An answer in one word: the refusal number, and 256 times the count of bits or the number of the order that was refused.
fn compose_word(answer: Result<u64, ComposeError>) -> u64
    ensures { result ≡ compose_word (answered answer) }
{
    match answer {
        Ok(bits) => bits % COMPOSE_LIMIT * 256,
        Err(error) => error.order() % COMPOSE_LIMIT * 256 + error.number() as u64,
    }
}

// The stream of a list of orders, six words each, in the output's first bytes. A refusal changes nothing.
pub fn kernelstill_compose(
    mask: u64,
    csr: u64,
    feen: u64,
    cnt: u64,
    orders: &[u64],
    frames: &[u8],
    output: &mut [u8],
) -> u64
    ensures { compose_words result output.new
        ≡ compose_words_of mask csr feen cnt orders.now frames.now output.old }
{
    let plan = host_plans::plan_of(mask, csr, feen, cnt);
    compose_word(compose_calls::compose(plan, orders, frames, output))
}

// The reply in a range of the input, of so many data bits, which go into the buffer: the refusal number, 256 times the verdict and 65,536 times the
// count of complete bits. A refusal changes nothing.
pub fn kernelstill_reply(
    input: &[u8],
    first: usize,
    count: usize,
    expected: u64,
    buffer: &mut [u8],
) -> u64
    ensures { reply_words result buffer.new ≡ reply_words_of input.now first count expected buffer.old }
{
    match replies::read_reply(input, first, count, expected, buffer) {
        Ok(reply) => reply.bits(expected) * 65536 + reply.verdict() as u64 * 256,
        Err(error) => error.number() as u64,
    }
}

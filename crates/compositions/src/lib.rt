// A run of `compose` under way: orders are put into it, line by line, and it has an outcome.
#![tactic(auto)]

ghost use Rattle.std.specs.Prelude.{◌≡◌, not, eqb};
ghost use Rattle.order_refusals.specs.Refusals.{refused_if};
ghost use Rattle.compositions.specs.Compositions.{start, passed_with, WellFormed, AddsOrder, Finishes};

use gathered_lines::Gathered;
use order_refusals::Refusal;
use orders::{Context, Order};
use plans::Plan;
use stream_writer::Writer;

// The most bytes of a stream that the program composes.
pub const OUTPUT_LIMIT: usize = 1048576;

// The state of a run under way.
#[derive(Clone, Copy)]
pub struct Composition {
    // What the next order goes by, and where its bits go; beyond the output's room they go nowhere.
    pub context: Context,
    pub writer: Writer,
    // The bits of the orders so far; all counts beyond the clock's are one.
    pub bits: u64,
    // The present line so far, and how many lines have ended.
    pub line: Gathered,
    pub lines: u64,
    // What has ended the run, if anything has.
    pub refusal: Option<Refusal>,
}

impl Composition {
    pub fn start() -> Composition
        ensures { result ≡ start }
    {
        Composition {
            context: contexts::start(),
            writer: Writer::start(),
            bits: 0,
            line: Gathered::empty(),
            lines: 0,
            refusal: None,
        }
    }

    // Whether a refusal has ended the run.
    pub fn is_over(self) -> bool
        ensures { result ≡ not (eqb (refused_if self.refusal).number 0) }
    {
        self.refusal.is_some()
    }

    // A line has ended, with a refusal or none, and leaves nothing to the stream.
    pub fn passed(self, lines: u64, refusal: Option<Refusal>) -> Composition
        ensures { result ≡ passed_with self lines refusal }
    {
        Composition {
            line: Gathered::empty(),
            lines,
            refusal,
            ..self
        }
    }

    // An order on a line, with the bytes lent for its frame: it is refused, or its bits are written where they fit.
    pub fn with_order(
        self,
        lines: u64,
        order: Order,
        lent: &[u8],
        out: &mut [u8; OUTPUT_LIMIT],
    ) -> Composition
        requires { WellFormed self out.old }
        ensures { AddsOrder self out.old lines order lent.now result out.new }
    {
        let context = self.context;
        if let Some(refusal) = Refusal::of_order(context, lines, order, lent.len()) {
            return self.passed(lines, Some(refusal));
        }
        let width = composing::command_width(order, lent.len());
        let ahead = composing::add_bits(self.bits, order.zeros);
        let bits = composing::add_bits(ahead, width);
        let next = contexts::after(context, Plan::default_plan(), order, lent.len());
        let writer = self.writer;
        let mut later = Composition {
            context: next,
            writer,
            bits,
            line: Gathered::empty(),
            lines,
            refusal: None,
        };
        if composing::room_fits(bits, OUTPUT_LIMIT) {
            let written = composing::put_order(writer, out, order, lent);
            later.writer = written;
        }
        later
    }

    // The outcome, if the run ends here: a refusal, or so many bytes of the stream, from the output's first on, the last one filled up.
    pub fn outcome(self, out: &mut [u8; OUTPUT_LIMIT]) -> Result<usize, Refusal>
        requires { WellFormed self out.old }
        ensures { Finishes self out.old result out.new }
    {
        if let Some(refusal) = self.refusal {
            return Err(refusal);
        }
        if !composing::room_fits(self.bits, OUTPUT_LIMIT) {
            return Err(Refusal::LongStream);
        }
        let writer = self.writer;
        writer.finish(out);
        Ok(((self.bits + 7) / 8) as usize)
    }
}

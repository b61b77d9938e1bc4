// The text of the controller as the commands left it.
#![tactic(auto)]

ghost use Rattle.std.specs.Prelude.{◌≡◌, ◌+◌, ◌≤◌, length};
ghost use Rattle.limits.specs.Limits.{store_length};
ghost use Rattle.output.specs.Block.{block_length, block, put_all};
ghost use Rattle.state_listing.specs.State.{all_registers_text, all_pointers_text, all_fifo_words_text, state_text};

use decoder::Decoder;
use plans::Plan;
use registers::{Model, Pointers};

// The registers that exist, as they read.
fn put_registers(out: &mut [u8], at: usize, plan: Plan, model: Model) -> usize
    requires { at + length (all_registers_text plan model) ≤ length out.old }
    ensures { block out.new result ≡ put_all out.old at (all_registers_text plan model) }
{
    let mut place = at;
    for i in 0..16 {
        if !plan.exists_at(i) {
            continue;
        }
        place = state_lines::register_line(out, place, i as usize, model.read(plan, i));
    }
    place
}

// The FIFOs' pointers.
fn put_pointers(out: &mut [u8], at: usize, pointers: Pointers) -> usize
    requires { at + length (all_pointers_text pointers) ≤ length out.old }
    ensures { block out.new result ≡ put_all out.old at (all_pointers_text pointers) }
{
    let writes = pointers.writes;
    let reads = pointers.reads;
    let mut place = at;
    for i in 0..16 {
        place = state_lines::pointers_line(out, place, i, writes[i], reads[i]);
    }
    place
}

// The FIFO words that are not 0.
fn put_fifo_words(out: &mut [u8], at: usize, store: &[u32]) -> usize
    requires { at + length (all_fifo_words_text store.now) ≤ length out.old }
    ensures { block out.new result ≡ put_all out.old at (all_fifo_words_text store.now) }
{
    let mut place = at;
    for i in 0..store.len() {
        let word = store[i];
        if word == 0 {
            continue;
        }
        place = state_lines::word_line(out, place, i / 128, i % 128, word);
    }
    place
}

// The controller as the commands left it.
pub fn put_state(out: &mut [u8], decoder: Decoder, store: &[u32]) -> usize
    requires { (length store.now ≡ store_length) × (length out.old ≡ block_length) }
    ensures { block out.new result ≡ put_all out.old 0 (state_text decoder store.now) }
{
    let plan = decoder.plan;
    let model = decoder.model;
    let counters = model.counters;
    let fifos = model.pointers;
    let registers = put_registers(out, 0, plan, model);
    let l1id = state_lines::l1id_line(out, registers, counters.l1id);
    let base = state_lines::base_line(out, l1id, counters.base);
    let runmode = state_lines::runmode_line(out, base, model.running);
    let pointers = put_pointers(out, runmode, fifos);
    put_fifo_words(out, pointers, store)
}

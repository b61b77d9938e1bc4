// Bytes put into a buffer one text after another.
#![tactic(auto)]

ghost use Rattle.std.specs.Prelude.{◌≡◌, ◌+◌, ◌≤◌, length};
ghost use Rattle.output.specs.Block.{block, put_all};

// What ends a line.
pub const LINE_FEED: u8 = b'\n';

// Bytes copied to a place of a buffer; the answer is the place after them.
#[tactic(auto, using(crate::proofs::Pieces::copied))]
pub fn put_bytes(out: &mut [u8], at: usize, bytes: &[u8]) -> usize
    requires { at + length bytes.now ≤ length out.old }
    ensures { block out.new result ≡ put_all out.old at bytes.now }
{
    let end = at + bytes.len();
    out[at..end].copy_from_slice(bytes);
    end
}

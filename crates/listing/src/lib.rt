// The listing: the text of a taking call's records.
#![tactic(auto)]

ghost use Rattle.std.specs.Prelude.{◌≡◌, ◌+◌, ◌≤◌, length};
ghost use Rattle.output.specs.Block.{block, put_all};
ghost use Rattle.listing.specs.Records.{record_text, records_text};

// A record's line; and the frame's, after a frame of at least one bit, if frames are printed.
fn put_record(out: &mut [u8], at: usize, head: u64, value: u64, tray: &[u8], frames: bool) -> usize
    requires { at + length (record_text frames tray.now head value) ≤ length out.old }
    ensures { block out.new result ≡ put_all out.old at (record_text frames tray.now head value) }
{
    let place = layout::record_line(out, at, head, value);
    if !(frames & records::is_frame_head(head)) {
        return place;
    }
    let bits = records::frame_bits(head, value);
    if bits == 0 {
        return place;
    }
    byte_lines::frame_line(out, place, frames::frame_part(tray, bits))
}

// The lines of the records of a taking call.
pub fn put_records(out: &mut [u8], at: usize, words: &[u64], tray: &[u8], frames: bool) -> usize
    requires { at + length (records_text frames tray.now words.now) ≤ length out.old }
    ensures { block out.new result ≡ put_all out.old at (records_text frames tray.now words.now) }
{
    let mut place = at;
    for i in 0..words.len() / 2 {
        place = put_record(out, place, words[2 * i], words[2 * i + 1], tray, frames);
    }
    place
}

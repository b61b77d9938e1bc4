// The words of a text, and the place of a character in it.
#![tactic(auto)]

ghost use Rattle.std.specs.Prelude.{◌≡◌, ◌≤◌, false, [], length, get_or};
ghost use Rattle.std.specs.List.{position_or_len};
ghost use Rattle.text_words.specs.Words.{up_to, is_blank, words_in, from_word};

// The most characters of a line.
pub const LINE_LIMIT: usize = 32768;

// How many characters of a text stand ahead of the first that is as told; all of them where there is none.
pub fn place_of(text: &[u8], character: u8) -> usize
    ensures { result ≡ length (up_to character text.now) }
{
    text.iter()
        .position(|c| *c == character)
        .unwrap_or(text.len())
}

fn is_blank(character: u8) -> bool
    ensures { result ≡ is_blank character }
{
    matches!(character, b' ' | b'\t' | b'\r')
}

// A text from its first word on: the blanks ahead of it, which may be many, are gone through once.
pub fn from_first_word(text: &[u8]) -> &[u8]
    ensures answer { result.now ≡ from_word text.now }
    ensures words { words_in result.now ≡ words_in text.now }
    ensures first { is_blank (get_or result.now 0 0) ≡ false }
    ensures short { length result.now ≤ length text.now }
{
    match text.iter().position(|c| !is_blank(*c)) {
        Some(at) => &text[at..],
        None => &[],
    }
}

// How many characters of a text stand ahead of its first blank; all of them where there is none.
fn word_length(text: &[u8]) -> usize
    ensures place { result ≡ position_or_len is_blank text.now }
    ensures within { result ≤ length text.now }
{
    text.iter().position(|c| is_blank(*c)).unwrap_or(text.len())
}

// The word of a text that so many words stand ahead of; nothing where there is none.
pub fn word(text: &[u8], n: usize) -> &[u8]
    ensures { result.now ≡ get_or (words_in text.now) n [] }
{
    let mut rest = from_first_word(text);
    for _ in 0..n {
        if rest.is_empty() {
            return rest;
        }
        rest = from_first_word(&rest[word_length(rest)..]);
    }
    &rest[..word_length(rest)]
}

pub fn word_count(text: &[u8]) -> usize
    ensures { result ≡ length (words_in text.now) }
{
    let mut count = 0;
    let mut rest = from_first_word(text);
    while !rest.is_empty() {
        count += 1;
        rest = from_first_word(&rest[word_length(rest)..]);
    }
    count
}

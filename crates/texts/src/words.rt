// Lines and words cut out of a text, and numbers read from words.
ghost use Rattle.std.specs.Prelude.{◌≡◌, ◌^◌, ◌<◌, [], ◌∷◌, length, pos, not, MatchOption};
ghost use Rattle.std.specs.Iterator.{YieldsFirstRef, item_count};
ghost use Rattle.std.specs.List.{position};
ghost use Rattle.std.specs.Option.{option_map};
ghost use Rattle.texts.specs.Words.{height_number, is_blank, is_end, lines, number as number_of, number_below, words};

use std::marker::Model;

// Where the first line ends, if a line end is there. The three searches stand by themselves: with the
// test as a parameter each caller would have to say what its closure does. They are loops and not `position`,
// by which a row of short words took a quarter more instructions to read.
fn find_end(text: &[u8]) -> Option<usize>
    ensures { result ≡ position is_end text.now }
{
    for (i, byte) in text.iter().enumerate() {
        if *byte == b'\n' {
            return Some(i);
        }
    }
    None
}

// The first line of a text, without its end, and what follows it, if there is something.
pub fn next_line<'a>(text: &'a [u8]) -> Option<(&'a [u8], &'a [u8])>
    ensures { MatchOption result (lines text.now ≡ []) (λ cut. (lines text.now ≡ cut.0.now ∷ lines cut.1.now) × (length cut.1.now < length text.now)) }
{
    if text.is_empty() {
        return None;
    }
    match find_end(text) {
        Some(end) => Some((&text[..end], &text[end + 1..])),
        None => Some((text, &text[text.len()..])),
    }
}

// The lines of a text that are left, each without its end: seen as the list of them.
#[derive(Drop)]
pub struct Lines<'a> {
    rest: &'a [u8],
}

impl<'a> Model for Lines<'a> {
    ghost use Rattle.std.specs.Prelude.{ℕ, List};

    ghost Value = { List (List ℕ) };

    ghost use Rattle.texts.specs.Words.{lines};

    ghost view = { λ it. lines it.rest.now };
}

impl<'a> Lines<'a> {
    pub fn of(text: &'a [u8]) -> Lines<'a>
        ensures { result ≡ lines text.now }
    {
        Lines { rest: text }
    }
}

impl<'a> Iterator for Lines<'a> {
    type Item = &'a [u8];

    ghost next_gives = { YieldsFirstRef (λ left. left) };

    ghost remaining = { item_count (λ left. left) };

    fn next(&mut self) -> Option<&'a [u8]> {
        let (line, rest) = next_line(self.rest)?;
        self.rest = rest;
        Some(line)
    }
}

// What parts words. By `matches!` this took half as many instructions again for each byte of a long word.
fn parts_words(byte: u8) -> bool
    ensures { result ≡ is_blank byte }
{
    byte == b' ' || byte == b'\t' || byte == b'\r' || byte == b'\n'
}

// Where the first word begins.
fn find_word(text: &[u8]) -> Option<usize>
    ensures { result ≡ position (λ b. not (is_blank b)) text.now }
{
    for (i, byte) in text.iter().enumerate() {
        if !parts_words(*byte) {
            return Some(i);
        }
    }
    None
}

// Where the word ends that begins a text, if something parts it from what follows.
fn find_blank(text: &[u8]) -> Option<usize>
    ensures { result ≡ position is_blank text.now }
{
    for (i, byte) in text.iter().enumerate() {
        if parts_words(*byte) {
            return Some(i);
        }
    }
    None
}

// The first word of a line and what follows it, if it has a word.
pub fn next_word<'a>(line: &'a [u8]) -> Option<(&'a [u8], &'a [u8])>
    ensures { MatchOption result (words line.now ≡ []) (λ cut. (words line.now ≡ cut.0.now ∷ words cut.1.now) × (length cut.1.now < length line.now)) }
{
    let begin = find_word(line)?;
    let text = &line[begin..];
    let end = find_blank(text).unwrap_or(text.len());
    Some((&text[..end], &text[end..]))
}

// The words of a line that are left: seen as the list of them.
#[derive(Drop)]
pub struct Words<'a> {
    rest: &'a [u8],
}

impl<'a> Model for Words<'a> {
    ghost use Rattle.std.specs.Prelude.{ℕ, List};

    ghost Value = { List (List ℕ) };

    ghost use Rattle.texts.specs.Words.{words};

    ghost view = { λ it. words it.rest.now };
}

impl<'a> Words<'a> {
    pub fn of(line: &'a [u8]) -> Words<'a>
        ensures { result ≡ words line.now }
    {
        Words { rest: line }
    }
}

impl<'a> Iterator for Words<'a> {
    type Item = &'a [u8];

    ghost next_gives = { YieldsFirstRef (λ left. left) };

    ghost remaining = { item_count (λ left. left) };

    fn next(&mut self) -> Option<&'a [u8]> {
        let (word, rest) = next_word(self.rest)?;
        self.rest = rest;
        Some(word)
    }
}

// A number of digits alone. Not by `parse`, which takes a plus sign, and takes no bytes.
pub fn read_number(word: &[u8]) -> Option<u64>
    ensures { result ≡ number_of word.now }
{
    if word.is_empty() {
        return None;
    }
    let mut number: u64 = 0;
    for byte in word {
        if !byte.is_ascii_digit() {
            return None;
        }
        number = number
            .checked_mul(10)?
            .checked_add(u64::from(*byte - b'0'))?;
    }
    Some(number)
}

// A number of a row without a sign.
fn read_unsigned(word: &[u8]) -> Option<i64>
    ensures { result ≡ option_map pos (number_below (2 ^ 63) word.now) }
{
    i64::try_from(read_number(word)?).ok()
}

// A number of a row, with or without a minus sign.
pub fn read_height(word: &[u8]) -> Option<i64>
    ensures { result ≡ height_number word.now }
{
    match word {
        [b'-', digits @ ..] => {
            let number = read_unsigned(digits)?;
            Some(-number)
        }
        _ => read_unsigned(word),
    }
}

// Commands and rows read from a line.
ghost use Rattle.std.specs.Prelude.{◌≡◌, ℕ, List, length, IfOk, Some, vec_items, MatchOption, ◌≢◌};
ghost use Rattle.std.specs.Option.{option_map};
ghost use Rattle.texts.specs.Commands.{command as command_in, is_row, row, with_numbers};
ghost use Rattle.texts.specs.Words.{all_read, number};

use crate::words::{Words, read_height, read_number};
use messages::command::Command;
use std::alloc::{AllocError, Global};

// Just so many numbers, and nothing else.
fn read_numbers<const N: usize>(mut words: Words<'_>) -> Option<[u64; N]>
    ensures { MatchOption result ((ns : List ℕ) → all_read number words.entry ≡ Some ns → length ns ≢ N) (λ ns. (all_read number words.entry ≡ Some ns) × (length ns ≡ N)) }
{
    let mut numbers = [0; N];
    for number in numbers.iter_mut() {
        *number = read_number(words.next()?)?;
    }
    match words.next() {
        Some(_) => None,
        None => Some(numbers),
    }
}

// The command of that name with the numbers of the words behind it, or none where it has not just so many.
#[tactic(auto, using(crate::proofs::Named::no_command))]
fn command_named(name: &[u8], words: Words<'_>) -> Option<Command>
    ensures { result ≡ with_numbers name.now (all_read number words.entry) }
{
    match name {
        b"map" => {
            let [k] = read_numbers::<1>(words)?;
            Some(Command::Map { k })
        }
        b"level" => {
            let [level] = read_numbers::<1>(words)?;
            Some(Command::Level { level })
        }
        b"window" => {
            let [x, y, wide, high] = read_numbers::<4>(words)?;
            Some(Command::Window { x, y, wide, high })
        }
        b"set" => {
            let [x, y, height] = read_numbers::<3>(words)?;
            Some(Command::Set { x, y, height })
        }
        b"tower" => {
            let [] = read_numbers::<0>(words)?;
            Some(Command::Tower)
        }
        b"coarse" => {
            let [level] = read_numbers::<1>(words)?;
            Some(Command::Coarse { level })
        }
        _ => None,
    }
}

// The command of a line, or none where it cannot be read.
pub fn read_command(line: &[u8]) -> Option<Command>
    ensures { result ≡ command_in line.now }
{
    let mut words = Words::of(line);
    let name = words.next()?;
    command_named(name, words)
}

// Whether a line is a row of a map: it begins with a digit or a minus sign.
pub fn is_row_line(line: &[u8]) -> bool
    ensures { result ≡ is_row line.now }
{
    matches!(Words::of(line).next(), Some([b'0'..=b'9' | b'-', ..]))
}

// The numbers of a row, or none where one of its words is no number, which is no error of the call.
pub fn read_row(alloc: Global, line: &[u8]) -> Result<Option<Vec<i64>>, AllocError>
    ensures { IfOk result (λ numbers. option_map vec_items numbers ≡ row line.now) }
{
    let mut numbers = Vec::new(alloc);
    for word in Words::of(line) {
        let Some(number) = read_height(word) else {
            return Ok(None);
        };
        numbers.push(number)?;
    }
    Ok(Some(numbers))
}

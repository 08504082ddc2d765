// Answers written: rows of numbers, one to a line, and refusals.
ghost use Rattle.std.specs.Prelude.{◌≡◌, ◌*◌, ◌≤◌, ◌++◌, length, string_bytes, OnOk};
ghost use Rattle.std.specs.List.{flat_map};
ghost use Rattle.messages.specs.Writing.{refusal_text, rest_text, row_text, rows_of};

use refusals::Refusal;
use std::alloc::AllocError;

// The numbers that follow in a line, each behind a blank, and its end.
fn write_rest(out: &mut String, numbers: &[i32]) -> Result<(), AllocError>
    ensures { OnOk result (string_bytes out.new ≡ string_bytes out.old ++ rest_text numbers.now) }
{
    for number in numbers {
        write!(out, " {number}")?;
    }
    write!(out, "\n")
}

// Numbers in one line, parted by one blank.
pub fn write_row(out: &mut String, numbers: &[i32]) -> Result<(), AllocError>
    ensures { OnOk result (string_bytes out.new ≡ string_bytes out.old ++ row_text numbers.now) }
{
    match numbers {
        [first, others @ ..] => {
            write!(out, "{first}")?;
            write_rest(out, others)
        }
        [] => write!(out, "\n"),
    }
}

// Numbers that stand row by row, so many to a line.
pub fn write_rows(
    out: &mut String,
    numbers: &[i32],
    wide: usize,
    high: usize,
) -> Result<(), AllocError>
    requires { wide * high ≤ length numbers.now }
    ensures { OnOk result (string_bytes out.new ≡ string_bytes out.old ++ flat_map row_text (rows_of wide high numbers.now)) }
{
    let mut rest = numbers;
    // A row may have no places, which `chunks` does not take.
    for _v in 0..high {
        let (row, later) = rest.split_at(wide);
        write_row(out, row)?;
        rest = later;
    }
    Ok(())
}

// A refusal in one line.
pub fn write_refusal(out: &mut String, refusal: Refusal) -> Result<(), AllocError>
    ensures { OnOk result (string_bytes out.new ≡ string_bytes out.old ++ refusal_text refusal) }
{
    write!(out, "{refusal}\n")
}

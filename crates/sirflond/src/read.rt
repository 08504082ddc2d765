// Lines read by the program's own rules: words parted by any white space, and numbers of a row with any sign.
use messages::command::Command;

// A number of digits alone.
fn read_number(word: &str) -> Option<u64> {
    if word.starts_with('+') {
        None
    } else {
        word.parse::<u64>().ok()
    }
}

// The command of a line, or none where it cannot be read.
pub fn read_command(line: &str) -> Option<Command> {
    let mut words = line.split_whitespace();
    let name = words.next()?;
    let mut number = || read_number(words.next()?);
    let command = match name {
        "map" => Command::Map { k: number()? },
        "level" => Command::Level { level: number()? },
        "window" => Command::Window {
            x: number()?,
            y: number()?,
            wide: number()?,
            high: number()?,
        },
        "set" => Command::Set {
            x: number()?,
            y: number()?,
            height: number()?,
        },
        "tower" => Command::Tower,
        "coarse" => Command::Coarse { level: number()? },
        _ => return None,
    };
    match words.next() {
        Some(_) => None,
        None => Some(command),
    }
}

// Whether a line is a row of a map: it begins with a digit or a minus sign.
pub fn is_row(line: &str) -> bool {
    matches!(line.trim_start().as_bytes(), [b'0'..=b'9' | b'-', ..])
}

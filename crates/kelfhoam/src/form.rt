// The two forms of events, and the reader and the writer of each.
use anyhow::bail;
use std::fmt;
use std::str::FromStr;

// A form of events.
#[derive(Clone, Copy, PartialEq, Eq)]
pub enum Form {
    Packed,
    Lines,
}

impl Form {
    // The form of an input, by its first byte: a line begins with a sign, packed events with the number of a kind.
    pub fn of(input: &[u8]) -> Form {
        match input.first() {
            Some(b'+' | b'-' | b'=') => Form::Lines,
            _ => Form::Packed,
        }
    }
}

// The form in a word, as the command line has it.
impl fmt::Display for Form {
    fn fmt<W: fmt::Write>(&self, f: &mut fmt::Formatter<W>) -> fmt::Result {
        f.write_str(match self {
            Form::Packed => "packed",
            Form::Lines => "lines",
        })
    }
}

// The form that a word names.
impl FromStr for Form {
    type Err = anyhow::Error;

    fn from_str(word: &str) -> anyhow::Result<Form> {
        match word {
            "packed" => Ok(Form::Packed),
            "lines" => Ok(Form::Lines),
            _ => bail!("--to takes packed or lines"),
        }
    }
}

// What an expression comes to on the reader of a form over an input.
macro_rules! with_reader {
    ($form:expr, $input:expr, $reader:ident => $e:expr) => {
        match $form {
            Form::Packed => {
                let mut $reader = PackedReader::new($input);
                $e
            }
            Form::Lines => {
                let mut $reader = LineReader::new($input);
                $e
            }
        }
    };
}

// What an expression comes to on the writer of a form over some space.
macro_rules! with_writer {
    ($form:expr, $space:expr, $writer:ident => $e:expr) => {
        match $form {
            Form::Packed => {
                let mut $writer = PackedWriter::new($space);
                $e
            }
            Form::Lines => {
                let mut $writer = LineWriter::new($space);
                $e
            }
        }
    };
}

pub(crate) use with_reader;
pub(crate) use with_writer;

// The command line.
use crate::form::Form;
use anyhow::{Context, Result, bail, ensure};

pub const USAGE: &str =
    "usage: kelfhoam redump [--to packed|lines] [-o OUT] [FILE]\n       kelfhoam convert --to packed|lines [-o OUT] [FILE]\n       kelfhoam check [FILE]\n       kelfhoam show [FILE]\n       kelfhoam --help\n\nEach reads YAML events from FILE (standard input where FILE is absent or -),\npacked or in lines. Events go to standard output and the summary to standard\nerror; with -o, events go to OUT and the summary to standard output.\n\nredump   load every document and write it again, in the same form or the one\n         that is asked for.\nconvert  write the events as they are, in the form that is asked for.\ncheck    load every document, and tell a row for each.\nshow     load every document, and print it as an outline.\n";

// What is asked for.
#[derive(Clone, Copy)]
pub enum Command<'a> {
    Help,
    Convert {
        to: Form,
        out: Option<&'a str>,
        file: Option<&'a str>,
    },
    Redump(Writing<'a>),
    Check {
        file: Option<&'a str>,
    },
    Show {
        file: Option<&'a str>,
    },
}

// What the words behind `convert` or `redump` may say.
#[derive(Clone, Copy, Default)]
pub struct Writing<'a> {
    pub to: Option<Form>,
    pub out: Option<&'a str>,
    pub file: Option<&'a str>,
}

// A word that names a FILE: any but an option.
fn file_name(word: &str) -> Result<&str> {
    ensure!(
        word == "-" || !word.starts_with('-'),
        "there is no such option"
    );
    Ok(word)
}

// The words behind `convert` or `redump`; none where help is asked for.
fn parse_writing(words: &[String]) -> Result<Option<Writing<'_>>> {
    let mut writing = Writing::default();
    let mut words = words.iter();
    while let Some(word) = words.next() {
        match word.as_str() {
            "--to" => {
                let form = words.next().context("an option lacks its word")?;
                writing.to = Some(form.as_str().parse()?);
            }
            "-o" => {
                let path = words.next().context("an option lacks its word")?;
                writing.out = Some(path.as_str());
            }
            "--help" => return Ok(None),
            word => {
                let file = file_name(word)?;
                ensure!(writing.file.is_none(), "there is more than one FILE");
                writing.file = Some(file);
            }
        }
    }
    Ok(Some(writing))
}

// The words behind a command that takes at most a FILE.
fn parse_file(words: &[String]) -> Result<Option<&str>> {
    match words {
        [] => Ok(None),
        [word] => Ok(Some(file_name(word.as_str())?)),
        _ => bail!("there is more than one FILE"),
    }
}

// What the words of the command line, the program's name first, ask for; an error tells why they ask for nothing.
pub fn parse(arguments: &[String]) -> Result<Command<'_>> {
    let [_, command, words @ ..] = arguments else {
        bail!("there is no command");
    };
    match command.as_str() {
        "convert" => {
            let Some(writing) = parse_writing(words)? else {
                return Ok(Command::Help);
            };
            Ok(Command::Convert {
                to: writing
                    .to
                    .context("convert needs --to packed or --to lines")?,
                out: writing.out,
                file: writing.file,
            })
        }
        "redump" => match parse_writing(words)? {
            Some(writing) => Ok(Command::Redump(writing)),
            None => Ok(Command::Help),
        },
        "check" => Ok(Command::Check {
            file: parse_file(words)?,
        }),
        "show" => Ok(Command::Show {
            file: parse_file(words)?,
        }),
        "--help" | "-h" | "help" => Ok(Command::Help),
        _ => bail!("there is no such command"),
    }
}

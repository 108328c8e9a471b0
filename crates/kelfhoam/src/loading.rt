// Loading every document of an input.
use crate::form::{Form, with_reader};
use crate::refusing::RefusedLoad;
use composer::Tables;
use lines::LineReader;
use loader::{Loaded, Loader};
use packed::PackedReader;
use room::LoadRoom;
use yaml::Source;

// Loads document after document into the room and hands each on under its number, up to the stream's end: answers how many there are, or none where
// a load was refused, which is told in a line.
pub fn each_document<F: FnMut(usize, &Loaded, &Tables<'_>) -> anyhow::Result<()>>(
    rt: &HostRuntime,
    input: &[u8],
    room: &mut LoadRoom,
    document: F,
) -> anyhow::Result<Option<usize>>
    requires { F.IsAlwaysCallable document }
{
    with_reader!(Form::of(input), input, reader => each_of(rt, reader, input, room, document))
}

// The same over the reader of the input.
fn each_of<S: Source + Drop, F: FnMut(usize, &Loaded, &Tables<'_>) -> anyhow::Result<()>>(
    rt: &HostRuntime,
    source: S,
    input: &[u8],
    room: &mut LoadRoom,
    mut document: F,
) -> anyhow::Result<Option<usize>>
    requires { F.IsAlwaysCallable document }
{
    let mut tables = room.tables();
    let mut loader = Loader::new(source);
    // a `for`, which ends by itself and counts the documents
    for number in 1..usize::MAX {
        match loader.load(&mut tables) {
            Ok(Some(loaded)) => document(number, &loaded, &tables)?,
            Ok(None) => return Ok(Some(number - 1)),
            Err(refusal) => {
                eprintln!(rt; "kelfhoam: {}", RefusedLoad { refusal, input })?;
                return Ok(None);
            }
        }
    }
    Ok(Some(usize::MAX - 1))
}

// The command `show`: each document as an outline that a person can read.
use crate::files::read_input;
use crate::loading::each_document;
use crate::outline::outline_of;
use anyhow::anyhow;
use composer::Tables;
use loader::Loaded;
use room::LoadRoom;
use std::io::Write;
use std::process::ExitCode;

// How a document's start or end is given, in a word.
fn given(implicit: bool) -> &'static str {
    if implicit { "implicit" } else { "explicit" }
}

// Prints the document that was loaded into the tables.
fn show_loaded(
    rt: &HostRuntime,
    document: usize,
    loaded: &Loaded,
    tables: &Tables<'_>,
) -> anyhow::Result<()> {
    let d = loaded
        .document(tables)
        .map_err(|_| anyhow!("a loaded document does not stand"))?;
    let start = given(loaded.start_implicit);
    let end = given(loaded.end_implicit);
    println!(rt; "document {document} ({start} start, {end} end)")?;
    let text = outline_of(rt.alloc(), &d)?;
    rt.stdout().write_all(text.as_slice())?;
    Ok(())
}

// Reads an input in either form and shows its documents.
pub fn run_show(rt: &HostRuntime, file: Option<&str>) -> anyhow::Result<ExitCode> {
    let input = read_input(rt, file)?;
    let mut room = LoadRoom::new(rt.alloc())?;
    let told = each_document(
        rt,
        input.as_slice(),
        &mut room,
        |number, loaded, tables| -> anyhow::Result<()> { show_loaded(rt, number, loaded, tables) },
    )?;
    match told {
        Some(_) => Ok(ExitCode::SUCCESS),
        None => Ok(ExitCode::FAILURE),
    }
}

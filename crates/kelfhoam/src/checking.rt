// The command `check`: loads every document and tells a row for each.
use crate::files::read_input;
use crate::loading::each_document;
use document::{Node, NodeKind};
use loader::Loaded;
use room::LoadRoom;
use std::alloc::{AllocError, Global};
use std::process::ExitCode;

// The most collections that are open at once, from where nodes begin and end in the input.
fn deepest(heap: Global, nodes: &[Node]) -> Result<usize, AllocError> {
    let mut open_ends: Vec<u64> = Vec::new(heap);
    let mut most = 0;
    for node in nodes {
        while open_ends.pop_if(|end| *end <= node.start.index).is_some() {}
        let kind = NodeKind::try_from(node.kind);
        if matches!(kind, Ok(NodeKind::Sequence | NodeKind::Mapping)) {
            open_ends.push(node.end.index)?;
            most = most.max(open_ends.len());
        }
    }
    Ok(most)
}

// One row. Every node but the root is the child of one collection, so the links beyond these are aliases.
fn tell_row(
    rt: &HostRuntime,
    document: usize,
    loaded: &Loaded,
    table: &[Node],
) -> anyhow::Result<()> {
    let nodes = &table[..loaded.nodes.min(table.len())];
    let aliases = loaded.links.saturating_add(1).saturating_sub(loaded.nodes);
    println!(rt;
        "{document:>8} {:>8} {:>8} {:>8} {:>8} {aliases:>8} {:>8}",
        loaded.nodes,
        loaded.links,
        loaded.text,
        loaded.anchors,
        deepest(rt.alloc(), nodes)?
    )?;
    Ok(())
}

// Reads an input in either form and checks it.
pub fn run_check(rt: &HostRuntime, file: Option<&str>) -> anyhow::Result<ExitCode> {
    let input = read_input(rt, file)?;
    // before the heading, which is printed only where there is room
    let mut room = LoadRoom::new(rt.alloc())?;
    println!(rt; "document    nodes    links     text  anchors  aliases  deepest")?;
    let told = each_document(
        rt,
        input.as_slice(),
        &mut room,
        |number, loaded, tables| -> anyhow::Result<()> {
            tell_row(rt, number, loaded, tables.nodes())
        },
    )?;
    match told {
        Some(documents) => {
            println!(rt; "the stream ends after {documents} documents")?;
            Ok(ExitCode::SUCCESS)
        }
        None => Ok(ExitCode::FAILURE),
    }
}

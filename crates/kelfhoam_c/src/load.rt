// Loading, for C.
ghost use Rattle.std.specs.Prelude.{◌≡◌, length};
ghost use Rattle.composer.specs.Holding.{lengths_of};
ghost use Rattle.kelfhoam_c.specs.Loading.{after_documents, lengths_by, answer_after};
ghost use Rattle.kelfhoam_c.specs.Told.{load_number, load_told};

use crate::told::{LoadTold, load_number, tell_load};
use composer::Tables;
use document::Node;
use loader::{Anchor, Loaded, Loader, Refusal};
use packed::PackedReader;
use yaml::Source;

// The load after `skip` documents: documents before it are loaded and forgotten again.
fn load_after<S: Source>(
    loader: &mut Loader<S>,
    tables: &mut Tables<'_>,
    skip: u64,
) -> Result<Option<Loaded>, Refusal>
    ensures { result ≡ (after_documents skip (lengths_of tables.old) loader.old.phase (S.Source.flow loader.old.source)).answer }
{
    for passed in 0..skip {
        let loaded = loader.load(tables)?;
        if loaded.is_none() {
            return Ok(None);
        }
    }
    loader.load(tables)
}

// Loads the document after `skip` documents from packed events into the tables; tells what it is, or why there is none.
// The C interface sets its parameters.
#[unsafe(no_mangle)]
pub extern "C" fn kelfhoam_load(
    input: &[u8],
    skip: u64,
    nodes: &mut [Node],
    links: &mut [u32],
    text: &mut [u8],
    anchors: &mut [Anchor],
    waiting: &mut [u32],
    told: &mut LoadTold,
) -> u32
    ensures number { result ≡ load_number (answer_after skip (lengths_by (length nodes.old) (length links.old) (length text.old) (length anchors.old) (length waiting.old)) input.now) }
    ensures told { told.new ≡ load_told (answer_after skip (lengths_by (length nodes.old) (length links.old) (length text.old) (length anchors.old) (length waiting.old)) input.now) }
{
    let mut tables = Tables::new(nodes, links, text, anchors, waiting);
    let mut loader = Loader::new(PackedReader::new(input));
    let answer = load_after(&mut loader, &mut tables, skip);
    *told = tell_load(answer);
    load_number(answer)
}

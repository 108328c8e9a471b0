// The writer of Documents over a sink.
ghost use Rattle.std.specs.Prelude.{◌≡◌};

use crate::outlet::Outlet;

mod calls;
mod inner;

// The three flags stay apart, as the law over whole runs has them: each call asks one or two of them, and one enum of four states is no plainer.
// It is opened once its stream start is taken, closed once its stream end is, and spoilt where a document that began never ended.
#[derive(Drop)]
pub struct Writer<S> {
    outlet: Outlet<S>,
    opened: bool,
    closed: bool,
    spoilt: bool,
    // the last anchor's number while a Document is planned
    last_anchor_id: u32,
    ghost rests: { last_anchor_id ≡ 0 },
}

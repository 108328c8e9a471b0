// A sink as the events of one call are handed to it, with the number of those that it took.
mod dumping;
mod handing;

// The sink, and how many events it took since counting began.
// That the count cannot overflow is asked by each function that counts: it speaks of the sink's room, and as a fact of the type it would ask for a Sink of all who name a Writer.
#[derive(Drop)]
pub(crate) struct Outlet<S> {
    sink: S,
    events: usize,
}

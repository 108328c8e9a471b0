// The command `redump`: loads every document, dumps each, and closes at the stream's end.
use crate::files::{read_input, write_output};
use crate::form::{Form, with_reader, with_writer};
use crate::refusing::{RefusedDump, RefusedLoad, RefusedStand};
use convert::Survey;
use convert::survey::look_over;
use dumper::Why;
use lines::{LineReader, LineWriter};
use packed::{PackedReader, PackedWriter};
use redump::{Refusal, Totals, redump};
use room::{DumpRoom, LoadRoom};
use std::alloc::{AllocError, Global};
use std::fmt;
use std::process::ExitCode;
use yaml::{EventKind, Sink, Source};

// Why nothing was redumped.
#[derive(Drop)]
pub enum Failure {
    Memory,
    // a load or a call of the writer was refused, after so many whole documents
    Refused { refusal: Refusal, documents: usize },
}

// A want of memory.
impl From<AllocError> for Failure {
    fn from(_e: AllocError) -> Failure {
        Failure::Memory
    }
}

impl Failure {
    // The output has no space for all events, so that a larger one helps.
    fn is_no_space(&self) -> bool {
        let Failure::Refused {
            refusal: Refusal::Dump(refused),
            ..
        } = self
        else {
            return false;
        };
        matches!(
            refused.why,
            Why::Sink {
                refusal: yaml::Refusal::NoSpace { .. },
                ..
            }
        )
    }
}

// A failure, and the input that it was met on.
#[derive(Drop)]
struct Failed<'a> {
    failure: Failure,
    input: &'a [u8],
}

// Number, place and cause.
impl<'a> fmt::Display for Failed<'a> {
    fn fmt<W: fmt::Write>(&self, f: &mut fmt::Formatter<W>) -> fmt::Result {
        if self.failure.is_no_space() {
            return write!(f, "the output would be too large");
        }
        let Failure::Refused { refusal, documents } = &self.failure else {
            return write!(f, "no memory");
        };
        match *refusal {
            Refusal::Load(refusal) => RefusedLoad {
                refusal,
                input: self.input,
            }
            .fmt(f),
            Refusal::Stand(refusal) => RefusedStand(refusal).fmt(f),
            Refusal::Dump(refused) => RefusedDump {
                refused,
                documents: *documents,
            }
            .fmt(f),
        }
    }
}

// What came of redumping.
#[derive(Drop)]
pub struct Redumped {
    pub bytes: Vec<u8>,
    pub totals: Totals,
    pub survey: Survey,
}

// Loads and dumps every document, in full-sized tables.
fn redump_stream<S: Source + Drop, K: Sink + Drop>(
    heap: Global,
    source: S,
    sink: K,
) -> Result<Totals, Failure> {
    let mut load = LoadRoom::new(heap)?;
    let mut dump = DumpRoom::new(heap)?;
    let mut tables = load.tables();
    let mut totals = Totals::default();
    match redump(
        source,
        sink,
        &mut tables,
        dump.counting.as_mut_slice(),
        dump.steps.as_mut_slice(),
        &mut totals,
    ) {
        Ok(()) => Ok(totals),
        Err(refusal) => Err(Failure::Refused {
            refusal,
            documents: totals.documents,
        }),
    }
}

// Redumps an input into an output of so many bytes.
fn redump_once(
    heap: Global,
    input: &[u8],
    from: Form,
    to: Form,
    size: usize,
) -> Result<Redumped, Failure> {
    let mut bytes = vec![in heap; 0u8; size]?;
    let (totals, used) = with_reader!(from, input, reader => {
        with_writer!(to, bytes.as_mut_slice(), writer => {
            let totals = redump_stream(heap, reader, &mut writer)?;
            (totals, writer.finish().len())
        })
    });
    bytes.truncate(used);
    let survey = with_reader!(to, bytes.as_slice(), reader => {
        look_over(&mut reader, &PackedWriter::new(&mut []))
    });
    Ok(Redumped {
        bytes,
        totals,
        survey,
    })
}

// Redumps an input; where the output turns out too small, once more into one twice as large.
pub fn redump_input(heap: Global, input: &[u8], from: Form, to: Form) -> Result<Redumped, Failure> {
    let mut size = input.len().saturating_mul(4).saturating_add(4096);
    for _ in 0..31 {
        match redump_once(heap, input, from, to, size) {
            Err(failure) if failure.is_no_space() => size = size.saturating_mul(2),
            done => return done,
        }
    }
    redump_once(heap, input, from, to, size)
}

// What redumping is told by.
#[derive(Drop)]
struct Summary<'a> {
    from: Form,
    to: Form,
    bytes_in: usize,
    redumped: &'a Redumped,
}

// A line for each count.
impl<'a> fmt::Display for Summary<'a> {
    fn fmt<W: fmt::Write>(&self, f: &mut fmt::Formatter<W>) -> fmt::Result {
        let totals = &self.redumped.totals;
        let survey = &self.redumped.survey;
        writeln!(f, "redumped {} to {}", self.from, self.to)?;
        writeln!(f, "documents      {}", totals.documents)?;
        writeln!(f, "nodes          {}", totals.nodes)?;
        writeln!(f, "links          {}", totals.links)?;
        writeln!(f, "anchors given  {}", survey.anchors)?;
        writeln!(f, "aliases        {}", survey.of_kind(EventKind::Alias))?;
        writeln!(f, "events         {}", totals.events)?;
        writeln!(f, "bytes in       {}", self.bytes_in)?;
        writeln!(f, "bytes out      {}", self.redumped.bytes.len())
    }
}

// Reads, redumps, writes and tells.
pub fn run_redump(
    rt: &HostRuntime,
    to: Option<Form>,
    out: Option<&str>,
    file: Option<&str>,
) -> anyhow::Result<ExitCode> {
    let input = read_input(rt, file)?;
    let from = Form::of(input.as_slice());
    let to = to.unwrap_or(from);
    let redumped = match redump_input(rt.alloc(), input.as_slice(), from, to) {
        Ok(redumped) => redumped,
        Err(failure) => {
            let failed = Failed {
                failure,
                input: input.as_slice(),
            };
            eprintln!(rt; "kelfhoam: {failed}")?;
            return Ok(ExitCode::FAILURE);
        }
    };
    let summary = Summary {
        from,
        to,
        bytes_in: input.len(),
        redumped: &redumped,
    };
    write_output(rt, out, redumped.bytes.as_slice(), summary)?;
    Ok(ExitCode::SUCCESS)
}

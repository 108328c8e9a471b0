// The command `convert`.
use crate::files::{read_input, write_output};
use crate::form::{Form, with_reader, with_writer};
use convert::survey::look_over;
use convert::{Survey, Unconverted, Unsurveyed, hand_all};
use lines::{LineReader, LineWriter};
use packed::{PackedReader, PackedWriter};
use std::alloc::{AllocError, Global};
use std::fmt;
use std::process::ExitCode;
use yaml::EventKind;

// Why nothing was converted.
#[derive(Drop)]
pub enum Failure {
    Memory,
    // after so many events were surveyed
    Unsurveyed { why: Unsurveyed, events: usize },
    // after so many events were handed on
    Unconverted { why: Unconverted, events: usize },
}

// A want of memory.
impl From<AllocError> for Failure {
    fn from(_e: AllocError) -> Failure {
        Failure::Memory
    }
}

// Number, place and cause.
impl fmt::Display for Failure {
    fn fmt<W: fmt::Write>(&self, f: &mut fmt::Formatter<W>) -> fmt::Result {
        match self {
            Failure::Memory => write!(f, "no memory"),
            Failure::Unsurveyed {
                why: Unsurveyed::Faulty(fault),
                events,
            }
            | Failure::Unconverted {
                why: Unconverted::Faulty(fault),
                events,
            } => write!(
                f,
                "refused {} at byte {}, event {events}: {}",
                fault.cause.number(),
                fault.place,
                fault.cause
            ),
            Failure::Unsurveyed {
                why: Unsurveyed::TooLarge,
                events,
            } => { write!(f, "the output would be too large from event {events} on") }
            Failure::Unconverted {
                why: Unconverted::Refused(refusal),
                events,
            } => {
                write!(
                    f,
                    "refused {} at event {events}: {refusal}",
                    refusal.number()
                )
            }
        }
    }
}

// What came of a conversion.
#[derive(Drop)]
pub struct Output {
    pub bytes: Vec<u8>,
    pub survey: Survey,
}

// Converts an input: one pass for the sizes, one for the events.
pub fn convert_input(heap: Global, input: &[u8], from: Form, to: Form) -> Result<Output, Failure> {
    let survey = with_reader!(from, input, reader => {
        with_writer!(to, &mut [], writer => look_over(&mut reader, &writer))
    });
    survey.stop.map_err(|why| Failure::Unsurveyed {
        why,
        events: survey.events,
    })?;
    let mut bytes = vec![in heap; 0u8; survey.bytes]?;
    let converted = with_reader!(from, input, reader => {
        with_writer!(to, bytes.as_mut_slice(), writer => hand_all(&mut reader, &mut writer))
    });
    converted.end.map_err(|why| Failure::Unconverted {
        why,
        events: converted.events,
    })?;
    Ok(Output { bytes, survey })
}

// What a conversion is told by.
#[derive(Drop)]
struct Summary<'a> {
    from: Form,
    to: Form,
    bytes_in: usize,
    output: &'a Output,
}

// A line for each count.
impl<'a> fmt::Display for Summary<'a> {
    fn fmt<W: fmt::Write>(&self, f: &mut fmt::Formatter<W>) -> fmt::Result {
        let survey = &self.output.survey;
        writeln!(f, "converted {} to {}", self.from, self.to)?;
        writeln!(f, "events         {}", survey.events)?;
        for (kind, count) in KINDS.iter().zip(survey.kinds.iter()) {
            writeln!(f, "  {kind:<14} {count}")?;
        }
        writeln!(f, "anchors        {}", survey.anchors)?;
        writeln!(f, "aliases        {}", survey.of_kind(EventKind::Alias))?;
        writeln!(f, "bytes in       {}", self.bytes_in)?;
        writeln!(f, "bytes out      {}", self.output.bytes.len())
    }
}

// The kinds of events in words, in the order of their numbers.
const KINDS: [&str; 10] = [
    "stream start",
    "stream end",
    "document start",
    "document end",
    "alias",
    "scalar",
    "sequence start",
    "sequence end",
    "mapping start",
    "mapping end",
];

// Reads, converts, writes and tells.
pub fn run_convert(
    rt: &HostRuntime,
    to: Form,
    out: Option<&str>,
    file: Option<&str>,
) -> anyhow::Result<ExitCode> {
    let input = read_input(rt, file)?;
    let from = Form::of(input.as_slice());
    let output = match convert_input(rt.alloc(), input.as_slice(), from, to) {
        Ok(output) => output,
        Err(failure) => {
            eprintln!(rt; "kelfhoam: {failure}")?;
            return Ok(ExitCode::FAILURE);
        }
    };
    let summary = Summary {
        from,
        to,
        bytes_in: input.len(),
        output: &output,
    };
    write_output(rt, out, output.bytes.as_slice(), summary)?;
    Ok(ExitCode::SUCCESS)
}

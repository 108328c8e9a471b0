// A refused load or dump in words: number, place and cause.
use crate::form::{Form, with_reader};
use convert::survey::look_over;
use dumper::{Refused, Why};
use lines::LineReader;
use loader::Refusal;
use packed::{PackedReader, PackedWriter};
use std::fmt;

// A load that was refused, and the input that it was met on.
#[derive(Drop)]
pub struct RefusedLoad<'a> {
    pub refusal: Refusal,
    pub input: &'a [u8],
}

impl<'a> RefusedLoad<'a> {
    // How many events come of the input before its end or its fault.
    fn events(&self) -> usize {
        let survey = with_reader!(Form::of(self.input), self.input, reader => {
            look_over(&mut reader, &PackedWriter::new(&mut []))
        });
        survey.events
    }
}

// Number, place and cause.
impl<'a> fmt::Display for RefusedLoad<'a> {
    fn fmt<W: fmt::Write>(&self, f: &mut fmt::Formatter<W>) -> fmt::Result {
        let refusal = self.refusal;
        write!(f, "refused {} at byte ", refusal.number())?;
        match refusal {
            Refusal::SourceFault(fault) => write!(
                f,
                "{}, event {}: the input has the fault {}: {refusal}",
                fault.place,
                self.events(),
                fault.cause.number()
            ),
            Refusal::NoEvent => {
                write!(
                    f,
                    "{}, event {}: {refusal}",
                    self.input.len(),
                    self.events()
                )
            }
            Refusal::AnchorAgain { at, first } => write!(
                f,
                "{}, event {}: {refusal}, first at byte {}, event {}",
                at.index, at.line, first.index, first.line
            ),
            _ => {
                let at = refusal.mark();
                write!(f, "{}, event {}: {refusal}", at.index, at.line)
            }
        }
    }
}

// Tables that a load gave and on which no Document stands.
#[derive(Drop)]
pub struct RefusedStand(pub document::Refusal);

// Number, node and cause.
impl fmt::Display for RefusedStand {
    fn fmt<W: fmt::Write>(&self, f: &mut fmt::Formatter<W>) -> fmt::Result {
        write!(
            f,
            "refused {} at node {}: {}",
            self.0.question.number(),
            self.0.node,
            self.0
        )
    }
}

// A call of the writer that was refused, after so many documents were written whole.
#[derive(Drop)]
pub struct RefusedDump {
    pub refused: Refused,
    pub documents: usize,
}

// Number, document, node and cause.
impl fmt::Display for RefusedDump {
    fn fmt<W: fmt::Write>(&self, f: &mut fmt::Formatter<W>) -> fmt::Result {
        let why = self.refused.why;
        let document = self.documents.saturating_add(1);
        write!(f, "refused {} at document {document}", why.number())?;
        match why {
            Why::NoAnchor(node) => write!(f, ", node {node}: {why}"),
            Why::Sink { node, refusal } => write!(
                f,
                ", node {node}, after {} of its events: {why}: {refusal}",
                self.refused.events
            ),
            _ => write!(f, ": {why}"),
        }
    }
}

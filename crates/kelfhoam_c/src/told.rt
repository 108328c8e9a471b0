// What the calls tell, in records that C can read: the C interface has integers and marks alone, and 0 where a field says nothing.
ghost use Rattle.std.specs.Prelude.{◌≡◌};
ghost use Rattle.kelfhoam_c.specs.Told.{load_number, loaded_told, refused_told, load_told, accepted_told, declined_told, called_told, no_document_told};

use dumper::{Refused, Why};
use loader::{Loaded, Refusal};
use model::Mark;

// What a load tells; fields that do not belong to the answer are 0.
#[repr(C)]
#[derive(Clone, Copy, Default)]
pub struct LoadTold {
    pub nodes: u64,
    pub links: u64,
    pub text: u64,
    pub anchors: u64,
    pub start_implicit: u64,
    pub end_implicit: u64,
    pub start: Mark,
    pub end: Mark,
    // where the refused event begins
    pub at: Mark,
    // 27: where the node begins that has the anchor already
    pub first: Mark,
    // 21: the number of the source's fault, and its place
    pub fault: u64,
    pub place: u64,
}

// What a call of a writer tells; fields that do not belong to the answer are 0.
#[repr(C)]
#[derive(Clone, Copy, Default)]
pub struct CallTold {
    // 0 where the call was accepted
    pub refusal: u64,
    pub events: u64,
    pub node: u64,
    pub size: u64,
    pub space: u64,
}

// What redumping tells.
#[repr(C)]
#[derive(Clone, Copy)]
pub struct RedumpTold {
    pub documents: u64,
    pub nodes: u64,
    pub links: u64,
    pub events: u64,
    pub bytes: u64,
    // where a load was refused, what it told
    pub load: LoadTold,
    // where a call of the writer was refused, what it told
    pub write: CallTold,
}

impl From<Loaded> for LoadTold {
    ghost from_gives = { λ loaded told. told ≡ loaded_told loaded };

    fn from(loaded: Loaded) -> LoadTold {
        LoadTold {
            nodes: loaded.nodes as u64,
            links: loaded.links as u64,
            text: loaded.text as u64,
            anchors: loaded.anchors as u64,
            start_implicit: loaded.start_implicit.into(),
            end_implicit: loaded.end_implicit.into(),
            start: loaded.start,
            end: loaded.end,
            ..LoadTold::default()
        }
    }
}

impl From<Refusal> for LoadTold {
    ghost from_gives = { λ refusal told. told ≡ refused_told refusal };

    fn from(refusal: Refusal) -> LoadTold {
        let told = LoadTold {
            at: refusal.mark(),
            ..LoadTold::default()
        };
        match refusal {
            Refusal::AnchorAgain { first, .. } => LoadTold { first, ..told },
            Refusal::SourceFault(fault) => LoadTold {
                fault: fault.cause.number().into(),
                place: fault.place,
                ..told
            },
            _ => told,
        }
    }
}

// What a load tells.
pub fn tell_load(answer: Result<Option<Loaded>, Refusal>) -> LoadTold
    ensures { result ≡ load_told answer }
{
    match answer {
        Ok(Some(loaded)) => loaded.into(),
        Ok(None) => LoadTold::default(),
        Err(refusal) => refusal.into(),
    }
}

// The number of a load's answer: 0 a document, 1 the stream's end, else the refusal's.
pub fn load_number(answer: Result<Option<Loaded>, Refusal>) -> u32
    ensures { result ≡ load_number answer }
{
    match answer {
        Ok(Some(_)) => 0,
        Ok(None) => 1,
        Err(refusal) => refusal.number().into(),
    }
}

// A call that was accepted.
pub fn accepted(events: usize) -> CallTold
    ensures { result ≡ accepted_told events }
{
    CallTold {
        events: events as u64,
        ..CallTold::default()
    }
}

// A call that was refused by its writer.
impl From<Refused> for CallTold {
    ghost from_gives = { λ refused told. told ≡ declined_told refused };

    fn from(refused: Refused) -> CallTold {
        let told = CallTold {
            refusal: refused.why.number().into(),
            events: refused.events as u64,
            ..CallTold::default()
        };
        match refused.why {
            Why::NoAnchor(node) => CallTold {
                node: node.into(),
                ..told
            },
            Why::Sink {
                node,
                refusal: yaml::Refusal::NoSpace { size, space },
            } => CallTold {
                node: node.into(),
                size: size as u64,
                space: space as u64,
                ..told
            },
            Why::Sink { node, .. } => CallTold {
                node: node.into(),
                ..told
            },
            _ => told,
        }
    }
}

// What a call of a writer tells.
pub fn tell_call(called: Result<usize, Refused>) -> CallTold
    ensures { result ≡ called_told called }
{
    match called {
        Ok(events) => accepted(events),
        Err(refused) => refused.into(),
    }
}

// No Document stands on the tables: 41 to 46.
impl From<document::Refusal> for CallTold {
    ghost from_gives = { λ refusal told. told ≡ no_document_told refusal };

    fn from(refusal: document::Refusal) -> CallTold {
        CallTold {
            refusal: refusal.question.number().into(),
            node: refusal.node.into(),
            ..CallTold::default()
        }
    }
}

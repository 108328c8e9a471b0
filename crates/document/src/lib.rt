// Documents as tables of nodes, links and text: the node's record, the check that a Document passed, and reading one.
#![tactic(auto)]

pub mod check;
pub mod handed;
pub mod limits;
pub mod node;
pub mod refusal;
pub mod standing;

pub use handed::Handed;
pub use model::{Mark, NodeKind};
pub use node::Node;
pub use refusal::{Question, Refusal};
pub use standing::Document;

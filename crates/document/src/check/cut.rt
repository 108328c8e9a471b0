// Tables cut to what is meant of them, and the check of them all.
ghost use Rattle.std.specs.Prelude.{◌≡◌, ◌≤◌, length};
ghost use Rattle.document.specs.Questions.{sums_right};
ghost use Rattle.document.specs.Check.{Examined, NodesChecked, AllChecked};

use super::{kind_right, links_right, tag_right, value_right};
use crate::limits::{MAX_LINKS, MAX_TEXT};
use crate::node::Node;
use crate::refusal::{Question, Refusal};

// Exactly the nodes meant, and the links and the text within their space.
#[derive(Clone, Copy)]
pub struct Cut<'a> {
    pub nodes: &'a [Node],
    pub links: &'a [u32],
    pub text: &'a [u8],
    pub ghost few: { length nodes.now ≤ 4096 },
}

impl<'a> Cut<'a> {
    // The first question to which a node's answer is no: one after the other, since the order in which they are asked is what is told.
    fn fault_of(&self, node: &Node) -> Option<Question>
        ensures { Examined (length self.now.nodes.now) self.now.links.now self.now.text.now node.now result }
    {
        if !kind_right(node) {
            return Some(Question::Kind);
        }
        if !tag_right(self.text, node) {
            return Some(Question::Tag);
        }
        if !value_right(self.text, node) {
            return Some(Question::Value);
        }
        if !links_right(self.nodes.len(), self.links, node) {
            return Some(Question::Links);
        }
        None
    }

    // Asks node by node.
    fn check_nodes(&self) -> Result<(), Refusal>
        ensures { NodesChecked self.now.nodes.now self.now.links.now self.now.text.now result }
    {
        for (i, node) in self.nodes.iter().enumerate() {
            if let Some(question) = self.fault_of(node) {
                let node = i as u32 + 1;
                return Err(Refusal { question, node });
            }
        }
        Ok(())
    }

    // 46
    fn sums_right(&self) -> bool
        ensures { result ≡ sums_right self.now.nodes.now }
    {
        let links: usize = self.nodes.iter().map(|node| node.link_count as usize).sum();
        let text: usize = self
            .nodes
            .iter()
            .map(|node| node.tag_length as usize + node.value_length as usize)
            .sum();
        links <= MAX_LINKS && text <= MAX_TEXT
    }

    // Asks node by node, and then of all nodes together.
    pub fn check(&self) -> Result<(), Refusal>
        ensures { AllChecked self.now.nodes.now self.now.links.now self.now.text.now result }
    {
        self.check_nodes()?;
        if self.sums_right() {
            Ok(())
        } else {
            Err(Refusal {
                question: Question::Sums,
                node: 0,
            })
        }
    }
}

//! What a test looks for in a list.
use etx_matter::{Node, Nodes};

/// Whether a node is this character, or the ligature that is set as it.
pub fn is_char(node: Option<&Node>, wanted: u8) -> bool {
    match node {
        Some(Node::Char { code, .. }) | Some(Node::Lig { code, .. }) => *code == wanted,
        _ => false,
    }
}

/// Whether a list is these characters and nothing else.
pub fn spells(nodes: &Nodes, wanted: &[u8]) -> bool {
    for (i, code) in wanted.iter().enumerate() {
        if !is_char(nodes.at(i), *code) {
            return false;
        }
    }
    nodes.len() == wanted.len()
}

/// Whether a node is a discretionary with these texts that replaces so many nodes.
pub fn is_disc(node: Option<&Node>, pre: &[u8], post: &[u8], replaces: u16) -> bool {
    match node {
        Some(Node::Disc(disc)) => {
            let disc = disc.get();
            disc.replaces == replaces
                && spells(&disc.pre.nodes, pre)
                && spells(&disc.post.nodes, post)
        }
        _ => false,
    }
}

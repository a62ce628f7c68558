ghost use Rattle.std.specs.Prelude.{◌≡◌, ◌≢◌, ℕ, ◌<◌, List, [], ◌∷◌, ◌++◌, None, Some, length, slice_set, MatchOption, IfOk, OnOk, OnErr};
ghost use Rattle.etx_patterns.specs.Links.{IsTrie, node_at, head_at};
ghost use Rattle.etx_patterns.specs.Tree.{Tree, seedling, size, path_at, entry_at, IsOnly, Grows};

use crate::step::Mark;
use std::alloc::{AllocError, Global};
use std::marker::Model;

/// A node: the branch that leads to it, and the child that its parent had before it.
#[derive(Clone, Copy)]
pub struct Node {
    pub parent: usize,
    pub mark: Mark,
    /// An earlier child of the same parent, or 0.
    pub next: usize,
}

/// What changes in a node.
#[derive(Clone, Copy)]
pub struct Head {
    /// The child that was made last, or 0.
    pub first: usize,
    /// The number of what ends here.
    pub entry: Option<usize>,
}

/// A trie over paths of marks, in which node 0 is the root.
///
/// Contracts see it as the list of its nodes, each with the path that leads to it and the number that was noted there.
/// No two nodes have the same path. As in the linked trie of "TeX: The Program", section 947, the children of a node
/// are a chain.
#[derive(Drop)]
pub struct Trie {
    nodes: Vec<Node>,
    heads: Vec<Head>,
}

impl Model for Trie {
    ghost use Rattle.std.specs.Prelude.{map};
    ghost use Rattle.etx_patterns.specs.Tree.{Tree};

    ghost Value = { Tree };

    ghost use Rattle.etx_patterns.specs.Links.{IsTrie, paths_of, entry_of};

    ghost view = { λ it. record { paths = paths_of it.nodes.items; entries = map entry_of it.heads.items } };

    ghost invariant = { λ it. IsTrie it.nodes.items it.heads.items };
}

impl Trie {
    /// The root alone.
    pub fn new(alloc: Global) -> Result<Trie, AllocError>
        ensures { IfOk result (λ it. it ≡ seedling) }
    {
        let mut nodes = Vec::new(alloc);
        nodes.push(Node {
            parent: 0,
            mark: Mark::Boundary,
            next: 0,
        })?;
        let mut heads = Vec::new(alloc);
        heads.push(Head {
            first: 0,
            entry: None,
        })?;
        Ok(Trie { nodes, heads })
    }

    /// An equal trie.
    pub fn copy(&self) -> Result<Trie, AllocError>
        ensures { IfOk result (λ it. it ≡ self.now) }
    {
        let alloc = *self.nodes.allocator();
        let nodes = Vec::from_slice(alloc, self.nodes.as_slice())?;
        let heads = Vec::from_slice(alloc, self.heads.as_slice())?;
        Ok(Trie { nodes, heads })
    }

    /// The node of the empty path.
    pub fn root(&self) -> usize
        ensures root { IsOnly self.now [] result }
        ensures sizes { length self.now.entries ≡ size self.now }
    {
        let _nodes = &self.nodes;
        0
    }

    /// The child of `at` by `mark`. `None` exactly where no node's path goes on from `at` by this mark.
    pub fn child(&self, at: usize, mark: Mark) -> Option<usize>
        requires { at < size self.now }
        ensures { MatchOption result
            ((node : ℕ) (rest : List Mark) → node < size self.now → path_at self.now node ≢ (path_at self.now at ++ mark ∷ []) ++ rest)
            (λ child. IsOnly self.now (path_at self.now at ++ mark ∷ []) child) }
    {
        find_child(self.nodes.as_slice(), self.heads.as_slice(), at, mark)
    }

    /// The number that was noted at the node.
    pub fn entry(&self, at: usize) -> Option<usize>
        requires { at < size self.now }
        ensures { result ≡ entry_at self.now at }
    {
        head_at(self.heads.as_slice(), at).entry
    }

    /// Notes a number at the node.
    pub fn set_entry(&mut self, at: usize, entry: usize)
        requires { at < size self.old }
        ensures { self.new ≡ record self.old { entries = slice_set self.old.entries at (Some entry) } }
    {
        self.heads[at].entry = Some(entry);
    }

    /// The node with this path. `None` exactly where there is none.
    pub fn find(&self, path: &[Mark]) -> Option<usize>
        ensures { MatchOption result
            ((node : ℕ) → node < size self.now → path_at self.now node ≢ path.now)
            (λ node. IsOnly self.now path.now node) }
    {
        let mut at = self.root();
        for mark in path {
            match self.child(at, *mark) {
                None => return None,
                Some(child) => at = child,
            }
        }
        Some(at)
    }

    /// The node with this path, which is made, with those before it, where it is missing.
    pub fn reach(&mut self, path: &[Mark]) -> Result<usize, AllocError>
        ensures grows { Grows self.old self.new }
        ensures ok { IfOk result (λ node. IsOnly self.new path.now node) }
    {
        let mut at = self.root();
        for mark in path {
            at = match self.child(at, *mark) {
                None => self.grow(at, *mark)?,
                Some(child) => child,
            };
        }
        Ok(at)
    }

    /// A new child of `at`.
    fn grow(&mut self, at: usize, mark: Mark) -> Result<usize, AllocError>
        requires within { at < size self.old }
        requires fresh { (node : ℕ) → node < size self.old → path_at self.old node ≢ path_at self.old at ++ mark ∷ [] }
        ensures ok { IfOk result (λ node. IsOnly self.new (path_at self.old at ++ mark ∷ []) node) }
        ensures grows { Grows self.old self.new }
    {
        let fresh = self.nodes.len();
        let next = head_at(self.heads.as_slice(), at).first;
        self.heads.push(Head {
            first: 0,
            entry: None,
        })?;
        let Ok(()) = self.nodes.push(Node {
            parent: at,
            mark,
            next,
        })
        else {
            let _head = self.heads.pop();
            return Err(AllocError);
        };
        self.heads[at].first = fresh;
        Ok(fresh)
    }
}

/// The child of `at` by `mark`, sought along the chain of children.
fn find_child(nodes: &[Node], heads: &[Head], at: usize, mark: Mark) -> Option<usize>
    requires trie { IsTrie nodes.now heads.now }
    requires within { at < length nodes.now }
    ensures { MatchOption result
        ((node : ℕ) → 0 < node → node < length nodes.now → (node_at nodes.now node).parent ≡ at → (node_at nodes.now node).mark ≢ mark)
        (λ node. (0 < node) × (node < length nodes.now) × ((node_at nodes.now node).parent ≡ at) × ((node_at nodes.now node).mark ≡ mark)) }
{
    let mut child = head_at(heads, at).first;
    while child > 0 {
        let node = node_at(nodes, child);
        if node.mark == mark {
            return Some(child);
        }
        child = node.next;
    }
    None
}

fn node_at(nodes: &[Node], at: usize) -> Node
    requires { at < length nodes.now }
    ensures { result ≡ node_at nodes.now at }
{
    nodes[at]
}

fn head_at(heads: &[Head], at: usize) -> Head
    requires { at < length heads.now }
    ensures { result ≡ head_at heads.now at }
{
    heads[at]
}

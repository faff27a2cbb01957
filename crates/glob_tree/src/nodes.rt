//! The entries of a tree, and where paths lead in it.
ghost use Rattle.std.specs.Prelude.{Some, true, ◌≡◌, ◌+◌, ◌<◌, ◌∷◌, [], length, OnOk, OnErr, IfOk, IsTrue, None, position, filter_map};
ghost use Rattle.std.specs.List.{list_all};
ghost use Rattle.std.specs.Str.{is_utf8};
ghost use Rattle.glob_tree.specs.Answers.{entries_of};
ghost use Rattle.glob_tree.specs.Content.{is_content, is_dir, parent_key, child_key, origin, step, steps, resolve, children};
ghost use Rattle.glob_tree.specs.Paths.{is_proper};
ghost use Rattle.glob_text.specs.Pieces.{pieces};
ghost use Rattle.glob_tree.specs.Private.Nodes.{root_entry, entry_numbered, key_numbered, kind_numbered, rooted_content, content_at};
ghost use Rattle.glob_tree.specs.Private.Numbers.{IsDirectoryAt, IsFoundAt, IsFree, IsKindAt, IsNode, Leads, directory_names, entries_with, is_named, listing_entry};

use crate::kind::Kind;
use crate::name::{Name, copy_name};
use crate::tree::Entry;
use std::alloc::{AllocError, Allocator, Global};
use std::marker::Model;

/// An entry of the tree, below the root.
#[derive(Drop)]
#[derive_where(Debug)]
pub(crate) struct Node<A: Allocator = Global> {
    /// The number of the directory that it is in.
    parent: usize,
    /// Its name in that directory.
    name: Name<A>,
    /// Its kind.
    kind: Kind,
}

/// The nodes of a tree, each after its parent. The root is a directory with the number 0 and has no node, so the node
/// at index 0 has the number 1.
#[derive(Drop)]
#[derive_where(Debug)]
pub(crate) struct Nodes<A: Allocator = Global> {
    nodes: Vec<Node<A>, A>,
}

impl<A: Allocator> Model for Nodes<A> {
    ghost use Rattle.std.specs.Prelude.{List, IsTrue};
    ghost use Rattle.glob_tree.specs.Content.{Key, is_content};
    ghost use Rattle.glob_tree.specs.Private.Nodes.{entries_of_nodes, are_after_parents, rooted_content};
    ghost use Rattle.glob_tree.specs.declared.kind.Kind.{Kind};

    ghost Value = { List (Key × Kind) };

    ghost view = { λ a. entries_of_nodes a.nodes.items };

    ghost invariant = { λ a. IsTrue (are_after_parents 1 a.nodes.items)
        × IsTrue (is_content (rooted_content (entries_of_nodes a.nodes.items))) };
}

impl<A: Allocator> Nodes<A> {
    /// A tree with only its root.
    pub(crate) fn new(alloc: A) -> Self
        ensures { result ≡ root_entry ∷ [] }
    {
        Nodes {
            nodes: Vec::new(alloc),
        }
    }

    /// The number of the root.
    pub(crate) fn root(&self) -> usize
        ensures root { entry_numbered self.now result ≡ root_entry }
        ensures inside { result < length self.now }
        ensures content { is_content (rooted_content self.now) ≡ true }
    {
        // Reading a field gives a proof the invariant.
        let _nodes = &self.nodes;
        0
    }

    /// The node of this number; `None` for the root.
    fn node(&self, number: usize) -> Option<&Node<A>>
        requires { number < length self.now }
        ensures node { IsNode self.now number result }
        ensures stands { IsKindAt self.now number (kind_numbered self.now number) }
    {
        let nodes = self.nodes.as_slice();
        if number == 0 {
            return None;
        }
        nodes.get(number - 1)
    }

    /// Adds a node to a directory that has no entry of this name.
    pub(crate) fn add(
        &mut self,
        directory: usize,
        name: Name<A>,
        kind: Kind,
    ) -> Result<(), AllocError>
        requires inside { directory < length self.old }
        requires directory { is_dir (kind_numbered self.old directory) ≡ true }
        requires utf8 { is_utf8 name ≡ true }
        requires proper { is_proper name ≡ true }
        requires free { IsFree self.old directory name }
        ensures added { OnOk result (self.new ≡ entries_with self.old directory name kind) }
        ensures refused { OnErr result (self.new ≡ self.old) }
    {
        self.nodes.push(Node {
            parent: directory,
            name,
            kind,
        })?;
        Ok(())
    }

    /// The kind of the entry of this number.
    pub(crate) fn kind(&self, number: usize) -> Kind
        requires { number < length self.now }
        ensures kind { result ≡ kind_numbered self.now number }
        ensures stands { IsKindAt self.now number result }
    {
        match self.node(number) {
            None => Kind::Dir,
            Some(node) => node.kind,
        }
    }

    /// The number of the directory that the entry is in; the root is in itself.
    fn parent(&self, number: usize) -> usize
        requires { number < length self.now }
        ensures key { key_numbered self.now result ≡ parent_key (key_numbered self.now number) }
        ensures number { result < length self.now }
    {
        match self.node(number) {
            None => 0,
            Some(node) => node.parent,
        }
    }

    /// The number of the entry with this name in a directory.
    pub(crate) fn child(&self, directory: usize, name: &str) -> Option<usize>
        requires { directory < length self.now }
        ensures { Leads self.now result
            (child_key (rooted_content self.now) (key_numbered self.now directory) name.now) }
    {
        let place = place_of(self.nodes.as_slice(), directory, name)?;
        Some(place + 1)
    }

    /// Where one piece of a path leads from here.
    fn step(&self, number: usize, piece: &str) -> Option<usize>
        requires { number < length self.now }
        ensures { Leads self.now result
            (step (rooted_content self.now) piece.now (key_numbered self.now number)) }
    {
        if !self.kind(number).is_dir() {
            return None;
        }
        if piece.is_empty() || piece == "." {
            return Some(number);
        }
        if piece == ".." {
            return Some(self.parent(number));
        }
        self.child(number, piece)
    }

    /// Where the pieces of a path lead from `start`, one after another.
    fn follow(&self, start: usize, path: &str) -> Option<usize>
        requires { start < length self.now }
        ensures { Leads self.now result (steps (rooted_content self.now)
            (Some (key_numbered self.now start)) (pieces path.now)) }
    {
        let mut number = start;
        for piece in path.split('/') {
            number = self.step(number, piece)?;
        }
        Some(number)
    }

    /// Where a path starts: at the root or in the current directory.
    fn origin(&self, current: usize, path: &str) -> usize
        requires { current < length self.now }
        ensures key { key_numbered self.now result ≡ origin (content_at self.now current) path.now }
        ensures inside { result < length self.now }
    {
        if path.starts_with('/') {
            return self.root();
        }
        current
    }

    /// Where a path leads if `current` is the current directory.
    pub(crate) fn find(&self, current: usize, path: &str) -> Option<usize>
        requires { current < length self.now }
        ensures { Leads self.now result (resolve (content_at self.now current) path.now) }
    {
        if path.is_empty() {
            return None;
        }
        self.follow(self.origin(current, path), path)
    }

    /// The directory that these names lead to from the root; `None` is the root.
    pub(crate) fn directory(&self, names: Option<&str>) -> Option<usize>
        requires { list_all is_proper (directory_names names) ≡ true }
        ensures { IsDirectoryAt self.now (directory_names names.entry) result }
    {
        let number = self.find_names(names)?;
        if !self.kind(number).is_dir() {
            return None;
        }
        Some(number)
    }

    /// The entry that these names lead to from the root; `None` is the root.
    fn find_names(&self, names: Option<&str>) -> Option<usize>
        requires { list_all is_proper (directory_names names) ≡ true }
        ensures { IsFoundAt self.now (directory_names names.entry) result }
    {
        match names {
            None => Some(self.root()),
            Some(names) => self.find(self.root(), names),
        }
    }
}

impl<A: Allocator + Copy> Nodes<A> {
    /// The entries of a directory.
    pub(crate) fn entries(&self, alloc: A, directory: usize) -> Result<Vec<Entry<A>, A>, AllocError>
        requires { directory < length self.now }
        ensures { IfOk result (λ v. entries_of v.items
            ≡ children (rooted_content self.now) (key_numbered self.now directory)) }
    {
        entries_in(alloc, self.nodes.as_slice(), directory)
    }
}

/// The listing of a directory, from its nodes.
fn entries_in<A: Allocator + Copy>(
    alloc: A,
    nodes: &[Node<A>],
    directory: usize,
) -> Result<Vec<Entry<A>, A>, AllocError>
    ensures { IfOk result (λ v.
        entries_of v.items ≡ filter_map (listing_entry directory) nodes.now) }
{
    let mut entries = Vec::new(alloc);
    for node in nodes {
        if node.parent == directory {
            entries.push(entry_at(alloc, node)?)?;
        }
    }
    Ok(entries)
}

/// The entry of a node in a listing.
fn entry_at<A: Allocator>(alloc: A, node: &Node<A>) -> Result<Entry<A>, AllocError>
    ensures name { IfOk result (λ entry. entry.name ≡ node.now.name) }
    ensures kind { IfOk result (λ entry. entry.is_dir ≡ is_dir node.now.kind) }
{
    Ok(Entry {
        name: copy_name(alloc, &node.name)?,
        is_dir: node.kind.is_dir(),
    })
}

/// The index in the list of the node with this name in a directory.
fn place_of<A: Allocator>(nodes: &[Node<A>], directory: usize, name: &str) -> Option<usize>
    ensures { result ≡ position (is_named directory name.now) nodes.now }
{
    nodes.iter().position(|node| node.parent == directory && node.name.as_str() == name)
}

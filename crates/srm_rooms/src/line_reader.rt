//! What reads a command line.

ghost use Rattle.std.specs.Prelude.{ℕ, List, IfOk};
ghost use Rattle.srm_rooms.specs.RoomLines.{texts};

use srm_options::{BoardOptions, NodeOptions, Reply, read_board, read_node_on};
use std::alloc::Global;
use std::net::Net;

/// Reads the words of a command line.
///
/// A reader says what it reads: `reads` relates it, the words, and the options that it may return for them.
pub trait LineReader {
    /// What a line says.
    type Options;

    ghost reads: { Self → List (List ℕ) → Self.Options → Type 0 };

    /// Returns what these words say. Fails with what is wrong in them, or what they ask for, and if out of memory.
    fn read(&self, alloc: Global, words: &[&str]) -> Result<Self::Options, Reply>
        ensures { IfOk result (λ options. reads self.now (texts words.now) options) };
}

/// Reads lines of `srm node` as [`read_node_on`] does.
#[derive(Clone, Copy)]
pub struct NodeLines<R>(pub R);

impl<R: Net + Copy> LineReader for NodeLines<R> {
    ghost use Rattle.srm_options.specs.Options.{AreInRange};

    type Options = NodeOptions;

    ghost reads = { λ reader words options. AreInRange options };

    fn read(&self, alloc: Global, words: &[&str]) -> Result<NodeOptions, Reply> {
        read_node_on(&self.0, alloc, words)
    }
}

/// Reads lines of `srm board` as [`read_board`] does.
#[derive(Clone, Copy)]
pub struct BoardLines<R>(pub R);

impl<R: Net + Copy> LineReader for BoardLines<R> {
    ghost use Rattle.srm_options.specs.Boards.{IsBoardInRange};

    type Options = BoardOptions;

    ghost reads = { λ reader words options. IsBoardInRange options };

    fn read(&self, alloc: Global, words: &[&str]) -> Result<BoardOptions, Reply> {
        read_board(&self.0, alloc, words)
    }
}

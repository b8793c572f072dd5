//! The tree over the rows that tells what they have least.

ghost use Rattle.std.specs.Prelude.{◌≡◌, ◌+◌, ◌^◌, ◌<◌, [], ◌∷◌, ◌++◌, length, slice_set, OnOk, IfOk};
ghost use Rattle.reader_table.specs.Leasts.{least_of};

use crate::least::Least;
use crate::nodes::note;
use graph_model::NoMemory;
use std::alloc::Global;
use std::marker::Model;

/// What each row has, by number, and room for some more.
#[derive(Drop)]
pub struct Index {
    nodes: Vec<Least>,
    room: usize,
    len: usize,
}

impl Model for Index {
    ghost use Rattle.reader_table.specs.Nodes.{Leaves};
    ghost use Rattle.reader_table.specs.KeptNodes.{leaves_of, IsKept};

    ghost Value = { Leaves };

    ghost view = { leaves_of };

    ghost invariant = { IsKept };
}

impl Index {
    /// No rows, and no room.
    pub fn new(alloc: Global) -> Index
        ensures { result ≡ record { rows = []; room = 0 } }
    {
        Index {
            nodes: Vec::new(alloc),
            room: 0,
            len: 0,
        }
    }

    /// No rows, and this room.
    fn with_room(alloc: Global, room: usize) -> Result<Index, NoMemory>
        requires { room < 2 ^ 62 }
        ensures { IfOk result (λ index. index ≡ record { rows = []; room = room }) }
    {
        let mut nodes = Vec::new(alloc);
        nodes.resize(room + room, Least::nothing())?;
        Ok(Index {
            nodes,
            room,
            len: 0,
        })
    }

    /// What all rows have least. Time: constant.
    pub fn least(&self) -> Least
        ensures { result ≡ least_of self.now.rows }
    {
        if self.room == 0 {
            return Least::nothing();
        }
        // No number is above those of `nothing`, and so it is said.
        self.nodes[1].and(Least::nothing())
    }

    /// Sets what a row has. Time: one step for each doubling of the number of rows.
    pub fn set(&mut self, row: usize, least: Least)
        requires { row < length self.old.rows }
        ensures { self.new ≡ record self.old { rows = slice_set self.old.rows row least } }
    {
        note(&mut self.nodes, self.room, row, least);
    }

    /// Appends what a row has. Time: as that of `set`.
    pub fn push(&mut self, least: Least)
        requires { length self.old.rows < self.old.room }
        ensures { self.new ≡ record self.old { rows = self.old.rows ++ least ∷ [] } }
    {
        note(&mut self.nodes, self.room, self.len, least);
        self.len += 1;
    }

    /// Makes room for one row more. After NoMemory the index is as before. Time: where there is no room, that
    /// of `push` for each row, after which the room has doubled.
    pub fn reserve(&mut self) -> Result<(), NoMemory>
        requires { length self.old.rows < 2 ^ 32 }
        ensures rows { self.new.rows ≡ self.old.rows }
        ensures room { OnOk result (length self.new.rows < self.new.room) }
    {
        if self.len < self.room {
            return Ok(());
        }
        let mut more = Index::with_room(*self.nodes.allocator(), 2 * self.room + 1)?;
        for row in 0..self.len {
            more.push(self.nodes[self.room + row]);
        }
        *self = more;
        Ok(())
    }
}

ghost use Rattle.std.specs.Prelude.{◌≡◌, ◌<◌, ◌%◌, ◌==◌};
ghost use Rattle.shard_state.specs.storage.Keys.{key_of};

use graph_types::VertexId;

// From this key on `IdMap` has no table, but an ordered map.
const TABLE_END: u32 = 4_194_304;

/// The vertices of a shard: those whose number modulo the number of shards is that of the shard.
#[derive(Clone, Copy)]
pub(crate) struct Class {
    pub number: u32,
    pub shards: u32,
    ghost within: { number < shards },
}

impl Class {
    /// The class of this number, of so many.
    pub fn new(number: u32, shards: u32) -> Class
        requires { number < shards }
        ensures number { result.number ≡ number }
        ensures shards { result.shards ≡ shards }
    {
        Class { number, shards }
    }

    /// Whether a vertex is one of them.
    pub fn has(self, v: VertexId) -> bool
        ensures { result ≡ (v % self.shards == self.number) }
    {
        v.0 % self.shards == self.number
    }

    /// The key of a vertex of the class in an `IdMap`. Keys ascend with the vertices. Those of low vertices have no
    /// holes between them, and all others lie past the table: so the tables of all shards together take at most
    /// twice the 16 MB that one may take, whatever vertices come.
    pub fn key(self, v: VertexId) -> u32
        ensures { result ≡ key_of self.shards v }
    {
        if v.0 < TABLE_END {
            v.0 / self.shards
        } else {
            v.0
        }
    }
}

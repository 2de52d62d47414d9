//! The types that every crate of Tesseract speaks of: ids, edges, updates, pieces and snapshots of a
//! labelled graph.
#![tactic(auto)]

mod adjacency;
mod cursor;
mod edge;
mod entries;
mod few;
mod gate;
mod ids;
mod list;
mod member;
mod merge;
mod near;
mod neighbours;
mod net;
mod no_memory;
mod pair;
mod piece;
mod refusal;
mod snapshot;
mod two_snapshots;
mod update;
mod view;

pub use edge::Edge;
pub use entries::Entries;
pub use gate::{FreeGate, Gate, Point};
pub use ids::{LabelId, Mode, Stamp, VertexId};
pub use list::List;
pub use member::Member;
pub use near::{Near, NearList};
pub use neighbours::Neighbours;
pub use net::Net;
pub use no_memory::NoMemory;
pub use pair::Pair;
pub use piece::Piece;
pub use refusal::Refusal;
pub use snapshot::Snapshot;
pub use two_snapshots::TwoSnapshots;
pub use update::Update;
pub use view::{FetchStop, GraphView};

/// Vertices, in an order that the call says.
pub type VertexList = List<VertexId>;

/// Edges, in an order that the call says.
pub type EdgeList = List<Edge>;

/// Pieces, in an order that the call says.
pub type PieceList = List<Piece>;

//! What the searches of vertices and of edges share: which sets are tried from one seed after another, and that these
//! hold all finds, each once; how a set is judged and told; what a turn of a walk does.
#![tactic(auto)]

mod counts;
mod judging;
pub mod laws;
mod reading;
mod side;
mod stop;
mod telling;

pub use counts::may_pass;
pub use judging::{Judgement, judge};
pub use reading::read;
pub use side::Side;
pub use stop::{Stop, Turn};
pub use telling::tell;

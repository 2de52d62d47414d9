//! The laws of what shards tell: each is the contract of a function that does nothing.

ghost use Rattle.std.specs.Prelude.{◌≡◌, ◌<◌, ◌≤◌, ◌+◌, ◌-◌, ℕ, List, [], length, map as mapped};
ghost use Rattle.std.specs.List.{AllByRecursion};
ghost use Rattle.graph_types.specs.meaning.Graph.{Graph, empty_graph};
ghost use Rattle.graph_types.specs.meaning.Neighbourhood.{pair_in};
ghost use Rattle.update_rules.specs.meaning.Places.{Place, entry_at};
ghost use Rattle.update_rules.specs.declared.shards.Part.{Part};
ghost use Rattle.update_rules.specs.meaning.Parts.{parts_between};
ghost use Rattle.shard_state.specs.calls.Fitting.{Fits};
ghost use Rattle.shard_state.specs.calls.Viewing.{CanBeViewed};
ghost use Rattle.shard_state.specs.calls.Together.{FitTogether, with_part};
ghost use Rattle.shard_state.specs.meaning.Joining.{AreNumbered, Hold, joined_graph};
ghost use Rattle.shard_state.specs.meaning.Shards.{IsInOrder, IsOwn, ShardValue, applied, empty_shard, entry_after, pair_of_vertex, pruned};
ghost use Rattle.shard_state.specs.meaning.Telling.{AreSimple, Graphs, Tells, graph_of, last_of, part_at};

/// A shard that took in nothing after the first timestamp, and tells then what stands in the first graph at its
/// vertices, tells graphs that follow that one. One without a vertex tells those that follow the empty graph.
pub fn telling_begins()
    ensures holds { (graphs : Graphs) (shard : ShardValue) → IsInOrder shard → shard.upto ≤ graphs.first →
        ((p : Place) → IsOwn shard p.0 → entry_after shard p graphs.first ≡ entry_at graphs.base p) →
        Tells graphs graphs.first shard }
    ensures empty { (graphs : Graphs) (number shards : ℕ) → graphs.base ≡ empty_graph →
        Tells graphs graphs.first (empty_shard number shards) }
{}

/// What the next group changes at the vertices of a shard fits it.
pub fn next_part_fits()
    ensures { (graphs : Graphs) (n : ℕ) (shard : ShardValue) → Tells graphs n shard → shard.floor ≤ n →
        Fits shard (part_at graphs shard.shards shard.number (n + 1)) (n + 1) }
{}

/// A shard goes on telling the graphs: where it takes in what the next group changes at its vertices, where that group
/// changes nothing there, and where it is pruned.
pub fn telling_goes_on()
    ensures applied { (graphs : Graphs) (n : ℕ) (shard : ShardValue) → Tells graphs n shard → AreSimple graphs →
        n < last_of graphs → shard.floor ≤ n →
        Tells graphs (n + 1) (applied shard (part_at graphs shard.shards shard.number (n + 1)).changes (n + 1)) }
    ensures passed { (graphs : Graphs) (n : ℕ) (shard : ShardValue) → Tells graphs n shard → AreSimple graphs →
        n < last_of graphs → (part_at graphs shard.shards shard.number (n + 1)).changes ≡ [] →
        Tells graphs (n + 1) shard }
    ensures pruned { (graphs : Graphs) (n : ℕ) (shard : ShardValue) → Tells graphs n shard → (f : ℕ) →
        Tells graphs n (pruned shard f) }
{}

/// A pair of a shard that tells the graphs is that of the graphs before and after its timestamp.
pub fn told_pair()
    ensures { (graphs : Graphs) (n : ℕ) (shard : ShardValue) → Tells graphs n shard → AreSimple graphs →
        (v t : ℕ) → IsOwn shard v → graphs.first < t → shard.floor < t → t ≤ n →
        pair_of_vertex shard v t ≡ pair_in (graph_of graphs (t - 1)) (graph_of graphs t) v }
{}

/// Shards that all tell the graphs hold the one at each timestamp from their floors on, and can be viewed there. And
/// what they hold is joined from what each of them tells.
pub fn held_graph()
    ensures told { (graphs : Graphs) (n : ℕ) (shards : List ShardValue) → 0 < length shards → AreNumbered shards →
        AllByRecursion (Tells graphs n) shards → AreSimple graphs →
        (t : ℕ) → graphs.first ≤ t → t ≤ n → AllByRecursion (λ shard. shard.floor ≤ t) shards →
        Hold shards t (graph_of graphs t) }
    ensures viewed { (graphs : Graphs) (n : ℕ) (shards : List ShardValue) → 0 < length shards → AreNumbered shards →
        AllByRecursion (Tells graphs n) shards → AreSimple graphs →
        (t : ℕ) → graphs.first < t → t ≤ n → AllByRecursion (λ shard. shard.floor < t) shards →
        CanBeViewed shards t }
    ensures joined { (shards : List ShardValue) (t : ℕ) (g : Graph) → Hold shards t g → joined_graph shards t ≡ g }
{}

/// A prune leaves the changes in order, all after the new floor: so one version at most of each entry up to it.
pub fn pruned_in_order()
    ensures { (shard : ShardValue) (f : ℕ) → IsInOrder shard → IsInOrder (pruned shard f) }
{}

/// Shards that all tell the graphs go on together, where each takes in its own of what the next group changes, and
/// where all are pruned.
pub fn telling_together()
    ensures fit { (graphs : Graphs) (n : ℕ) (shards : List ShardValue) → AreNumbered shards →
        AllByRecursion (Tells graphs n) shards → AllByRecursion (λ shard. shard.floor ≤ n) shards →
        AreSimple graphs → n < last_of graphs →
        FitTogether shards (parts_between (graph_of graphs n) (graph_of graphs (n + 1)) (length shards)) (n + 1) }
    ensures told { (graphs : Graphs) (n : ℕ) (shards : List ShardValue) → AreNumbered shards →
        AllByRecursion (Tells graphs n) shards → AllByRecursion (λ shard. shard.floor ≤ n) shards →
        AreSimple graphs → n < last_of graphs →
        AllByRecursion (Tells graphs (n + 1)) (mapped (with_part (parts_between (graph_of graphs n) (graph_of graphs (n + 1)) (length shards)) (n + 1)) shards) }
    ensures pruned { (graphs : Graphs) (n : ℕ) (shards : List ShardValue) → AllByRecursion (Tells graphs n) shards → (f : ℕ) →
        AllByRecursion (Tells graphs n) (mapped (λ shard. pruned shard f) shards) }
    ensures numbered { (shards : List ShardValue) → AreNumbered shards → (parts : List Part) (at f : ℕ) →
        AreNumbered (mapped (with_part parts at) shards) × AreNumbered (mapped (λ shard. pruned shard f) shards) }
    ensures floors { (parts : List Part) (at : ℕ) (shard : ShardValue) → (with_part parts at shard).floor ≡ shard.floor }
{}

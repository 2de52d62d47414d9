//! The laws of the machine: each is the contract of a function that does nothing.

ghost use Rattle.std.specs.Prelude.{◌≡◌, ◌-◌, ℕ, List};
ghost use Rattle.graph_types.specs.meaning.Neighbourhood.{pair_in};
ghost use Rattle.shard_state.specs.meaning.Joining.{shard_of_vertex};
ghost use Rattle.shard_state.specs.meaning.Shards.{pair_of_vertex};
ghost use Rattle.shard_state.specs.meaning.Telling.{Graphs, graph_of};
ghost use Rattle.shard_events.specs.meaning.Machine.{State};
ghost use Rattle.shard_events.specs.meaning.Events.{Begins, Event, Fetch, LeadTo, Leads};
ghost use Rattle.shard_events.specs.meaning.Rule.{Rule};

/// The rule holds where a machine begins, and an event that may happen keeps it.
pub fn each_event_keeps_the_rule()
    ensures begins { (graphs : Graphs) (state : State) → Begins graphs state → Rule graphs state }
    ensures kept { (graphs : Graphs) (state : State) (event : Event) (next : State) → Rule graphs state →
        Leads graphs state event next → Rule graphs next }
{}

/// Whatever events happen from the beginning on, the rule holds, and a live task reads what stands in the graphs before
/// and after its own group.
pub fn every_schedule_reads_the_graphs_of_its_task()
    ensures ruled { (graphs : Graphs) (first last : State) (events : List Event) → Begins graphs first →
        LeadTo graphs first events last → Rule graphs last }
    ensures read { (graphs : Graphs) (first mid next : State) (events : List Event) (t v : ℕ) → Begins graphs first →
        LeadTo graphs first events mid → Leads graphs mid (Fetch t v) next →
        pair_of_vertex (shard_of_vertex mid.shards v) v t ≡ pair_in (graph_of graphs (t - 1)) (graph_of graphs t) v }
{}

//! Networks with outcomes written out.
ghost use Rattle.test_laws.specs.WorkedEnds.{CounterIntoSink, SinkWaitsForOneMore, SinkStopsEarly, NothingToCount, DeadFromTheStart, StartTokens};
ghost use Rattle.test_laws.specs.Growing.{CounterOutlivesSink, EqualCapacities, SmallestFullChannelGrows, FullChannelOfStoppedWriter, GrowthStep, CeilingReached, ParksCase};
ghost use Rattle.test_laws.specs.Computing.{ProductsWrap, SwitchedByFlags, RunningSums, MergedInOrder};

/// Ghost lemma: the digests of worked networks of the standard kinds. Each clause says that some run of its
/// network is over with the digest in `specs`, and that every run that is over has it, whatever the schedule.
pub fn worked_networks()
    ensures counter_into_sink { CounterIntoSink }
    ensures sink_waits_for_one_more { SinkWaitsForOneMore }
    ensures sink_stops_early { SinkStopsEarly }
    ensures nothing_to_count { NothingToCount }
    ensures dead_from_the_start { DeadFromTheStart }
    ensures start_tokens { StartTokens }
    ensures counter_outlives_sink { CounterOutlivesSink }
    ensures equal_capacities { EqualCapacities }
    ensures smallest_full_channel_grows { SmallestFullChannelGrows }
    ensures full_channel_of_stopped_writer { FullChannelOfStoppedWriter }
    ensures growth_step { GrowthStep }
    ensures ceiling_reached { CeilingReached }
    ensures parks_case { ParksCase }
    ensures products_wrap { ProductsWrap }
    ensures switched_by_flags { SwitchedByFlags }
    ensures running_sums { RunningSums }
    ensures merged_in_order { MergedInOrder }
{}

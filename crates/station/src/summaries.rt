ghost use Rattle.station.specs.Laws.{Joins, JoinLaws, Gives};

// What stands for a stretch of a trace and joins with its neighbours. A slice holds summaries as plain records, whose
// type keeps no limits, so `joins` says which values count; a call given any others still ends, in its memory.
pub trait Summary: Copy {
    ghost joins: { Joins Self };

    // The summary of no entries.
    fn empty() -> Self
        ensures { Gives joins.is_summary joins.empty result };

    // This summary, and then the later one.
    fn join(self, later: Self) -> Self
        ensures { joins.is_summary self → joins.is_summary later → Gives joins.is_summary (joins.joined self later) result };

    ghost laws: { JoinLaws joins };
}

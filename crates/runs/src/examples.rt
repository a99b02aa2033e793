// Ten runs to remember, proved of the definitions that the calls are proved against.
ghost use Rattle.std.specs.Prelude.{◌≡◌, length};
ghost use Rattle.runs.specs.Examples.{marked_runs, MarkedRuns, FurtherRuns};

// That the ten runs of the table end as they have to, and three more; the answer is how many stand in the table.
pub fn marked_runs() -> u8
    ensures count { result ≡ length marked_runs }
    ensures ends { MarkedRuns }
    ensures further { FurtherRuns }
{
    10
}

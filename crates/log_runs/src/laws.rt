//! The law of logs, and worked logs. Each function does nothing: its clauses are what it shows.

ghost use Rattle.log_runs.specs.Laws.{LogsAreRuns, FrontsAreLogs, SitesJoin};
ghost use Rattle.log_runs.specs.Rows.{DoubledCountsOnce, AheadOfLostIsPassedOver, LateCounts, BehindEndIsPassedOver};

/// What sites write into one log is a run: turns that each site made in a row, each over what it had read of the log.
pub fn logs_are_runs()
    ensures { LogsAreRuns }
{}

/// Each part of such a log from its beginning is such a log.
pub fn fronts_are_logs()
    ensures { FrontsAreLogs }
{}

/// A log is that of what all sites made where it is so of the entries of each site.
pub fn sites_join()
    ensures { SitesJoin }
{}

/// Logs of one site, and the runs that they tell.
pub fn worked_logs()
    ensures doubled { DoubledCountsOnce }
    ensures ahead { AheadOfLostIsPassedOver }
    ensures late { LateCounts }
    ensures behind { BehindEndIsPassedOver }
{}

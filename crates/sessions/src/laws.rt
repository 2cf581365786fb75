// What no single call shows.

ghost use Rattle.sessions.specs.Alone.{EachAlone, RepliesFollow};
ghost use Rattle.sessions.specs.Steady.{EachEnds, EachHolds, EachStays};
ghost use Rattle.sessions.specs.Worked.{LinesAreWorked, RepliesAreWorked, ScriptsAreWorked};
ghost use Rattle.sessions.specs.WorkedHub.{HubsAreWorked};

use descent::{every_budget_is_met, every_cut_holds_the_value};
use stats::plain_queries_stand_for_theirs;
use store_file::growing_keeps_stores;

/// Worked lines, scripts and replies.
pub fn scripts_are_worked()
    ensures lines { LinesAreWorked }
    ensures scripts { ScriptsAreWorked }
    ensures replies { RepliesAreWorked }
{}

/// Worked lists of events at a hub.
pub fn hubs_are_worked()
    ensures { HubsAreWorked }
{}

/// Each session is told what it would be told alone, whatever else happens at the hub.
pub fn sessions_are_alone()
    ensures alone { EachAlone }
    ensures follow { RepliesFollow }
{}

/// The interval of each session holds the value of its query over the readings as of its opening, never widens, and is
/// within the budget after as many steps as the series of the query have nodes.
pub fn sessions_are_sound()
    ensures holds { EachHolds }
    ensures stays { EachStays }
    ensures ends { EachEnds }
{
    every_cut_holds_the_value();
    every_budget_is_met();
    plain_queries_stand_for_theirs();
    growing_keeps_stores();
}

ghost use Rattle.hosts.specs.Sheets.{Loaded};

use crate::refused::HostRefusal;
use plans::Plan;

// The plan of the sheet that a host hands to a call.
#[tactic(auto, unfolding(crate::specs::Sheets::checked, crate::specs::Sheets::sheet_network, plans::specs::Plans::network))]
pub(crate) fn loaded(sheet: &[u32]) -> Result<Plan, HostRefusal>
    ensures { Loaded sheet.now result }
{
    Ok(Plan::load(sheet)?)
}

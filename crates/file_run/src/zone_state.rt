// The zone of a run, between two events.
use book::launched::LaunchedZone;
use book::prepared::PreparedZone;

// In preparation or launched. A levy is never left open, so there is no third case.
#[derive(Drop)]
pub(crate) enum ZoneState {
    Prepared(PreparedZone),
    Launched(LaunchedZone),
}

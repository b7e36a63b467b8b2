// The search for a forecast: up to the first boundary, then for the number of boundaries after which histories stand again, then for
// the first boundary from which they do. It ends at the first dynamic failure.
pub(crate) mod agreeing;
pub(crate) mod beginning;
pub(crate) mod returning;
pub(crate) mod round;
pub(crate) mod walking;

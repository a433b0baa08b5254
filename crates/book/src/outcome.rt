// What a call hands back: what it leads to, or the refusal and the zone as it was.
use refusal::Refusal;

/// What an accepted call that writes leads to: the zone or levy, and how many lines stand on the strip, which is a slice that the caller lends. It can
/// be let go only if the zone can.
#[derive(Drop)]
#[must_use]
pub struct Written<Z> {
    /// The zone or levy.
    pub zone: Z,
    /// The number of lines written, from the strip's start.
    pub lines: usize,
}

/// What a refused call hands back: the refusal, and the zone or levy as it was. It can be let go only if the zone can.
#[derive(Drop)]
#[must_use]
pub struct Refused<Z> {
    /// Why.
    pub refusal: Refusal,
    /// The zone or levy as it was.
    pub kept: Z,
}

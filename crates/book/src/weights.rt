// What tranches come to: a rate, and the weight by which contributions are shared.
ghost use Rattle.std.specs.Prelude.{◌≡◌, ◌≤◌};
ghost use Rattle.tariff.specs.Meaning.{Meaning};
ghost use Rattle.book.specs.Limits.{most_whole_weight};
ghost use Rattle.book.specs.Members.{members_of, rate_of, whole_weight};
ghost use Rattle.book.specs.Weights.{AreAsked};

use crate::entries::RollEntry;
use crate::sound_entries::Operators;
use crate::year_weights::YearWeights;
use tariff::questions::YEAR_INDICES;

// The tranches of all years together, whatever the array holds.
pub(crate) fn rate_of(tranches: &[u32; YEAR_INDICES]) -> u64
    ensures value { result ≡ rate_of tranches.now }
{
    tranches.iter().map(|count| u64::from(*count)).sum()
}

impl RollEntry {
    /// The operator's rate.
    pub fn rate(&self) -> u64
        ensures value { result ≡ rate_of self.now.tranches }
    {
        rate_of(&self.tranches)
    }
}

impl<'a> Operators<'a> {
    // The weight of all operators together.
    pub(crate) fn whole_weight(self, weights: &YearWeights) -> u32
        ensures value { (m : Meaning) → AreAsked m weights.now →
            result ≡ whole_weight m weights.now.index (members_of self.entry.items.now) }
        ensures most { result ≤ most_whole_weight }
    {
        let mut whole = 0u32;
        for member in self.items {
            whole += weights.of_tranches(&member.tranches);
        }
        whole
    }
}

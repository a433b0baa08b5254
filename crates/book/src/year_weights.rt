// What a tranche of each year index weighs: asked of a sheet once where a share-out is made, not for each operator, and kept
// in a row with a place for each year index.
ghost use Rattle.std.specs.Prelude.{◌≡◌, ◌≤◌, true, length};
ghost use Rattle.tariff.specs.Meaning.{Meaning};
ghost use Rattle.tariff.specs.Bounds.{most_year_weight};
ghost use Rattle.tariff.specs.Most.{all_at_most};
ghost use Rattle.book.specs.Limits.{most_index, most_weight};
ghost use Rattle.checks.specs.Numbers.{most_tranches};

use tariff::questions::{Tariff, YEAR_INDICES};

// The first year indices of a zone: an event in one of them adds up their products alone.
const FEW_YEARS: usize = 8;

// The weights of the year indices up to an event's, and 0 after it. Sums go over whole rows of a fixed length, so that a
// compiler can work out several products at once.
#[derive(Drop)]
pub(crate) struct YearWeights {
    by_index: [u32; YEAR_INDICES],
    index: u32,
    ghost small: { all_at_most most_year_weight by_index ≡ true },
}

impl YearWeights {
    ghost use Rattle.book.specs.Members.{rate_of, weight_to};
    ghost use Rattle.book.specs.Weights.{AreAsked, products};

    // Asks a sheet for the weight of each year index up to one.
    pub(crate) fn up_to<T: Tariff>(sheet: &T, index: u32) -> YearWeights
        requires index { index ≤ most_index }
        ensures asked { AreAsked (T.meaning sheet.now) result }
        ensures index { result.index ≡ index }
    {
        let mut by_index = [0; YEAR_INDICES];
        for year in 0..index + 1 {
            by_index[year as usize] = sheet.weight(year);
        }
        YearWeights { by_index, index }
    }

    // An operator's tranches by the weight of their years. Inlined, so that the weights stay in registers from one operator to
    // the next.
    #[inline(always)]
    pub(crate) fn of_tranches(&self, tranches: &[u32; YEAR_INDICES]) -> u32
        requires rate { rate_of tranches.now ≤ most_tranches }
        ensures value { (m : Meaning) → AreAsked m self.now →
            result ≡ weight_to m self.now.index tranches.now }
        ensures most { result ≤ most_weight }
    {
        if (self.index as usize) < FEW_YEARS {
            Self::products(&tranches[..FEW_YEARS], &self.by_index[..FEW_YEARS])
        } else {
            Self::products(tranches, &self.by_index)
        }
    }

    // Tranches times weights, place by place. Inlined, so that the number of places is known where it is called; a loop over
    // places, which the sum's bound is stated of.
    #[inline(always)]
    fn products(tranches: &[u32], weights: &[u32]) -> u32
        requires places { length tranches.now ≡ length weights.now }
        requires most { products tranches.now weights.now ≤ most_weight }
        ensures value { result ≡ products tranches.now weights.now }
    {
        let mut sum = 0;
        for year in 0..tranches.len() {
            sum += tranches[year] * weights[year];
        }
        sum
    }
}

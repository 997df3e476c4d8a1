//! How long commands took, in buckets.

ghost use Rattle.std.specs.Prelude.{◌≡◌, ◌≤◌, ◌<◌, IfOk};
ghost use Rattle.load.specs.Histograms.{bucket_at, HasOneMore, IsBucketOf, IsDeviationOf, high_of as spec_high_of, least_of, mean_of, no_numbers, percentile_of, rank_of as spec_rank_of};

use std::alloc::{AllocError, Global};
use std::marker::Model;

/// How many buckets there are: one for each number below 32, and then 16 for each power of two.
const BUCKETS: usize = 976;

/// How often numbers came, each in a bucket whose ends lie a sixteenth apart at most.
#[derive(Drop)]
pub struct Histogram {
    counts: Vec<u64>,
    many: u64,
    sum: u64,
    /// The sum of their squares.
    squares: u128,
    least: u64,
    most: u64,
}

impl Model for Histogram {
    ghost use Rattle.std.specs.Prelude.{◌≡◌, vec_len};
    ghost use Rattle.load.specs.Histograms.{Numbers};

    ghost Value = { Numbers };

    ghost view = { λ h. record { counts = h.counts.items; many = h.many; sum = h.sum; squares = h.squares; least = h.least; most = h.most } };

    ghost invariant = { λ h. vec_len h.counts ≡ 976 };
}

/// The bucket of a number.
fn bucket_of(value: u64) -> usize
    ensures bucket { IsBucketOf result value }
    ensures few { result < 976 }
{
    let mut shift = 0usize;
    let mut top = value;
    while top >= 32 {
        top /= 2;
        shift += 1;
    }
    16 * shift + top as usize
}

/// The last number of a bucket.
fn high_of(bucket: usize) -> u64
    requires { bucket < 976 }
    ensures { result ≡ spec_high_of bucket }
{
    if bucket < 32 {
        return bucket as u64;
    }
    let shift = bucket / 16 - 1;
    let past = 17 + bucket as u64 % 16;
    past.saturating_mul(1 << shift) - 1
}

/// Which number, in their order, has this many thousandths of them up to it.
fn rank_of(many: u64, permille: u64) -> u64
    requires { permille ≤ 1000 }
    ensures { result ≡ spec_rank_of many permille }
{
    many / 1000 * permille + (many % 1000 * permille + 999) / 1000
}

impl Histogram {
    /// No number.
    pub(crate) fn new(alloc: Global) -> Result<Histogram, AllocError>
        ensures { IfOk result (λ histogram. histogram ≡ no_numbers) }
    {
        Ok(Histogram {
            counts: vec![in alloc; 0; BUCKETS]?,
            many: 0,
            sum: 0,
            squares: 0,
            least: u64::MAX,
            most: 0,
        })
    }

    /// Counts a number.
    pub(crate) fn add(&mut self, value: u64)
        ensures { HasOneMore self.old value self.new }
    {
        let bucket = bucket_of(value);
        let counts = &mut self.counts;
        counts[bucket] = counts[bucket].saturating_add(1);
        self.many = self.many.saturating_add(1);
        self.sum = self.sum.saturating_add(value);
        let wide = u128::from(value);
        self.squares = self.squares.saturating_add(wide.saturating_mul(wide));
        self.least = self.least.min(value);
        self.most = self.most.max(value);
    }

    /// How many numbers there are.
    pub(crate) fn len(&self) -> u64
        ensures { result ≡ self.now.many }
    {
        self.many
    }

    /// The least number; 0 of none.
    pub(crate) fn least(&self) -> u64
        ensures { result ≡ least_of self.now }
    {
        if self.many == 0 { 0 } else { self.least }
    }

    /// The greatest number; 0 of none.
    pub(crate) fn most(&self) -> u64
        ensures { result ≡ self.now.most }
    {
        self.most
    }

    /// The mean; 0 of none.
    pub(crate) fn mean(&self) -> u64
        ensures { result ≡ mean_of self.now }
    {
        self.sum / self.many.max(1)
    }

    /// The standard deviation of a sample; 0 of fewer than two.
    pub(crate) fn deviation(&self) -> u64
        ensures { IsDeviationOf self.now result }
    {
        if self.many < 2 {
            return 0;
        }
        let sum = u128::from(self.sum);
        let many = u128::from(self.many);
        let apart = self.squares.saturating_sub(sum.saturating_mul(sum) / many);
        (apart / (many - 1)).isqrt() as u64
    }

    /// The bucket of the number of this rank, counted from 1 in the numbers' order; one more than the last where there are fewer.
    fn bucket_at(&self, rank: u64) -> usize
        ensures at { result ≡ bucket_at 0 self.now.counts rank }
        ensures few { result ≤ 976 }
    {
        let mut left = rank;
        for (bucket, count) in self.counts.iter().enumerate() {
            if left <= *count {
                return bucket;
            }
            left -= *count;
        }
        BUCKETS
    }

    /// The number up to which this many thousandths lie, to a sixteenth.
    pub(crate) fn percentile(&self, permille: u64) -> u64
        requires { permille ≤ 1000 }
        ensures { result ≡ percentile_of self.now permille }
    {
        let bucket = self.bucket_at(rank_of(self.many, permille));
        if bucket < BUCKETS {
            high_of(bucket).min(self.most)
        } else {
            self.most
        }
    }
}

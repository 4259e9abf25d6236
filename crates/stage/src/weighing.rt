// Counts weighed by the samples that read them, and sums over samples rounded once to counts.
ghost use Rattle.std.specs.Prelude.{◌≡◌, ◌+◌, ◌-◌, ◌*◌, ◌<◌, ◌≤◌};
ghost use Rattle.meaning.specs.Colours.{rounded};

// The samples that a position of a table is read with.
pub(crate) const SAMPLES: u32 = 65_535;

// Their pairs: each sample of the first of four channels with each sample of the other three.
pub(crate) const PAIRS: u32 = SAMPLES * SAMPLES;

// A sum over `D` samples as the nearest count, halves upward.
pub(crate) fn nearest<const D: u32>(sum: u64) -> u16
    requires some { 0 < D }
    requires counts { sum ≤ 65535 * D }
    ensures { result ≡ rounded sum D }
{
    let samples = u64::from(D);
    ((sum + samples / 2) / samples) as u16
}

// Two neighbours, counts or sums over all samples, of which `rest` samples read the later one.
pub(crate) fn blend(low: u32, high: u32, rest: u16) -> u64
    ensures { result ≡ (65535 - rest) * low + rest * high }
{
    let rest = u64::from(rest);
    (u64::from(SAMPLES) - rest) * u64::from(low) + rest * u64::from(high)
}

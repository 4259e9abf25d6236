// Tone curves: one table of counts for each channel, with the answer interpolated between entries.
ghost use Rattle.std.specs.Prelude.{◌≡◌, ◌-◌, ◌*◌, ◌<◌, ◌≤◌};
ghost use Rattle.meaning.proofs.CurveLaws.{curves_lawful};
ghost use Rattle.meaning.specs.Colours.{rounded};
ghost use Rattle.meaning.specs.Curves.{curves};
ghost use Rattle.stage.specs.Curves.{entries, table_length, curves_over, curves_with};
ghost use Rattle.stage.specs.Curves.{curve_entry, curve_samples, curve_step};
ghost use Rattle.stage.specs.Curves.{largest_step, largest_step_of};

use crate::entries::Entries;
use crate::folding::{colour_of, largest};
use crate::traits::{Colour, Stage};
use crate::weighing::{SAMPLES, blend, nearest};
use meaning::{Channels, Faithful, HALF_COUNT, table_steepness};

// How many entries each table of curves has: 2 to 4,096.
#[derive(Clone, Copy, PartialEq, Eq, Debug)]
pub struct TableLength(u16);

impl TableLength {
    // That many entries, or nothing where no table has so many.
    pub fn new(entries: u16) -> Option<TableLength>
        ensures { result ≡ table_length entries }
    {
        (2..=4096)
            .contains(&entries)
            .then_some(TableLength(entries))
    }

    pub fn entries(self) -> u16
        ensures { result ≡ entries self }
    {
        self.0
    }
}

impl Faithful for TableLength {
    ghost use Rattle.std.proofs.Common.{rules};

    ghost equal = { Prim.search rules };

    ghost copied = { Prim.search rules };
}

// Curves over 1, 3 or 4 channels. The tables of `length` entries lie one after the other; how many
// entries the source has stands nowhere.
#[derive(Clone, Copy)]
pub struct Curves<E> {
    channels: Channels,
    length: u16,
    pub table: E,
}

// The curve of one channel. It, `Row` and `Plane` are parts of a whole, but a generic part would
// have no methods to share.
#[derive(Drop)]
struct Curve<'a, E> {
    curves: &'a Curves<E>,
    channel: usize,
    ghost inside: { channel < 4 },
}

impl<E: Entries> Curves<E> {
    // Curves whose tables have 2 to 4,096 entries, or nothing.
    pub fn new(channels: Channels, length: u16, table: E) -> Option<Curves<E>>
    where
        E: Drop,
        ensures { result ≡ curves_over channels length table }
    {
        Some(Curves::over(channels, TableLength::new(length)?, table))
    }

    // Curves whose tables have that many entries.
    pub fn over(channels: Channels, length: TableLength, table: E) -> Curves<E>
        ensures { result ≡ curves_with channels (entries length) table }
    {
        Curves {
            channels,
            length: length.entries(),
            table,
        }
    }

    // Where the entries come from.
    pub fn table(&self) -> &E
        ensures { result.now ≡ self.now.table }
    {
        &self.table
    }

    fn curve(&self, channel: usize) -> Curve<'_, E>
        requires { channel < 4 }
        ensures curves { result.curves.now ≡ self.now }
        ensures channel { result.channel ≡ channel }
    {
        Curve {
            curves: self,
            channel,
        }
    }

    // The largest difference of neighbours in any channel's table.
    fn largest_step(&self) -> u32
        ensures { result ≡ largest_step E.Entries.counts self.now }
    {
        let channels = self.channels.number();
        largest(channels, |channel| self.curve(channel).largest_step())
    }
}

impl<E: Entries> Curve<'_, E> {
    // The entry at `index` of the table. Indices and positions are limited, here and below, so that
    // the entry and the one after it have a place.
    fn entry(&self, index: usize) -> u16
        requires { index ≤ 65536 }
        ensures { let curves = self.now.curves.now in
            result ≡ curve_entry E.Entries.counts curves self.now.channel index }
    {
        let start = self.channel * usize::from(self.curves.length);
        self.curves.table.entry(start + index)
    }

    // The samples of the table at a position, added up.
    fn samples(&self, position: u32) -> u64
        requires { position ≤ 65535 * 65535 }
        ensures value { let curves = self.now.curves.now in
            result ≡ curve_samples E.Entries.counts curves self.now.channel position }
        ensures limit { result ≤ 65535 * 65535 }
    {
        let index = (position / SAMPLES) as usize;
        let low = u32::from(self.entry(index));
        let high = u32::from(self.entry(index + 1));
        blend(low, high, (position % SAMPLES) as u16)
    }

    // The answer: the samples at the count's position, rounded once.
    fn value(&self, count: u16) -> u16
        ensures { let curves = self.now.curves.now in
            let position = count * (curves.length - 1) in
            let sum = curve_samples E.Entries.counts curves self.now.channel position in
            result ≡ rounded sum 65535 }
    {
        let steps = u32::from(self.curves.length.saturating_sub(1));
        nearest::<SAMPLES>(self.samples(u32::from(count) * steps))
    }

    // The difference of an entry and the next one.
    fn step(&self, index: usize) -> u32
        requires { index < 65536 }
        ensures { let curves = self.now.curves.now in
            result ≡ curve_step E.Entries.counts curves self.now.channel index }
    {
        u32::from(self.entry(index).abs_diff(self.entry(index + 1)))
    }

    // The largest difference of neighbours in the table.
    fn largest_step(&self) -> u32
        ensures { result ≡ largest_step_of E.Entries.counts self.now.curves.now self.now.channel }
    {
        let steps = usize::from(self.curves.length.saturating_sub(1));
        largest(steps, |index| self.step(index))
    }
}

impl<E: Entries> Stage for Curves<E> {
    ghost meaning = { λ s. curves s.channels s.length (E.Entries.counts s.table) };

    ghost lawful = { λ s. curves_lawful s.channels s.length (E.Entries.counts s.table) };

    fn ins(&self) -> Channels {
        self.channels
    }

    fn outs(&self) -> Channels {
        self.ins()
    }

    fn steepness(&self) -> u32 {
        table_steepness(self.length, self.largest_step())
    }

    fn error(&self) -> u32 {
        HALF_COUNT
    }

    fn answer(&self, colour: &Colour) -> Colour {
        colour_of(self.channels.number(), |k| self.curve(k).value(colour[k]))
    }
}

// What the calls of a converter are made of. Each part has a narrow promise of its own, which the checker settles by itself, so
// that a wrong line is refused here. The calls stand in converter.rt.
ghost use Rattle.std.specs.Prelude.{◌≡◌, ◌+◌, ◌^◌, ◌≤◌, ◌++◌, None, drop, length, take, nat_le, IfOk, IfSome, IsTrue};
ghost use Rattle.std.specs.Option.{option_map};
ghost use Rattle.meaning.specs.Colours.{number};
ghost use Rattle.meaning.specs.Links.{link};
ghost use Rattle.stage.specs.Lattices.{grid_with, points};
ghost use Rattle.link.specs.declared.refusal.Refusal.TheVariants.{TableLength};
ghost use Rattle.link.specs.declared.state.State.TheVariants.{Empty, Filling};
ghost use Rattle.link.specs.Calls.{numbers_of, begin_refusal, link_checks, link_grid_of, link_length, link_numbers, write_refusal, fill_refusal, next_node, stored_table, error_with, bytes_with};
ghost use Rattle.link.specs.Rows.{row_bound, row_pixels, row_refusal, shape_of};
ghost use Rattle.link.specs.Refusals.{answered, first_refusal, refused, unless};
ghost use Rattle.link.specs.Written.{written, written_length};
ghost use Rattle.link.specs.States.{decided, filled, filled_state, grid_points, link_grid, no_use, uses_link};

use crate::answers::Quote;
use crate::converter::Converter;
use crate::filling::store;
use crate::lent::LentLink;
use crate::pixel::Pixel;
use crate::refusal::Refusal;
use crate::rows::deliver;
use crate::state::{Event, Outcome, State, Stores};
use crate::writing::{write_element, written_length};
use meaning::link_error;
use stage::{Grid, Rated, Stage, lattice_entries};

// The grid of a link: 2 to 33 points.
pub(crate) fn grid_of_link(wanted: u32) -> Option<Grid>
    ensures value { result ≡ link_grid_of wanted }
    ensures some { IfSome result (λ grid. 2 ≤ points grid) }
{
    match u8::try_from(wanted) {
        Ok(wanted @ 2..=33) => Grid::new(wanted),
        _ => None,
    }
}

impl<S: Stage> Converter<S> {
    // A converter with no link.
    pub(crate) fn over(stage: Rated<S>) -> Converter<S>
        ensures { result ≡ record { stage = stage; state = Empty } }
    {
        Converter {
            stage,
            state: State::Empty,
        }
    }

    // Why a row is refused, if it is: the channels are tested first, then the lengths.
    pub(crate) fn pixels_refused<P: Pixel, Q: Pixel>(
        &self,
        entering: &[P],
        leaving: &[Q],
    ) -> Option<Refusal>
        ensures answer { let shape = shape_of P.Pixel.kind Q.Pixel.kind entering.now leaving.now in
            result ≡ row_refusal (S.Stage.meaning self.now.stage) shape }
        // a row that is not refused has the stage's channels
        ensures enters { let m = S.Stage.meaning self.now.stage in
            result ≡ None → m.ins ≡ P.Pixel.kind.channels }
        ensures leaves { let m = S.Stage.meaning self.now.stage in
            result ≡ None → m.outs ≡ Q.Pixel.kind.channels }
    {
        if self.stage.ins() != P::channels() || self.stage.outs() != Q::channels() {
            Some(Refusal::PixelChannels)
        } else if entering.len() != leaving.len() {
            Some(Refusal::RowLengths)
        } else {
            None
        }
    }

    // What an event comes to in the state that there is.
    pub(crate) fn decide(&self, event: Event) -> Result<Outcome, Refusal>
        ensures { result ≡ decided (S.Stage.meaning self.now.stage).ins self.now.state event }
    {
        self.state.decide(self.stage.ins(), event)
    }

    // How many numbers a link with so many grid points has.
    pub(crate) fn numbers_of(&self, points: u8) -> usize
        ensures value { result ≡ numbers_of (S.Stage.meaning self.now.stage) points }
        ensures limit { result ≤ 2 ^ 34 }
    {
        lattice_entries(self.stage.ins(), self.stage.outs(), points)
    }

    // Whether a table of so many numbers holds a link with that grid.
    fn check_table(&self, grid: Grid, numbers: usize) -> Result<(), Refusal>
        ensures { let m = S.Stage.meaning self.now.stage in
            let held = nat_le (numbers_of m (points grid)) numbers in
            result ≡ answered (unless held TableLength) tt }
    {
        if self.numbers_of(grid.points()) <= numbers {
            Ok(())
        } else {
            Err(Refusal::TableLength)
        }
    }

    // The state after a begin, over a table of so many numbers.
    pub(crate) fn begun(&self, grid: u32, numbers: usize) -> Result<State, Refusal>
        ensures state { let m = S.Stage.meaning self.now.stage in
            result ≡ answered (begin_refusal m grid numbers) (Filling (grid_with grid) 0) }
        ensures some { IfOk result (λ _. 2 ≤ grid) }
    {
        let grid = grid_of_link(grid).ok_or(Refusal::GridPoints)?;
        self.check_table(grid, numbers)?;
        let outcome = self.decide(Event::Begin { grid })?;
        Ok(outcome.state)
    }

    // What a fill stores over a table of so many numbers, and the state after it.
    pub(crate) fn fill_of(&self, budget: usize, numbers: usize) -> Result<(State, Stores), Refusal>
        ensures refused { let m = S.Stage.meaning self.now.stage in
            refused result ≡ fill_refusal m self.now.state budget numbers }
        ensures state { let m = S.Stage.meaning self.now.stage in
            IfOk result (λ fill. fill.0 ≡ filled_state m.ins self.now.state budget) }
        ensures filled { let m = S.Stage.meaning self.now.stage in
            IfOk result (λ fill. fill.1.filled ≡ filled m.ins self.now.state budget) }
        ensures grid { IfOk result (λ fill. points fill.1.grid ≡ grid_points self.now.state) }
        ensures first { let m = S.Stage.meaning self.now.stage in
            IfOk result (λ fill. fill.1.first ≡ next_node m self.now.state) }
    {
        let outcome = self.decide(Event::Fill { budget })?;
        let stores = outcome.stores.unwrap();
        self.check_table(stores.grid, numbers)?;
        Ok((outcome.state, stores))
    }

    // Stores the stage's answers at some nodes, in the part of the table that holds just them.
    pub(crate) fn store(&self, stores: &Stores, table: &mut [u16])
        requires some { 2 ≤ points stores.now.grid }
        requires inside { let m = S.Stage.meaning self.now.stage in
            stores.now.first + stores.now.filled.stored ≤ points stores.now.grid ^ number m.ins }
        requires room { let m = S.Stage.meaning self.now.stage in
            numbers_of m (points stores.now.grid) ≤ length table.old }
        ensures { let m = S.Stage.meaning self.now.stage in
            let grid = points stores.now.grid in
            table.new ≡ stored_table m grid stores.now.first stores.now.filled.stored table.old }
    {
        let outs = self.stage.outs().number();
        let (first, count) = (stores.first, stores.filled.stored);
        let part = &mut table[first * outs..(first + count) * outs];
        store(&self.stage, stores.grid, first, count, part);
    }

    // The grid of the full link, for an event that uses it.
    fn full_grid(&self, event: Event) -> Result<Grid, Refusal>
        requires { IsTrue (uses_link event) }
        ensures refused { refused result ≡ no_use self.now.state }
        ensures grid { IfOk result (λ grid. points grid ≡ grid_points self.now.state) }
        ensures some { IfOk result (λ grid. 2 ≤ points grid) }
    {
        let outcome = self.state.decide(self.stage.ins(), event)?;
        Ok(outcome.link.unwrap())
    }

    // The full link as a table holds it, for an event that uses it.
    pub(crate) fn lent<'t>(&self, event: Event, table: &'t [u16]) -> Result<LentLink<'t>, Refusal>
        requires { IsTrue (uses_link event) }
        ensures refused { let m = S.Stage.meaning self.now.stage in
            refused result ≡ first_refusal (link_checks m self.now.state event (length table.now)) }
        ensures grid { IfOk result (λ link. points link.grid ≡ grid_points self.now.state) }
        ensures some { IfOk result (λ link. 2 ≤ points link.grid) }
        ensures limit { IfOk result (λ link. length link.nodes.now ≤ 2 ^ 34) }
        ensures long { let m = S.Stage.meaning self.now.stage in
            IfOk result (λ link. length link.nodes.now ≡ link_numbers m self.now.state) }
        ensures nodes { let m = S.Stage.meaning self.now.stage in
            IfOk result (λ link. link.nodes.now ≡ take (link_numbers m self.now.state) table.now) }
    {
        let grid = self.full_grid(event)?;
        self.check_table(grid, table.len())?;
        Ok(LentLink {
            grid,
            nodes: &table[..self.numbers_of(grid.points())],
        })
    }

    // The error bound of a link with that grid.
    pub(crate) fn error_with(&self, grid: Grid) -> u32
        ensures { result ≡ error_with (S.Stage.meaning self.now.stage) grid }
    {
        link_error(self.stage.error(), self.stage.steepness(), grid.points())
    }

    // A row through the stage.
    pub(crate) fn deliver_directly<P: Pixel, Q: Pixel>(
        &self,
        entering: &[P],
        leaving: &mut [Q],
    ) -> u32
        requires { length entering.now ≡ length leaving.old }
        ensures bound { result ≡ row_bound (S.Stage.meaning self.now.stage) Q.Pixel.kind.error }
        ensures leaving { let m = S.Stage.meaning self.now.stage in
            leaving.new ≡ row_pixels m P.Pixel.kind Q.Pixel.kind entering.now }
    {
        deliver(&self.stage, self.stage.error(), entering, leaving)
    }

    // A row through the lattice of a link.
    pub(crate) fn deliver_through<P: Pixel, Q: Pixel>(
        &self,
        lent: LentLink<'_>,
        entering: &[P],
        leaving: &mut [Q],
    ) -> u32
        requires enters { (S.Stage.meaning self.now.stage).ins ≡ P.Pixel.kind.channels }
        requires leaves { (S.Stage.meaning self.now.stage).outs ≡ Q.Pixel.kind.channels }
        requires lengths { length entering.now ≡ length leaving.old }
        ensures bound { let m = S.Stage.meaning self.now.stage in
            let linked = link m (points lent.entry.grid) lent.entry.nodes.now in
            result ≡ row_bound linked Q.Pixel.kind.error }
        ensures leaving { let m = S.Stage.meaning self.now.stage in
            let linked = link m (points lent.entry.grid) lent.entry.nodes.now in
            leaving.new ≡ row_pixels linked P.Pixel.kind Q.Pixel.kind entering.now }
    {
        deliver(
            &lent.for_row::<P, Q>(),
            self.error_with(lent.grid),
            entering,
            leaving,
        )
    }

    // How many bytes a link with that grid has when it is written.
    pub(crate) fn bytes_with(&self, grid: Grid) -> usize
        ensures { result ≡ bytes_with (S.Stage.meaning self.now.stage) grid }
    {
        let numbers = self.numbers_of(grid.points());
        written_length(self.stage.ins(), self.stage.outs(), numbers)
    }

    // The error bounds in the state that there is.
    pub(crate) fn bounds(&self) -> Quote
        ensures stage { result.stage ≡ (S.Stage.meaning self.now.stage).error }
        ensures link { let m = S.Stage.meaning self.now.stage in
            result.link ≡ option_map (error_with m) (link_grid self.now.state) }
    {
        let outcome = self.decide(Event::Quote).unwrap();
        Quote {
            stage: self.stage.error(),
            link: outcome.link.map(|grid| self.error_with(grid)),
        }
    }

    // The full link as a table holds it, with its length as an element, if so many bytes have room for it.
    pub(crate) fn to_write<'t>(
        &self,
        table: &'t [u16],
        room: usize,
    ) -> Result<(LentLink<'t>, usize), Refusal>
        ensures refused { let m = S.Stage.meaning self.now.stage in
            refused result ≡ write_refusal m self.now.state (length table.now) room }
        ensures length { let m = S.Stage.meaning self.now.stage in
            IfOk result (λ link. link.1 ≡ link_length m self.now.state) }
        ensures grid { IfOk result (λ link. points link.0.grid ≡ grid_points self.now.state) }
        ensures some { IfOk result (λ link. 2 ≤ points link.0.grid) }
        ensures long { let m = S.Stage.meaning self.now.stage in
            IfOk result (λ link. length link.0.nodes.now ≡ link_numbers m self.now.state) }
        ensures nodes { let m = S.Stage.meaning self.now.stage in
            let nodes = take (link_numbers m self.now.state) table.now in
            IfOk result (λ link. link.0.nodes.now ≡ nodes) }
    {
        let link = self.lent(Event::Write, table)?;
        let length = self.bytes_with(link.grid);
        if length > room {
            return Err(Refusal::OutputLength);
        }
        Ok((link, length))
    }

    // Writes a link over the first bytes of an output.
    pub(crate) fn put(&self, link: LentLink<'_>, output: &mut [u8])
        requires { let m = S.Stage.meaning self.now.stage in
            written_length m.ins m.outs (length link.nodes.now) ≤ length output.old }
        ensures { let m = S.Stage.meaning self.now.stage in
            let element = written m.ins m.outs (points link.entry.grid) link.entry.nodes.now in
            let long = written_length m.ins m.outs (length link.entry.nodes.now) in
            output.new ≡ element ++ drop long output.old }
    {
        let (ins, outs) = (self.stage.ins(), self.stage.outs());
        write_element(ins, outs, link.grid.points(), link.nodes, output);
    }

    // The state after a drop.
    pub(crate) fn dropped(&self) -> State
        ensures { result ≡ Empty }
    {
        self.state
            .decide(self.stage.ins(), Event::Drop)
            .unwrap()
            .state
    }
}

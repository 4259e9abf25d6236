// The converter: a stage, and a link of it that is filled between rows. The table of the link's nodes is lent with each call
// that looks at it, and no other call touches it.
//
// A call that can be refused promises in `answer` why it is refused, in which order, and what it answers where it is accepted.
// `left (refused result) old new` is what it leaves: the old value where it is refused, the new one where it is accepted.
// `Accepted result P` says P of the value of an accepted call, and nothing of a refused one. What a call is refused for,
// answers and leaves is defined in specs/Calls, specs/Rows and specs/States. Errors and bounds are in grains, 1/65,536 of a
// count.
//
// The seven calls begin, fill, row, link row, quote, write and drop also promise in `run` how they go on with a run (specs/Runs):
// a run is a list of these calls from a new converter on, over one table that nothing else writes. The clause `promise` of
// `link_row` says of all runs together what holds after them. (`read_back` is a write that is read; the other calls only look.)
ghost use Rattle.std.specs.Prelude.{◌≡◌, List, ℕ, None, length, take};
ghost use Rattle.stage.specs.Lattices.{grid_with};
ghost use Rattle.link.specs.declared.state.State.TheVariants.{Empty, Filling};
ghost use Rattle.link.specs.Calls.{begin_refusal, element_length, fill_refusal, filled_table, link_length, link_numbers, link_row_answer, quoted, table_length, table_link, write_refusal, written_output};
ghost use Rattle.link.specs.ReadBack.{ReadsBack};
ghost use Rattle.link.specs.Refusals.{answered, left, refused, Accepted};
ghost use Rattle.link.specs.Rows.{row_answer, row_pixels, shape_of, Delivers};
ghost use Rattle.link.specs.Runs.{begin, fill, row, link_row, quote, write, drop_link, AfterRuns, Continues, EveryRunUpholds, LinkAsLogged, Log, Reached, Starts};
ghost use Rattle.link.specs.States.{filled, filled_state, grid_points};

use crate::answers::{Filled, Quote};
use crate::parts::grid_of_link;
use crate::pixel::Pixel;
use crate::refusal::Refusal;
use crate::state::{Event, State};
use stage::{Colour, Rated, Stage};
use std::marker::Model;

// A stage, whose figures are worked out once, and where its link stands.
#[derive(Drop)]
pub struct Converter<S: Stage> {
    pub(crate) stage: Rated<S>,
    pub(crate) state: State,
}

// Clauses see the stage and the state. A link has 2 grid points or more, and one that is filling has a next node.
impl<S: Stage> Model for Converter<S> {
    ghost use Rattle.link.specs.Converters.{Seen};
    ghost use Rattle.link.specs.States.{IsSound};

    ghost Value = { Seen S };

    ghost view = { λ c. record { stage = c.stage; state = c.state } };

    ghost invariant = { λ c. IsSound (S.Stage.meaning c.stage).ins c.state };
}

impl<S: Stage> Converter<S> {
    // A converter over a stage, with no link. Over any table, a run of no calls starts with it, and any calls can follow.
    pub fn new(stage: S) -> Converter<S>
        ensures stage { result.stage ≡ stage }
        ensures state { result.state ≡ Empty }
        ensures starts { Starts (S.Stage.meaning stage) result.state }
    {
        Converter::over(Rated::new(stage))
    }

    // The stage, which keeps its steepness and its error.
    pub fn stage(&self) -> &Rated<S>
        ensures { result.now ≡ self.now.stage }
    {
        &self.stage
    }

    // Where the link stands. After any run it is full exactly where the log of the run says so, and then the table that the run
    // left holds the stage's answers at its nodes.
    pub fn state(&self) -> State
        ensures answer { result ≡ self.now.state }
        ensures law { let m = S.Stage.meaning self.now.stage in
            (t₀ table : List ℕ) (log : Log) → Reached m t₀ log self.now.state table →
            LinkAsLogged m log self.now.state table }
    {
        let Converter { state, .. } = self;
        *state
    }

    // How many numbers a table has to have for a link with so many grid points, if there can be such a link.
    pub fn table_length(&self, grid: u32) -> Option<usize>
        ensures { result ≡ table_length (S.Stage.meaning self.now.stage) grid }
    {
        let grid = grid_of_link(grid)?;
        Some(self.numbers_of(grid.points()))
    }

    // Begins a link, in place of any that there is. The table is to hold its nodes, and is not written. Refused for fewer than
    // 2 or more than 33 grid points, then for a table shorter than `table_length`. Every run that led here goes on by this call,
    // accepted or refused, and then the link is full exactly where the run's log says so.
    pub fn begin(&mut self, table: &[u16], grid: u32) -> Result<(), Refusal>
        ensures answer { let m = S.Stage.meaning self.old.stage in
            result ≡ answered (begin_refusal m grid (length table.now)) tt }
        ensures state { let begun = Filling (grid_with grid) 0 in
            self.new.state ≡ left (refused result) self.old.state begun }
        ensures stage { self.new.stage ≡ self.old.stage }
        // every run goes on by: the call, why it was refused, state and table before it, state and table after it
        ensures run { let m = S.Stage.meaning self.old.stage in
            Continues m (begin grid) (refused result)
            self.old.state table.now self.new.state table.now }
    {
        self.state = self.begun(grid, table.len())?;
        Ok(())
    }

    // Stores the stage's answers at the next nodes, as many as the budget allows or as are missing, and writes nothing else.
    // Returns how many it stored and how many are missing still; the last one makes the link full. A budget of 0 stores none.
    // Refused without a link, for a full one, then for a table shorter than the link. Every run that led here goes on by this
    // call, accepted or refused, and then the link is full exactly where the budgets of the accepted fills since the last
    // accepted begin, with no drop after it, reach the number of its nodes.
    pub fn fill(&mut self, table: &mut [u16], budget: usize) -> Result<Filled, Refusal>
        ensures answer { let m = S.Stage.meaning self.old.stage in
            let refusal = fill_refusal m self.old.state budget (length table.old) in
            result ≡ answered refusal (filled m.ins self.old.state budget) }
        ensures state { let m = S.Stage.meaning self.old.stage in
            let after = filled_state m.ins self.old.state budget in
            self.new.state ≡ left (refused result) self.old.state after }
        ensures table { let m = S.Stage.meaning self.old.stage in
            let after = filled_table m self.old.state budget table.old in
            table.new ≡ left (refused result) table.old after }
        ensures stage { self.new.stage ≡ self.old.stage }
        // every run goes on by: the call, why it was refused, state and table before it, state and table after it
        ensures run { let m = S.Stage.meaning self.old.stage in
            Continues m (fill budget) (refused result)
            self.old.state table.old self.new.state table.new }
    {
        let (after, stores) = self.fill_of(budget, table.len())?;
        self.store(&stores, table);
        self.state = after;
        Ok(stores.filled)
    }

    // Sends a row through the stage, each pixel that enters to its place of the leaving row. Returns the bound: no channel that
    // an accepted row delivers is further from the stage's exact value. Refused for other channels than the stage's, then for
    // rows of two lengths. So it is after every run too, over any table; the run goes on by this call, accepted or refused, and
    // link and table stay as they are.
    pub fn row<P: Pixel, Q: Pixel>(&self, entering: &[P], leaving: &mut [Q]) -> Result<u32, Refusal>
        ensures answer { let m = S.Stage.meaning self.now.stage in
            result ≡ row_answer m P.Pixel.kind Q.Pixel.kind entering.now leaving.old }
        ensures leaving { let m = S.Stage.meaning self.now.stage in
            let pixels = row_pixels m P.Pixel.kind Q.Pixel.kind entering.now in
            leaving.new ≡ left (refused result) leaving.old pixels }
        // if it is accepted, no channel that leaves is further than the bound from the stage's exact value
        ensures within { let m = S.Stage.meaning self.now.stage in
            Accepted result (Delivers m P.Pixel.kind Q.Pixel.kind entering.now leaving.new) }
        // the same after every run that led here, over any table, and the link is full exactly where the log says so
        ensures law { let m = S.Stage.meaning self.now.stage in
            (table : List ℕ) → AfterRuns m self.now.state table
            (Accepted result (Delivers m P.Pixel.kind Q.Pixel.kind entering.now leaving.new)) }
        // every run goes on by: the call, why it was refused, state and table before it, state and table after it
        ensures run { let m = S.Stage.meaning self.now.stage in
            let shape = shape_of P.Pixel.kind Q.Pixel.kind entering.now leaving.old in
            (table : List ℕ) → Continues m (row shape) (refused result)
            self.now.state table self.now.state table }
    {
        if let Some(refusal) = self.pixels_refused(entering, leaving) {
            return Err(refusal);
        }
        self.decide(Event::Row)?;
        Ok(self.deliver_directly(entering, leaving))
    }

    // Sends a row through the full link. Refused as a row is, then without a link, for one that is filling, then for a table
    // shorter than the link. Returns a bound. Where a run led here and the table is the one that it left, no channel that an
    // accepted link row delivers is further from the exact value of the stage itself; over any other table, nothing is promised
    // of that bound. The run goes on by this call, accepted or refused, and link and table stay as
    // they are. The clause `promise` says of all runs together when the link is full, and what the rows and link rows that
    // come next deliver.
    pub fn link_row<P: Pixel, Q: Pixel>(
        &self,
        table: &[u16],
        entering: &[P],
        leaving: &mut [Q],
    ) -> Result<u32, Refusal>
        ensures answer { let m = S.Stage.meaning self.now.stage in
            result ≡ link_row_answer m self.now.state table.now P.Pixel.kind Q.Pixel.kind
            entering.now leaving.old }
        ensures leaving { let m = S.Stage.meaning self.now.stage in
            let linked = table_link m self.now.state table.now in
            let pixels = row_pixels linked P.Pixel.kind Q.Pixel.kind entering.now in
            leaving.new ≡ left (refused result) leaving.old pixels }
        // after every run that led here: if it is accepted, no channel that leaves is further than the bound from the
        // stage's exact value; and the link is full exactly where the log says so
        ensures law { let m = S.Stage.meaning self.now.stage in
            AfterRuns m self.now.state table.now
            (Accepted result (Delivers m P.Pixel.kind Q.Pixel.kind entering.now leaving.new)) }
        // every run goes on by: the call, why it was refused, state and table before it, state and table after it
        ensures run { let m = S.Stage.meaning self.now.stage in
            let shape = shape_of P.Pixel.kind Q.Pixel.kind entering.now leaving.old in
            Continues m (link_row shape) (refused result)
            self.now.state table.now self.now.state table.now }
        // of every run, over every table, and of any two rows of these kinds that enter and leave next: the link is full
        // exactly where the log says so, and then holds the stage's answers; and what a row and a link row answer and leave
        // next (as `answer` and `leaving` of these two calls say) delivers, if it is accepted, every channel within the bound
        // answered of the stage's exact value
        ensures promise { let m = S.Stage.meaning self.now.stage in
            EveryRunUpholds m P.Pixel.kind Q.Pixel.kind }
    {
        if let Some(refusal) = self.pixels_refused(entering, leaving) {
            return Err(refusal);
        }
        let link = self.lent(Event::LinkRow, table)?;
        Ok(self.deliver_through(link, entering, leaving))
    }

    // The errors of the stage, and of the link if one is filling or full; with the leaving kind's added, they are the bounds of
    // rows and link rows. Never refused. Every run that led here goes on by this call, and link and table stay as they are.
    pub fn quote(&self) -> Quote
        ensures answer { result ≡ quoted (S.Stage.meaning self.now.stage) self.now.state }
        // every run goes on by: the call, why it was refused, state and table before it, state and table after it
        ensures run { let m = S.Stage.meaning self.now.stage in
            (table : List ℕ) → Continues m quote None self.now.state table self.now.state table }
    {
        self.bounds()
    }

    // How many bytes the link has when it is written, if there is one.
    pub fn element_length(&self) -> Option<usize>
        ensures { result ≡ element_length (S.Stage.meaning self.now.stage) self.now.state }
    {
        let grid = self.state.grid()?;
        Some(self.bytes_with(grid))
    }

    // Writes the full link as a lut16 element at the front of the output, and returns how many bytes it has. Refused without
    // a link, for one that is filling, for a table shorter than the link, then for an output shorter than `element_length`. The
    // bytes after the element stay. Every run that led here goes on by this call, accepted or refused, and link and table stay as
    // they are.
    pub fn write(&self, table: &[u16], output: &mut [u8]) -> Result<usize, Refusal>
        ensures answer { let m = S.Stage.meaning self.now.stage in
            let s = self.now.state in
            let refusal = write_refusal m s (length table.now) (length output.old) in
            result ≡ answered refusal (link_length m s) }
        ensures output { let m = S.Stage.meaning self.now.stage in
            let after = written_output m self.now.state table.now output.old in
            output.new ≡ left (refused result) output.old after }
        // what is written opens as a lut16 element again, with the link's grid and nodes, which answers every colour as the
        // link does
        ensures back { let m = S.Stage.meaning self.now.stage in
            let nodes = take (link_numbers m self.now.state) table.now in
            Accepted result (λ long.
            ReadsBack m.ins m.outs (grid_points self.now.state) nodes (take long output.new)) }
        // every run goes on by: the call, why it was refused, state and table before it, state and table after it
        ensures run { let m = S.Stage.meaning self.now.stage in
            Continues m (write (length output.old)) (refused result)
            self.now.state table.now self.now.state table.now }
    {
        let (link, length) = self.to_write(table, output.len())?;
        self.put(link, output);
        Ok(length)
    }

    // Writes the full link, opens what was written as an element, and returns what that element answers to a colour: exactly
    // what the link answers, whatever stands beyond its in-channels. Refused as a write is, and leaves the output as one.
    pub fn read_back(
        &self,
        table: &[u16],
        output: &mut [u8],
        colour: &Colour,
    ) -> Result<Colour, Refusal>
        ensures answer { let m = S.Stage.meaning self.now.stage in
            let s = self.now.state in
            let refusal = write_refusal m s (length table.now) (length output.old) in
            result ≡ answered refusal ((table_link m s table.now).answer colour.now) }
        ensures output { let m = S.Stage.meaning self.now.stage in
            let after = written_output m self.now.state table.now output.old in
            output.new ≡ left (refused result) output.old after }
    {
        let length = self.write(table, output)?;
        Ok(self.answer_of(&output[..length], colour).unwrap())
    }

    // Drops the link, if there is one. Never refused. Every run that led here goes on by this call, over whatever table, and
    // then no link is full until one is begun and filled again.
    pub fn drop_link(&mut self)
        ensures state { self.new.state ≡ Empty }
        ensures stage { self.new.stage ≡ self.old.stage }
        // every run goes on by: the call, why it was refused, state and table before it, state and table after it
        ensures run { let m = S.Stage.meaning self.old.stage in
            (table : List ℕ) → Continues m drop_link None
            self.old.state table self.new.state table }
    {
        self.state = self.dropped();
    }
}
